//! The teller that writes a row for each notice.

ghost use Rattle.std.specs.Prelude.{◌≡◌, ◌++◌, false, IfOk, OnOk};
ghost use Rattle.who_told.specs.Rows.{form_row, has_row, look_of, nobody_row, notice_row, plain_row, row_text, when_text, whom_text};

use due_model::config::Config;
use due_model::notice::Notice;
use line_forms::{ReportLine, push_json, push_plain};
use local_text::push_local;
use messages::entries::Entry;
use notice_text::texts::{contact_name, lane_name, push_notice_number, push_object};
use pretty_lines::{Look, Widths, push_line, widths_in};
use report_telling::Teller;
use std::alloc::{AllocError, Global};
use who_missed::{RowForm, is_json};
use zone_times::clock::ZoneClock;

/// Writes a row for each notice, and what is refused of the feed; that nobody is told, where there is no row.
#[derive(Clone, Copy, Drop)]
pub struct Rows {
    alloc: Global,
    form: RowForm,
    /// How rows for people look.
    look: Look,
    /// Whether there was a row.
    has_rows: bool,
}

/// How rows for people look in a form, by a configuration. A refused growth is the only error.
fn look_of(alloc: Global, config: &Config, form: RowForm) -> Result<Look, AllocError>
    ensures { IfOk result (λ look. look ≡ look_of form config.now) }
{
    match form {
        RowForm::Pretty(coloured) => {
            let widths = widths_in(alloc, config, None)?;
            Ok(Look { widths, coloured })
        }
        _ => {
            let widths = Widths {
                object: 0,
                contact: 0,
            };
            Ok(Look {
                widths,
                coloured: false,
            })
        }
    }
}

impl Rows {
    /// One that was told no line yet. A refused growth is the only error.
    pub(crate) fn new(alloc: Global, config: &Config, form: RowForm) -> Result<Rows, AllocError>
        ensures form { IfOk result (λ rows. rows.form ≡ form) }
        ensures look { IfOk result (λ rows. rows.look ≡ look_of form config.now) }
        ensures none { IfOk result (λ rows. rows.has_rows ≡ false) }
    {
        let look = look_of(alloc, config, form)?;
        Ok(Rows {
            alloc,
            form,
            look,
            has_rows: false,
        })
    }
}

impl Teller for Rows {
    ghost use Rattle.std.specs.Prelude.{◌||◌};
    ghost use Rattle.who_told.specs.Rows.{has_row, nobody_text, row_text};

    ghost told = { λ rows config zone line. row_text rows.form rows.look config zone line };

    ghost after = { λ rows _ _ line. record rows { has_rows = rows.has_rows || has_row line } };

    ghost ended = { λ rows _ _. nobody_text rows.form rows.has_rows };

    fn tell(
        &mut self,
        config: &Config,
        clock: &ZoneClock<'_>,
        line: &ReportLine,
        text: &mut Vec<u8>,
    ) -> Result<(), AllocError> {
        self.has_rows = self.has_rows || has_row(line);
        push_row(self.alloc, text, config, clock, self.form, self.look, line)
    }

    fn end(
        &mut self,
        _config: &Config,
        _clock: &ZoneClock<'_>,
        text: &mut Vec<u8>,
    ) -> Result<(), AllocError> {
        if self.has_rows {
            return Ok(());
        }
        push_nobody(text, self.form)
    }
}

/// Adds that nobody is told; as JSON nothing.
fn push_nobody(text: &mut Vec<u8>, form: RowForm) -> Result<(), AllocError>
    ensures { OnOk result (text.new.items ≡ text.old.items ++ nobody_row form) }
{
    if is_json(form) {
        return Ok(());
    }
    text.extend_from_slice(b"nobody is told\n")
}

/// Whether a line of the report has a row.
fn has_row(line: &ReportLine) -> bool
    ensures { result ≡ has_row line.now }
{
    !matches!(line, ReportLine::Decided(Entry::Withheld(_)))
}

/// Adds what is written of a line of the report.
fn push_row(
    alloc: Global,
    text: &mut Vec<u8>,
    config: &Config,
    clock: &ZoneClock<'_>,
    form: RowForm,
    look: Look,
    line: &ReportLine,
) -> Result<(), AllocError>
    ensures { OnOk result
        (text.new.items ≡ text.old.items ++ row_text form look config.now clock.now line.now) }
{
    if has_row(line) {
        push_form_row(alloc, text, config, clock, form, look, line)
    } else {
        Ok(())
    }
}

/// Adds the row of a line in a form.
fn push_form_row(
    alloc: Global,
    text: &mut Vec<u8>,
    config: &Config,
    clock: &ZoneClock<'_>,
    form: RowForm,
    look: Look,
    line: &ReportLine,
) -> Result<(), AllocError>
    ensures { OnOk result
        (text.new.items ≡ text.old.items ++ form_row form look config.now clock.now line.now) }
{
    match form {
        RowForm::Plain => push_plain_row(text, config, clock, line),
        RowForm::Pretty(_) => push_line(alloc, text, config, clock, look, line),
        RowForm::Json => push_json(alloc, text, config, clock, line),
    }
}

/// Adds the row of a line as text.
fn push_plain_row(
    text: &mut Vec<u8>,
    config: &Config,
    clock: &ZoneClock<'_>,
    line: &ReportLine,
) -> Result<(), AllocError>
    ensures { OnOk result
        (text.new.items ≡ text.old.items ++ plain_row config.now clock.now line.now) }
{
    match line {
        ReportLine::Decided(Entry::Sent(notice)) => push_notice_row(text, config, clock, notice),
        ReportLine::Decided(Entry::Withheld(_)) => Ok(()),
        ReportLine::Refused(_) => push_plain(text, config, line),
    }
}

/// Adds when a notice is told, and its number.
#[tactic(auto, unfolding(crate::specs::Rows::when_text))]
fn push_when(text: &mut Vec<u8>, clock: &ZoneClock<'_>, notice: &Notice) -> Result<(), AllocError>
    ensures { OnOk result (text.new.items ≡ text.old.items ++ when_text clock.now notice.now) }
{
    push_local(text, clock, notice.moment)?;
    text.extend_from_slice(b"  ")?;
    push_notice_number(text, notice.number)?;
    text.extend_from_slice(b"  ")
}

/// Adds whom a notice tells, and by what.
#[tactic(auto, unfolding(crate::specs::Rows::whom_text))]
fn push_whom(text: &mut Vec<u8>, config: &Config, notice: &Notice) -> Result<(), AllocError>
    ensures { OnOk result (text.new.items ≡ text.old.items ++ whom_text config.now notice.now) }
{
    text.extend_from_slice(contact_name(config, notice.contact))?;
    text.extend_from_slice(b"  ")?;
    text.extend_from_slice(lane_name(config, notice.lane))?;
    text.extend_from_slice(b"  ")
}

/// Adds the row of a notice.
#[tactic(auto, unfolding(crate::specs::Rows::notice_row))]
fn push_notice_row(
    text: &mut Vec<u8>,
    config: &Config,
    clock: &ZoneClock<'_>,
    notice: &Notice,
) -> Result<(), AllocError>
    ensures { OnOk result
        (text.new.items ≡ text.old.items ++ notice_row config.now clock.now notice.now) }
{
    push_when(text, clock, notice)?;
    push_whom(text, config, notice)?;
    push_object(text, config, notice.object)?;
    text.extend_from_slice(b"\n")
}
