//! The teller that writes lines of a report in a form, each by itself.

ghost use Rattle.std.specs.Prelude.{◌≡◌, ◌++◌, OnOk};
ghost use Rattle.report_forms.specs.Shown.{form_text, shown_text};

use due_model::config::Config;
use line_forms::{Picks, ReportLine, push_json, push_plain};
use report_telling::Teller;
use std::alloc::{AllocError, Global};
use zone_times::clock::ZoneClock;

/// How a line of a report is written.
#[derive(Clone, Copy, Debug, PartialEq, Eq)]
pub enum LineForm {
    /// As `replay` writes it.
    Plain,
    /// As an object of JSON.
    Json,
}

/// Writes the lines that are wanted, in a form.
#[derive(Clone, Copy, Debug, Drop)]
pub struct ShownLines<'a> {
    /// Where a line's texts are made.
    pub alloc: Global,
    /// Which lines are wanted.
    pub picks: Picks<'a>,
    /// How they are written.
    pub form: LineForm,
}

impl Teller for ShownLines<'_> {
    ghost use Rattle.std.specs.Prelude.{[]};
    ghost use Rattle.report_forms.specs.Shown.{shown_text};

    ghost told = { λ shown config zone line. shown_text shown config zone line };

    ghost after = { λ shown _ _ _. shown };

    ghost ended = { λ _ _ _. [] };

    fn tell(
        &mut self,
        config: &Config,
        clock: &ZoneClock<'_>,
        line: &ReportLine,
        text: &mut Vec<u8>,
    ) -> Result<(), AllocError> {
        if !self.picks.is_picked(self.alloc, config, line)? {
            return Ok(());
        }
        push_form(self.alloc, self.form, config, clock, line, text)
    }

    fn end(
        &mut self,
        _config: &Config,
        _clock: &ZoneClock<'_>,
        _text: &mut Vec<u8>,
    ) -> Result<(), AllocError> {
        Ok(())
    }
}

/// Adds a line in a form.
fn push_form(
    alloc: Global,
    form: LineForm,
    config: &Config,
    clock: &ZoneClock<'_>,
    line: &ReportLine,
    text: &mut Vec<u8>,
) -> Result<(), AllocError>
    ensures { OnOk result
        (text.new.items ≡ text.old.items ++ form_text form config.now clock.now line.now) }
{
    match form {
        LineForm::Plain => push_plain(text, config, line),
        LineForm::Json => push_json(alloc, text, config, clock, line),
    }
}
