//! Who isn't told of an object though the configuration names them, as rows.

ghost use Rattle.std.specs.Prelude.{◌≡◌, ◌≤◌, ◌++◌, OnOk};
ghost use Rattle.std.specs.Option.{option_copied};
ghost use Rattle.line_forms.specs.Json.{number_json};
ghost use Rattle.who_missed.specs.Missed.{first_lines, later_json, later_text, missed_form, missed_front};
ghost use Rattle.who_missed.specs.Missed.{missed_json, missed_line, missed_lines, missed_row, missed_text};
ghost use Rattle.who_missed.specs.Missed.{number_end, told_json, whom_text};

use crate::forms::{Form, RowForm, push_reason_json, push_row_end};
use crate::named::is_named;
use crate::reasons::{is_told, later_line, push_decimal, push_why};
use due_model::config::{Config, ContactId, ObjectId};
use line_forms::ReportLine;
use local_text::{push_iso, push_local};
use messages::entries::Entry;
use notice_text::texts::{contact_name, push_notice_number};
use pretty_lines::push_paint;
use std::alloc::{AllocError, Global};
use zone_times::clock::ZoneClock;

/// How many numbers of contacts there may be.
const CONTACTS: u32 = 65_536;

/// Adds a row for each contact that the configuration names for an object and that no notice of it goes to up to a moment, in
/// seconds since the epoch, by the lines of a report: why not, and when it is told later on in that report. Without a service
/// the object is the host. Of an object that isn't known nothing is added. A refused growth is the only error.
pub fn push_missed(
    form: Form,
    text: &mut Vec<u8>,
    config: &Config,
    clock: &ZoneClock<'_>,
    host: &str,
    service: Option<&str>,
    until: u64,
    lines: &[ReportLine],
) -> Result<(), AllocError>
    ensures { OnOk result (text.new.items ≡ text.old.items
        ++ missed_text form.form config.now clock.now host.now (option_copied service.entry) until
        lines.now) }
{
    let service = match service {
        Some(service) => Some(service.as_bytes()),
        None => None,
    };
    match config.objects.find(host.as_bytes(), service) {
        None => Ok(()),
        Some(object) => push_contacts(form, text, config, clock, object, until, lines),
    }
}

/// Adds the lines of an object, contact by contact.
#[tactic(auto, unfolding(crate::specs::Missed::missed_lines))]
fn push_contacts(
    form: Form,
    text: &mut Vec<u8>,
    config: &Config,
    clock: &ZoneClock<'_>,
    object: ObjectId,
    until: u64,
    lines: &[ReportLine],
) -> Result<(), AllocError>
    ensures { OnOk result (text.new.items ≡ text.old.items
        ++ missed_lines form.form config.now clock.now object.0 until lines.now) }
{
    push_first(form, text, config, clock, object, until, lines, CONTACTS)
}

/// Adds those of the first contacts, by their numbers.
fn push_first(
    form: Form,
    text: &mut Vec<u8>,
    config: &Config,
    clock: &ZoneClock<'_>,
    object: ObjectId,
    until: u64,
    lines: &[ReportLine],
    count: u32,
) -> Result<(), AllocError>
    requires { count ≤ 65536 }
    ensures { OnOk result (text.new.items ≡ text.old.items
        ++ first_lines form.form config.now clock.now object.0 until lines.now count) }
{
    for number in 0..count {
        let contact = ContactId(number as u16);
        push_line(form, text, config, clock, object, until, lines, contact)?;
    }
    Ok(())
}

/// Adds the line of a contact, where there is one.
fn push_line(
    form: Form,
    text: &mut Vec<u8>,
    config: &Config,
    clock: &ZoneClock<'_>,
    object: ObjectId,
    until: u64,
    lines: &[ReportLine],
    contact: ContactId,
) -> Result<(), AllocError>
    ensures { OnOk result (text.new.items ≡ text.old.items
        ++ missed_line form.form config.now clock.now object.0 until lines.now contact.0) }
{
    if !is_named(config, object, contact) || is_told(object, contact, until, lines) {
        return Ok(());
    }
    push_form(form, text, config, clock, object, until, lines, contact)
}

/// Adds who isn't told.
#[tactic(auto, unfolding(crate::specs::Missed::whom_text))]
fn push_whom(text: &mut Vec<u8>, config: &Config, contact: ContactId) -> Result<(), AllocError>
    ensures { OnOk result (text.new.items ≡ text.old.items ++ whom_text config.now contact.0) }
{
    text.extend_from_slice(b"not told  ")?;
    text.extend_from_slice(contact_name(config, contact))?;
    text.extend_from_slice(b"  ")
}

/// Adds when it is told later on, by the line that says so.
fn push_later(
    text: &mut Vec<u8>,
    clock: &ZoneClock<'_>,
    line: Option<ReportLine>,
) -> Result<(), AllocError>
    ensures { OnOk result (text.new.items ≡ text.old.items ++ later_text clock.now line) }
{
    match line {
        Some(ReportLine::Decided(Entry::Sent(notice))) => {
            text.extend_from_slice(b"told ")?;
            push_local(text, clock, notice.moment)?;
            text.extend_from_slice(b", notice ")?;
            push_notice_number(text, notice.number)
        }
        _ => text.extend_from_slice(b"not within a week"),
    }
}

/// Adds how the row of a contact begins that is missing.
#[tactic(auto, unfolding(crate::specs::Missed::missed_front))]
fn push_front(
    text: &mut Vec<u8>,
    coloured: bool,
    config: &Config,
    contact: ContactId,
) -> Result<(), AllocError>
    ensures { OnOk result
        (text.new.items ≡ text.old.items ++ missed_front coloured config.now contact.0) }
{
    push_paint(text, coloured, b"33")?;
    push_whom(text, config, contact)
}

/// Adds the row of a contact that is missing.
#[tactic(auto, unfolding(crate::specs::Missed::missed_row))]
fn push_row(
    text: &mut Vec<u8>,
    coloured: bool,
    config: &Config,
    clock: &ZoneClock<'_>,
    object: ObjectId,
    until: u64,
    lines: &[ReportLine],
    contact: ContactId,
) -> Result<(), AllocError>
    ensures { OnOk result (text.new.items ≡ text.old.items
        ++ missed_row coloured config.now clock.now object.0 until lines.now contact.0) }
{
    push_front(text, coloured, config, contact)?;
    push_why(text, config, object, contact, until, lines)?;
    push_later(text, clock, later_line(object, contact, until, lines))?;
    push_row_end(text, coloured)
}

/// Adds the number of a notice, null where there is none.
fn push_number(text: &mut Vec<u8>, number: u64) -> Result<(), AllocError>
    ensures { OnOk result (text.new.items ≡ text.old.items ++ number_json number) }
{
    if number == 0 {
        return text.extend_from_slice(b"null");
    }
    push_decimal(text, number)
}

/// Adds when it is told, as members of an object of JSON.
#[tactic(auto, unfolding(crate::specs::Missed::told_json))]
fn push_told_json(text: &mut Vec<u8>, clock: &ZoneClock<'_>, moment: u64) -> Result<(), AllocError>
    ensures { OnOk result (text.new.items ≡ text.old.items ++ told_json clock.now moment) }
{
    text.extend_from_slice(b",\"moment\":")?;
    push_decimal(text, moment)?;
    text.extend_from_slice(b",\"local\":\"")?;
    push_iso(text, clock, moment)
}

/// Adds the number of that notice, and the end of the object.
#[tactic(auto, unfolding(crate::specs::Missed::number_end))]
fn push_number_end(text: &mut Vec<u8>, number: u64) -> Result<(), AllocError>
    ensures { OnOk result (text.new.items ≡ text.old.items ++ number_end number) }
{
    text.extend_from_slice(b"\",\"number\":")?;
    push_number(text, number)?;
    text.extend_from_slice(b"}\n")
}

/// Adds when it is told later on, by the line that says so, and the end of the object.
fn push_later_json(
    text: &mut Vec<u8>,
    clock: &ZoneClock<'_>,
    line: Option<ReportLine>,
) -> Result<(), AllocError>
    ensures { OnOk result (text.new.items ≡ text.old.items ++ later_json clock.now line) }
{
    match line {
        Some(ReportLine::Decided(Entry::Sent(notice))) => {
            push_told_json(text, clock, notice.moment)?;
            push_number_end(text, notice.number)
        }
        _ => text.extend_from_slice(b",\"moment\":null,\"local\":null,\"number\":null}\n"),
    }
}

/// Adds the object of JSON of a contact that is missing.
#[tactic(auto, unfolding(crate::specs::Missed::missed_json))]
fn push_json_row(
    alloc: Global,
    text: &mut Vec<u8>,
    config: &Config,
    clock: &ZoneClock<'_>,
    object: ObjectId,
    until: u64,
    lines: &[ReportLine],
    contact: ContactId,
) -> Result<(), AllocError>
    ensures { OnOk result (text.new.items ≡ text.old.items
        ++ missed_json config.now clock.now object.0 until lines.now contact.0) }
{
    let mut reason = Vec::new(alloc);
    push_why(&mut reason, config, object, contact, until, lines)?;
    push_reason_json(text, contact_name(config, contact), &reason)?;
    push_later_json(text, clock, later_line(object, contact, until, lines))
}

/// Adds what is written of a contact that is missing, in a form.
fn push_form(
    form: Form,
    text: &mut Vec<u8>,
    config: &Config,
    clock: &ZoneClock<'_>,
    object: ObjectId,
    until: u64,
    lines: &[ReportLine],
    contact: ContactId,
) -> Result<(), AllocError>
    ensures { OnOk result (text.new.items ≡ text.old.items
        ++ missed_form form.form config.now clock.now object.0 until lines.now contact.0) }
{
    match form.form {
        RowForm::Plain => push_row(text, false, config, clock, object, until, lines, contact),
        RowForm::Pretty(coloured) => push_row(
            text, coloured, config, clock, object, until, lines, contact,
        ),
        RowForm::Json => push_json_row(
            form.alloc, text, config, clock, object, until, lines, contact,
        ),
    }
}
