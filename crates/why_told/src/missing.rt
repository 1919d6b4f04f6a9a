//! Who is no receiver of an attempt though the configuration names them, and why.

ghost use Rattle.std.specs.Prelude.{◌≡◌, ◌≤◌, ◌++◌, ◌||◌, not, ◌&&◌, OnOk};
ghost use Rattle.std.specs.List.{list_any};
ghost use Rattle.std.specs.Option.{option_copied};
ghost use Rattle.why_told.specs.Missing.{all_missing, first_missing, is_met, is_missing, missing_at, missing_by};
ghost use Rattle.why_told.specs.Missing.{missing_form, missing_json, missing_of, missing_row, missing_text};
ghost use Rattle.why_told.specs.Missing.{no_receiver_text};

use crate::rows::is_asked;
use crate::teller::Asked;
use due_model::config::{Config, ContactId, ObjectId};
use due_model::limits::LAST_MOMENT;
use filter_values::push_decimal;
use line_forms::ReportLine;
use messages::entries::Entry;
use notice_text::texts::contact_name;
use pretty_lines::push_paint;
use std::alloc::{AllocError, Global};
use who_missed::{
    has_command, is_coloured, is_json, is_named, push_escalations, push_reason_json, push_row_end,
    refuses, tells,
};

/// How many numbers of contacts there may be.
const CONTACTS: u32 = 65_536;

/// Whether the lines of an attempt tell of a contact.
fn is_met(lines: &[ReportLine], contact: ContactId) -> bool
    ensures { result ≡ is_met lines.now contact.0 }
{
    lines
        .iter()
        .any(|line| tells(contact, line) || refuses(contact, line))
}

/// Adds why a contact is no receiver.
fn push_no_receiver(
    text: &mut Vec<u8>,
    config: &Config,
    object: ObjectId,
    contact: ContactId,
    lines: &[ReportLine],
) -> Result<(), AllocError>
    ensures { OnOk result (text.new.items ≡ text.old.items
        ++ no_receiver_text config.now object.0 contact.0 lines.now) }
{
    if has_command(config, object, contact) {
        push_escalations(text, config, object, contact, LAST_MOMENT, lines)
    } else {
        text.extend_from_slice(b"no notification command; ")
    }
}

/// Adds who is none, and why.
#[tactic(auto, unfolding(crate::specs::Missing::missing_row))]
fn push_missing_row(
    text: &mut Vec<u8>,
    config: &Config,
    object: ObjectId,
    contact: ContactId,
    lines: &[ReportLine],
) -> Result<(), AllocError>
    ensures { OnOk result (text.new.items ≡ text.old.items
        ++ missing_row config.now object.0 contact.0 lines.now) }
{
    text.extend_from_slice(b"    no receiver  ")?;
    text.extend_from_slice(contact_name(config, contact))?;
    text.extend_from_slice(b"  ")?;
    push_no_receiver(text, config, object, contact, lines)
}

/// The same as a row, with its colour.
#[tactic(auto, unfolding(crate::specs::Missing::missing_text))]
fn push_missing_text(
    text: &mut Vec<u8>,
    coloured: bool,
    config: &Config,
    object: ObjectId,
    contact: ContactId,
    lines: &[ReportLine],
) -> Result<(), AllocError>
    ensures { OnOk result (text.new.items ≡ text.old.items
        ++ missing_text coloured config.now object.0 contact.0 lines.now) }
{
    push_paint(text, coloured, b"2")?;
    push_missing_row(text, config, object, contact, lines)?;
    text.extend_from_slice(b"not told")?;
    push_row_end(text, coloured)
}

/// The same as an object of JSON.
#[tactic(auto, unfolding(crate::specs::Missing::missing_json))]
fn push_missing_json(
    alloc: Global,
    text: &mut Vec<u8>,
    config: &Config,
    object: ObjectId,
    event: u64,
    contact: ContactId,
    lines: &[ReportLine],
) -> Result<(), AllocError>
    ensures { OnOk result (text.new.items ≡ text.old.items
        ++ missing_json config.now object.0 event contact.0 lines.now) }
{
    let mut reason = Vec::new(alloc);
    push_no_receiver(&mut reason, config, object, contact, lines)?;
    push_reason_json(text, contact_name(config, contact), &reason)?;
    text.extend_from_slice(b",\"event\":")?;
    push_decimal(text, event)?;
    text.extend_from_slice(b"}\n")
}

/// The same in the form that is asked for.
fn push_missing_form(
    alloc: Global,
    text: &mut Vec<u8>,
    config: &Config,
    asked: Asked<'_>,
    object: ObjectId,
    event: u64,
    lines: &[ReportLine],
    contact: ContactId,
) -> Result<(), AllocError>
    ensures { OnOk result (text.new.items ≡ text.old.items
        ++ missing_form asked.entry.form config.now object.0 event contact.0 lines.now) }
{
    if is_json(asked.form) {
        push_missing_json(alloc, text, config, object, event, contact, lines)
    } else {
        push_missing_text(
            text,
            is_coloured(asked.form),
            config,
            object,
            contact,
            lines,
        )
    }
}

/// Whether a contact is named and asked for, and the lines of the attempt don't tell of it.
fn is_missing(
    config: &Config,
    asked: Asked<'_>,
    object: ObjectId,
    lines: &[ReportLine],
    contact: ContactId,
) -> bool
    ensures { result ≡ is_missing asked.entry config.now object.0 lines.now contact.0 }
{
    is_named(config, object, contact)
        && is_asked(config, asked.contact, contact)
        && !is_met(lines, contact)
}

/// Adds what is written of a contact, where it is missing.
fn push_missing_at(
    alloc: Global,
    text: &mut Vec<u8>,
    config: &Config,
    asked: Asked<'_>,
    object: ObjectId,
    event: u64,
    lines: &[ReportLine],
    contact: ContactId,
) -> Result<(), AllocError>
    ensures { OnOk result (text.new.items ≡ text.old.items
        ++ missing_at asked.entry config.now object.0 event lines.now contact.0) }
{
    if is_missing(config, asked, object, lines, contact) {
        push_missing_form(alloc, text, config, asked, object, event, lines, contact)
    } else {
        Ok(())
    }
}

/// Adds who is missing among the first contacts, by their numbers.
fn push_first_missing(
    alloc: Global,
    text: &mut Vec<u8>,
    config: &Config,
    asked: Asked<'_>,
    object: ObjectId,
    event: u64,
    lines: &[ReportLine],
    count: u32,
) -> Result<(), AllocError>
    requires { count ≤ 65536 }
    ensures { OnOk result (text.new.items ≡ text.old.items
        ++ first_missing asked.entry config.now object.0 event lines.now count) }
{
    for number in 0..count {
        let contact = ContactId(number as u16);
        push_missing_at(alloc, text, config, asked, object, event, lines, contact)?;
    }
    Ok(())
}

/// Adds who is missing.
#[tactic(auto, unfolding(crate::specs::Missing::all_missing))]
fn push_all_missing(
    alloc: Global,
    text: &mut Vec<u8>,
    config: &Config,
    asked: Asked<'_>,
    object: ObjectId,
    event: u64,
    lines: &[ReportLine],
) -> Result<(), AllocError>
    ensures { OnOk result (text.new.items ≡ text.old.items
        ++ all_missing asked.entry config.now object.0 event lines.now) }
{
    push_first_missing(alloc, text, config, asked, object, event, lines, CONTACTS)
}

/// Adds who is missing in the attempt of these lines, by one of them.
fn push_missing_by(
    alloc: Global,
    text: &mut Vec<u8>,
    config: &Config,
    asked: Asked<'_>,
    lines: &[ReportLine],
    line: &ReportLine,
) -> Result<(), AllocError>
    ensures { OnOk result (text.new.items ≡ text.old.items
        ++ missing_by asked.entry config.now lines.now line.now) }
{
    match line {
        ReportLine::Decided(Entry::Sent(notice)) => {
            let (object, event) = (notice.object, notice.event);
            push_all_missing(alloc, text, config, asked, object, event, lines)
        }
        ReportLine::Decided(Entry::Withheld(withheld)) => {
            let (object, event) = (withheld.object, withheld.event);
            push_all_missing(alloc, text, config, asked, object, event, lines)
        }
        ReportLine::Refused(_) => Ok(()),
    }
}

/// The same, of which this is the first, if there is one.
pub(crate) fn push_missing(
    alloc: Global,
    text: &mut Vec<u8>,
    config: &Config,
    asked: Asked<'_>,
    lines: &[ReportLine],
    first: Option<&ReportLine>,
) -> Result<(), AllocError>
    ensures { OnOk result (text.new.items ≡ text.old.items
        ++ missing_of asked.entry config.now lines.now (option_copied first.entry)) }
{
    match first {
        None => Ok(()),
        Some(line) => push_missing_by(alloc, text, config, asked, lines, line),
    }
}
