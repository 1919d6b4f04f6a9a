//! What the lines of a report say of a contact: whether it is told, why not, and when it is.

ghost use Rattle.std.specs.Prelude.{◌≡◌, not, ◌&&◌, ◌+◌, ◌<◌, ◌++◌, find, flat_map, length, OnOk, decimal};
ghost use Rattle.std.specs.List.{list_any, range_with_len};
ghost use Rattle.due_model.specs.ByObject.{places_of};
ghost use Rattle.who_missed.specs.Missed.{begins_text, escalation_at, escalation_of, escalation_text};
ghost use Rattle.who_missed.specs.Missed.{escalations_text, filter_of, goes_out, has_begun, is_later};
ghost use Rattle.who_missed.specs.Missed.{is_told, is_within, reason_text, refuses, silent_text, stop_text};
ghost use Rattle.who_missed.specs.Missed.{stops, why_text};

use crate::lines::{comes_to, is_later, is_within, refuses, stops, tells};
use crate::named::{has, has_command, is_in_escalations, is_own};
use due_model::config::{Config, ContactId, Escalation, ObjectId};
use itoa::Buffer;
use line_forms::ReportLine;
use messages::entries::Entry;
use notice_text::names::filter_name;
use std::alloc::AllocError;

/// Whether some line up to a moment is a notice to a contact.
pub(crate) fn is_told(
    object: ObjectId,
    contact: ContactId,
    until: u64,
    lines: &[ReportLine],
) -> bool
    ensures { result ≡ is_told object.0 contact.0 until lines.now }
{
    lines.iter().any(|line| is_within(object, until, line) && tells(contact, line))
}

/// The first notice to it after that moment.
pub(crate) fn later_line(
    object: ObjectId,
    contact: ContactId,
    until: u64,
    lines: &[ReportLine],
) -> Option<ReportLine>
    ensures { result ≡ find (is_later object.0 contact.0 until) lines.now }
{
    lines
        .iter()
        .copied()
        .find(|line| is_later(object, contact, until, line))
}

/// The first line up to a moment by which a filter of a contact stopped something.
fn refusing_line(
    object: ObjectId,
    contact: ContactId,
    until: u64,
    lines: &[ReportLine],
) -> Option<ReportLine>
    ensures { result
        ≡ find (λ line. is_within object.0 until line && refuses contact.0 line) lines.now }
{
    lines.iter().copied().find(|line| is_within(object, until, line) && refuses(contact, line))
}

/// The first by which a filter of the object did.
fn stopping_line(object: ObjectId, until: u64, lines: &[ReportLine]) -> Option<ReportLine>
    ensures { result ≡ find (λ line. is_within object.0 until line && stops line) lines.now }
{
    lines
        .iter()
        .copied()
        .find(|line| is_within(object, until, line) && stops(line))
}

/// Whether something of the object passed its filters up to a moment.
fn goes_out(object: ObjectId, until: u64, lines: &[ReportLine]) -> bool
    ensures { result ≡ goes_out object.0 until lines.now }
{
    lines
        .iter()
        .any(|line| is_within(object, until, line) && !stops(line))
}

/// Whether one that is matched with escalations from this number on did.
fn has_begun(object: ObjectId, until: u64, number: u32, lines: &[ReportLine]) -> bool
    ensures { result ≡ has_begun object.0 until number lines.now }
{
    lines.iter().any(|line| is_within(object, until, line) && comes_to(number, line))
}

/// Adds a number in decimal digits.
pub(crate) fn push_decimal(text: &mut Vec<u8>, number: u64) -> Result<(), AllocError>
    ensures { OnOk result (text.new.items ≡ text.old.items ++ decimal number) }
{
    let mut buffer = Buffer::new();
    text.extend_from_slice(buffer.format(number).as_bytes())
}

/// Adds which escalation begins with which notice, and more.
fn push_begins(text: &mut Vec<u8>, number: u64, first: u64, rest: &[u8]) -> Result<(), AllocError>
    ensures { OnOk result
        (text.new.items ≡ text.old.items ++ begins_text number first rest.now) }
{
    text.extend_from_slice(b"escalation ")?;
    push_decimal(text, number)?;
    text.extend_from_slice(b" begins with notice ")?;
    push_decimal(text, first)?;
    text.extend_from_slice(rest)?;
    Ok(())
}

/// Adds what an escalation has to do with it that a contact isn't told.
fn push_escalation(
    text: &mut Vec<u8>,
    named: bool,
    own: bool,
    begun: bool,
    number: u64,
    first: u64,
) -> Result<(), AllocError>
    ensures { OnOk result (text.new.items
        ≡ text.old.items ++ escalation_text named own begun number first) }
{
    match (named, own, begun) {
        (true, _, false) => push_begins(text, number, first, b"; "),
        (true, _, true) => push_begins(text, number, first, b" and doesn't match; "),
        (false, true, true) => push_begins(text, number, first, b" without it; "),
        (false, _, _) => Ok(()),
    }
}

/// Adds the same of one of the object's escalations, by the lines of a report. The number counts from 1.
fn push_escalation_at(
    text: &mut Vec<u8>,
    config: &Config,
    object: ObjectId,
    contact: ContactId,
    until: u64,
    lines: &[ReportLine],
    number: usize,
    escalation: &Escalation,
) -> Result<(), AllocError>
    ensures { OnOk result (text.new.items ≡ text.old.items
        ++ escalation_at config.now object.0 contact.0 until lines.now number escalation.now) }
{
    let named = has(escalation.contacts.as_slice(), contact);
    let own = is_own(config, object, contact);
    let begun = has_begun(object, until, escalation.first, lines);
    let first = u64::from(escalation.first);
    push_escalation(text, named, own, begun, number as u64, first)
}

/// Adds the same of the one at an index of the object's escalations.
fn push_escalation_of(
    text: &mut Vec<u8>,
    config: &Config,
    object: ObjectId,
    contact: ContactId,
    until: u64,
    lines: &[ReportLine],
    index: usize,
) -> Result<(), AllocError>
    requires { index < length (places_of config.now.escalations object.0) }
    ensures { OnOk result (text.new.items ≡ text.old.items
        ++ escalation_of config.now object.0 contact.0 until lines.now index) }
{
    let Some(place) = config.escalations.of(object).get(index) else {
        return Ok(());
    };
    match config.escalations.as_slice().get(*place) {
        Some(escalation) => push_escalation_at(
            text,
            config,
            object,
            contact,
            until,
            lines,
            index + 1,
            escalation,
        ),
        None => Ok(()),
    }
}

/// Adds the same of all of the object's escalations, in their order.
pub fn push_escalations(
    text: &mut Vec<u8>,
    config: &Config,
    object: ObjectId,
    contact: ContactId,
    until: u64,
    lines: &[ReportLine],
) -> Result<(), AllocError>
    ensures { OnOk result (text.new.items ≡ text.old.items
        ++ escalations_text config.now object.0 contact.0 until lines.now) }
{
    for index in 0..config.escalations.of(object).len() {
        push_escalation_of(text, config, object, contact, until, lines, index)?;
    }
    Ok(())
}

/// Adds the filter of a line that has one.
fn push_filter(text: &mut Vec<u8>, line: ReportLine) -> Result<(), AllocError>
    ensures { OnOk result (text.new.items ≡ text.old.items ++ filter_of line) }
{
    match line {
        ReportLine::Decided(Entry::Withheld(withheld)) => {
            text.extend_from_slice(filter_name(withheld.filter).as_bytes())?;
            text.extend_from_slice(b"; ")
        }
        _ => Ok(()),
    }
}

/// Adds why a contact isn't told where nobody is told or refused, and nothing stopped.
fn push_silent(
    text: &mut Vec<u8>,
    config: &Config,
    object: ObjectId,
    contact: ContactId,
    until: u64,
    lines: &[ReportLine],
) -> Result<(), AllocError>
    ensures { OnOk result (text.new.items ≡ text.old.items
        ++ silent_text config.now object.0 contact.0 until lines.now) }
{
    if is_in_escalations(config, object, contact) {
        return push_escalations(text, config, object, contact, until, lines);
    }
    text.extend_from_slice(b"nothing is due; ")
}

/// Adds why a contact isn't told where nothing goes out, given the first line of what a filter of the object stopped.
fn push_stop(
    text: &mut Vec<u8>,
    config: &Config,
    object: ObjectId,
    contact: ContactId,
    until: u64,
    lines: &[ReportLine],
    stopped: Option<ReportLine>,
) -> Result<(), AllocError>
    ensures { OnOk result (text.new.items ≡ text.old.items
        ++ stop_text config.now object.0 contact.0 until lines.now stopped) }
{
    match stopped {
        Some(stopped) => push_filter(text, stopped),
        None => push_silent(text, config, object, contact, until, lines),
    }
}

/// Adds why a contact isn't told up to a moment, given the line of its first refusal.
fn push_reason(
    text: &mut Vec<u8>,
    config: &Config,
    object: ObjectId,
    contact: ContactId,
    until: u64,
    lines: &[ReportLine],
    refused: Option<ReportLine>,
) -> Result<(), AllocError>
    ensures { OnOk result (text.new.items ≡ text.old.items
        ++ reason_text config.now object.0 contact.0 until lines.now refused) }
{
    if let Some(refused) = refused {
        return push_filter(text, refused);
    }
    if goes_out(object, until, lines) {
        return push_escalations(text, config, object, contact, until, lines);
    }
    let stopped = stopping_line(object, until, lines);
    push_stop(text, config, object, contact, until, lines, stopped)
}

/// Adds why a contact isn't told up to a moment.
pub(crate) fn push_why(
    text: &mut Vec<u8>,
    config: &Config,
    object: ObjectId,
    contact: ContactId,
    until: u64,
    lines: &[ReportLine],
) -> Result<(), AllocError>
    ensures { OnOk result (text.new.items ≡ text.old.items
        ++ why_text config.now object.0 until lines.now contact.0) }
{
    if !has_command(config, object, contact) {
        return text.extend_from_slice(b"no notification command; ");
    }
    let refused = refusing_line(object, contact, until, lines);
    push_reason(text, config, object, contact, until, lines, refused)
}
