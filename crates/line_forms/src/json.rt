//! A line of a report as an object of JSON.

ghost use Rattle.std.specs.Prelude.{◌≡◌, ◌<◌, ◌++◌, decimal, flat_map, OnOk};
ghost use Rattle.line_forms.specs.Json.{command_json, condition_json, contact_json, escaped};
ghost use Rattle.line_forms.specs.Json.{event_json, hex, json_text, last_json, letter_json};
ghost use Rattle.line_forms.specs.Json.{member, moment_json, notice_json, number_json};
ghost use Rattle.line_forms.specs.Json.{object_json, quoted, refused_contact_json};
ghost use Rattle.line_forms.specs.Json.{refused_json, stopped_json, string_json};
ghost use Rattle.line_forms.specs.Json.{suppression_json, withheld_json};

use crate::report_line::ReportLine;
use due_model::config::{Config, ContactId, LaneId, ObjectId};
use due_model::notice::{Kind, Notice, Suppression};
use due_model::state::State;
use event_feed::RefusedLine;
use itoa::Buffer;
use local_text::push_iso;
use messages::entries::Entry;
use notice_text::names::{filter_name, kind_name, state_name};
use notice_text::texts::{contact_name, lane_name, push_object};
use std::alloc::{AllocError, Global};
use zone_times::clock::ZoneClock;

/// The hexadecimal digit of a number below 16.
fn hex(digit: u8) -> u8
    requires { digit < 16 }
    ensures { result ≡ hex digit }
{
    if digit < 10 {
        b'0' + digit
    } else {
        b'a' - 10 + digit
    }
}

/// Adds a byte of a string: a quote, a backslash and control characters are escaped.
#[tactic(auto, unfolding(crate::specs::Json::escaped))]
fn push_escaped(text: &mut Vec<u8>, byte: u8) -> Result<(), AllocError>
    ensures { OnOk result (text.new.items ≡ text.old.items ++ escaped byte) }
{
    if byte == b'"' || byte == b'\\' {
        return text.extend_from_slice(&[b'\\', byte]);
    }
    if byte < b' ' {
        return text.extend_from_slice(&[b'\\', b'u', b'0', b'0', hex(byte / 16), hex(byte % 16)]);
    }
    text.extend_from_slice(&[byte])
}

/// Adds bytes as a string of JSON, with its quotes. Where a growth is refused, some of it may stand.
#[tactic(auto, unfolding(crate::specs::Json::string_json))]
pub fn push_string(text: &mut Vec<u8>, bytes: &[u8]) -> Result<(), AllocError>
    ensures { OnOk result (text.new.items ≡ text.old.items ++ string_json bytes.now) }
{
    text.push(b'"')?;
    push_bytes(text, bytes)?;
    text.push(b'"')?;
    Ok(())
}

/// Adds the bytes of a string.
fn push_bytes(text: &mut Vec<u8>, bytes: &[u8]) -> Result<(), AllocError>
    ensures { OnOk result (text.new.items ≡ text.old.items ++ flat_map escaped bytes.now) }
{
    for byte in bytes {
        push_escaped(text, *byte)?;
    }
    Ok(())
}

/// Adds a name, which needs no escape, between quotes.
#[tactic(auto, unfolding(crate::specs::Json::quoted))]
fn push_quoted(text: &mut Vec<u8>, name: &[u8]) -> Result<(), AllocError>
    ensures { OnOk result (text.new.items ≡ text.old.items ++ quoted name.now) }
{
    text.push(b'"')?;
    text.extend_from_slice(name)?;
    text.push(b'"')?;
    Ok(())
}

/// Adds what comes before the value of a member: a comma, its name and a colon.
#[tactic(auto, unfolding(crate::specs::Json::member))]
fn push_member(text: &mut Vec<u8>, name: &str) -> Result<(), AllocError>
    ensures { OnOk result (text.new.items ≡ text.old.items ++ member name.now) }
{
    text.push(b',')?;
    push_quoted(text, name.as_bytes())?;
    text.push(b':')?;
    Ok(())
}

/// Adds a number.
fn push_number(text: &mut Vec<u8>, number: u64) -> Result<(), AllocError>
    ensures { OnOk result (text.new.items ≡ text.old.items ++ decimal number) }
{
    let mut buffer = Buffer::new();
    text.extend_from_slice(buffer.format(number).as_bytes())
}

/// Adds the number of a notice; `null` where there is none.
fn push_notice_number(text: &mut Vec<u8>, number: u64) -> Result<(), AllocError>
    ensures { OnOk result (text.new.items ≡ text.old.items ++ number_json number) }
{
    if number == 0 {
        return text.extend_from_slice(b"null");
    }
    push_number(text, number)
}

/// Adds a moment: in seconds, and as the zone's clock shows it.
#[tactic(auto, unfolding(crate::specs::Json::moment_json))]
fn push_moment(text: &mut Vec<u8>, clock: &ZoneClock<'_>, moment: u64) -> Result<(), AllocError>
    ensures { OnOk result (text.new.items ≡ text.old.items ++ moment_json clock.now moment) }
{
    push_member(text, "moment")?;
    push_number(text, moment)?;
    push_member(text, "local")?;
    text.push(b'"')?;
    push_iso(text, clock, moment)?;
    text.push(b'"')?;
    Ok(())
}

/// Adds an object's name as a member.
#[tactic(auto, unfolding(crate::specs::Json::object_json))]
fn push_object_member(
    alloc: Global,
    text: &mut Vec<u8>,
    config: &Config,
    object: ObjectId,
) -> Result<(), AllocError>
    ensures { OnOk result (text.new.items ≡ text.old.items ++ object_json config.now object.0) }
{
    let mut name = Vec::new(alloc);
    push_object(&mut name, config, object)?;
    push_member(text, "object")?;
    push_string(text, &name)
}

/// Adds a kind and a state as members.
#[tactic(auto, unfolding(crate::specs::Json::condition_json))]
fn push_condition(text: &mut Vec<u8>, kind: Kind, state: State) -> Result<(), AllocError>
    ensures { OnOk result (text.new.items ≡ text.old.items ++ condition_json kind state) }
{
    push_member(text, "kind")?;
    push_quoted(text, kind_name(kind).as_bytes())?;
    push_member(text, "state")?;
    push_quoted(text, state_name(state).as_bytes())
}

/// Adds a letter as the first member.
#[tactic(auto, unfolding(crate::specs::Json::letter_json, crate::specs::Json::quoted))]
fn push_letter(text: &mut Vec<u8>, letter: u8) -> Result<(), AllocError>
    ensures { OnOk result (text.new.items ≡ text.old.items ++ letter_json letter) }
{
    text.extend_from_slice(b"{\"letter\":\"")?;
    text.push(letter)?;
    text.push(b'"')?;
    Ok(())
}

/// Adds an event's number as a member.
#[tactic(auto, unfolding(crate::specs::Json::event_json))]
fn push_event(text: &mut Vec<u8>, event: u64) -> Result<(), AllocError>
    ensures { OnOk result (text.new.items ≡ text.old.items ++ event_json event) }
{
    push_member(text, "event")?;
    push_number(text, event)
}

/// Adds the number of a notice and a contact as members.
#[tactic(auto, unfolding(crate::specs::Json::contact_json))]
fn push_contact(
    text: &mut Vec<u8>,
    config: &Config,
    number: u64,
    contact: ContactId,
) -> Result<(), AllocError>
    ensures { OnOk result
        (text.new.items ≡ text.old.items ++ contact_json config.now number contact.0) }
{
    push_member(text, "number")?;
    push_notice_number(text, number)?;
    push_member(text, "contact")?;
    push_string(text, contact_name(config, contact))
}

/// Adds a lane as the member `command`.
#[tactic(auto, unfolding(crate::specs::Json::command_json))]
fn push_command(text: &mut Vec<u8>, config: &Config, lane: LaneId) -> Result<(), AllocError>
    ensures { OnOk result (text.new.items ≡ text.old.items ++ command_json config.now lane.0) }
{
    push_member(text, "command")?;
    push_string(text, lane_name(config, lane))
}

/// Adds a filter, or a fault, as the last member, and ends the line.
#[tactic(auto, unfolding(crate::specs::Json::last_json))]
fn push_last(text: &mut Vec<u8>, name: &str, value: &str) -> Result<(), AllocError>
    ensures { OnOk result (text.new.items ≡ text.old.items ++ last_json name.now value.now) }
{
    push_member(text, name)?;
    push_quoted(text, value.as_bytes())?;
    text.extend_from_slice(b"}\n")
}

/// Adds the line of a notice.
#[tactic(auto, unfolding(crate::specs::Json::notice_json))]
fn push_notice(
    alloc: Global,
    text: &mut Vec<u8>,
    config: &Config,
    clock: &ZoneClock<'_>,
    notice: &Notice,
) -> Result<(), AllocError>
    ensures { OnOk result
        (text.new.items ≡ text.old.items ++ notice_json config.now clock.now notice.now) }
{
    push_letter(text, b'N')?;
    push_event(text, notice.event)?;
    push_moment(text, clock, notice.moment)?;
    push_object_member(alloc, text, config, notice.object)?;
    push_condition(text, notice.kind, notice.state)?;
    push_contact(text, config, notice.number, notice.contact)?;
    push_command(text, config, notice.lane)?;
    text.extend_from_slice(b"}\n")
}

/// Adds what the lines of suppressions have in common.
#[tactic(auto, unfolding(crate::specs::Json::withheld_json))]
fn push_withheld(
    alloc: Global,
    text: &mut Vec<u8>,
    config: &Config,
    clock: &ZoneClock<'_>,
    suppression: &Suppression,
) -> Result<(), AllocError>
    ensures { OnOk result
        (text.new.items ≡ text.old.items ++ withheld_json config.now clock.now suppression.now) }
{
    push_event(text, suppression.event)?;
    push_moment(text, clock, suppression.moment)?;
    push_object_member(alloc, text, config, suppression.object)?;
    push_condition(text, suppression.kind, suppression.state)
}

/// Adds the line of what a filter of the object stopped.
#[tactic(auto, unfolding(crate::specs::Json::stopped_json))]
fn push_stopped(
    alloc: Global,
    text: &mut Vec<u8>,
    config: &Config,
    clock: &ZoneClock<'_>,
    suppression: &Suppression,
) -> Result<(), AllocError>
    ensures { OnOk result
        (text.new.items ≡ text.old.items ++ stopped_json config.now clock.now suppression.now) }
{
    push_letter(text, b'S')?;
    push_withheld(alloc, text, config, clock, suppression)?;
    push_last(text, "filter", filter_name(suppression.filter))
}

/// Adds the line of a contact that was refused.
#[tactic(auto, unfolding(crate::specs::Json::refused_contact_json))]
fn push_refused_contact(
    alloc: Global,
    text: &mut Vec<u8>,
    config: &Config,
    clock: &ZoneClock<'_>,
    suppression: &Suppression,
    contact: ContactId,
) -> Result<(), AllocError>
    ensures { OnOk result (text.new.items
        ≡ text.old.items ++ refused_contact_json config.now clock.now suppression.now contact) }
{
    push_letter(text, b'C')?;
    push_withheld(alloc, text, config, clock, suppression)?;
    push_contact(text, config, suppression.number, contact)?;
    push_last(text, "filter", filter_name(suppression.filter))
}

/// Adds the line of a suppression, by whose filter it was.
fn push_suppression(
    alloc: Global,
    text: &mut Vec<u8>,
    config: &Config,
    clock: &ZoneClock<'_>,
    suppression: &Suppression,
) -> Result<(), AllocError>
    ensures { OnOk result (text.new.items ≡ text.old.items
        ++ suppression_json config.now clock.now suppression.now suppression.now.contact) }
{
    match suppression.contact {
        None => push_stopped(alloc, text, config, clock, suppression),
        Some(contact) => push_refused_contact(alloc, text, config, clock, suppression, contact),
    }
}

/// Adds the line of a refused line of the feed.
#[tactic(auto, unfolding(crate::specs::Json::refused_json))]
fn push_refused(text: &mut Vec<u8>, refused: &RefusedLine) -> Result<(), AllocError>
    ensures { OnOk result (text.new.items ≡ text.old.items ++ refused_json refused.now) }
{
    push_letter(text, b'R')?;
    push_member(text, "line")?;
    push_number(text, refused.line)?;
    push_last(text, "fault", refused.fault.name())
}

/// Adds a line as an object of JSON, and a newline. Fields have the names of the plain line; a moment is written in seconds, and
/// as the clock shows it. A refused growth is the only error.
pub fn push_json(
    alloc: Global,
    text: &mut Vec<u8>,
    config: &Config,
    clock: &ZoneClock<'_>,
    line: &ReportLine,
) -> Result<(), AllocError>
    ensures { OnOk result
        (text.new.items ≡ text.old.items ++ json_text config.now clock.now line.now) }
{
    match line {
        ReportLine::Decided(Entry::Sent(notice)) => push_notice(alloc, text, config, clock, notice),
        ReportLine::Decided(Entry::Withheld(withheld)) => push_suppression(
            alloc, text, config, clock, withheld,
        ),
        ReportLine::Refused(refused) => push_refused(text, refused),
    }
}
