//! A line of a report as `replay` writes it.

ghost use Rattle.std.specs.Prelude.{◌≡◌, ◌++◌, decimal, OnOk};
ghost use Rattle.command_output.specs.claims.Fields.{field};
ghost use Rattle.command_output.specs.claims.ReportLine.{head_fields, notice_line, refused_contact_line};
ghost use Rattle.command_output.specs.claims.ReportLine.{refused_line, stopped_line, suppression_line_of};
ghost use Rattle.line_forms.specs.Plain.{plain_text};
ghost use Rattle.notice_text.specs.claims.Texts.{number_text, object_text};

use crate::report_line::ReportLine;
use due_model::config::{Config, ContactId, ObjectId};
use due_model::notice::{Kind, Notice, Suppression};
use due_model::state::State;
use event_feed::RefusedLine;
use itoa::Buffer;
use messages::entries::Entry;
use notice_text::names::{filter_name, kind_name, state_name};
use notice_text::texts::{contact_name, lane_name, push_notice_number, push_object};
use std::alloc::AllocError;

/// What the lines of notices and suppressions begin with, after their letter.
#[derive(Clone, Copy)]
struct Head {
    event: u64,
    moment: u64,
    object: ObjectId,
    kind: Kind,
    state: State,
}

/// Adds a field.
fn push_field(text: &mut Vec<u8>, value: &[u8]) -> Result<(), AllocError>
    ensures { OnOk result (text.new.items ≡ text.old.items ++ field value.now) }
{
    text.push(b';')?;
    text.extend_from_slice(value)
}

/// Adds a number as a field.
fn push_number(text: &mut Vec<u8>, number: u64) -> Result<(), AllocError>
    ensures { OnOk result (text.new.items ≡ text.old.items ++ field (decimal number)) }
{
    let mut buffer = Buffer::new();
    push_field(text, buffer.format(number).as_bytes())
}

/// Adds the number of a notice as a field, a dash where there is none.
fn push_number_field(text: &mut Vec<u8>, number: u64) -> Result<(), AllocError>
    ensures { OnOk result (text.new.items ≡ text.old.items ++ field (number_text number)) }
{
    text.push(b';')?;
    push_notice_number(text, number)
}

/// Adds an object as a field.
fn push_object_field(
    text: &mut Vec<u8>,
    config: &Config,
    object: ObjectId,
) -> Result<(), AllocError>
    ensures { OnOk result
        (text.new.items ≡ text.old.items ++ field (object_text config.now object.0)) }
{
    text.push(b';')?;
    push_object(text, config, object)
}

/// Adds the head of a line.
#[tactic(auto, unfolding(command_output::specs::claims::ReportLine::head_fields))]
fn push_head(text: &mut Vec<u8>, config: &Config, head: Head) -> Result<(), AllocError>
    ensures { OnOk result (text.new.items ≡ text.old.items
        ++ head_fields config.now head.event head.moment head.object.0 head.kind head.state) }
{
    push_number(text, head.event)?;
    push_number(text, head.moment)?;
    push_object_field(text, config, head.object)?;
    push_field(text, kind_name(head.kind).as_bytes())?;
    push_field(text, state_name(head.state).as_bytes())
}

/// Adds the line of a notice.
fn push_notice(text: &mut Vec<u8>, config: &Config, notice: &Notice) -> Result<(), AllocError>
    ensures { OnOk result (text.new.items ≡ text.old.items ++ notice_line config.now notice.now) }
{
    text.push(b'N')?;
    push_head(
        text,
        config,
        Head {
            event: notice.event,
            moment: notice.moment,
            object: notice.object,
            kind: notice.kind,
            state: notice.state,
        },
    )?;
    push_number_field(text, notice.number)?;
    push_field(text, contact_name(config, notice.contact))?;
    push_field(text, lane_name(config, notice.lane))?;
    text.extend_from_slice(b"\n")
}

/// What the line of a suppression begins with.
fn withheld_head(suppression: &Suppression) -> Head
    ensures { result ≡ record {
      event = suppression.now.event;
      moment = suppression.now.moment;
      object = suppression.now.object;
      kind = suppression.now.kind;
      state = suppression.now.state;
    } }
{
    Head {
        event: suppression.event,
        moment: suppression.moment,
        object: suppression.object,
        kind: suppression.kind,
        state: suppression.state,
    }
}

/// Adds the line of what a filter of the object stopped.
fn push_stopped(
    text: &mut Vec<u8>,
    config: &Config,
    suppression: &Suppression,
) -> Result<(), AllocError>
    ensures { OnOk result
        (text.new.items ≡ text.old.items ++ stopped_line config.now suppression.now) }
{
    text.push(b'S')?;
    push_head(text, config, withheld_head(suppression))?;
    push_field(text, filter_name(suppression.filter).as_bytes())?;
    text.extend_from_slice(b"\n")
}

/// Adds the line of a contact that was refused.
fn push_refused_contact(
    text: &mut Vec<u8>,
    config: &Config,
    suppression: &Suppression,
    contact: ContactId,
) -> Result<(), AllocError>
    ensures { OnOk result (text.new.items
        ≡ text.old.items ++ refused_contact_line config.now suppression.now contact) }
{
    text.push(b'C')?;
    push_head(text, config, withheld_head(suppression))?;
    push_number_field(text, suppression.number)?;
    push_field(text, contact_name(config, contact))?;
    push_field(text, filter_name(suppression.filter).as_bytes())?;
    text.extend_from_slice(b"\n")
}

/// Adds the line of a suppression, by whose filter it was.
fn push_suppression(
    text: &mut Vec<u8>,
    config: &Config,
    suppression: &Suppression,
) -> Result<(), AllocError>
    ensures { OnOk result (text.new.items ≡ text.old.items
        ++ suppression_line_of config.now suppression.now suppression.now.contact) }
{
    match suppression.contact {
        None => push_stopped(text, config, suppression),
        Some(contact) => push_refused_contact(text, config, suppression, contact),
    }
}

/// Adds the line of a refused line of the feed.
fn push_refused(text: &mut Vec<u8>, refused: &RefusedLine) -> Result<(), AllocError>
    ensures { OnOk result
        (text.new.items ≡ text.old.items ++ refused_line refused.now.line refused.now.fault) }
{
    text.push(b'R')?;
    push_number(text, refused.line)?;
    push_field(text, refused.fault.name().as_bytes())?;
    text.extend_from_slice(b"\n")
}

/// Adds a line as `replay` writes it. A refused growth is the only error.
pub fn push_plain(text: &mut Vec<u8>, config: &Config, line: &ReportLine) -> Result<(), AllocError>
    ensures { OnOk result (text.new.items ≡ text.old.items ++ plain_text config.now line.now) }
{
    match line {
        ReportLine::Decided(Entry::Sent(notice)) => push_notice(text, config, notice),
        ReportLine::Decided(Entry::Withheld(withheld)) => push_suppression(text, config, withheld),
        ReportLine::Refused(refused) => push_refused(text, refused),
    }
}
