//! A line of a report for people.

ghost use Rattle.std.specs.Prelude.{◌≡◌, ◌++◌, decimal, OnOk};
ghost use Rattle.notice_text.specs.claims.Texts.{number_text};
ghost use Rattle.pretty_lines.specs.Columns.{padded};
ghost use Rattle.pretty_lines.specs.Lines.{condition_text, contact_columns, fault_end, fault_front};
ghost use Rattle.pretty_lines.specs.Lines.{fault_text, kind_colour, line_end, line_front, line_text};
ghost use Rattle.pretty_lines.specs.Lines.{more_text, refused_end, refused_text, stopped_end, stopped_text};
ghost use Rattle.pretty_lines.specs.Lines.{told_end, told_text, when_text, withheld_text};

use crate::columns::{Look, push_object_padded, push_padded, push_paint, push_unpaint};
use due_model::config::{Config, ContactId, ObjectId};
use due_model::notice::{Kind, Notice, Suppression};
use due_model::state::State;
use event_feed::{FeedFault, RefusedLine};
use itoa::Buffer;
use line_forms::ReportLine;
use local_text::push_iso;
use messages::entries::Entry;
use notice_text::names::{filter_name, kind_name, state_name};
use notice_text::texts::{contact_name, lane_name, push_notice_number};
use std::alloc::{AllocError, Global};
use zone_times::clock::ZoneClock;

/// Adds when something is, and of which object.
#[tactic(auto, unfolding(crate::specs::Lines::when_text))]
fn push_when(
    alloc: Global,
    text: &mut Vec<u8>,
    config: &Config,
    clock: &ZoneClock<'_>,
    look: Look,
    moment: u64,
    object: ObjectId,
) -> Result<(), AllocError>
    ensures { OnOk result
        (text.new.items ≡ text.old.items ++ when_text config.now clock.now look moment object.0) }
{
    push_iso(text, clock, moment)?;
    text.extend_from_slice(b"  ")?;
    push_object_padded(alloc, text, config, object, look.widths.object)?;
    text.extend_from_slice(b"  ")
}

/// Adds a kind and a state.
#[tactic(auto, unfolding(crate::specs::Lines::condition_text))]
fn push_condition(text: &mut Vec<u8>, kind: Kind, state: State) -> Result<(), AllocError>
    ensures { OnOk result (text.new.items ≡ text.old.items ++ condition_text kind state) }
{
    push_padded(text, kind_name(kind).as_bytes(), 13)?;
    text.extend_from_slice(b"  ")?;
    push_padded(text, state_name(state).as_bytes(), 11)?;
    text.extend_from_slice(b"  ")
}

/// Adds the number of a notice in its column.
fn push_number_padded(alloc: Global, text: &mut Vec<u8>, number: u64) -> Result<(), AllocError>
    ensures { OnOk result (text.new.items ≡ text.old.items ++ padded 2 (number_text number)) }
{
    let mut digits = Vec::new(alloc);
    push_notice_number(&mut digits, number)?;
    push_padded(text, &digits, 2)
}

/// Adds the number of a notice, and a contact.
#[tactic(auto, unfolding(crate::specs::Lines::contact_columns))]
fn push_contact(
    alloc: Global,
    text: &mut Vec<u8>,
    config: &Config,
    look: Look,
    number: u64,
    contact: ContactId,
) -> Result<(), AllocError>
    ensures { OnOk result
        (text.new.items ≡ text.old.items ++ contact_columns config.now look number contact.0) }
{
    push_number_padded(alloc, text, number)?;
    text.extend_from_slice(b"  ")?;
    push_padded(text, contact_name(config, contact), look.widths.contact)?;
    text.extend_from_slice(b"  ")
}

/// Adds a number in decimal digits.
fn push_decimal(text: &mut Vec<u8>, number: u64) -> Result<(), AllocError>
    ensures { OnOk result (text.new.items ≡ text.old.items ++ decimal number) }
{
    let mut buffer = Buffer::new();
    text.extend_from_slice(buffer.format(number).as_bytes())
}

/// The colour of a notice.
fn kind_colour(kind: Kind) -> &'static [u8]
    ensures { result.now ≡ kind_colour kind }
{
    match kind {
        Kind::Problem => b"31",
        Kind::Recovery => b"32",
        Kind::FlappingStart => b"36",
        Kind::FlappingStop => b"36",
        Kind::DowntimeStart => b"36",
        Kind::DowntimeEnd => b"36",
        Kind::DowntimeCancelled => b"36",
        Kind::Acknowledgement => b"36",
    }
}

/// Adds the end of a line.
#[tactic(auto, unfolding(crate::specs::Lines::line_end))]
fn push_end(text: &mut Vec<u8>, look: Look) -> Result<(), AllocError>
    ensures { OnOk result (text.new.items ≡ text.old.items ++ line_end look) }
{
    push_unpaint(text, look.coloured)?;
    text.extend_from_slice(b"\n")
}

/// What the lines of notices and suppressions begin with.
#[derive(Clone, Copy)]
struct Front<'a> {
    colour: &'a [u8],
    moment: u64,
    object: ObjectId,
    kind: Kind,
    state: State,
}

/// Adds how a line begins.
#[tactic(auto, unfolding(crate::specs::Lines::line_front))]
fn push_front(
    alloc: Global,
    text: &mut Vec<u8>,
    config: &Config,
    clock: &ZoneClock<'_>,
    look: Look,
    front: Front<'_>,
) -> Result<(), AllocError>
    ensures { OnOk result (text.new.items ≡ text.old.items
        ++ line_front config.now clock.now look front.entry.colour.now front.entry.moment front.entry.object.0
        front.entry.kind front.entry.state) }
{
    push_paint(text, look.coloured, front.colour)?;
    push_when(alloc, text, config, clock, look, front.moment, front.object)?;
    push_condition(text, front.kind, front.state)
}

/// Adds how the line of a notice ends.
#[tactic(auto, unfolding(crate::specs::Lines::told_end))]
fn push_told_end(
    alloc: Global,
    text: &mut Vec<u8>,
    config: &Config,
    look: Look,
    notice: &Notice,
) -> Result<(), AllocError>
    ensures { OnOk result
        (text.new.items ≡ text.old.items ++ told_end config.now look notice.now) }
{
    text.extend_from_slice(b"told     ")?;
    push_contact(alloc, text, config, look, notice.number, notice.contact)?;
    text.extend_from_slice(lane_name(config, notice.lane))?;
    push_end(text, look)
}

/// Adds the line of a notice.
#[tactic(auto, unfolding(crate::specs::Lines::told_text))]
fn push_told(
    alloc: Global,
    text: &mut Vec<u8>,
    config: &Config,
    clock: &ZoneClock<'_>,
    look: Look,
    notice: &Notice,
) -> Result<(), AllocError>
    ensures { OnOk result
        (text.new.items ≡ text.old.items ++ told_text config.now clock.now look notice.now) }
{
    let front = Front {
        colour: kind_colour(notice.kind),
        moment: notice.moment,
        object: notice.object,
        kind: notice.kind,
        state: notice.state,
    };
    push_front(alloc, text, config, clock, look, front)?;
    push_told_end(alloc, text, config, look, notice)
}

/// What the line of a suppression begins with, in a colour.
fn withheld_front<'a>(withheld: &Suppression, colour: &'a [u8]) -> Front<'a>
    ensures colour { result.colour.now ≡ colour.now }
    ensures moment { result.moment ≡ withheld.now.moment }
    ensures object { result.object ≡ withheld.now.object }
    ensures kind { result.kind ≡ withheld.now.kind }
    ensures state { result.state ≡ withheld.now.state }
{
    Front {
        colour,
        moment: withheld.moment,
        object: withheld.object,
        kind: withheld.kind,
        state: withheld.state,
    }
}

/// Adds how the line of a contact ends that was refused.
#[tactic(auto, unfolding(crate::specs::Lines::refused_end))]
fn push_refused_end(
    alloc: Global,
    text: &mut Vec<u8>,
    config: &Config,
    look: Look,
    withheld: &Suppression,
    contact: ContactId,
) -> Result<(), AllocError>
    ensures { OnOk result
        (text.new.items ≡ text.old.items ++ refused_end config.now look withheld.now contact) }
{
    text.extend_from_slice(b"refused  ")?;
    push_contact(alloc, text, config, look, withheld.number, contact)?;
    text.extend_from_slice(filter_name(withheld.filter).as_bytes())?;
    push_end(text, look)
}

/// Adds the line of a contact that was refused.
#[tactic(auto, unfolding(crate::specs::Lines::refused_text))]
fn push_refused(
    alloc: Global,
    text: &mut Vec<u8>,
    config: &Config,
    clock: &ZoneClock<'_>,
    look: Look,
    withheld: &Suppression,
    contact: ContactId,
) -> Result<(), AllocError>
    ensures { OnOk result (text.new.items
        ≡ text.old.items ++ refused_text config.now clock.now look withheld.now contact) }
{
    push_front(
        alloc,
        text,
        config,
        clock,
        look,
        withheld_front(withheld, b"33"),
    )?;
    push_refused_end(alloc, text, config, look, withheld, contact)
}

/// Adds which line of the feed was refused.
#[tactic(auto, unfolding(crate::specs::Lines::fault_front))]
fn push_fault_front(text: &mut Vec<u8>, look: Look, line: u64) -> Result<(), AllocError>
    ensures { OnOk result (text.new.items ≡ text.old.items ++ fault_front look line) }
{
    push_paint(text, look.coloured, b"35")?;
    text.extend_from_slice(b"line ")?;
    push_decimal(text, line)?;
    text.extend_from_slice(b" of the feed: ")
}

/// Adds why it was.
#[tactic(auto, unfolding(crate::specs::Lines::fault_end))]
fn push_fault_end(text: &mut Vec<u8>, look: Look, fault: FeedFault) -> Result<(), AllocError>
    ensures { OnOk result (text.new.items ≡ text.old.items ++ fault_end look fault) }
{
    text.extend_from_slice(fault.name().as_bytes())?;
    push_end(text, look)
}

/// Adds the line of a refused line of the feed.
#[tactic(auto, unfolding(crate::specs::Lines::fault_text))]
fn push_fault(text: &mut Vec<u8>, look: Look, refused: &RefusedLine) -> Result<(), AllocError>
    ensures { OnOk result (text.new.items ≡ text.old.items ++ fault_text look refused.now) }
{
    push_fault_front(text, look, refused.line)?;
    push_fault_end(text, look, refused.fault)
}

/// Adds how often more something was stopped, if it was.
#[tactic(auto, unfolding(crate::specs::Lines::more_text))]
fn push_more(text: &mut Vec<u8>, more: u64) -> Result<(), AllocError>
    ensures { OnOk result (text.new.items ≡ text.old.items ++ more_text more) }
{
    if more == 0 {
        return Ok(());
    }
    text.extend_from_slice(b", ")?;
    push_decimal(text, more)?;
    text.extend_from_slice(b" times more")
}

/// Adds how the line of what a filter of an object stopped ends.
#[tactic(auto, unfolding(crate::specs::Lines::stopped_end))]
fn push_stopped_end(
    text: &mut Vec<u8>,
    look: Look,
    withheld: &Suppression,
    more: u64,
) -> Result<(), AllocError>
    ensures { OnOk result
        (text.new.items ≡ text.old.items ++ stopped_end look withheld.now more) }
{
    text.extend_from_slice(b"stopped  ")?;
    text.extend_from_slice(filter_name(withheld.filter).as_bytes())?;
    push_more(text, more)?;
    push_end(text, look)
}

/// Adds the line of what a filter of an object stopped, and so many times more in a row, the last time so.
#[tactic(auto, unfolding(crate::specs::Lines::stopped_text))]
pub(crate) fn push_stopped(
    alloc: Global,
    text: &mut Vec<u8>,
    config: &Config,
    clock: &ZoneClock<'_>,
    look: Look,
    withheld: &Suppression,
    more: u64,
) -> Result<(), AllocError>
    ensures { OnOk result (text.new.items
        ≡ text.old.items ++ stopped_text config.now clock.now look withheld.now more) }
{
    push_front(
        alloc,
        text,
        config,
        clock,
        look,
        withheld_front(withheld, b"2"),
    )?;
    push_stopped_end(text, look, withheld, more)
}

/// Adds the line of a suppression, by whose filter it was.
fn push_withheld(
    alloc: Global,
    text: &mut Vec<u8>,
    config: &Config,
    clock: &ZoneClock<'_>,
    look: Look,
    withheld: &Suppression,
) -> Result<(), AllocError>
    ensures { OnOk result (text.new.items ≡ text.old.items
        ++ withheld_text config.now clock.now look withheld.now withheld.now.contact) }
{
    match withheld.contact {
        Some(contact) => push_refused(alloc, text, config, clock, look, withheld, contact),
        None => push_stopped(alloc, text, config, clock, look, withheld, 0),
    }
}

/// Adds a line. A refused growth is the only error.
pub fn push_line(
    alloc: Global,
    text: &mut Vec<u8>,
    config: &Config,
    clock: &ZoneClock<'_>,
    look: Look,
    line: &ReportLine,
) -> Result<(), AllocError>
    ensures { OnOk result
        (text.new.items ≡ text.old.items ++ line_text config.now clock.now look line.now) }
{
    match line {
        ReportLine::Decided(Entry::Sent(notice)) => {
            push_told(alloc, text, config, clock, look, notice)
        }
        ReportLine::Decided(Entry::Withheld(withheld)) => {
            push_withheld(alloc, text, config, clock, look, withheld)
        }
        ReportLine::Refused(refused) => push_fault(text, look, refused),
    }
}
