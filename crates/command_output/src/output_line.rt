//! The lines that a command can write.

ghost use Rattle.std.specs.Prelude.{◌≡◌, ◌++◌, OnOk};
ghost use Rattle.command_output.specs.LineHead.{entry_head, head_text};
ghost use Rattle.command_output.specs.claims.OutputLine.{entries_text, line_text};

use crate::line_head::{entry_head, make_head, push_head};
use crate::report_line::{push_entry, push_entry_after, push_refused};
use crate::run_line::{push_channel, push_closed, push_letter};
use crate::trace_line::{LaneLine, StepRefusal, push_held};
use due_model::config::{Config, LaneId};
use due_model::notice::{Notice, Suppression};
use event_feed::FeedFault;
use messages::entries::Entry;
use std::alloc::AllocError;
use undelivered::Why;

/// A line of a report, of a trace or of a run. Lines of the input are numbered from 1.
#[derive(Clone, Copy, Debug)]
pub enum OutputLine<'a> {
    /// `N`: a message that is due.
    Notice(Notice),
    /// `S` or `C`: a message that a filter of the object, or of the contact, stopped.
    Suppression(Suppression),
    /// `R`: a line of the feed that gives no event.
    Refused {
        line: u64,
        fault: FeedFault,
    },
    /// `E`: a step line that does nothing.
    RefusedStep {
        line: u64,
        refusal: StepRefusal,
    },
    /// `L`: what a lane holds of an object.
    Held(LaneLine<'a>),
    /// `T`: a message that the lane's channel has taken.
    Taken {
        lane: LaneId,
        notice: Notice,
    },
    /// `U`: a message that the lane gave up.
    Undelivered {
        lane: LaneId,
        notice: Notice,
    },
    /// `G`: how many messages a channel of the lane has taken, by its number from 0.
    Box {
        lane: LaneId,
        number: u64,
        count: u64,
    },
    /// `Z`: why the lane is closed.
    Closed {
        lane: LaneId,
        why: Why,
    },
}

/// Adds a line, with its newline.
pub(crate) fn push_line(
    text: &mut Vec<u8>,
    config: &Config,
    line: &OutputLine<'_>,
) -> Result<(), AllocError>
    ensures { OnOk result (text.new.items ≡ text.old.items ++ line_text config.now line.now) }
{
    match line {
        OutputLine::Notice(notice) => push_entry(text, config, &Entry::Sent(*notice)),
        OutputLine::Suppression(withheld) => push_entry(text, config, &Entry::Withheld(*withheld)),
        OutputLine::Refused { line, fault } => push_refused(text, b'R', *line, fault.name()),
        OutputLine::RefusedStep { line, refusal } => push_refused(
            text,
            b'E',
            *line,
            refusal.name(),
        ),
        OutputLine::Held(held) => push_held(text, config, held),
        OutputLine::Taken { lane, notice } => push_letter(text, config, b'T', *lane, notice),
        OutputLine::Undelivered { lane, notice } => push_letter(text, config, b'U', *lane, notice),
        OutputLine::Box {
            lane,
            number,
            count,
        } => push_channel(text, config, *lane, *number, *count),
        OutputLine::Closed { lane, why } => push_closed(text, config, *lane, *why),
    }
}

/// Adds the lines of entries, in order. The other vector is for what lines share.
pub(crate) fn push_entries(
    text: &mut Vec<u8>,
    head: &mut Vec<u8>,
    config: &Config,
    entries: &[Entry],
) -> Result<(), AllocError>
    ensures { OnOk result
        (text.new.items ≡ text.old.items ++ entries_text config.now entries.now) }
{
    match entries {
        [] => Ok(()),
        [entry] => push_entry(text, config, entry),
        [first, others @ ..] => {
            head.clear();
            push_head(head, config, entry_head(first))?;
            push_entry_after(text, config, head, first)?;
            push_others(text, head, config, first, others)
        }
    }
}

/// Adds the lines of the entries after one whose head is given: it is made anew only where a line begins otherwise than
/// the line before.
fn push_others(
    text: &mut Vec<u8>,
    head: &mut Vec<u8>,
    config: &Config,
    first: &Entry,
    others: &[Entry],
) -> Result<(), AllocError>
    requires { head.old.items ≡ head_text config.now (entry_head first.now) }
    ensures { OnOk result
        (text.new.items ≡ text.old.items ++ entries_text config.now others.now) }
{
    let mut last = first;
    for entry in others {
        make_head(head, config, last, entry)?;
        push_entry_after(text, config, head, entry)?;
        last = entry;
    }
    Ok(())
}
