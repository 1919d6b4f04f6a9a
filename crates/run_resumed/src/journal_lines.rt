//! The lines of what a run's journals come to.

ghost use Rattle.std.specs.Prelude.{◌≡◌, ◌++◌, ℕ, List, Some, map, slice_get, IfOk, OnOk};
ghost use Rattle.run_resumed.specs.JournalLines.{HasLines, IsLine, taken_by};
ghost use Rattle.written.specs.claims.Written.{Writes, WritesFront};

use crate::posts::ResumedChannel;
use channel::Channel;
use command_output::{CommandFault, Sink};
use due_model::config::{Config, LaneId};
use due_model::notice::Notice;
use earlier_runs::{LaneState, push_tally, tally_of};
use std::alloc::{AllocError, Global};

/// What the channels of a lane took, one after another. A refused growth is the only error.
fn taken_by(alloc: Global, channels: &[ResumedChannel]) -> Result<Vec<Notice>, AllocError>
    ensures { IfOk result (λ taken. taken.items ≡ taken_by channels.now) }
{
    let mut taken = Vec::new(alloc);
    for channel in channels {
        push_taken(&mut taken, channel)?;
    }
    Ok(taken)
}

/// Adds what a channel took.
fn push_taken(taken: &mut Vec<Notice>, channel: &ResumedChannel) -> Result<(), AllocError>
    ensures { OnOk result (taken.new.items
        ≡ taken.old.items ++ map (λ receipt. receipt.notice) channel.now.kept.taken) }
{
    for receipt in channel.taken() {
        taken.push(receipt.notice)?;
    }
    Ok(())
}

/// Adds the line of a lane, whose channels these are.
fn push_lane(
    text: &mut Vec<u8>,
    alloc: Global,
    config: &Config,
    lane: LaneId,
    state: &LaneState,
    channels: &[ResumedChannel],
) -> Result<(), AllocError>
    ensures { OnOk result ((line : List ℕ) × (text.new.items ≡ text.old.items ++ line)
        × IsLine config.now lane.0 (Some state.now) (Some channels.now) line) }
{
    let taken = taken_by(alloc, channels)?;
    let tally = tally_of(alloc, &state.past, state.earlier, &taken)?;
    push_tally(text, config, lane, tally)?;
    Ok(())
}

/// Adds the line of the lane of this number, if there is one.
fn push_number(
    text: &mut Vec<u8>,
    alloc: Global,
    config: &Config,
    number: u8,
    states: &[LaneState],
    channels: &[Vec<ResumedChannel>],
) -> Result<(), AllocError>
    ensures { OnOk result ((line : List ℕ) × (text.new.items ≡ text.old.items ++ line)
        × IsLine config.now number (slice_get states.now number)
        (slice_get (map (λ cs. cs.items) channels.now) number) line) }
{
    let place = usize::from(number);
    let Some(state) = states.get(place) else {
        return Ok(());
    };
    let Some(of_lane) = channels.get(place) else {
        return Ok(());
    };
    push_lane(text, alloc, config, LaneId(number), state, of_lane)?;
    Ok(())
}

/// The lines of all lanes, in order.
fn lines_of(
    alloc: Global,
    config: &Config,
    states: &[LaneState],
    channels: &[Vec<ResumedChannel>],
) -> Result<Vec<u8>, AllocError>
    ensures { IfOk result (λ text. HasLines config.now states.now (map (λ cs. cs.items) channels.now) 256 text.items) }
{
    let mut text = Vec::new(alloc);
    for number in 0..256_u16 {
        push_number(&mut text, alloc, config, number as u8, states, channels)?;
    }
    Ok(text)
}

/// Writes all of the bytes, in as many calls as the writer wants. Where it fails or takes nothing, a front of them was written.
fn write_whole<W: Sink>(writer: &mut W, bytes: &[u8]) -> Result<(), CommandFault>
    ensures ok { OnOk result (Writes (W.contents writer.old) (W.contents writer.new) bytes.now) }
    ensures front { WritesFront (W.contents writer.old) (W.contents writer.new) bytes.now }
{
    let mut rest = bytes;
    while !rest.is_empty() {
        match writer.write_some(rest) {
            Ok(0) | Err(_) => return Err(CommandFault::Output),
            Ok(count) => rest = &rest[count..],
        }
    }
    Ok(())
}

/// Writes the line of each lane.
pub(crate) fn write_journal_lines<W: Sink>(
    alloc: Global,
    config: &Config,
    states: &[LaneState],
    channels: &[Vec<ResumedChannel>],
    writer: &mut W,
) -> Result<(), CommandFault>
    ensures { OnOk result ((text : List ℕ)
        × HasLines config.now states.now (map (λ cs. cs.items) channels.now) 256 text
        × Writes (W.contents writer.old) (W.contents writer.new) text) }
{
    let text = lines_of(alloc, config, states, channels)?;
    write_whole(writer, &text)?;
    Ok(())
}
