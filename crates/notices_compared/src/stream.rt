//! A comparison over a feed, as it comes.

ghost use Rattle.std.specs.Prelude.{◌≡◌, [], false, length, None, IfErr, IfOk, OnOk};
ghost use Rattle.command_output.specs.claims.Outcome.{IsWriteFault};
ghost use Rattle.contact_tallies.specs.Tallies.{AreTallies};
ghost use Rattle.decider.specs.claims.Fits.{Fits, core_kept};
ghost use Rattle.notices_compared.specs.Stream.{WritesChanges, WritesChangesFront};
ghost use Rattle.text_lines.specs.claims.Lines.{has_line};
ghost use Rattle.written.specs.claims.Written.{Leaves, WritesFront};

use crate::comparison::Comparison;
use command_output::{CommandFault, Ending, Sink};
use paired_feed::PairedFeed;
use std::alloc::Global;
use text_lines::Input;

/// How many bytes are held back before they are written.
const ROOM: usize = 65_536;

/// Writes the changes that each line of a feed makes, as it comes, and at its end the table.
pub(crate) fn write_changes<R: Input + Drop, W: Sink>(
    alloc: Global,
    feed: &mut PairedFeed<R>,
    both: &mut Comparison<'_>,
    writer: &mut W,
) -> Result<Ending, CommandFault>
    requires goes_on { feed.old.feeder.stop ≡ None }
    requires zones { (both.old.before.zone.now ≡ both.old.clock)
        × (both.old.after.zone.now ≡ both.old.clock) }
    requires fits_before { Fits (core_kept both.old.before.decider) [] }
    requires fits_after { Fits (core_kept both.old.after.decider) [] }
    requires ended { (both.old.before.ended ≡ false) × (both.old.after.ended ≡ false) }
    requires told_before { AreTallies both.old.clock
        (length both.old.before.config.now.contacts) [] both.old.told_before }
    requires told_after { AreTallies both.old.clock
        (length both.old.after.config.now.contacts) [] both.old.told_after }
    ensures ok { IfOk result (λ ending. WritesChanges both.old.form.form R.can_fail
        both.old.before.config.now both.old.after.config.now both.old.clock
        feed.old.feeder feed.old.last ending (W.contents writer.old) (W.contents writer.new)) }
    ensures front { WritesChangesFront both.old.form.form R.can_fail
        both.old.before.config.now both.old.after.config.now both.old.clock
        feed.old.feeder feed.old.last (W.contents writer.old) (W.contents writer.new) }
    ensures fault { IfErr result (λ fault. IsWriteFault W.can_fail fault) }
{
    let mut text = Vec::new(alloc);
    loop {
        write_before_wait(writer, feed, &mut text)?;
        match feed.next(both.before.config, both.after.config) {
            Some(pair) => both.take(pair, &mut text)?,
            None => {
                both.push_table(&mut text)?;
                write_all(writer, &mut text)?;
                return Ok(both.ending(feed.stop()));
            }
        }
    }
}

/// Writes all that is held back where it is much, or no line of the feed is there to be read: then the next call of the reader may
/// wait.
fn write_before_wait<R: Input + Drop, W: Sink>(
    writer: &mut W,
    feed: &PairedFeed<R>,
    text: &mut Vec<u8>,
) -> Result<(), CommandFault>
    ensures ok { OnOk result (Leaves (W.contents writer.old) (W.contents writer.new)
        text.old.items text.new.items) }
    ensures all { OnOk result (has_line feed.now.feeder.held ≡ false → text.new.items ≡ []) }
    ensures front { WritesFront (W.contents writer.old) (W.contents writer.new) text.old.items }
    ensures fault { IfErr result (λ fault. IsWriteFault W.can_fail fault) }
{
    if text.len() < ROOM && feed.has_line() {
        Ok(())
    } else {
        write_all(writer, text)
    }
}

/// Writes all of a text, in as many calls as the writer wants, and empties it. Where the writer fails or takes nothing, a front of
/// it was written.
fn write_all<W: Sink>(writer: &mut W, text: &mut Vec<u8>) -> Result<(), CommandFault>
    ensures ok { OnOk result (Leaves (W.contents writer.old) (W.contents writer.new)
        text.old.items text.new.items) }
    ensures empty { text.new.items ≡ [] }
    ensures front { WritesFront (W.contents writer.old) (W.contents writer.new) text.old.items }
    ensures fault { IfErr result (λ fault. IsWriteFault W.can_fail fault) }
{
    let written = write_whole(writer, text.as_slice());
    text.clear();
    written
}

/// Writes all of the bytes. Where the writer fails or takes nothing, a front of them was written.
fn write_whole<W: Sink>(writer: &mut W, bytes: &[u8]) -> Result<(), CommandFault>
    ensures ok { OnOk result (Leaves (W.contents writer.old) (W.contents writer.new) bytes.now []) }
    ensures front { WritesFront (W.contents writer.old) (W.contents writer.new) bytes.now }
    ensures fault { IfErr result (λ fault. IsWriteFault W.can_fail fault) }
{
    let mut rest = bytes;
    while !rest.is_empty() {
        match writer.write_some(rest) {
            Ok(0) | Err(_) => return Err(CommandFault::Output),
            Ok(count) => rest = &rest[count..],
        }
    }
    Ok(())
}
