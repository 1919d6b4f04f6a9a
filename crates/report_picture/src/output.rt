//! What is held back of a report before a writer.

ghost use Rattle.std.specs.Prelude.{◌≡◌, [], false, IfErr, OnOk};
ghost use Rattle.command_output.specs.claims.Outcome.{IsWriteFault};
ghost use Rattle.text_lines.specs.claims.Lines.{has_line};
ghost use Rattle.written.specs.claims.Written.{Leaves, WritesFront};

use command_output::{CommandFault, Sink};
use event_feed::Feeder;
use progress::{Progress, Watcher};
use text_lines::Input;

/// How many bytes are held back before they are written.
const ROOM: usize = 65_536;

/// Writes all that is held back where it is much, or no line of the feed is there to be read: then the next
/// call of the reader may wait, and a watcher is told how far it is.
pub(crate) fn write_before_wait<R: Input + Drop, W: Sink, P: Watcher>(
    text: &mut Vec<u8>,
    feeder: &Feeder<R>,
    writer: &mut W,
    watcher: &mut P,
    progress: Progress,
) -> Result<(), CommandFault>
    ensures ok { OnOk result (Leaves (W.contents writer.old) (W.contents writer.new)
        text.old.items text.new.items) }
    ensures all { OnOk result (has_line feeder.now.held ≡ false → text.new.items ≡ []) }
    ensures front { WritesFront (W.contents writer.old) (W.contents writer.new) text.old.items }
    ensures fault { IfErr result (λ fault. IsWriteFault W.can_fail fault) }
{
    watcher.make_way();
    if !feeder.has_line() {
        let written = write_all(text, writer);
        watcher.tell(progress);
        return written;
    }
    if text.len() < ROOM {
        Ok(())
    } else {
        write_all(text, writer)
    }
}

/// Writes all of a text, in as many calls as the writer wants, and empties it. Where the writer fails or
/// takes nothing, a front of it was written.
pub(crate) fn write_all<W: Sink>(text: &mut Vec<u8>, writer: &mut W) -> Result<(), CommandFault>
    ensures ok { OnOk result (Leaves (W.contents writer.old) (W.contents writer.new)
        text.old.items text.new.items) }
    ensures empty { text.new.items ≡ [] }
    ensures front { WritesFront (W.contents writer.old) (W.contents writer.new) text.old.items }
    ensures fault { IfErr result (λ fault. IsWriteFault W.can_fail fault) }
{
    let written = write_whole(writer, text.as_slice());
    text.clear();
    written
}

/// Writes all of the bytes. Where the writer fails or takes nothing, a front of them was written.
fn write_whole<W: Sink>(writer: &mut W, bytes: &[u8]) -> Result<(), CommandFault>
    ensures ok { OnOk result (Leaves (W.contents writer.old) (W.contents writer.new) bytes.now []) }
    ensures front { WritesFront (W.contents writer.old) (W.contents writer.new) bytes.now }
    ensures fault { IfErr result (λ fault. IsWriteFault W.can_fail fault) }
{
    let mut rest = bytes;
    while !rest.is_empty() {
        match writer.write_some(rest) {
            Ok(0) | Err(_) => return Err(CommandFault::Output),
            Ok(count) => rest = &rest[count..],
        }
    }
    Ok(())
}
