//! What a teller writes: a buffer before a writer.

ghost use Rattle.std.specs.Prelude.{◌≡◌, ◌+◌, ◌≤◌, [], ◌++◌, length, vec_len};
ghost use Rattle.std.specs.Prelude.{vec_capacity, IfErr, IfOk, OnOk};
ghost use Rattle.command_output.specs.claims.Outcome.{IsWriteFault};
ghost use Rattle.written.specs.claims.Written.{Leaves, WritesFront};

use command_output::{CommandFault, Sink};
use std::alloc::{AllocError, Global};
use std::marker::Model;

/// How many bytes are held back before they are written.
const ROOM: usize = 65_536;

/// Bytes that are still to be written. Contracts see them as a list.
#[derive(Drop)]
pub(crate) struct Buffer {
    bytes: Vec<u8>,
}

impl Model for Buffer {
    ghost use Rattle.std.specs.Prelude.{◌≤◌, ℕ, List, vec_len, vec_capacity};

    ghost Value = { List ℕ };

    ghost view = { λ s. s.bytes.items };

    ghost invariant = { λ s. (vec_len s.bytes ≤ 65536) × (65536 ≤ vec_capacity s.bytes) };
}

impl Buffer {
    /// A buffer with nothing in it. It takes all its memory now.
    pub(crate) fn new(alloc: Global) -> Result<Buffer, AllocError>
        ensures { IfOk result (λ buffer. buffer ≡ []) }
    {
        Ok(Buffer {
            bytes: Vec::with_capacity(alloc, ROOM)?,
        })
    }

    /// Adds bytes, and writes those before them where there is no room. After `Err` nothing more is to be
    /// written.
    pub(crate) fn push<W: Sink>(&mut self, writer: &mut W, bytes: &[u8]) -> Result<(), CommandFault>
        ensures ok { OnOk result
            (Leaves (W.contents writer.old) (W.contents writer.new)
            (self.old ++ bytes.now) self.new) }
        ensures front { WritesFront (W.contents writer.old) (W.contents writer.new)
            (self.old ++ bytes.now) }
        ensures fault { IfErr result (λ fault. IsWriteFault W.can_fail fault) }
    {
        if bytes.len() <= ROOM - self.bytes.len() {
            append(&mut self.bytes, bytes);
            return Ok(());
        }
        self.flush(writer)?;
        if bytes.len() > ROOM {
            return write_whole(writer, bytes);
        }
        append(&mut self.bytes, bytes);
        Ok(())
    }

    /// Writes all that is held back. After `Err` nothing more is to be written.
    pub(crate) fn flush<W: Sink>(&mut self, writer: &mut W) -> Result<(), CommandFault>
        ensures ok { OnOk result
            (Leaves (W.contents writer.old) (W.contents writer.new) self.old []) }
        ensures front { WritesFront (W.contents writer.old) (W.contents writer.new) self.old }
        ensures fault { IfErr result (λ fault. IsWriteFault W.can_fail fault) }
        ensures empty { self.new ≡ [] }
    {
        let written = write_whole(writer, &self.bytes);
        self.bytes.clear();
        written
    }
}

/// Adds bytes for which there is room.
fn append(held: &mut Vec<u8>, bytes: &[u8])
    requires { vec_len held.old + length bytes.now ≤ vec_capacity held.old }
    ensures items { held.new.items ≡ held.old.items ++ bytes.now }
    ensures capacity { vec_capacity held.old ≤ vec_capacity held.new }
{
    let Ok(()) = held.extend_from_slice(bytes) else {
        unreachable!()
    };
}

/// Writes all of the bytes, in as many calls as the writer wants. Where it fails or takes nothing, a front of
/// them was written.
fn write_whole<W: Sink>(writer: &mut W, bytes: &[u8]) -> Result<(), CommandFault>
    ensures ok { OnOk result (Leaves (W.contents writer.old) (W.contents writer.new) bytes.now []) }
    ensures front { WritesFront (W.contents writer.old) (W.contents writer.new) bytes.now }
    ensures fault { IfErr result (λ fault. IsWriteFault W.can_fail fault) }
{
    let mut rest = bytes;
    while !rest.is_empty() {
        match writer.write_some(rest) {
            Ok(0) | Err(_) => return Err(CommandFault::Output),
            Ok(count) => rest = &rest[count..],
        }
    }
    Ok(())
}
