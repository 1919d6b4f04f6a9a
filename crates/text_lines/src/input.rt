//! What is read, and whether it can fail.

ghost use Rattle.std.specs.Prelude.{◌≡◌, ◌≤◌, Bool, false, true, length, IfOk, IsOk};
ghost use Rattle.std.specs.Io.KnownBytes.{ReadConsumes};

use std::io::{self, Read};
use std::marker::Model;

/// A reader that tells contracts whether its calls can fail. The code that reads can't know: so where a contract says of
/// readers that can't fail that the reading doesn't break off, it breaks off for no reader unless a call failed.
pub trait Input: Read {
    /// Whether a call may answer an error.
    ghost can_fail: { Bool };

    /// One call of the reader.
    fn read_input(&mut self, buffer: &mut [u8]) -> io::Result<usize>
        ensures bound { IfOk result (λ count. count ≤ length buffer.new) }
        ensures bytes { ReadConsumes (Self.remaining self.old) (Self.remaining self.new) result
            buffer.new }
        ensures sure { can_fail ≡ false → IsOk result };
}

impl Input for &[u8] {
    ghost can_fail = { false };

    fn read_input(&mut self, buffer: &mut [u8]) -> io::Result<usize> {
        self.read(buffer)
    }
}

/// Any reader: its calls may fail.
#[derive(Drop)]
pub struct AnyReader<R: Read> {
    reader: R,
}

impl<R: Read> Model for AnyReader<R> {
    ghost use Rattle.std.specs.Prelude.{ℕ, List, Option};

    ghost Value = { Option (List ℕ) };

    ghost view = { λ s. R.remaining s.reader };
}

impl<R: Read> AnyReader<R> {
    /// This reader.
    pub fn new(reader: R) -> Self
        ensures { result ≡ R.remaining reader }
    {
        AnyReader { reader }
    }
}

impl<R: Read> Read for AnyReader<R> {
    ghost remaining = { λ known. known };

    fn read(&mut self, buffer: &mut [u8]) -> io::Result<usize> {
        self.reader.read(buffer)
    }
}

impl<R: Read> Input for AnyReader<R> {
    ghost can_fail = { true };

    fn read_input(&mut self, buffer: &mut [u8]) -> io::Result<usize> {
        self.reader.read(buffer)
    }
}
