//! A reader whose calls are counted.

ghost use Rattle.std.specs.Prelude.{◌≡◌, ◌≤◌, false, length, IfOk, IsOk};
ghost use Rattle.std.specs.Io.KnownBytes.{ReadConsumes};
ghost use Rattle.text_lines.specs.claims.CountedReader.{calls_after};

use crate::input::Input;
use std::io::{self, Read};
use std::marker::Model;

/// A reader, and how many calls were made of it; the count stays at the greatest `u64`. Nothing else calls the reader,
/// and nothing sets the count back.
#[derive(Drop)]
pub struct CountedReader<R: Read> {
    reader: R,
    calls: u64,
}

impl<R: Read> Model for CountedReader<R> {
    ghost use Rattle.text_lines.specs.CountedReader.{Counted};

    ghost Value = { Counted };

    ghost view = { λ s. record { unread = R.remaining s.reader; calls = s.calls } };
}

impl<R: Input> CountedReader<R> {
    /// No call was made yet.
    pub fn new(reader: R) -> Self
        ensures { result ≡ record { unread = R.remaining reader; calls = 0 } }
    {
        CountedReader { reader, calls: 0 }
    }

    /// One call of the reader.
    pub fn read(&mut self, buffer: &mut [u8]) -> io::Result<usize>
        ensures bound { IfOk result (λ count. count ≤ length buffer.new) }
        ensures bytes { ReadConsumes self.old.unread self.new.unread result buffer.new }
        ensures counted { self.new.calls ≡ calls_after self.old.calls 1 }
        ensures sure { R.can_fail ≡ false → IsOk result }
    {
        self.calls = self.calls.saturating_add(1);
        self.reader.read_input(buffer)
    }
}
