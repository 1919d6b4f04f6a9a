//! Writers that the tests of commands write to.

ghost use Rattle.std.specs.Prelude.{false, true};

use command_output::Sink;
use std::cell::Cell;
use std::io::{self, ErrorKind, Write};

/// A writer that counts the bytes that it takes.
#[derive(Drop)]
pub(crate) struct Counting<'a> {
    /// How many it took.
    pub(crate) written: &'a Cell<usize>,
}

impl Write for Counting<'_> {
    fn write(&mut self, buf: &[u8]) -> io::Result<usize> {
        self.write_some(buf)
    }

    fn flush(&mut self) -> io::Result<()> {
        Ok(())
    }
}

impl Sink for Counting<'_> {
    ghost can_fail = { false };

    fn write_some(&mut self, bytes: &[u8]) -> io::Result<usize> {
        self.written
            .set(self.written.get().saturating_add(bytes.len()));
        Ok(bytes.len())
    }
}

/// A writer that takes five bytes at a call, and from the call of this number on fails, or takes nothing.
#[derive(Drop)]
pub(crate) struct Stubborn {
    /// How many calls are left that take something.
    pub(crate) calls: usize,
    /// Whether it fails then.
    pub(crate) fails: bool,
    /// What it took.
    pub(crate) taken: Vec<u8>,
}

impl Write for Stubborn {
    fn write(&mut self, buf: &[u8]) -> io::Result<usize> {
        if self.calls == 0 {
            return if self.fails {
                Err(io::Error::from(ErrorKind::Other))
            } else {
                Ok(0)
            };
        }
        self.calls -= 1;
        let count = buf.len().min(5);
        self.taken.extend_from_slice(&buf[..count])?;
        Ok(count)
    }

    fn flush(&mut self) -> io::Result<()> {
        Ok(())
    }
}

impl Sink for Stubborn {
    ghost can_fail = { true };

    fn write_some(&mut self, bytes: &[u8]) -> io::Result<usize> {
        self.write(bytes)
    }
}
