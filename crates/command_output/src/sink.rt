//! What is written to, and whether it can fail.

ghost use Rattle.std.specs.Prelude.{◌≡◌, ◌<◌, Bool, false, true, length, IfOk, IsOk};
ghost use Rattle.std.specs.Io.{WritesAtMost};
ghost use Rattle.std.specs.Io.KnownBytes.{WriteAppends};

use std::io::{self, Write};
use std::marker::Model;

/// A writer that tells contracts whether its calls can fail. The code that writes can't know: so where a contract says of
/// writers that can't fail that all is written, the writing breaks off for no writer unless a call failed.
pub trait Sink: Write {
    /// Whether a call may answer an error, or take nothing.
    ghost can_fail: { Bool };

    /// One call of the writer.
    fn write_some(&mut self, bytes: &[u8]) -> io::Result<usize>
        ensures bound { WritesAtMost result bytes.now }
        ensures bytes { WriteAppends (Self.contents self.old) (Self.contents self.new) result
            bytes.now }
        ensures sure { can_fail ≡ false → 0 < length bytes.now
            → IsOk result × IfOk result (λ count. 0 < count) };
}

/// A vector takes what there is memory for.
impl Sink for Vec<u8> {
    ghost can_fail = { true };

    fn write_some(&mut self, bytes: &[u8]) -> io::Result<usize> {
        self.write(bytes)
    }
}

/// Any writer: its calls may fail.
#[derive(Drop)]
pub struct AnyWriter<W: Write> {
    writer: W,
}

impl<W: Write> Model for AnyWriter<W> {
    ghost use Rattle.std.specs.Prelude.{ℕ, List, Option};

    ghost Value = { Option (List ℕ) };

    ghost view = { λ s. W.contents s.writer };
}

impl<W: Write> AnyWriter<W> {
    /// This writer.
    pub fn new(writer: W) -> Self
        ensures { result ≡ W.contents writer }
    {
        AnyWriter { writer }
    }
}

impl<W: Write> Write for AnyWriter<W> {
    ghost contents = { λ known. known };

    fn write(&mut self, bytes: &[u8]) -> io::Result<usize> {
        self.writer.write(bytes)
    }

    fn flush(&mut self) -> io::Result<()> {
        self.writer.flush()
    }
}

impl<W: Write> Sink for AnyWriter<W> {
    ghost can_fail = { true };

    fn write_some(&mut self, bytes: &[u8]) -> io::Result<usize> {
        self.writer.write(bytes)
    }
}
