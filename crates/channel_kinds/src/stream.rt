//! What the letters of a device are written to, and where its answers are read from.

ghost use Rattle.std.specs.Prelude.{◌≡◌, false};

use std::io::{self, Read, Write};
use std::marker::Model;

/// A writer that tells contracts what was flushed, and how often it was read from.
pub trait Outlet: Write + Drop {
    ghost use Rattle.std.specs.Prelude.{◌≡◌, ℕ, Bool, true, OnOk};
    ghost use Rattle.std.specs.Io.{WritesAtMost};
    ghost use Rattle.std.specs.Io.KnownBytes.{Keeps, WriteAppends};

    // Whether all that was written was flushed.
    ghost is_flushed: { Self → Bool };

    // How many calls were made to read from it, up to 2^64 - 1.
    ghost reads: { Self → ℕ };

    /// One call of the writer.
    fn write_out(&mut self, bytes: &[u8]) -> io::Result<usize>
        ensures bound { WritesAtMost result bytes.now }
        ensures bytes { WriteAppends (Self.contents self.old) (Self.contents self.new) result bytes.now }
        ensures reads { reads self.new ≡ reads self.old };

    /// Flushes what was written.
    fn flush_out(&mut self) -> io::Result<()>
        ensures bytes { Keeps (Self.contents self.old) (Self.contents self.new) }
        ensures flushed { OnOk result (is_flushed self.new ≡ true) }
        ensures reads { reads self.new ≡ reads self.old };
}

/// A stream to a peer: what is read from it are the peer's answers.
pub trait Stream: Outlet + Read {
    ghost use Rattle.std.specs.Prelude.{◌≡◌};
    ghost use Rattle.std.specs.Io.{ReadsAtMost};
    ghost use Rattle.std.specs.Io.KnownBytes.{ReadConsumes};
    ghost use Rattle.channel_kinds.specs.Stream.{one_more};

    /// One call to read.
    fn read_in(&mut self, buffer: &mut [u8]) -> io::Result<usize>
        ensures bound { ReadsAtMost result buffer.new }
        ensures bytes { ReadConsumes (Self.remaining self.old) (Self.remaining self.new) result buffer.new }
        ensures flushed { Self.is_flushed self.new ≡ Self.is_flushed self.old }
        ensures reads { Self.reads self.new ≡ one_more (Self.reads self.old) };
}

/// Any writer.
#[derive(Drop)]
pub struct AnyOutlet<W: Write + Drop> {
    writer: W,
    /// Whether it was flushed after it was written to last.
    is_flushed: bool,
}

impl<W: Write + Drop> Model for AnyOutlet<W> {
    ghost use Rattle.channel_kinds.specs.Stream.{Written};

    ghost Value = { Written W };

    ghost view = { λ s. record { writer = s.writer; is_flushed = s.is_flushed } };
}

impl<W: Write + Drop> AnyOutlet<W> {
    /// This writer, of which it isn't known what was flushed.
    pub fn new(writer: W) -> AnyOutlet<W>
        ensures writer { result.writer ≡ writer }
        ensures is_flushed { result.is_flushed ≡ false }
    {
        AnyOutlet {
            writer,
            is_flushed: false,
        }
    }

    /// The writer as it is.
    pub fn into_inner(self) -> W
        ensures { result ≡ self.writer }
    {
        let AnyOutlet {
            writer,
            is_flushed: _,
        } = self;
        writer
    }
}

impl<W: Write + Drop> Write for AnyOutlet<W> {
    ghost contents = { λ s. W.contents s.writer };

    fn write(&mut self, bytes: &[u8]) -> io::Result<usize> {
        self.is_flushed = false;
        self.writer.write(bytes)
    }

    fn flush(&mut self) -> io::Result<()> {
        self.writer.flush()
    }
}

impl<W: Write + Drop> Outlet for AnyOutlet<W> {
    ghost is_flushed = { λ s. s.is_flushed };

    ghost reads = { λ _. 0 };

    fn write_out(&mut self, bytes: &[u8]) -> io::Result<usize> {
        self.write(bytes)
    }

    fn flush_out(&mut self) -> io::Result<()> {
        let flushed = self.writer.flush();
        self.is_flushed = flushed.is_ok();
        flushed
    }
}

/// Any stream.
#[derive(Drop)]
pub struct AnyStream<S: Read + Write + Drop> {
    stream: S,
    /// Whether it was flushed after it was written to last.
    is_flushed: bool,
    /// How many calls were made to read, up to `u64::MAX`.
    reads: u64,
}

impl<S: Read + Write + Drop> Model for AnyStream<S> {
    ghost use Rattle.channel_kinds.specs.Stream.{Streamed};

    ghost Value = { Streamed S };

    ghost view = { λ s. record { stream = s.stream; is_flushed = s.is_flushed; reads = s.reads } };
}

impl<S: Read + Write + Drop> AnyStream<S> {
    /// This stream, from which nothing was read, and of which it isn't known what was flushed.
    pub fn new(stream: S) -> AnyStream<S>
        ensures stream { result.stream ≡ stream }
        ensures is_flushed { result.is_flushed ≡ false }
        ensures reads { result.reads ≡ 0 }
    {
        AnyStream {
            stream,
            is_flushed: false,
            reads: 0,
        }
    }

    /// The stream as it is.
    pub fn into_inner(self) -> S
        ensures { result ≡ self.stream }
    {
        let AnyStream {
            stream,
            is_flushed: _,
            reads: _,
        } = self;
        stream
    }
}

impl<S: Read + Write + Drop> Read for AnyStream<S> {
    ghost remaining = { λ s. S.remaining s.stream };

    fn read(&mut self, buffer: &mut [u8]) -> io::Result<usize> {
        self.reads = self.reads.saturating_add(1);
        self.stream.read(buffer)
    }
}

impl<S: Read + Write + Drop> Write for AnyStream<S> {
    ghost contents = { λ s. S.contents s.stream };

    fn write(&mut self, bytes: &[u8]) -> io::Result<usize> {
        self.is_flushed = false;
        self.stream.write(bytes)
    }

    fn flush(&mut self) -> io::Result<()> {
        self.stream.flush()
    }
}

impl<S: Read + Write + Drop> Outlet for AnyStream<S> {
    ghost is_flushed = { λ s. s.is_flushed };

    ghost reads = { λ s. s.reads };

    fn write_out(&mut self, bytes: &[u8]) -> io::Result<usize> {
        self.is_flushed = false;
        self.stream.write(bytes)
    }

    fn flush_out(&mut self) -> io::Result<()> {
        let flushed = self.stream.flush();
        self.is_flushed = flushed.is_ok();
        flushed
    }
}

impl<S: Read + Write + Drop> Stream for AnyStream<S> {
    fn read_in(&mut self, buffer: &mut [u8]) -> io::Result<usize> {
        self.reads = self.reads.saturating_add(1);
        self.stream.read(buffer)
    }
}
