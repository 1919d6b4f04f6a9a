//! A writer of the lines of a report, which passes them on as objects of JSON.

ghost use Rattle.std.specs.Prelude.{◌≡◌, ◌≤◌, length, take, IfOk, OnOk};
ghost use Rattle.json_report.specs.Lines.{after_bytes, bytes_text, start};
ghost use Rattle.written.specs.claims.Written.{Writes};

use crate::line::Line;
use due_model::zone::Zone;
use std::alloc::Global;
use std::io::{self, ErrorKind, Write};
use zone_times::clock::ZoneClock;

/// How many bytes are passed on together.
const TOGETHER: usize = 4096;

/// A writer that is given the lines of a report, and writes each to another one as an object of JSON. It doesn't say what it was given. After an error
/// nothing more is to be written.
#[derive(Drop)]
pub struct JsonWriter<'a, W: Write> {
    clock: ZoneClock<'a>,
    line: Line,
    /// The text of the bytes that are passed on.
    text: Vec<u8>,
    writer: W,
}

impl<'a, W: Write> JsonWriter<'a, W> {
    /// One that was given nothing yet, for local times in a zone.
    pub fn new(alloc: Global, zone: &'a Zone, writer: W) -> JsonWriter<'a, W>
        ensures zone { result.clock ≡ zone.now }
        ensures line { result.line ≡ start }
        ensures writer { W.contents result.writer ≡ W.contents writer }
    {
        JsonWriter {
            clock: ZoneClock::new(zone),
            line: Line::new(alloc),
            text: Vec::new(alloc),
            writer,
        }
    }

    /// Passes bytes on, all of them where it goes well.
    fn pass(&mut self, bytes: &[u8]) -> io::Result<()>
        ensures text { OnOk result (Writes (W.contents self.old.writer) (W.contents self.new.writer)
            (bytes_text self.old.clock self.old.line bytes.now)) }
        ensures line { OnOk result (self.new.line ≡ after_bytes self.old.line bytes.now) }
        ensures clock { self.new.clock ≡ self.old.clock }
    {
        self.text.clear();
        if self
            .line
            .push_bytes(&mut self.text, &self.clock, bytes)
            .is_err()
        {
            return Err(io::Error::from(ErrorKind::OutOfMemory));
        }
        self.writer.write_all(self.text.as_slice())
    }

    /// Writes a front of the bytes, as objects of JSON, and says how long it is.
    pub fn write_front(&mut self, bytes: &[u8]) -> io::Result<usize>
        ensures bound { IfOk result (λ count. count ≤ length bytes.now) }
        ensures text { IfOk result (λ count. Writes (W.contents self.old.writer)
            (W.contents self.new.writer)
            (bytes_text self.old.clock self.old.line (take count bytes.now))) }
        ensures line { IfOk result (λ count.
            self.new.line ≡ after_bytes self.old.line (take count bytes.now)) }
        ensures clock { self.new.clock ≡ self.old.clock }
    {
        let count = bytes.len().min(TOGETHER);
        self.pass(&bytes[..count])?;
        Ok(count)
    }
}

impl<W: Write> Write for JsonWriter<'_, W> {
    ghost use Rattle.std.specs.Prelude.{None};

    ghost contents = { λ _. None };

    fn write(&mut self, bytes: &[u8]) -> io::Result<usize> {
        self.write_front(bytes)
    }

    fn flush(&mut self) -> io::Result<()> {
        self.writer.flush()
    }
}
