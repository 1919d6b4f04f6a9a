//! The lines that a command writes: each is made, held back with others, and written.

ghost use Rattle.std.specs.Prelude.{◌≡◌, [], ◌++◌, IfErr, IfOk, OnOk};
ghost use Rattle.command_output.specs.claims.Outcome.{IsWriteFault};
ghost use Rattle.written.specs.claims.Written.{Leaves, WritesFront};
ghost use Rattle.command_output.specs.claims.OutputLine.{entries_text, line_text};

use crate::outcome::CommandFault;
use crate::output::Buffer;
use crate::output_line::{OutputLine, push_entries, push_line};
use crate::sink::Sink;
use due_model::config::Config;
use messages::entries::Entry;
use std::alloc::{AllocError, Global};
use std::marker::Model;

/// How many lines of entries are made before they are written.
const TOGETHER: usize = 64;

/// The lines of a command on their way to a writer. Contracts see the bytes that are held back.
#[derive(Drop)]
pub struct Lines {
    buffer: Buffer,
    /// The line, or the lines of entries, that are being made.
    line: Vec<u8>,
    /// What the last line of an entry begins with, after its letter.
    head: Vec<u8>,
}

impl Model for Lines {
    ghost use Rattle.std.specs.Prelude.{ℕ, List};

    ghost Value = { List ℕ };

    ghost view = { λ s. s.buffer };
}

impl Lines {
    /// Nothing is held back yet.
    pub fn new(alloc: Global) -> Result<Lines, AllocError>
        ensures { IfOk result (λ lines. lines ≡ []) }
    {
        Ok(Lines {
            buffer: Buffer::new(alloc)?,
            line: Vec::new(alloc),
            head: Vec::new(alloc),
        })
    }

    /// Writes a line, now or with later ones. After `Err` nothing more is to be written.
    pub fn write<W: Sink>(
        &mut self,
        writer: &mut W,
        config: &Config,
        line: &OutputLine<'_>,
    ) -> Result<(), CommandFault>
        ensures ok { OnOk result (Leaves (W.contents writer.old) (W.contents writer.new)
            (self.old ++ line_text config.now line.now) self.new) }
        ensures front { WritesFront (W.contents writer.old) (W.contents writer.new)
            (self.old ++ line_text config.now line.now) }
        ensures fault { IfErr result (λ fault. IsWriteFault W.can_fail fault) }
    {
        self.line.clear();
        if push_line(&mut self.line, config, line).is_err() {
            return Err(self.out_of_memory(writer));
        }
        self.buffer.push(writer, &self.line)?;
        Ok(())
    }

    /// Writes the lines of entries, in order, now or with later ones. After `Err` nothing more is to be written. What the
    /// lines begin with is made once where the lines after each other are of one event and one object.
    pub fn write_entries<W: Sink>(
        &mut self,
        writer: &mut W,
        config: &Config,
        entries: &[Entry],
    ) -> Result<(), CommandFault>
        ensures ok { OnOk result (Leaves (W.contents writer.old) (W.contents writer.new)
            (self.old ++ entries_text config.now entries.now) self.new) }
        ensures front { WritesFront (W.contents writer.old) (W.contents writer.new)
            (self.old ++ entries_text config.now entries.now) }
        ensures fault { IfErr result (λ fault. IsWriteFault W.can_fail fault) }
    {
        let mut rest = entries;
        while !rest.is_empty() {
            let (next, later) = rest.split_at(rest.len().min(TOGETHER));
            self.write_together(writer, config, next)?;
            rest = later;
        }
        Ok(())
    }

    /// Makes the lines of these entries, and then writes them.
    fn write_together<W: Sink>(
        &mut self,
        writer: &mut W,
        config: &Config,
        entries: &[Entry],
    ) -> Result<(), CommandFault>
        ensures ok { OnOk result (Leaves (W.contents writer.old) (W.contents writer.new)
            (self.old ++ entries_text config.now entries.now) self.new) }
        ensures front { WritesFront (W.contents writer.old) (W.contents writer.new)
            (self.old ++ entries_text config.now entries.now) }
        ensures fault { IfErr result (λ fault. IsWriteFault W.can_fail fault) }
    {
        self.line.clear();
        if push_entries(&mut self.line, &mut self.head, config, entries).is_err() {
            return Err(self.out_of_memory(writer));
        }
        let made = self.line.as_slice();
        self.buffer.push(writer, made)?;
        Ok(())
    }

    /// Writes what is held back, since nothing more will come for want of memory.
    pub fn out_of_memory<W: Sink>(&mut self, writer: &mut W) -> CommandFault
        ensures front { WritesFront (W.contents writer.old) (W.contents writer.new) self.old }
        ensures fault { result ≡ CommandFault.NoMemory }
    {
        let _ = self.buffer.flush(writer);
        CommandFault::NoMemory
    }

    /// Writes all that is held back. After `Err` nothing more is to be written.
    pub fn flush<W: Sink>(&mut self, writer: &mut W) -> Result<(), CommandFault>
        ensures ok { OnOk result
            (Leaves (W.contents writer.old) (W.contents writer.new) self.old []) }
        ensures front { WritesFront (W.contents writer.old) (W.contents writer.new) self.old }
        ensures empty { self.new ≡ [] }
        ensures fault { IfErr result (λ fault. IsWriteFault W.can_fail fault) }
    {
        self.buffer.flush(writer)?;
        Ok(())
    }
}
