//! What a teller writes, on its way to the writer.

ghost use Rattle.std.specs.Prelude.{◌≡◌, [], ◌∷◌, ◌++◌, map, IfErr, IfOk, OnOk};
ghost use Rattle.command_output.specs.claims.Outcome.{IsWriteFault};
ghost use Rattle.written.specs.claims.Written.{Leaves, WritesFront};
ghost use Rattle.report_telling.specs.Told.{after_all, form_of, told_all};
ghost use Rattle.line_forms.specs.declared.report_line.ReportLine.TheVariants.{Decided};

use crate::output::Buffer;
use crate::tellers::Teller;
use command_output::{CommandFault, Sink};
use due_model::config::Config;
use line_forms::ReportLine;
use messages::entries::Entry;
use std::alloc::{AllocError, Global};
use zone_times::clock::ZoneClock;

/// A teller, and what it has written, some of it held back.
#[derive(Drop)]
pub(crate) struct ToldLines<T: Teller> {
    teller: T,
    /// What the teller writes of one line.
    text: Vec<u8>,
    buffer: Buffer,
}

impl<T: Teller> ToldLines<T> {
    /// Nothing was told yet.
    pub(crate) fn new(alloc: Global, teller: T) -> Result<Self, AllocError>
        ensures teller { IfOk result (λ lines. lines.teller ≡ teller) }
        ensures held { IfOk result (λ lines. lines.buffer ≡ []) }
    {
        Ok(ToldLines {
            teller,
            text: Vec::new(alloc),
            buffer: Buffer::new(alloc)?,
        })
    }

    /// Tells a line, and writes what the teller writes of it, now or later. After `Err` nothing more is to be written.
    pub(crate) fn tell<W: Sink>(
        &mut self,
        writer: &mut W,
        config: &Config,
        clock: &ZoneClock<'_>,
        line: &ReportLine,
    ) -> Result<(), CommandFault>
        ensures ok { OnOk result (Leaves (W.contents writer.old) (W.contents writer.new)
            (self.old.buffer ++ T.told self.old.teller config.now clock.now line.now) self.new.buffer) }
        ensures after { OnOk result
            (self.new.teller ≡ T.after self.old.teller config.now clock.now line.now) }
        ensures front { WritesFront (W.contents writer.old) (W.contents writer.new)
            (self.old.buffer ++ T.told self.old.teller config.now clock.now line.now) }
        ensures fault { IfErr result (λ fault. IsWriteFault W.can_fail fault) }
    {
        self.text.clear();
        if self
            .teller
            .tell(config, clock, line, &mut self.text)
            .is_err()
        {
            return Err(self.out_of_memory(writer));
        }
        self.buffer.push(writer, &self.text)?;
        Ok(())
    }

    /// Tells the lines of entries, in order.
    pub(crate) fn tell_entries<W: Sink>(
        &mut self,
        writer: &mut W,
        config: &Config,
        clock: &ZoneClock<'_>,
        entries: &[Entry],
    ) -> Result<(), CommandFault>
        ensures ok { OnOk result (Leaves (W.contents writer.old) (W.contents writer.new)
            (self.old.buffer ++ told_all (form_of T.told T.after T.ended config.now clock.now)
            self.old.teller (map Decided entries.now)) self.new.buffer) }
        ensures after { OnOk result (self.new.teller
            ≡ after_all (form_of T.told T.after T.ended config.now clock.now) self.old.teller
            (map Decided entries.now)) }
        ensures front { WritesFront (W.contents writer.old) (W.contents writer.new)
            (self.old.buffer ++ told_all (form_of T.told T.after T.ended config.now clock.now)
            self.old.teller (map Decided entries.now)) }
        ensures fault { IfErr result (λ fault. IsWriteFault W.can_fail fault) }
    {
        for entry in entries {
            self.tell(writer, config, clock, &ReportLine::Decided(*entry))?;
        }
        Ok(())
    }

    /// Writes what is held back, since nothing more will come for want of memory.
    pub(crate) fn out_of_memory<W: Sink>(&mut self, writer: &mut W) -> CommandFault
        ensures front { WritesFront (W.contents writer.old) (W.contents writer.new) self.old.buffer }
        ensures fault { result ≡ CommandFault.NoMemory }
    {
        let _ = self.buffer.flush(writer);
        CommandFault::NoMemory
    }

    /// Writes all that is held back. After `Err` nothing more is to be written.
    pub(crate) fn flush<W: Sink>(&mut self, writer: &mut W) -> Result<(), CommandFault>
        ensures ok { OnOk result
            (Leaves (W.contents writer.old) (W.contents writer.new) self.old.buffer []) }
        ensures front { WritesFront (W.contents writer.old) (W.contents writer.new) self.old.buffer }
        ensures empty { self.new.buffer ≡ [] }
        ensures teller { self.new.teller ≡ self.old.teller }
        ensures fault { IfErr result (λ fault. IsWriteFault W.can_fail fault) }
    {
        self.buffer.flush(writer)?;
        Ok(())
    }

    /// Tells the end, and writes all. After `Err` nothing more is to be written.
    pub(crate) fn finish<W: Sink>(
        &mut self,
        writer: &mut W,
        config: &Config,
        clock: &ZoneClock<'_>,
    ) -> Result<(), CommandFault>
        ensures ok { OnOk result (Leaves (W.contents writer.old) (W.contents writer.new)
            (self.old.buffer ++ T.ended self.old.teller config.now clock.now) []) }
        ensures front { WritesFront (W.contents writer.old) (W.contents writer.new)
            (self.old.buffer ++ T.ended self.old.teller config.now clock.now) }
        ensures fault { IfErr result (λ fault. IsWriteFault W.can_fail fault) }
    {
        self.text.clear();
        if self.teller.end(config, clock, &mut self.text).is_err() {
            return Err(self.out_of_memory(writer));
        }
        self.buffer.push(writer, &self.text)?;
        self.flush(writer)
    }
}
