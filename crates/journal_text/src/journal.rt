//! A lane's journal, read line by line.

ghost use Rattle.std.specs.Prelude.{◌≡◌, ◌+◌, ◌^◌, ◌≤◌, ℕ, [], ◌∷◌, false, Err, IfOk, IfSome, IsErrOf, None, OnOk};
ghost use Rattle.journal_text.specs.Entries.{entry_said, first_said};
ghost use Rattle.journal_text.specs.Told.{Gains, IsRead, IsTooMuch, Reads, ReadsEntries, Steps, journal_said};
ghost use Rattle.text_lines.specs.LineReader.{to_come};
ghost use Rattle.text_lines.specs.claims.Lines.{Known};

use crate::entry::Entry;
use crate::reading::{entry_of, first_of};
use due_model::config::{Config, LaneId};
use due_model::notice::Notice;
use std::alloc::{AllocError, Global};
use text_lines::{Input, LineReader, NextLine, Stop};

/// One line more than a journal may have.
const LAST_LINE: u64 = 4_294_967_296;

/// Why a journal isn't read.
#[derive(Clone, Copy, Debug, PartialEq, Eq)]
pub enum JournalFault {
    /// The whole line of this number, from 1 on, says nothing in this configuration, or isn't of this lane.
    Line(u64),
    /// The reader failed, a line has over 1,048,576 bytes or took 65,536 calls of it, or there are 4,294,967,296 lines.
    Unreadable,
    /// Memory ran out.
    NoMemory,
}

impl From<AllocError> for JournalFault {
    ghost use Rattle.journal_text.specs.declared.journal.JournalFault.TheVariants.{NoMemory};

    ghost from_gives = { λ _ fault. fault ≡ NoMemory };

    fn from(_error: AllocError) -> JournalFault {
        JournalFault::NoMemory
    }
}

/// What was read of a journal.
#[derive(Drop)]
pub struct ReadJournal {
    /// From which event on its letters are handed over; none where not even its first line is whole.
    pub from: Option<u64>,
    /// What was taken or given up, in the order of the lines.
    pub settled: Vec<Notice>,
    /// What was about to be handed over, in the order of the lines.
    pub begun: Vec<Notice>,
    /// How many bytes its whole lines have, with their newlines. What stands after them is a piece of a line: a kill has cut it.
    pub whole: u64,
}

impl ReadJournal {
    /// Nothing was read.
    fn new(alloc: Global) -> ReadJournal
        ensures from { result.from ≡ None }
        ensures settled { result.settled.items ≡ [] }
        ensures begun { result.begun.items ≡ [] }
        ensures whole { result.whole ≡ 0 }
    {
        ReadJournal {
            from: None,
            settled: Vec::new(alloc),
            begun: Vec::new(alloc),
            whole: 0,
        }
    }

    /// Adds an entry.
    fn add(&mut self, entry: Entry) -> Result<(), AllocError>
        ensures gains { OnOk result (Gains self.old self.new (entry ∷ [])) }
        ensures whole { self.new.whole ≡ self.old.whole }
    {
        match entry {
            Entry::Begun(notice) => self.begun.push(notice)?,
            Entry::Taken(notice) => self.settled.push(notice)?,
            Entry::GivenUp(notice) => self.settled.push(notice)?,
        }
        Ok(())
    }

    /// Counts the bytes of a whole line, without its newline.
    fn count(&mut self, len: usize) -> Result<(), JournalFault>
        ensures gains { Gains self.old self.new [] }
        ensures whole { OnOk result (self.new.whole ≡ self.old.whole + (len + 1)) }
        ensures fault { (n : ℕ) → ¬ IsErrOf result (JournalFault.Line n) }
        ensures too_many { IsErrOf result JournalFault.Unreadable → 2 ^ 64 ≤ self.old.whole + (len + 1) }
    {
        let Some(len) = (len as u64).checked_add(1) else {
            return Err(JournalFault::Unreadable);
        };
        let Some(whole) = self.whole.checked_add(len) else {
            return Err(JournalFault::Unreadable);
        };
        self.whole = whole;
        Ok(())
    }
}

/// Reads the next line, which has this number. False: there is no whole one.
fn next_line<R: Input + Drop>(lines: &mut LineReader<R>, number: u64) -> Result<bool, JournalFault>
    ensures steps { Known (to_come lines.old) (to_come lines.new)
        (λ bytes rest. Steps R.can_fail bytes result lines.new.line rest) }
    ensures number { (n : ℕ) → IsErrOf result (JournalFault.Line n) → n ≡ number }
{
    match lines.next_line() {
        NextLine::Line => Ok(true),
        NextLine::Long => Err(JournalFault::Line(number)),
        NextLine::Over(Stop::InputEnded) => Ok(false),
        NextLine::Over(Stop::CutLine) => Ok(false),
        NextLine::Over(Stop::ReaderFailed) => Err(JournalFault::Unreadable),
        NextLine::Over(Stop::TooManyCalls) => Err(JournalFault::Unreadable),
        NextLine::Over(Stop::TooManyBytes) => Err(JournalFault::Unreadable),
        NextLine::Over(Stop::TooManyLines) => Err(JournalFault::Unreadable),
    }
}

/// From which event on the first line says that letters are handed over; none where there is no whole one.
fn read_first<R: Input + Drop>(
    lines: &mut LineReader<R>,
    config: &Config,
    lane: LaneId,
) -> Result<Option<u64>, JournalFault>
    ensures { Known (to_come lines.old) (to_come lines.new)
        (λ bytes rest. Reads R.can_fail (first_said config.now lane) 1 bytes result lines.new.line rest) }
{
    if !next_line(lines, 1)? {
        return Ok(None);
    }
    match first_of(config, lane, lines.line()) {
        Some(from) => Ok(Some(from)),
        None => Err(JournalFault::Line(1)),
    }
}

/// The entry that the next line says, which has this number; none where there is no whole one.
fn read_entry<R: Input + Drop>(
    lines: &mut LineReader<R>,
    config: &Config,
    lane: LaneId,
    number: u64,
) -> Result<Option<Entry>, JournalFault>
    ensures { Known (to_come lines.old) (to_come lines.new)
        (λ bytes rest. Reads R.can_fail (entry_said config.now lane) number bytes result lines.new.line rest) }
{
    if !next_line(lines, number)? {
        return Ok(None);
    }
    match entry_of(config, lane, lines.line()) {
        Some(entry) => Ok(Some(entry)),
        None => Err(JournalFault::Line(number)),
    }
}

/// Reads the other lines.
fn read_entries<R: Input + Drop>(
    lines: &mut LineReader<R>,
    config: &Config,
    lane: LaneId,
    read: &mut ReadJournal,
) -> Result<(), JournalFault>
    ensures { Known (to_come lines.old) (to_come lines.new)
        (λ bytes rest. ReadsEntries R.can_fail config.now lane read.old read.new bytes result) }
{
    let mut number: u64 = 2;
    while number <= LAST_LINE {
        let Some(entry) = read_entry(lines, config, lane, number)? else {
            return Ok(());
        };
        read.add(entry)?;
        read.count(lines.line().len())?;
        number += 1;
    }
    Err(JournalFault::Unreadable)
}

/// Reads a lane's journal. What stands after the last newline is dropped. It takes memory for its notices alone, and a line's length of
/// at most 4,096 bytes: the first whole line that says nothing, or is longer, is the fault. A reader that can't fail is unreadable only
/// where it has too many lines, or 65,536 bytes without a newline.
pub fn read_journal<R: Input + Drop>(
    alloc: Global,
    config: &Config,
    lane: LaneId,
    reader: R,
) -> Result<ReadJournal, JournalFault>
    ensures read { IfOk result (λ read. IfSome (R.remaining reader)
        (λ bytes. IsRead config.now lane bytes read)) }
    ensures refused { (n : ℕ) → IsErrOf result (JournalFault.Line n)
        → IfSome (R.remaining reader) (λ bytes. journal_said config.now lane bytes ≡ Err n) }
    ensures unreadable { R.can_fail ≡ false → IsErrOf result JournalFault.Unreadable
        → IfSome (R.remaining reader) (λ bytes. IsTooMuch 0 0 bytes) }
{
    let mut lines = LineReader::new(alloc, reader)?;
    let mut read = ReadJournal::new(alloc);
    let Some(from) = read_first(&mut lines, config, lane)? else {
        return Ok(read);
    };
    read.from = Some(from);
    read.count(lines.line().len())?;
    read_entries(&mut lines, config, lane, &mut read)?;
    Ok(read)
}
