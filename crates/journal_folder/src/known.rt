//! The lines of a journal one by one, also where some say nothing.

ghost use Rattle.std.specs.Prelude.{◌≡◌, ◌++◌, OnOk};
ghost use Rattle.journaled.specs.Claims.{settles};
ghost use Rattle.journal_folder.specs.Known.{begun_said, settled_said, settles_said};

use due_model::config::{Config, LaneId};
use due_model::notice::Notice;
use journal_text::entry::Entry;
use journal_text::journal::ReadJournal;
use journal_text::reading::{entry_of, first_of};
use std::alloc::{AllocError, Global};
use text_lines::{Input, LineReader, NextLine};

/// What whole lines of a lane's journal say in this configuration; those that say nothing are passed over. It reads as far as it can.
pub fn read_known<R: Input + Drop>(
    alloc: Global,
    config: &Config,
    lane: LaneId,
    reader: R,
) -> Result<ReadJournal, AllocError> {
    let mut read = ReadJournal {
        from: None,
        settled: Vec::new(alloc),
        begun: Vec::new(alloc),
        whole: 0,
    };
    let mut lines = LineReader::new(alloc, reader)?;
    for _line in 0..u64::MAX {
        match lines.next_line() {
            NextLine::Line => {
                if read.from.is_none() {
                    read.from = first_of(config, lane, lines.line());
                }
                add_known(&mut read, entry_of(config, lane, lines.line()))?;
            }
            NextLine::Long => {}
            NextLine::Over(_) => break,
        }
    }
    Ok(read)
}

/// Adds what a line says, if it says something.
fn add_known(read: &mut ReadJournal, entry: Option<Entry>) -> Result<(), AllocError>
    ensures settled { OnOk result (read.new.settled.items ≡ read.old.settled.items ++ settled_said entry) }
    ensures begun { OnOk result (read.new.begun.items ≡ read.old.begun.items ++ begun_said entry) }
{
    match entry {
        Some(Entry::Begun(notice)) => read.begun.push(notice)?,
        Some(Entry::Taken(notice)) => read.settled.push(notice)?,
        Some(Entry::GivenUp(notice)) => read.settled.push(notice)?,
        None => {}
    }
    Ok(())
}

/// A line of a journal: its number, from 1 on, and its text.
#[derive(Drop)]
pub struct FoundLine {
    pub number: u64,
    pub text: String,
}

/// The first line that says that a letter was taken or given up which is the notice's, or is due after it, of the same object.
pub fn find_settled<R: Input + Drop>(
    alloc: Global,
    config: &Config,
    notice: &Notice,
    reader: R,
) -> Result<Option<FoundLine>, AllocError> {
    let mut lines = LineReader::new(alloc, reader)?;
    for number in 1..u64::MAX {
        match lines.next_line() {
            NextLine::Line => {
                if settles(entry_of(config, notice.lane, lines.line()), notice) {
                    let text = std::str::from_utf8(lines.line()).unwrap_or("");
                    let text = String::from_str(alloc, text)?;
                    return Ok(Some(FoundLine { number, text }));
                }
            }
            NextLine::Long => {}
            NextLine::Over(_) => break,
        }
    }
    Ok(None)
}

/// Whether an entry settles a notice.
fn settles(entry: Option<Entry>, notice: &Notice) -> bool
    ensures { result ≡ settles_said notice.now entry }
{
    match entry {
        Some(Entry::Begun(_)) | None => false,
        Some(Entry::Taken(other)) => settles_as(&other, notice),
        Some(Entry::GivenUp(other)) => settles_as(&other, notice),
    }
}

/// Whether a letter that was taken or given up is the notice's, or is due after it, of the same object.
fn settles_as(other: &Notice, notice: &Notice) -> bool
    ensures { result ≡ settles notice.now other.now }
{
    other.object.0 == notice.object.0
        && (notice.event < other.event
            || (other.event == notice.event && notice.contact.0 <= other.contact.0))
}
