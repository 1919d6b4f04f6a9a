//! What a run that goes on is given up for.

ghost use Rattle.std.specs.Prelude.{◌≡◌};
ghost use Rattle.run_resumed.specs.Fault.{IsNoChannelFault, resume_status};

use crate::ready::KeptFault;
use channel_words::ChannelFault;
use command_output::{CommandFault, exit_status};
use due_model::config::{Config, LaneId};
use due_model::notice::Notice;
use earlier_runs::Change;
use journal_folder::{Folder, FolderFault, journal_path};
use journal_text::entry::Entry;
use journal_text::journal::JournalFault;
use journal_text::writing::line_of;
use notice_text::texts::lane_name;
use run_devices::RunFault;
use std::alloc::{AllocError, AllocFailed, Global};
use std::fs::File;
use std::io::Eprint;
use text_lines::{AnyReader, LineReader, NextLine};

/// Why a run that goes on was given up: as any run, or for its journals, which was said on standard error.
#[derive(Clone, Copy, Debug)]
pub enum ResumeFault<'a> {
    Run(RunFault<'a>),
    State,
}

impl ResumeFault<'_> {
    /// The exit status: that of a run, or 1.
    pub fn status(self) -> u8
        ensures { result ≡ resume_status self.entry }
    {
        match self {
            ResumeFault::Run(RunFault::Command(fault)) => exit_status(Err(fault)),
            ResumeFault::Run(RunFault::Channel(fault)) => fault.status(),
            ResumeFault::State => 1,
        }
    }
}

impl<'a> From<RunFault<'a>> for ResumeFault<'a> {
    ghost use Rattle.run_resumed.specs.declared.fault.ResumeFault.TheVariants.{Run};

    ghost from_gives = { λ fault given. given ≡ Run fault };

    fn from(fault: RunFault<'a>) -> ResumeFault<'a> {
        ResumeFault::Run(fault)
    }
}

impl<'a> From<ChannelFault<'a>> for ResumeFault<'a> {
    ghost use Rattle.run_devices.specs.declared.fault.RunFault.TheVariants.{Channel};
    ghost use Rattle.run_resumed.specs.declared.fault.ResumeFault.TheVariants.{Run};

    ghost from_gives = { λ fault given. given ≡ Run (Channel fault) };

    fn from(fault: ChannelFault<'a>) -> ResumeFault<'a> {
        ResumeFault::Run(RunFault::Channel(fault))
    }
}

impl From<CommandFault> for ResumeFault<'_> {
    ghost use Rattle.run_devices.specs.declared.fault.RunFault.TheVariants.{Command};
    ghost use Rattle.run_resumed.specs.declared.fault.ResumeFault.TheVariants.{Run};

    ghost from_gives = { λ fault given. given ≡ Run (Command fault) };

    fn from(fault: CommandFault) -> Self {
        ResumeFault::Run(RunFault::Command(fault))
    }
}

impl From<AllocError> for ResumeFault<'_> {
    ghost use Rattle.command_output.specs.declared.outcome.CommandFault.TheVariants.{NoMemory};
    ghost use Rattle.run_devices.specs.declared.fault.RunFault.TheVariants.{Command};
    ghost use Rattle.run_resumed.specs.declared.fault.ResumeFault.TheVariants.{Run};

    ghost from_gives = { λ _ given. given ≡ Run (Command NoMemory) };

    fn from(_error: AllocError) -> Self {
        ResumeFault::Run(RunFault::Command(CommandFault::NoMemory))
    }
}

impl<T: Drop> From<AllocFailed<T>> for ResumeFault<'_> {
    ghost use Rattle.command_output.specs.declared.outcome.CommandFault.TheVariants.{NoMemory};
    ghost use Rattle.run_devices.specs.declared.fault.RunFault.TheVariants.{Command};
    ghost use Rattle.run_resumed.specs.declared.fault.ResumeFault.TheVariants.{Run};

    ghost from_gives = { λ _ given. given ≡ Run (Command NoMemory) };

    fn from(_error: AllocFailed<T>) -> Self {
        ResumeFault::Run(RunFault::Command(CommandFault::NoMemory))
    }
}

/// What can be done.
const WAYS: &str =
    "state: the feed or the object files have changed: run with those that were, or give up what is due so far by --from-now";

/// Says on standard error that the feed can't be read again, so that nothing can be compared.
pub(crate) fn say_unread<R: Eprint>(rt: &R, feed: &str) {
    let _ = rt.eprintln(format_args!("state: {feed}: not opened"));
}

/// Says on standard error why the journals of a folder can't be had.
pub(crate) fn told<'a>(
    rt: &HostRuntime,
    folder: &str,
    config: &Config,
    fault: KeptFault,
) -> ResumeFault<'a>
    ensures { IsNoChannelFault result }
{
    let said = match fault {
        KeptFault::Folder(FolderFault::NoMemory) => Err(AllocError),
        KeptFault::Folder(fault) => say(rt, folder, config, fault),
        KeptFault::Stray(name) => {
            let name = name.as_str();
            let _ = rt.eprintln(format_args!(
                "state: {folder}/{name}: no command of the object files has this journal"
            ));
            let _ = rt.eprintln(WAYS);
            Ok(())
        }
    };
    match said {
        Ok(()) => ResumeFault::State,
        Err(AllocError) => ResumeFault::Run(RunFault::Command(CommandFault::NoMemory)),
    }
}

/// Says it of the folder, or of a journal in it. A refused growth is the only error.
fn say(
    rt: &HostRuntime,
    folder: &str,
    config: &Config,
    fault: FolderFault,
) -> Result<(), AllocError> {
    let alloc = rt.alloc();
    let _ = match fault {
        FolderFault::NoMemory => Ok(()),
        FolderFault::NotOpened => rt.eprintln(format_args!("state: {folder}: not opened")),
        FolderFault::Locked => rt.eprintln(format_args!("state: {folder}: another run has it")),
        FolderFault::NotRead(lane, number, JournalFault::Line(line)) => {
            let path = journal_path(alloc, folder, config, lane, number)?;
            say_line(rt, path.as_str(), line)?;
            Ok(())
        }
        FolderFault::NotRead(lane, number, _) => {
            let path = journal_path(alloc, folder, config, lane, number)?;
            let path = path.as_str();
            rt.eprintln(format_args!("state: {path}: unreadable"))
        }
        FolderFault::NotWritten(lane, number) => {
            let path = journal_path(alloc, folder, config, lane, number)?;
            let path = path.as_str();
            rt.eprintln(format_args!("state: {path}: can't be written"))
        }
    };
    Ok(())
}

/// Says that a line of the journal at a path says nothing, and what it is, where that can be shown.
fn say_line(rt: &HostRuntime, path: &str, line: u64) -> Result<(), AllocError> {
    let _ = rt.eprintln(format_args!(
        "state: {path}: line {line}: no line of this command's journal, or it names what isn't there"
    ));
    if let Some(text) = line_at(rt, path, line)? {
        let text = text.as_str();
        let _ = rt.eprintln(format_args!("state: {path}: line {line} is {text}"));
    }
    let _ = rt.eprintln(WAYS);
    Ok(())
}

/// The text of a line of the file at a path, where it has such a line, of printable letters.
fn line_at(rt: &HostRuntime, path: &str, wanted: u64) -> Result<Option<String>, AllocError> {
    let Ok(file) = File::open(rt, path) else {
        return Ok(None);
    };
    let mut lines = LineReader::new(rt.alloc(), AnyReader::new(file))?;
    for number in 1..=wanted {
        match lines.next_line() {
            NextLine::Line => {
                if number == wanted {
                    return shown(rt.alloc(), lines.line());
                }
            }
            NextLine::Long => {}
            NextLine::Over(_) => return Ok(None),
        }
    }
    Ok(None)
}

/// A line as text, where it is UTF-8 of printable letters.
fn shown(alloc: Global, line: &[u8]) -> Result<Option<String>, AllocError> {
    let is_printable = !line.is_empty() && line.iter().all(|byte| 32 <= *byte && *byte != 127);
    match std::str::from_utf8(line) {
        Ok(text) if is_printable => Ok(Some(String::from_str(alloc, text)?)),
        _ => Ok(None),
    }
}

/// Says on standard error what has changed since letters were sent, and what can be done.
pub(crate) fn say_change(
    rt: &HostRuntime,
    path: &str,
    folder: &Folder,
    config: &Config,
    change: Change,
) -> Result<(), AllocError> {
    match change {
        Change::Differs(notice) => say_difference(rt, path, folder, config, &notice)?,
        Change::Short(lane, from) => {
            let name = name_of(config, lane);
            let _ = rt.eprintln(format_args!(
                "state: {path}: {name}: the feed hasn't {from} events any more"
            ));
        }
        Change::Gone(lane, count) => {
            let name = name_of(config, lane);
            let _ = rt.eprintln(format_args!(
                "state: {path}: {name}: {count} of its letters aren't due any more"
            ));
        }
    }
    let _ = rt.eprintln(WAYS);
    Ok(())
}

/// The name of a lane's command.
fn name_of(config: &Config, lane: LaneId) -> &str {
    std::str::from_utf8(lane_name(config, lane)).unwrap_or("")
}

/// Says which line of a journal isn't what is due now, and what is.
fn say_difference(
    rt: &HostRuntime,
    path: &str,
    folder: &Folder,
    config: &Config,
    notice: &Notice,
) -> Result<(), AllocError> {
    let alloc = rt.alloc();
    if let Some((number, line)) = folder.find_settled(config, notice)? {
        let path = journal_path(alloc, path, config, notice.lane, number)?;
        let (path, text, line) = (path.as_str(), line.text.as_str(), line.number);
        let _ = rt.eprintln(format_args!("state: {path}: line {line} is {text}"));
    }
    if let Some(line) = line_of(alloc, config, notice.lane, Entry::Taken(*notice))? {
        let text = std::str::from_utf8(line.as_slice()).unwrap_or("");
        let text = text.trim_end();
        let _ = rt.eprintln(format_args!("state: there it would be {text}"));
    }
    Ok(())
}
