//! How a command ends: what it can fail with, the text of that, and the exit status.

ghost use Rattle.std.specs.Prelude.{◌≡◌, Some};
ghost use Rattle.command_output.specs.Outcome.{ending_status, fault_of, fault_status, fault_text};
ghost use Rattle.command_output.specs.Outcome.{outcome_status};

use crate::output::OutputFailed;
use object_faults::load_fault::LoadFault;
use std::alloc::AllocError;
use std::error::Error;
use std::fmt;

/// How a command ends whose object text was taken and whose output was written.
#[derive(Clone, Copy, Debug, PartialEq, Eq)]
pub enum Ending {
    /// At the end of the input.
    Whole,
    /// Before it: a line that was cut, a reader that failed, or too many events.
    Short,
    /// At the end of the input, and some message wasn't delivered.
    Undelivered,
}

/// Why a command was given up.
#[derive(Clone, Copy, Debug, PartialEq, Eq)]
pub enum CommandFault {
    /// The object text is refused. Nothing was written.
    Objects(LoadFault),
    /// The object text couldn't be read. Nothing was written.
    Unreadable,
    /// The output failed, or took nothing. A front of what was to be written was written.
    Output,
    /// Memory ran out. A front of what was to be written was written.
    NoMemory,
}

impl Ending {
    /// The exit status: 0 where all was read and delivered, 1 where a feed or the steps ended before, 3 where a message is
    /// undelivered.
    pub fn status(self) -> u8
        ensures { result ≡ ending_status self }
    {
        match self {
            Ending::Whole => 0,
            Ending::Short => 1,
            Ending::Undelivered => 3,
        }
    }
}

impl CommandFault {
    /// The exit status: 1 for the object text, the input and the output, 4 for want of memory.
    pub fn status(self) -> u8
        ensures { result ≡ fault_status self }
    {
        match self {
            CommandFault::Objects(_) | CommandFault::Unreadable | CommandFault::Output => 1,
            CommandFault::NoMemory => 4,
        }
    }
}

/// The exit status of a command. (The command line's own is 2, where it is wrong.)
pub fn exit_status(outcome: Result<Ending, CommandFault>) -> u8
    ensures { result ≡ outcome_status outcome }
{
    match outcome {
        Ok(ending) => ending.status(),
        Err(fault) => fault.status(),
    }
}

/// What a program says of it on standard error.
impl fmt::Display for CommandFault {
    ghost output = { λ fault. Some (fault_text fault) };

    fn fmt<W: fmt::Write>(&self, f: &mut fmt::Formatter<W>) -> fmt::Result {
        match self {
            CommandFault::Objects(fault) => write!(f, "objects: {fault}"),
            CommandFault::Unreadable => write!(f, "objects: unreadable"),
            CommandFault::Output => write!(f, "output: failed"),
            CommandFault::NoMemory => write!(f, "memory"),
        }
    }
}

impl Error for CommandFault {}

impl From<LoadFault> for CommandFault {
    ghost from_gives = { λ fault given. given ≡ fault_of fault };

    fn from(fault: LoadFault) -> CommandFault {
        match fault {
            LoadFault::NoMemory => CommandFault::NoMemory,
            fault => CommandFault::Objects(fault),
        }
    }
}

impl From<AllocError> for CommandFault {
    ghost use Rattle.command_output.specs.declared.outcome.CommandFault.TheVariants.{NoMemory};

    ghost from_gives = { λ _ fault. fault ≡ NoMemory };

    fn from(_error: AllocError) -> CommandFault {
        CommandFault::NoMemory
    }
}

impl From<OutputFailed> for CommandFault {
    ghost use Rattle.command_output.specs.declared.outcome.CommandFault.TheVariants.{Output};

    ghost from_gives = { λ _ fault. fault ≡ Output };

    fn from(_error: OutputFailed) -> CommandFault {
        CommandFault::Output
    }
}
