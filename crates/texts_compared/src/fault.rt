//! Why a comparison was given up.

ghost use Rattle.std.specs.Prelude.{◌≡◌, Some};
ghost use Rattle.texts_compared.specs.Fault.{compare_fault_status, compare_fault_text, compare_status, fault_of_second};

use command_output::{CommandFault, Ending};
use object_faults::load_fault::LoadFault;
use std::alloc::AllocError;
use std::error::Error;
use std::fmt;

/// Why a comparison was given up.
#[derive(Clone, Copy, Debug, PartialEq, Eq)]
pub enum CompareFault {
    /// The first object text, the output, or want of memory.
    Command(CommandFault),
    /// The second object text is refused. Nothing was written.
    With(LoadFault),
    /// The second object text couldn't be read. Nothing was written.
    WithUnreadable,
}

impl CompareFault {
    /// The exit status: 1 for an object text, the input and the output, 4 for want of memory.
    pub fn status(self) -> u8
        ensures { result ≡ compare_fault_status self }
    {
        match self {
            CompareFault::Command(fault) => fault.status(),
            CompareFault::With(_) | CompareFault::WithUnreadable => 1,
        }
    }
}

/// The exit status of a comparison.
pub fn compare_status(outcome: Result<Ending, CompareFault>) -> u8
    ensures { result ≡ compare_status outcome }
{
    match outcome {
        Ok(ending) => ending.status(),
        Err(fault) => fault.status(),
    }
}

/// What a program says of it on standard error.
impl fmt::Display for CompareFault {
    ghost output = { λ fault. Some (compare_fault_text fault) };

    fn fmt<W: fmt::Write>(&self, f: &mut fmt::Formatter<W>) -> fmt::Result {
        match self {
            CompareFault::Command(fault) => write!(f, "{fault}"),
            CompareFault::With(fault) => write!(f, "with: {fault}"),
            CompareFault::WithUnreadable => write!(f, "with: unreadable"),
        }
    }
}

impl Error for CompareFault {}

impl From<CommandFault> for CompareFault {
    ghost use Rattle.texts_compared.specs.declared.fault.CompareFault.TheVariants.{Command};

    ghost from_gives = { λ fault given. given ≡ Command fault };

    fn from(fault: CommandFault) -> CompareFault {
        CompareFault::Command(fault)
    }
}

impl From<AllocError> for CompareFault {
    ghost use Rattle.command_output.specs.declared.outcome.CommandFault.TheVariants.{NoMemory};
    ghost use Rattle.texts_compared.specs.declared.fault.CompareFault.TheVariants.{Command};

    ghost from_gives = { λ _ given. given ≡ Command NoMemory };

    fn from(_error: AllocError) -> CompareFault {
        CompareFault::Command(CommandFault::NoMemory)
    }
}

/// A fault of the second object text.
pub(crate) fn fault_of_second(fault: CommandFault) -> CompareFault
    ensures { result ≡ fault_of_second fault }
{
    match fault {
        CommandFault::Objects(fault) => CompareFault::With(fault),
        CommandFault::Unreadable => CompareFault::WithUnreadable,
        CommandFault::Output => CompareFault::Command(CommandFault::Output),
        CommandFault::NoMemory => CompareFault::Command(CommandFault::NoMemory),
    }
}
