//! What a run is given up for.

ghost use Rattle.std.specs.Prelude.{◌≡◌};

use channel_words::ChannelFault;
use command_output::CommandFault;
use std::alloc::{AllocError, AllocFailed};

/// Why a run was given up: for its channels, or for what any command may be given up for.
#[derive(Clone, Copy, Debug)]
pub enum RunFault<'a> {
    Channel(ChannelFault<'a>),
    Command(CommandFault),
}

impl<'a> From<ChannelFault<'a>> for RunFault<'a> {
    ghost use Rattle.run_devices.specs.declared.fault.RunFault.TheVariants.{Channel};

    ghost from_gives = { λ fault given. given ≡ Channel fault };

    fn from(fault: ChannelFault<'a>) -> RunFault<'a> {
        RunFault::Channel(fault)
    }
}

impl From<CommandFault> for RunFault<'_> {
    ghost use Rattle.run_devices.specs.declared.fault.RunFault.TheVariants.{Command};

    ghost from_gives = { λ fault given. given ≡ Command fault };

    fn from(fault: CommandFault) -> Self {
        RunFault::Command(fault)
    }
}

impl<T: Drop> From<AllocFailed<T>> for RunFault<'_> {
    ghost use Rattle.command_output.specs.declared.outcome.CommandFault.TheVariants.{NoMemory};
    ghost use Rattle.run_devices.specs.declared.fault.RunFault.TheVariants.{Command};

    ghost from_gives = { λ _ given. given ≡ Command NoMemory };

    fn from(_error: AllocFailed<T>) -> Self {
        RunFault::Command(CommandFault::NoMemory)
    }
}

impl From<AllocError> for RunFault<'_> {
    ghost use Rattle.command_output.specs.declared.outcome.CommandFault.TheVariants.{NoMemory};
    ghost use Rattle.run_devices.specs.declared.fault.RunFault.TheVariants.{Command};

    ghost from_gives = { λ _ given. given ≡ Command NoMemory };

    fn from(_error: AllocError) -> Self {
        RunFault::Command(CommandFault::NoMemory)
    }
}
