//! What `who` can fail with, the text of that, and the exit status.

ghost use Rattle.std.specs.Prelude.{◌≡◌, Some};
ghost use Rattle.who_told.specs.Fault.{fault_status, fault_text, unknown_text};

use crate::names::Unknown;
use command_output::CommandFault;
use std::error::Error;
use std::fmt;

/// Why nobody can be said to be told, or not all of them.
#[derive(Clone, Copy, Debug, PartialEq, Eq)]
pub enum WhoFault<'a> {
    /// This isn't known of what is supposed. Nothing was written.
    Unknown(Unknown<'a>),
    /// What any command may be given up for.
    Command(CommandFault),
}

impl WhoFault<'_> {
    /// The exit status: 2 for what isn't known, and else that of a command's fault.
    pub fn status(self) -> u8
        ensures { result ≡ fault_status self.entry }
    {
        match self {
            WhoFault::Unknown(_) => 2,
            WhoFault::Command(fault) => fault.status(),
        }
    }
}

/// What a program says of it on standard error.
impl fmt::Display for Unknown<'_> {
    ghost output = { λ unknown. Some (unknown_text unknown) };

    fn fmt<W: fmt::Write>(&self, f: &mut fmt::Formatter<W>) -> fmt::Result {
        match self {
            Unknown::Host(name) => write!(f, "usage: no host {name}"),
            Unknown::Service(host, name) => write!(f, "usage: no service {host}/{name}"),
            Unknown::HostState(word) => write!(f, "usage: no host state {word}"),
            Unknown::ServiceState(word) => write!(f, "usage: no service state {word}"),
        }
    }
}

/// What a program says of it on standard error.
impl fmt::Display for WhoFault<'_> {
    ghost output = { λ fault. Some (fault_text fault) };

    fn fmt<W: fmt::Write>(&self, f: &mut fmt::Formatter<W>) -> fmt::Result {
        match self {
            WhoFault::Unknown(unknown) => write!(f, "{unknown}"),
            WhoFault::Command(fault) => write!(f, "{fault}"),
        }
    }
}

impl Error for WhoFault<'_> {}

impl<'a> From<Unknown<'a>> for WhoFault<'a> {
    ghost use Rattle.who_told.specs.declared.fault.WhoFault.TheVariants.{Unknown};

    ghost from_gives = { λ unknown given. given ≡ Unknown unknown };

    fn from(unknown: Unknown<'a>) -> WhoFault<'a> {
        WhoFault::Unknown(unknown)
    }
}

impl From<CommandFault> for WhoFault<'_> {
    ghost use Rattle.who_told.specs.declared.fault.WhoFault.TheVariants.{Command};

    ghost from_gives = { λ fault given. given ≡ Command fault };

    fn from(fault: CommandFault) -> Self {
        WhoFault::Command(fault)
    }
}
