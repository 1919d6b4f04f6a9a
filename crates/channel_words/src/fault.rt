//! What is wrong with the channels of a command line.

ghost use Rattle.std.specs.Prelude.{◌≡◌, Some};
ghost use Rattle.channel_words.specs.Fault.{fault_status, fault_text};

use std::alloc::{AllocError, AllocFailed};
use std::error::Error;
use std::fmt;

/// What is wrong with the channels of a command line, the first that is found.
#[derive(Clone, Copy, Debug, PartialEq, Eq)]
pub enum ChannelFault<'a> {
    /// This word says no channel.
    BadChannel(&'a str),
    /// No contact uses a command of this name.
    NoCommand(&'a str),
    /// A ninth word names this command.
    Doubled(&'a str),
    /// The channel of this command can't be opened.
    NotOpened(&'a str),
    /// Memory ran out.
    NoMemory,
}

impl ChannelFault<'_> {
    /// The exit status: 2 where the command line is wrong, 1 where a channel isn't opened, 4 for want of memory.
    pub fn status(self) -> u8
        ensures { result ≡ fault_status self.entry }
    {
        match self {
            ChannelFault::BadChannel(_) | ChannelFault::NoCommand(_) | ChannelFault::Doubled(_) =>
                2,
            ChannelFault::NotOpened(_) => 1,
            ChannelFault::NoMemory => 4,
        }
    }
}

/// What a program says of it on standard error.
impl fmt::Display for ChannelFault<'_> {
    ghost output = { λ fault. Some (fault_text fault) };

    fn fmt<W: fmt::Write>(&self, f: &mut fmt::Formatter<W>) -> fmt::Result {
        match self {
            ChannelFault::BadChannel(word) => write!(f, "usage: bad channel {word}"),
            ChannelFault::NoCommand(name) => write!(f, "usage: no command {name}"),
            ChannelFault::Doubled(name) => write!(f, "usage: doubled channel {name}"),
            ChannelFault::NotOpened(name) => write!(f, "channel: {name}: not opened"),
            ChannelFault::NoMemory => write!(f, "memory"),
        }
    }
}

impl Error for ChannelFault<'_> {}

impl From<AllocError> for ChannelFault<'_> {
    ghost use Rattle.channel_words.specs.declared.fault.ChannelFault.TheVariants.{NoMemory};

    ghost from_gives = { λ _ fault. fault ≡ NoMemory };

    fn from(_error: AllocError) -> Self {
        ChannelFault::NoMemory
    }
}

impl<T: Drop> From<AllocFailed<T>> for ChannelFault<'_> {
    ghost use Rattle.channel_words.specs.declared.fault.ChannelFault.TheVariants.{NoMemory};

    ghost from_gives = { λ _ fault. fault ≡ NoMemory };

    fn from(_error: AllocFailed<T>) -> Self {
        ChannelFault::NoMemory
    }
}
