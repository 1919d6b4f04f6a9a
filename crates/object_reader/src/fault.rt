//! Why object text is refused.

ghost use Rattle.std.specs.Prelude.{◌≡◌, Some};
ghost use Rattle.object_reader.specs.Fault.{fault_name, fault_text};
ghost use Rattle.object_reader.specs.declared.fault.ReadFault.TheVariants.{NoMemory};

use std::alloc::{AllocError, AllocFailed};
use std::error::Error;
use std::fmt;

/// What is wrong with one line of object text.
#[derive(Clone, Copy, Debug, PartialEq, Eq)]
pub enum LineFault {
    /// The line, or one that is joined to it, isn't UTF-8.
    NotUtf8,
    /// Outside a block, the line isn't `define`, blanks, a type, blanks or none, and `{`.
    NotADefine,
    /// The type of a `define` is none of the types of object text.
    UnknownType,
    /// A directive has a name and no value.
    NoValue,
    /// The block of this `define` is still open where the next `define` stands, or at the end of the
    /// text.
    Unclosed,
    /// The line, or one that is joined to it, has more than 4,096 bytes without its newline; a
    /// carriage return counts.
    LineTooLong,
}

/// Why object text could not be read. Nothing of the text is given beside it.
#[derive(Clone, Copy, Debug, PartialEq, Eq)]
pub enum ReadFault {
    /// The fault of a line, the first in the text. Lines are numbered from 1, and joined lines have
    /// the number of the first of them.
    AtLine { line: u64, fault: LineFault },
    /// Memory ran out. It says nothing of the text.
    NoMemory,
    /// The text has more than 16,777,216 bytes, newlines counted.
    TooLarge,
}

impl LineFault {
    /// The name of the fault, as a program prints it.
    pub fn name(self) -> &'static str
        ensures { result.now ≡ fault_name self }
    {
        match self {
            LineFault::NotUtf8 => "NotUtf8",
            LineFault::NotADefine => "NotADefine",
            LineFault::UnknownType => "UnknownType",
            LineFault::NoValue => "NoValue",
            LineFault::Unclosed => "Unclosed",
            LineFault::LineTooLong => "LineTooLong",
        }
    }
}

/// The name of the fault.
impl fmt::Display for LineFault {
    ghost output = { λ fault. Some (fault_name fault) };

    fn fmt<W: fmt::Write>(&self, f: &mut fmt::Formatter<W>) -> fmt::Result {
        f.write_str(self.name())
    }
}

/// `line N: NAME` for the fault of a line, and else the name alone.
impl fmt::Display for ReadFault {
    ghost output = { λ fault. Some (fault_text fault) };

    fn fmt<W: fmt::Write>(&self, f: &mut fmt::Formatter<W>) -> fmt::Result {
        match self {
            ReadFault::AtLine { line, fault } => write!(f, "line {line}: {fault}"),
            ReadFault::NoMemory => write!(f, "NoMemory"),
            ReadFault::TooLarge => write!(f, "TooLarge"),
        }
    }
}

impl Error for LineFault {}

impl Error for ReadFault {}

impl From<AllocError> for ReadFault {
    ghost from_gives = { λ _ fault. fault ≡ NoMemory };

    fn from(_error: AllocError) -> ReadFault {
        ReadFault::NoMemory
    }
}

impl<T: Drop> From<AllocFailed<T>> for ReadFault {
    ghost from_gives = { λ _ fault. fault ≡ NoMemory };

    fn from(_error: AllocFailed<T>) -> ReadFault {
        ReadFault::NoMemory
    }
}
