//! The faults, and the texts that a program prints of them.

ghost use Rattle.std.specs.Prelude.{◌≡◌, Some};
ghost use Rattle.object_faults.specs.LoadFaults.{fault_name, fault_text, of_inherited, of_read};
ghost use Rattle.object_faults.specs.claims.LoadFaults.{of_template, of_value};
ghost use Rattle.object_faults.specs.LoadFaults.{of_values};
ghost use Rattle.object_faults.specs.declared.load_fault.LoadFault.TheVariants.{NoMemory};

use crate::fault::{PassFault, ValueFault};
use object_inheritance::templates::{InheritanceFault, TemplateFault};
use object_reader::fault::{LineFault, ReadFault};
use std::alloc::AllocError;
use std::error::Error;
use std::fmt;

/// What is wrong with one block of object text.
#[derive(Clone, Copy, Debug, PartialEq, Eq)]
pub enum BlockFault {
    /// The block's `use` has a name that no template of its type has.
    UnknownTemplate,
    /// The block itself lies on a loop of templates that use one another.
    TemplateLoop,
    /// An earlier block of the same type has the same name: as a template, or as an object. A service has its
    /// description and a host in common with an earlier one.
    Doubled,
    /// The block lacks its name, or has no entry in lists of which it must have one.
    MissingDirective,
    /// A number isn't decimal digits of 0 to 1,000,000.
    BadNumber,
    /// An option list, or failure criteria, have a word that is no option or state of their kind.
    BadOption,
    /// A weekday's line isn't ranges of times, or a line of dates has no word with a colon.
    BadRange,
    /// A service is volatile.
    Volatile,
    /// A list has an entry that leaves something out: it begins with `!`.
    Exclusion,
    /// A time period has a line of dates.
    DatedException,
    /// The block names an object that isn't there, or an odd number of entries as the members of a service group.
    UnknownName,
    /// The block is a time period from which a chain of exclusions comes back to it.
    PeriodLoop,
    /// By the block one object depends on another, from which a chain of notification dependencies leads back to the
    /// first.
    DependencyLoop,
    /// With this block there are over 65,535 hosts and services, 1,000,000 escalations, 1,000,000 dependencies, 4,096
    /// contacts, 16 lanes or 4,096 time periods.
    TooMany,
}

impl BlockFault {
    /// The name of the fault, as a program prints it.
    pub fn name(self) -> &'static str
        ensures { result.now ≡ fault_name self }
    {
        match self {
            BlockFault::UnknownTemplate => "UnknownTemplate",
            BlockFault::TemplateLoop => "TemplateLoop",
            BlockFault::Doubled => "Doubled",
            BlockFault::MissingDirective => "MissingDirective",
            BlockFault::BadNumber => "BadNumber",
            BlockFault::BadOption => "BadOption",
            BlockFault::BadRange => "BadRange",
            BlockFault::Volatile => "Volatile",
            BlockFault::Exclusion => "Exclusion",
            BlockFault::DatedException => "DatedException",
            BlockFault::UnknownName => "UnknownName",
            BlockFault::PeriodLoop => "PeriodLoop",
            BlockFault::DependencyLoop => "DependencyLoop",
            BlockFault::TooMany => "TooMany",
        }
    }
}

impl From<TemplateFault> for BlockFault {
    ghost from_gives = { λ fault given. given ≡ of_template fault };

    fn from(fault: TemplateFault) -> BlockFault {
        match fault {
            TemplateFault::UnknownTemplate => BlockFault::UnknownTemplate,
            TemplateFault::TemplateLoop => BlockFault::TemplateLoop,
            TemplateFault::Doubled => BlockFault::Doubled,
        }
    }
}

impl From<ValueFault> for BlockFault {
    ghost from_gives = { λ fault given. given ≡ of_value fault };

    fn from(fault: ValueFault) -> BlockFault {
        match fault {
            ValueFault::MissingDirective => BlockFault::MissingDirective,
            ValueFault::BadNumber => BlockFault::BadNumber,
            ValueFault::BadOption => BlockFault::BadOption,
            ValueFault::BadRange => BlockFault::BadRange,
            ValueFault::Volatile => BlockFault::Volatile,
            ValueFault::Exclusion => BlockFault::Exclusion,
            ValueFault::DatedException => BlockFault::DatedException,
        }
    }
}

/// Why object text gives no configuration. Nothing is given beside it.
#[derive(Clone, Copy, Debug, PartialEq, Eq)]
pub enum LoadFault {
    /// The text isn't blocks: the first fault of a line, and the line's number, from 1.
    Line { line: u64, fault: LineFault },
    /// The first fault of a block, and the number of the line of its `define`.
    Block { line: u64, fault: BlockFault },
    /// The text has more than 16,777,216 bytes, newlines counted.
    TooLarge,
    /// Memory ran out. It says nothing of the text.
    NoMemory,
}

/// `line N: NAME` for the fault of a line or of a block, and else the name alone.
impl fmt::Display for LoadFault {
    ghost output = { λ fault. Some (fault_text fault) };

    fn fmt<W: fmt::Write>(&self, f: &mut fmt::Formatter<W>) -> fmt::Result {
        match self {
            LoadFault::Line { line, fault } => {
                let name = fault.name();
                write!(f, "line {line}: {name}")
            }
            LoadFault::Block { line, fault } => {
                let name = fault.name();
                write!(f, "line {line}: {name}")
            }
            LoadFault::TooLarge => write!(f, "TooLarge"),
            LoadFault::NoMemory => write!(f, "NoMemory"),
        }
    }
}

impl Error for LoadFault {}

impl From<ReadFault> for LoadFault {
    ghost from_gives = { λ fault given. given ≡ of_read fault };

    fn from(fault: ReadFault) -> LoadFault {
        match fault {
            ReadFault::AtLine { line, fault } => LoadFault::Line { line, fault },
            ReadFault::TooLarge => LoadFault::TooLarge,
            ReadFault::NoMemory => LoadFault::NoMemory,
        }
    }
}

impl From<InheritanceFault> for LoadFault {
    ghost from_gives = { λ fault given. given ≡ of_inherited fault };

    fn from(fault: InheritanceFault) -> LoadFault {
        match fault {
            InheritanceFault::AtLine { line, fault } => LoadFault::Block {
                line,
                fault: BlockFault::from(fault),
            },
            InheritanceFault::NoMemory => LoadFault::NoMemory,
        }
    }
}

impl From<PassFault> for LoadFault {
    ghost from_gives = { λ fault given. given ≡ of_values fault };

    fn from(fault: PassFault) -> LoadFault {
        match fault {
            PassFault::AtLine { line, fault } => LoadFault::Block {
                line,
                fault: BlockFault::from(fault),
            },
            PassFault::NoMemory => LoadFault::NoMemory,
        }
    }
}

impl From<AllocError> for LoadFault {
    ghost from_gives = { λ _ fault. fault ≡ NoMemory };

    fn from(_error: AllocError) -> LoadFault {
        LoadFault::NoMemory
    }
}
