//! What is wrong with the values of a block.

ghost use Rattle.std.specs.Prelude.{◌≡◌};
ghost use Rattle.object_faults.specs.declared.fault.PassFault.TheVariants.{NoMemory};

use std::alloc::AllocError;

/// What is wrong with a value of a block. Of several faults of one block the first counts.
#[derive(Clone, Copy, Debug, PartialEq, Eq)]
pub enum ValueFault {
    /// The block lacks its name, or has no entry in lists of which it must have one.
    MissingDirective,
    /// A number isn't decimal digits of 0 to 1,000,000.
    BadNumber,
    /// An option list, or failure criteria, have a word that is no option or state of their kind.
    BadOption,
    /// A weekday's line isn't ranges of times, or a line of dates has no word with a colon.
    BadRange,
    /// A service is volatile.
    Volatile,
    /// A list has an entry that leaves something out: it begins with `!`.
    Exclusion,
    /// A time period has a line of dates: its name begins with a digit, or its first word is `day`, a month, or a
    /// weekday that isn't all of it.
    DatedException,
}

/// Why blocks are refused.
#[derive(Clone, Copy, Debug, PartialEq, Eq)]
pub enum PassFault {
    /// The fault of a block, with the line of its `define`.
    AtLine { line: u64, fault: ValueFault },
    /// Memory ran out. It says nothing of the blocks.
    NoMemory,
}

impl From<AllocError> for PassFault {
    ghost from_gives = { λ _ fault. fault ≡ NoMemory };

    fn from(_error: AllocError) -> PassFault {
        PassFault::NoMemory
    }
}
