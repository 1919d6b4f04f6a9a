//! Why the journals of a folder can't be had.

ghost use Rattle.std.specs.Prelude.{◌≡◌};

use due_model::config::LaneId;
use journal_text::journal::JournalFault;
use std::alloc::{AllocError, AllocFailed};

/// Why the journals of a folder can't be had.
#[derive(Clone, Copy, Debug, PartialEq, Eq)]
pub enum FolderFault {
    /// The folder, or the lock in it, can't be opened.
    NotOpened,
    /// Another run has the lock.
    Locked,
    /// The journal of this channel of the lane isn't read.
    NotRead(LaneId, u8, JournalFault),
    /// The journal of this channel of the lane can't be opened for writing, or its first line can't be written.
    NotWritten(LaneId, u8),
    /// Memory ran out.
    NoMemory,
}

impl From<AllocError> for FolderFault {
    ghost use Rattle.journal_folder.specs.declared.fault.FolderFault.TheVariants.{NoMemory};

    ghost from_gives = { λ _ fault. fault ≡ NoMemory };

    fn from(_error: AllocError) -> FolderFault {
        FolderFault::NoMemory
    }
}

impl<T: Drop> From<AllocFailed<T>> for FolderFault {
    ghost use Rattle.journal_folder.specs.declared.fault.FolderFault.TheVariants.{NoMemory};

    ghost from_gives = { λ _ fault. fault ≡ NoMemory };

    fn from(_error: AllocFailed<T>) -> FolderFault {
        FolderFault::NoMemory
    }
}
