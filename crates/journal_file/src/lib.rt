//! A journal in a file: a line for each entry, which is on the disk once it is written.
#![tactic(auto)]

pub mod laws;
pub mod synced;
pub mod text_journal;
pub mod writing;

pub use synced::{Complaint, SyncedFile};
pub use text_journal::TextJournal;
pub use writing::write_flushed;
