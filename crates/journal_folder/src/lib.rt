//! The journals of a folder: one of each channel of each lane, and a lock that one run at a time has.
#![tactic(auto)]

pub mod fault;
pub mod file_name;
pub mod folder;
pub mod known;
pub mod lane_past;

pub use fault::FolderFault;
pub use folder::{FileJournal, Folder, journal_path};
pub use lane_past::LanePast;
