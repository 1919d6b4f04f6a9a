//! The command `diff` over readers and writers: two object texts, a feed, and what the change from the one to the other does to
//! its notices.
#![tactic(auto)]

mod fault;
mod files;
mod laws;

pub use fault::{CompareFault, compare_status};
pub use files::compare_files;
pub use laws::{ends_as_the_reports, line_notices_are_the_reports};
