//! A line of a report, and its forms: as `replay` writes it, and as an object of JSON; and which lines are wanted.
#![tactic(auto)]

mod json;
mod picks;
mod plain;
mod report_line;

pub use json::{push_json, push_string};
pub use picks::Picks;
pub use plain::push_plain;
pub use report_line::ReportLine;
