//! The report of a run as objects of JSON: a writer that is given the lines of the report, and passes each on as an object.
#![tactic(auto)]

mod fields;
mod line;
mod report_writer;
mod writer;

pub use report_writer::ReportWriter;
pub use writer::JsonWriter;
