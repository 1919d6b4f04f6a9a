//! Lines of a report for people: names in columns, colours, and what a filter of an object stops in a row.
#![tactic(auto)]

mod columns;
mod lines;
mod runs;

pub use columns::{Look, Widths, push_padded, push_paint, push_unpaint, widths_in};
pub use lines::push_line;
pub use runs::{Run, Runs, add_line};
