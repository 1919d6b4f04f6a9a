//! The table at the end of a comparison: what each contact of either configuration was told in all.
#![tactic(auto)]

mod rows;
mod table;

pub use table::{ToldBy, push_table};
