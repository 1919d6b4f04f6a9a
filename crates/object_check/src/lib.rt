//! All faults of blocks of the first pass that finds any (chapters "Object Definitions" and "Object Inheritance"), where
//! loading answers the first alone.
#![tactic(auto)]

pub mod asked;
mod dates;
pub mod marks;
pub mod misfits;
mod needs;
pub mod rows;
#[cfg(test)]
mod tests;
