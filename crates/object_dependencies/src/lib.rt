//! The notification dependencies that blocks give (chapter "Host and Service Dependencies"): their masters and
//! dependents, how many dependencies there are, and the dependencies themselves.
#![tactic(auto)]

pub mod blocks;
pub mod entries;
pub mod laws;
pub mod pairs;
pub mod sides;
