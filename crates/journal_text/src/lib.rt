//! The text of a journal: a line for each letter that is about to be handed over, was taken, or was given up. Its lines are written and
//! read by names; and what a kill leaves of it is read as far as its lines are whole.
#![tactic(auto)]

pub mod entry;
pub mod journal;
pub mod laws;
pub mod reading;
pub mod writing;
