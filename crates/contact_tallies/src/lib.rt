//! What each contact is told in all: how many messages, how many of them at night, and the longest silence of a problem.
#![tactic(auto)]

mod heard;
mod tallies;

pub use tallies::{Tallies, Tally};
