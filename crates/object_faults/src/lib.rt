//! The faults that registered blocks have by themselves, whatever the other blocks say but for templates (chapters
//! "Object Definitions", "Object Inheritance" and "Time Periods"): what they lack, numbers, option lists, failure
//! criteria, the ranges of weekdays, lines of dates, and lists of names with exclusions.
#![tactic(auto)]

pub mod check;
pub mod column;
mod dates;
pub mod fault;
mod first;
pub mod lists;
pub mod load_fault;
pub mod needs;
