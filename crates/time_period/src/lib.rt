//! When a time period holds and when it next does, in any zone, at the cost of a few steps (chapter "Time Periods").
//! A period is worked out once for each weekday, as a sorted list of ranges from which its exclusions are taken
//! out; only that asks for memory. One from which a dated line is reached keeps the numbers of the periods that it needs
//! beside one list of what is kept of each.
#![tactic(auto)]

pub mod compile;
pub mod compiled;
mod day;
mod decided;
mod made_day;
mod needs;
mod step;
mod steps;
mod stretch;
