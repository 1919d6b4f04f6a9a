//! The plain slow program: it works each answer out anew, as the definitions do, over all events and, of periods and
//! dependencies, in rounds (chapters "Time Periods", "Host and Service Dependencies"): a flag for each period, or for each
//! object, says what holds where chains have at most so many members, and the next round's flags are made of the last
//! one's. Faster bodies are compared with it.
#![tactic(auto)]

mod attempts;
pub mod dependencies;
mod escalations;
mod filters;
mod flags;
mod histories;
mod notices;
mod outcomes;
pub mod periods;
mod ranges;
mod readings;
mod receivers;
pub mod slow;
mod subject;
mod views;
mod waits;
