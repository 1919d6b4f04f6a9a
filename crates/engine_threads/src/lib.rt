//! The threads of a run: an intake that sends every event to every decider, the deciders, and a worker for each lane. When they
//! have ended, what they gave back is put together: of each lane what was taken and then what was given up is what was due.
#![tactic(auto)]

mod ends;
mod joins;
mod lane_work;
mod log_merge;
mod logs;
mod prepared;
mod run;
mod shared;
mod signals;
mod source;
mod starts;
mod threads;
mod word;
mod zone;

pub use run::{ThreadsEnd, run_threads};
pub use shared::Setup;
pub use source::{Given, Source};
