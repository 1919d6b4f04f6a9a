//! A decider: it decides the events one by one, and says of the objects of its share which notices are
//! due and which were suppressed.
#![tactic(auto)]

mod decider;
mod event_decider;
mod find;
mod log;
mod outbox;
mod reading;
mod ready;
mod share;
mod staging;
mod statuses;

pub use decider::Decider;
pub use event_decider::{DecideFault, EventDecider};
pub use outbox::Outbox;
pub use share::Share;
