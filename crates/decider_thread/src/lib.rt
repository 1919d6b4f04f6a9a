//! The thread of a decider: it takes the events from its ring, decides each for its share, and puts what becomes due into the
//! queues of the lanes, and its end last.
#![tactic(auto)]

mod events;
pub mod laws;
mod log;
mod ring;
mod seats;
mod setup;

use due_model::event::Event;
pub use log::{DeciderLog, KeptLog};
pub use ring::{DeciderEnd, decide_ring};
pub use seats::Seat;
pub use setup::DeciderSetup;

/// What goes through the ring of a decider.
#[derive(Clone, Copy, Debug, PartialEq, Eq)]
pub enum Signal {
    /// An event to decide.
    Decides(Event),
    /// There is no more.
    Over,
}
