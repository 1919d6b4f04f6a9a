//! The worker of a lane: it picks what the deciders put into the lane's queue, and hands each notice to the lane's channel, as
//! often as it may be tried, unless a bell says that the lane is to close. What comes after the close stays undelivered.
#![tactic(auto)]

ghost use Rattle.std.specs.Prelude.{◌≡◌, ◌+◌, if◌then◌else◌};
ghost use Rattle.channel.specs.Channels.{IsCounted};

mod closers;
mod hand;
pub mod laws;
mod patient;
mod queue;
mod setup;
mod worker;

pub use closers::{Closers, LaneBell};
use due_model::config::LaneId;
use due_model::notice::Notice;
pub use patient::PatientBell;
pub use setup::WorkerSetup;
use std::time::Duration;
use undelivered::Why;
pub use worker::{Served, serve, tend_next};

/// What tells a worker that its lane is to close.
pub trait Bell {
    ghost use Rattle.std.specs.Prelude.{ℕ};

    // How often it has said so.
    ghost count: { Self → ℕ };

    // How often it was asked, up to 2^64 - 1.
    ghost asks: { Self → ℕ };

    /// Whether the lane is to close. Each true answer is counted, and where the count stands at `u64::MAX` the answer is
    /// false.
    fn asked(&mut self) -> bool
        ensures count { count self.new ≡ count self.old + (if result then 1 else 0) }
        ensures asks { IsCounted (asks self.old) (asks self.new) };

    /// How many true answers there were.
    fn count(&self) -> u64
        ensures { result ≡ count self.now };

    /// Called where so many tries of a letter have failed at the device and another is due: here time may pass. It isn't a question.
    fn before_retry(&mut self, _failed: u8)
        ensures count { count self.new ≡ count self.old }
        ensures asks { asks self.new ≡ asks self.old }
    {}
}

/// What holds notices and events back for a while.
pub trait Gate {
    /// Whether the notice may be tried on its lane now.
    fn admit(&self, lane: LaneId, notice: &Notice) -> bool;

    /// Called by a decider before each event.
    fn turn(&self, decider: u8);

    /// Called by a decider after each event, for each lane: how many notices wait for room in the lane's queue.
    fn held(&self, _decider: u8, _lane: LaneId, _notices: u64) {}

    /// Called by a decider for each notice that it has put into a lane's queue.
    fn queued(&self, _decider: u8, _lane: LaneId) {}

    /// Called by the intake of a feed for each line that it refuses, with the line's number and the fault's name.
    fn refused(&self, _line: u64, _fault: &str) {}

    /// Called by a lane's worker for each notice that it gives up, in order, once it is recorded.
    fn given_up(&self, _notice: &Notice) {}

    /// Called once a lane is over that was given several channels, for each that served: which it is, the first 0, and how many
    /// notices it has taken.
    fn channel_over(&self, _lane: LaneId, _number: u64, _taken: u64) {}

    /// Called once a lane is over, with the cause of its close.
    fn lane_over(&self, _lane: LaneId, _why: Why) {}

    /// Called by the intake, a decider or a worker that ends since a growth was refused, at once.
    fn wanting(&self) {}

    /// How long a lane waits before it tries a letter again of which so many tries have failed at the device. Not at all, unless a
    /// gate says otherwise.
    fn retry_after(&self, _lane: LaneId, _failed: u8) -> Duration {
        Duration::ZERO
    }
}

/// What became of a letter that was tried.
#[derive(Clone, Copy, Debug, PartialEq, Eq)]
pub enum Attempted {
    /// The channel has taken it.
    Settled,
    /// The bell said that the lane is to close, before a try.
    Asked,
    /// It failed as often as it may be tried.
    Failed,
}
