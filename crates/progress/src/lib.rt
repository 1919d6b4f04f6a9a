//! How far a command is, for a person who waits at a terminal.
#![tactic(auto)]

ghost use Rattle.std.specs.Prelude.{◌≡◌};
ghost use Rattle.progress.specs.Progress.{count_after};

mod counts;
mod line;

pub use counts::{Counts, show};
pub use line::ProgressLine;

/// How far a command is. Each count stays at the greatest `u64`.
#[derive(Clone, Copy, Debug, PartialEq, Eq)]
pub struct Progress {
    /// The events of the feed that were decided.
    pub events: u64,
    /// The messages that they made due, or that channels took: the command says which.
    pub messages: u64,
}

impl Progress {
    /// Nothing was decided yet.
    pub const fn new() -> Progress
        ensures events { result.events ≡ 0 }
        ensures messages { result.messages ≡ 0 }
    {
        Progress {
            events: 0,
            messages: 0,
        }
    }

    /// After one event more.
    pub fn with_event(self) -> Progress
        ensures events { result.events ≡ count_after self.events 1 }
        ensures messages { result.messages ≡ self.messages }
    {
        Progress {
            events: self.events.saturating_add(1),
            messages: self.messages,
        }
    }

    /// After so many messages more.
    pub fn with_messages(self, count: usize) -> Progress
        ensures events { result.events ≡ self.events }
        ensures messages { result.messages ≡ count_after self.messages count }
    {
        Progress {
            events: self.events,
            messages: self.messages.saturating_add(count as u64),
        }
    }
}

/// Who is told how far a command is. What a command reads, writes and answers depends on nothing that a watcher does.
pub trait Watcher {
    /// All that was read of the feed is done, and its lines are written. The next call of the reader may wait.
    fn tell(&mut self, progress: Progress);

    /// Lines of the report may be written next.
    fn make_way(&mut self);
}

/// Nobody watches.
#[derive(Clone, Copy, Drop)]
pub struct Unwatched;

impl Watcher for Unwatched {
    fn tell(&mut self, _progress: Progress) {}

    fn make_way(&mut self) {}
}
