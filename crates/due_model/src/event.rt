//! What happens: the events of the feed.

use crate::config::ObjectId;
use crate::state::State;

/// One event of the feed. Events are numbered from 0.
#[derive(Clone, Copy, Debug, PartialEq, Eq)]
pub struct Event {
    /// The stamp, in seconds since the epoch: 0 to `LAST_MOMENT`.
    pub moment: u64,
    pub kind: EventKind,
}

/// What an event says.
#[derive(Clone, Copy, Debug, PartialEq, Eq)]
pub enum EventKind {
    /// The clock has come to the moment. Only this notifies again of a running problem.
    Clock,
    /// The program switch: notifications are on or off (chapter "External Commands").
    Program(bool),
    /// An object has this hard state.
    Hard(ObjectId, State),
    /// A scheduled downtime of an object starts or is over (chapter "Scheduled Downtime").
    Downtime(ObjectId, DowntimeChange),
    /// An object starts (`true`) or stops flapping (chapter "State Flapping").
    Flapping(ObjectId, bool),
    /// Somebody acknowledges the problem of an object (chapter "External Commands").
    Ack(ObjectId, Acknowledgement),
    /// Somebody takes the acknowledgement of an object's problem back (chapter "External Commands").
    AckRemoved(ObjectId),
    /// The notifications of one object are switched on or off (chapter "External Commands").
    OwnSwitch(ObjectId, bool),
}

/// How a problem is acknowledged.
#[derive(Clone, Copy, Debug, PartialEq, Eq)]
pub struct Acknowledgement {
    /// Whether it lasts until the object recovers (`true`, sticky), or until its state changes.
    pub sticky: bool,
    /// Whether contacts are notified of it.
    pub notify: bool,
}

/// What happens to a scheduled downtime.
#[derive(Clone, Copy, Debug, PartialEq, Eq)]
pub enum DowntimeChange {
    Start,
    End,
    Cancelled,
}
