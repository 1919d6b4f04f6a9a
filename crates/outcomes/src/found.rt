//! What an event finds.

use due_model::event::EventKind;
use due_model::rules::ObjectStatus;

/// What an event finds of an object, and of what its notifications hang on besides.
#[derive(Clone, Copy)]
pub struct Found {
    /// What the event says.
    pub event: EventKind,
    /// The greatest stamp so far, the event's own counted, in seconds since the epoch.
    pub moment: u64,
    /// Whether the program switch is on, the event itself counted.
    pub program: bool,
    /// The status of the object before the event.
    pub before: ObjectStatus,
    /// The same, the event itself counted.
    pub after: ObjectStatus,
    /// Whether a service's host is in downtime, the event itself counted; of a host it is false.
    pub host_down: bool,
    /// Whether a notification dependency of the object, or of a service's host where that counts, fails, the event itself
    /// counted.
    pub depends: bool,
    /// Whether a service's host isn't UP, where that holds notices back, the event itself counted.
    pub host_problem: bool,
    /// Whether the event attempts the problem of the object again, if one runs.
    pub repeats: bool,
}
