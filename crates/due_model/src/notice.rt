//! What the rules make of an event: notices, and suppressions, each with the filter that caused it.

use crate::config::{ContactId, LaneId, ObjectId};
use crate::options::OptionLetters;
use crate::state::State;

/// The kinds of notification (chapter "Notifications", "Notification Type Macro").
#[derive(Clone, Copy, Debug, PartialEq, Eq)]
pub enum Kind {
    Problem,
    Recovery,
    FlappingStart,
    FlappingStop,
    DowntimeStart,
    DowntimeEnd,
    DowntimeCancelled,
    Acknowledgement,
}

/// What stops a notification, in the order in which the filters are tried.
#[derive(Clone, Copy, Debug, PartialEq, Eq)]
pub enum Filter {
    /// The program switch is off.
    Program,
    /// `notifications_enabled` is 0.
    Disabled,
    /// The object, or a service's host, is in downtime.
    Downtime,
    /// The object is flapping.
    Flapping,
    /// The letter isn't among the object's options.
    Options,
    /// No problem notice went out in this problem.
    NoProblem,
    /// The moment isn't in the notification period.
    Period,
    /// A notification dependency fails.
    Dependency,
    /// The problem is acknowledged.
    Acknowledged,
    /// The delay before the first notice hasn't passed.
    FirstDelay,
    /// The interval since the last notice of the same state hasn't passed.
    Interval,
    /// The host of a service isn't UP.
    HostDown,
    /// The contact's notifications for this kind of object are off.
    ContactDisabled,
    /// The letter isn't among the contact's options.
    ContactOptions,
    /// The moment isn't in the contact's period.
    ContactPeriod,
    /// No state was told in the problem of which the contact is notified.
    ContactNotTold,
}

/// A message that is due: one contact is to get it on one lane.
#[derive(Clone, Copy, Debug, PartialEq, Eq)]
pub struct Notice {
    /// The number of the event.
    pub event: u64,
    /// The moment of the event, the greatest stamp up to it, in seconds since the epoch.
    pub moment: u64,
    pub object: ObjectId,
    pub kind: Kind,
    /// The object's last hard state, the event's own counted.
    pub state: State,
    /// The number of the notification in its problem, from 1; 0 for the kinds that have none.
    pub number: u64,
    pub contact: ContactId,
    pub lane: LaneId,
}

/// A message that was not sent, and the filter that stopped it.
#[derive(Clone, Copy, Debug, PartialEq, Eq)]
pub struct Suppression {
    /// The number of the event.
    pub event: u64,
    /// The moment of the event, in seconds since the epoch.
    pub moment: u64,
    pub object: ObjectId,
    pub kind: Kind,
    /// The object's last hard state, the event's own counted.
    pub state: State,
    /// The number that the notice would have had; 0 for the kinds that have none.
    pub number: u64,
    pub filter: Filter,
    /// The contact that a contact's filter spoke of; none for a filter of the object.
    pub contact: Option<ContactId>,
}

/// How far a notice reaches, by what was told before it.
#[derive(Clone, Copy, Debug, PartialEq, Eq)]
pub struct Reach {
    /// Whether it counts.
    pub heard: bool,
    /// The letters of the states told in the problem, where only who takes one of them is notified.
    pub told: Option<OptionLetters>,
    /// How many notices of the problem went out before it.
    pub standing: u64,
}

/// What becomes of one object at one event.
#[derive(Clone, Copy, Debug, PartialEq, Eq)]
pub enum Outcome {
    /// Nobody is to be notified.
    Nothing,
    /// A notice goes out. The gap is that of a problem notice to the next of the same state, in seconds,
    /// and 0 is "never again"; other kinds have the gap 0.
    Sent {
        kind: Kind,
        state: State,
        number: u64,
        moment: u64,
        gap: u64,
        reach: Reach,
    },
    /// A filter of the object stops it.
    Suppressed {
        kind: Kind,
        state: State,
        number: u64,
        moment: u64,
        filter: Filter,
    },
}
