//! What is read to decide an event.

use crate::share::Share;
use due_model::event::EventKind;
use due_times::Index;
use outcomes::rules::Rules;
use problem_count::Book;

/// What an event says, and what it makes of the moment and of the program switch.
#[derive(Clone, Copy)]
pub(crate) struct EventContext {
    /// The event's number, from 0.
    pub(crate) number: u64,
    pub(crate) kind: EventKind,
    /// The moment, the greatest stamp up to this event, in seconds since the epoch.
    pub(crate) moment: u64,
    /// The program switch, this event counted.
    pub(crate) program: bool,
}

/// What is read to decide an event, apart from the statuses and the dependencies. It borrows all that is long.
#[derive(Clone, Copy)]
pub(crate) struct Reading<'r> {
    pub(crate) rules: Rules<'r>,
    pub(crate) share: Share,
    pub(crate) context: EventContext,
    /// The book of each object, from before the event; those of objects outside the share are never read.
    pub(crate) books: &'r [Book],
    /// When each object of the share is next due, from before the event.
    pub(crate) index: &'r Index,
}
