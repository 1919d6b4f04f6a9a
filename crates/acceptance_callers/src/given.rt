//! What callers post in the tests, and how it is taken.

ghost use Rattle.caller_feeds.specs.Feeds.{AreUnsent, IsOpen};

use caller_feeds::{FeedHandle, Intake, IntakeStop};
use crossbeam_utils::Backoff;
use due_model::config::{Choices, Config, ObjectId};
use due_model::dependencies::Dependencies;
use due_model::escalations::Escalations;
use due_model::event::{Event, EventKind};
use due_model::objects::Objects;
use due_model::sequence::Sequence;
use due_model::state::State;
use std::alloc::{AllocError, Global};
use std::process::Abort;
use std::sync::Wait;
use std::time::Clock;

/// How many turns of a wait are too many.
const MOST_TURNS: u32 = 10_000_000;

/// How many events are more than any test posts.
pub(crate) const MOST_EVENTS: usize = 20_000;

/// How far apart the moments of callers are.
const SPAN: u64 = 10_000;

/// A configuration without an object.
pub(crate) fn no_objects(alloc: Global) -> Result<Config, AllocError> {
    Ok(Config {
        choices: Choices::own(),
        objects: Objects::new(alloc, Vec::new(alloc))?,
        contacts: Sequence::new(Vec::new(alloc)),
        lanes: Sequence::new(Vec::new(alloc)),
        periods: Sequence::new(Vec::new(alloc)),
        escalations: Escalations::new(alloc, Vec::new(alloc))?,
        dependencies: Dependencies::new(alloc, Vec::new(alloc))?,
    })
}

/// The event of this number that a caller posts. It is proper.
pub(crate) fn event(caller: u16, number: u64) -> Event {
    Event {
        moment: (u64::from(caller) * SPAN).saturating_add(number),
        kind: EventKind::Clock,
    }
}

/// An event of an object that isn't there.
pub(crate) fn improper() -> Event {
    Event {
        moment: 0,
        kind: EventKind::Hard(ObjectId(0), State::Down),
    }
}

/// Takes the last handle out.
pub(crate) fn last_handle(rt: &impl Abort, handles: &mut Vec<FeedHandle>) -> FeedHandle
    requires { AreUnsent handles.old.items }
    ensures rest { AreUnsent handles.new.items }
    ensures handle { IsOpen result }
{
    handles.pop().expect(rt, "a handle for each caller")
}

/// Posts an event, again while the feed is full.
pub(crate) fn post_in_turn(rt: &impl Abort, handle: &mut FeedHandle, event: Event)
    requires { IsOpen handle.old }
    ensures { IsOpen handle.new }
{
    let backoff = Backoff::new();
    for _turn in 0..MOST_TURNS {
        if handle.post(event).is_ok() {
            return;
        }
        backoff.snooze();
    }
    panic!(rt; "the feed stays full")
}

/// Posts so many events of a caller, each again while the feed is full.
pub(crate) fn post_all(rt: &impl Abort, handle: &mut FeedHandle, caller: u16, count: u64)
    requires { IsOpen handle.old }
    ensures { IsOpen handle.new }
{
    for number in 0..count {
        post_in_turn(rt, handle, event(caller, number));
    }
}

/// Sends that there is no more, again while the feed is full.
pub(crate) fn end(rt: &impl Abort, handle: &mut FeedHandle)
    requires { IsOpen handle.old }
{
    let backoff = Backoff::new();
    for _turn in 0..MOST_TURNS {
        if handle.end().is_ok() {
            return;
        }
        backoff.snooze();
    }
    panic!(rt; "the feed stays full")
}

/// Takes events until no more comes, and tells why.
pub(crate) fn take_all(
    rt: &(impl Wait + Clock + Abort),
    config: &Config,
    intake: &mut Intake,
) -> IntakeStop {
    for _event in 0..MOST_EVENTS {
        if let Err(stop) = intake.next_event(rt, config) {
            return stop;
        }
    }
    panic!(rt; "more is taken than was posted")
}

/// How many events of a caller there are. They stand in its order.
pub(crate) fn count_of(rt: &impl Abort, events: &[Event], caller: u16) -> u64 {
    let mut next = 0u64;
    for found in events {
        if found.moment / SPAN == u64::from(caller) {
            assert!(rt; *found == event(caller, next), "{next} of {caller} is next");
            next = next.saturating_add(1);
        }
    }
    next
}
