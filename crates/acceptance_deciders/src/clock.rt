//! How many problems the clock judges: those that are ready, and no other.

ghost use Rattle.std.specs.Prelude.{All};
ghost use Rattle.due_model.specs.claims.Accepted.{IsAccepted};
ghost use Rattle.due_model.specs.claims.Proper.{IsProper};
ghost use Rattle.decider.specs.claims.Share.{IsShare};

use crate::said::examined;
use acceptance_inputs::accepted::is_accepted;
use acceptance_inputs::events::are_proper;
use acceptance_inputs::rows::{ContactRow, ObjectRow, Rows, config_of};
use decider::Share;
use due_model::config::{Config, ContactId, ObjectId};
use due_model::event::{Event, EventKind};
use due_model::state::State;
use std::alloc::{AllocError, Global};
use std::process::Abort;
use std::test::Fail;

/// How many hosts are told of again after a million minutes, beside one that is after a minute.
const SLOW_HOSTS: u16 = 1_000;

/// The clock's moments.
const MOMENTS: [u64; 3] = [60, 119, 120];

/// How many of them come, a decider of so many, and how many problems it has judged then: that of the one host, object 0, at 60 and at 120.
const CASES: [(usize, u8, u8, u64); 5] = [
    (1, 0, 1, 1),
    (2, 0, 1, 1),
    (3, 0, 1, 2),
    (3, 0, 8, 2),
    (3, 7, 8, 0),
];

/// A host that is told of again after so many minutes.
fn host(interval: u32) -> ObjectRow {
    ObjectRow {
        interval,
        contacts: &[ContactId(0)],
        ..ObjectRow::PLAIN
    }
}

/// The hosts.
fn hosts(alloc: Global) -> Result<Vec<ObjectRow>, AllocError> {
    let mut made = Vec::new(alloc);
    made.push(host(1))?;
    for _host in 0..SLOW_HOSTS {
        made.push(host(1_000_000))?;
    }
    Ok(made)
}

/// The configuration of the hosts, with one contact.
fn config(alloc: Global) -> Result<Config, AllocError> {
    let objects = hosts(alloc)?;
    let rows = Rows {
        lanes: 1,
        contacts: &[ContactRow::FREE],
        objects: objects.as_slice(),
        periods: &[],
        escalations: &[],
        dependencies: &[],
    };
    config_of(alloc, rows)
}

/// All hosts are down at 0; then the clock comes, so many times.
fn events(alloc: Global, clocks: usize) -> Result<Vec<Event>, AllocError> {
    let mut made = Vec::new(alloc);
    for number in 0..=SLOW_HOSTS {
        let kind = EventKind::Hard(ObjectId(number), State::Down);
        made.push(Event { moment: 0, kind })?;
    }
    for moment in MOMENTS.iter().take(clocks) {
        made.push(Event {
            moment: *moment,
            kind: EventKind::Clock,
        })?;
    }
    Ok(made)
}

/// After these events the decider of a share has judged so many problems.
fn has_judged(
    rt: &impl Abort,
    alloc: Global,
    config: &Config,
    events: &[Event],
    share: Share,
    judged: u64,
) -> Result<(), Fail>
    requires accepted { IsAccepted config.now }
    requires share { IsShare share }
{
    assert!(rt; are_proper(config, events));
    let found = examined(alloc, config, events, share)?;
    assert_eq!(rt; found, judged, "{share:?}");
    Ok(())
}

/// The events with so many of the clock's, and what the decider of a share has judged after them.
fn judges(
    rt: &impl Abort,
    alloc: Global,
    config: &Config,
    clocks: usize,
    share: Share,
    judged: u64,
) -> Result<(), Fail> {
    let events = events(alloc, clocks)?;
    assert!(rt; is_accepted(config) && share.decider < share.deciders && share.deciders <= 8);
    has_judged(rt, alloc, config, events.as_slice(), share, judged)
}

#[test]
fn clock_judges_what_is_ready(rt: HostRuntime) -> Result<(), Fail> {
    let config = config(rt.alloc())?;
    for (clocks, decider, deciders, judged) in CASES {
        let share = Share { decider, deciders };
        judges(&rt, rt.alloc(), &config, clocks, share, judged)?;
    }
    Ok(())
}
