//! The work of a decider's thread.

ghost use Rattle.std.specs.Prelude.{◌≡◌, [], false, length};
ghost use Rattle.due_model.specs.claims.Accepted.{IsAccepted};
ghost use Rattle.decider.specs.claims.Share.{IsShare};
ghost use Rattle.rtrb.specs.Ring.{SameConsumer, received};
ghost use Rattle.decider_thread.specs.Decided.{HasHeard, HasToldAndDecided};
ghost use Rattle.decider_thread.specs.Puts.{ArePut};

use crate::Signal;
use crate::events::{decide_events, skip_rest};
use crate::log::DeciderLog;
use crate::seats::{Seat, put_all, put_ends};
use crate::setup::DeciderSetup;
use decider::{Decider, Outbox};
use delivery_worker::Gate;
use due_model::notice::Suppression;
use rtrb::Consumer;
use std::sync::Wait;
use std::sync::atomic::Ordering;
use std::time::Clock;

/// What a decider's thread gives back.
#[derive(Drop)]
pub struct DeciderEnd {
    /// The end of its ring, which it has emptied.
    pub ring: Consumer<Signal>,
    /// Its pass of each lane's queue, which has put its end.
    pub seats: Vec<Seat>,
    /// What was suppressed of its objects and wasn't told, by event, then object, then contact. It comes after what was told.
    pub log: Vec<Suppression>,
    /// Whether memory ran out, here or in another thread, before it had decided all.
    pub memory: bool,
}

/// Decides the events of a ring, and empties it up to its end, and then the outboxes. It gives back what was suppressed and not
/// told, and whether memory ran out.
fn decide_all<L: DeciderLog, G: Gate, R: Wait + Clock>(
    setup: DeciderSetup<'_, G, R>,
    ring: &mut Consumer<Signal>,
    log: &mut L,
    seats: &mut [Seat],
) -> (Vec<Suppression>, bool)
    requires accepted { IsAccepted setup.config.now }
    requires share { IsShare setup.share }
    requires fresh { received ring.old ≡ [] }
    requires queues { length setup.queues.now ≡ length setup.config.now.lanes }
    requires seats { length seats.old ≡ length setup.queues.now }
    requires puts { ArePut setup.share.decider setup.queues.now seats.old (λ _. []) (λ _. []) }
    ensures ring { SameConsumer ring.old ring.new }
    ensures heard { HasHeard setup.entry.config.now setup.entry.zone.now setup.entry.share setup.entry.queues.now result.1 (received ring.new)
        seats.new (λ lines. L.tells log.old lines log.new) result.0.items }
    ensures all { L.failed log.new ≡ false → result.0.items ≡ [] }
    ensures seats { length seats.new ≡ length seats.old }
{
    let (Ok(mut decider), Ok(mut outbox)) = (
        Decider::new(setup.alloc, setup.config, setup.zone, setup.share),
        Outbox::new(setup.alloc, setup.config.lanes.len()),
    ) else {
        setup.halt.store(true, Ordering::SeqCst);
        setup.gate.wanting();
        skip_rest(setup.rt, ring, false);
        return (Vec::new(setup.alloc), true);
    };
    let over = decide_events(setup, ring, &mut decider, &mut outbox, log, seats);
    skip_rest(setup.rt, ring, over);
    put_all(
        setup.rt,
        setup.gate,
        setup.queues,
        seats,
        &mut outbox,
        setup.share.decider,
    );
    (decider.into_log(), !over)
}

/// Decides the events of a ring for the objects of a share, and puts what they make due into the queues of the lanes. What a full
/// queue doesn't take waits, while further events are decided; with 65,536 notices that wait no event is taken. The gate is asked
/// before each event, and after each the log is told what it suppressed. The decider's end comes last. Where a growth is refused here
/// or in another thread, which `halt` tells, no further event is decided; the ring is emptied all the same, and what waits and the
/// ends are put. The log comes back beside what is left; unless it has failed it was told all.
pub fn decide_ring<L: DeciderLog, G: Gate, R: Wait + Clock>(
    setup: DeciderSetup<'_, G, R>,
    ring: Consumer<Signal>,
    log: L,
    seats: Vec<Seat>,
) -> (DeciderEnd, L)
    requires accepted { IsAccepted setup.config.now }
    requires share { IsShare setup.share }
    requires fresh { received ring ≡ [] }
    requires queues { length setup.queues.now ≡ length setup.config.now.lanes }
    requires seats { length seats.items ≡ length setup.queues.now }
    requires puts { ArePut setup.share.decider setup.queues.now seats.items (λ _. []) (λ _. []) }
    ensures { HasToldAndDecided L.tells L.failed setup.entry.config.now setup.entry.zone.now setup.entry.share setup.entry.queues.now ring log result.0 result.1 }
{
    let mut ring = ring;
    let mut seats = seats;
    let mut told = log;
    let (log, memory) = decide_all(setup, &mut ring, &mut told, &mut seats);
    put_ends(setup.rt, setup.queues, &mut seats, setup.share.decider);
    let end = DeciderEnd {
        ring,
        seats,
        log,
        memory,
    };
    (end, told)
}
