//! What a decider puts into the queues of its lanes.

ghost use Rattle.std.specs.Prelude.{◌≡◌, ◌≢◌, ◌↔◌, ◌<◌, ◌≤◌, ◌++◌, ◌∷◌, ℕ, List, [], true, length};
ghost use Rattle.due_model.specs.declared.notice.Notice.{Notice};
ghost use Rattle.decider.specs.claims.Outbox.{lists, waiting_at};
ghost use Rattle.decider_thread.specs.Puts.{ArePut, HaveEnded, Puts, as_items, waiting_count};
ghost use Rattle.channel_queue.specs.Passes.{IsDecider};
ghost use Rattle.due_model.specs.declared.item.Item.TheVariants.{End};

use channel_queue::{LaneQueue, Pass};
use decider::Outbox;
use delivery_worker::Gate;
use due_model::config::LaneId;
use due_model::item::Item;
use idle_pause::Pause;
use std::sync::Wait;
use std::time::Clock;

/// With so many notices in its outboxes a decider takes no further event.
const MOST_WAITING: usize = 65_536;

/// A decider's pass of a lane's queue.
#[derive(Drop)]
pub struct Seat {
    pub lane: LaneId,
    pub pass: Pass,
}

/// Puts the notice that has waited longest for a lane, unless the lane's queue is full. True: one was put.
fn put_front<G: Gate>(
    gate: &G,
    queue: &LaneQueue,
    seat: &mut Seat,
    outbox: &mut Outbox,
    lane: LaneId,
    decider: u8,
) -> bool
    requires lane { lane.0 < length (lists outbox.old) }
    requires puts { (whole : List Notice)
        × Puts queue.now decider (waiting_at outbox.old lane.0) whole seat.old.pass }
    ensures puts { (whole : List Notice)
        → Puts queue.now decider (waiting_at outbox.old lane.0) whole seat.old.pass
        → Puts queue.now decider (waiting_at outbox.new lane.0) whole seat.new.pass }
    ensures others { (k : ℕ) → k ≢ lane.0 → waiting_at outbox.new k ≡ waiting_at outbox.old k }
    ensures lanes { length (lists outbox.new) ≡ length (lists outbox.old) }
{
    let Some(notice) = outbox.front(lane) else {
        return false;
    };
    if queue
        .offer(&mut seat.pass, Item::Notice(decider, notice))
        .is_err()
    {
        return false;
    }
    outbox.take_front(lane);
    gate.queued(decider, lane);
    true
}

/// Tells the gate how many notices wait for each lane.
pub(crate) fn tell_held<G: Gate>(gate: &G, decider: u8, outbox: &Outbox)
    requires { length (lists outbox.now) < 256 }
{
    for lane in 0..outbox.len() as u8 {
        gate.held(decider, LaneId(lane), outbox.waiting(LaneId(lane)) as u64);
    }
}

/// Puts the front of each lane whose queue isn't full. True: one was put.
pub(crate) fn put_round<G: Gate>(
    gate: &G,
    queues: &[LaneQueue],
    seats: &mut [Seat],
    outbox: &mut Outbox,
    decider: u8,
) -> bool
    requires queues { length queues.now ≡ length (lists outbox.old) }
    requires seats { length seats.old ≡ length (lists outbox.old) }
    requires lanes { length (lists outbox.old) < 256 }
    requires puts { (whole : ℕ → List Notice)
        × ArePut decider queues.now seats.old (waiting_at outbox.old) whole }
    ensures puts { (whole : ℕ → List Notice)
        → ArePut decider queues.now seats.old (waiting_at outbox.old) whole
        → ArePut decider queues.now seats.new (waiting_at outbox.new) whole }
    ensures seats { length seats.new ≡ length seats.old }
    ensures lanes { length (lists outbox.new) ≡ length (lists outbox.old) }
{
    let mut moved = false;
    for lane in 0..outbox.len() as u8 {
        let place = usize::from(lane);
        if put_front(
            gate,
            &queues[place],
            &mut seats[place],
            outbox,
            LaneId(lane),
            decider,
        ) {
            moved = true;
        }
    }
    moved
}

/// Whether so many notices wait that no further event is taken.
pub(crate) fn is_full(outbox: &Outbox) -> bool
    requires { length (lists outbox.now) < 256 }
    ensures { (result ≡ true) ↔ (65_536 ≤ waiting_count outbox.now) }
{
    let mut room = MOST_WAITING;
    for lane in 0..outbox.len() as u8 {
        let waiting = outbox.waiting(LaneId(lane));
        if waiting >= room {
            return true;
        }
        room -= waiting;
    }
    false
}

/// Whether nothing waits.
fn is_empty(outbox: &Outbox) -> bool
    requires { length (lists outbox.now) < 256 }
    ensures { result ≡ true → (l : ℕ) → l < length (lists outbox.now) → waiting_at outbox.now l ≡ [] }
{
    for lane in 0..outbox.len() as u8 {
        if outbox.waiting(LaneId(lane)) > 0 {
            return false;
        }
    }
    true
}

/// Puts all that waits.
pub(crate) fn put_all<G: Gate, R: Wait + Clock>(
    rt: &R,
    gate: &G,
    queues: &[LaneQueue],
    seats: &mut [Seat],
    outbox: &mut Outbox,
    decider: u8,
)
    requires queues { length queues.now ≡ length (lists outbox.old) }
    requires seats { length seats.old ≡ length (lists outbox.old) }
    requires lanes { length (lists outbox.old) < 256 }
    requires puts { (whole : ℕ → List Notice)
        × ArePut decider queues.now seats.old (waiting_at outbox.old) whole }
    ensures puts { (whole : ℕ → List Notice)
        → ArePut decider queues.now seats.old (waiting_at outbox.old) whole
        → ArePut decider queues.now seats.new (waiting_at outbox.new) whole }
    ensures empty { (l : ℕ) → l < length (lists outbox.new) → waiting_at outbox.new l ≡ [] }
    ensures seats { length seats.new ≡ length seats.old }
    ensures lanes { length (lists outbox.new) ≡ length (lists outbox.old) }
{
    let mut pause = Pause::new();
    for _ in rt.forever() {
        if is_empty(outbox) {
            return;
        }
        if put_round(gate, queues, seats, outbox, decider) {
            pause.reset();
        } else {
            pause.rest(rt);
        }
    }
    unreachable!()
}

/// Puts the decider's end for a lane.
fn put_end<R: Wait + Clock>(rt: &R, queue: &LaneQueue, seat: &mut Seat, decider: u8)
    requires { (whole : List Notice) × Puts queue.now decider [] whole seat.old.pass }
    ensures { (whole : List Notice) → Puts queue.now decider [] whole seat.old.pass
        → IsDecider queue.now decider (as_items decider whole ++ End decider ∷ []) seat.new.pass }
{
    let mut pause = Pause::new();
    for _ in rt.forever() {
        if queue.offer(&mut seat.pass, Item::End(decider)).is_ok() {
            return;
        }
        pause.rest(rt);
    }
    unreachable!()
}

/// Puts the decider's end for each lane.
pub(crate) fn put_ends<R: Wait + Clock>(
    rt: &R,
    queues: &[LaneQueue],
    seats: &mut [Seat],
    decider: u8,
)
    requires seats { length seats.old ≡ length queues.now }
    requires puts { (whole : ℕ → List Notice) × ArePut decider queues.now seats.old (λ _. []) whole }
    ensures ended { (whole : ℕ → List Notice) → ArePut decider queues.now seats.old (λ _. []) whole
        → HaveEnded decider queues.now seats.new whole }
    ensures seats { length seats.new ≡ length seats.old }
{
    for place in 0..seats.len() {
        put_end(rt, &queues[place], &mut seats[place], decider);
    }
}
