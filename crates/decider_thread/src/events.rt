//! The events of a decider's ring: decided one by one, or passed over.

ghost use Rattle.std.specs.Prelude.{◌≡◌, ◌<◌, ◌++◌, ◌∷◌, List, [], true, false, length, IfNone, IfSome};
ghost use Rattle.due_model.specs.declared.event.Event.{Event};
ghost use Rattle.due_model.specs.declared.notice.Suppression.{Suppression};
ghost use Rattle.due_model.specs.declared.zone.Zone.{Zone};
ghost use Rattle.decider.specs.claims.Fits.{Fits, kept, settings};
ghost use Rattle.decider.specs.declared.share.Share.{Share};
ghost use Rattle.decider.specs.claims.Outbox.{lists, waiting_at};
ghost use Rattle.rtrb.specs.Ring.{SameConsumer, received};
ghost use Rattle.channel_queue.specs.declared.LaneQueue.{LaneQueue};
ghost use Rattle.decider_thread.specs.declared.seats.Seat.{Seat};
ghost use Rattle.decider_thread.specs.Decided.{HasStopped, Stands, heard};
ghost use Rattle.decider_thread.specs.Puts.{waiting_count};
ghost use Rattle.decider_thread.specs.Told.{IsNoted};
ghost use Rattle.decider_thread.specs.declared.Signal.TheVariants.{Over};

use crate::Signal;
use crate::log::DeciderLog;
use crate::seats::{Seat, is_full, put_round, tell_held};
use crate::setup::DeciderSetup;
use decider::{Decider, Outbox};
use delivery_worker::Gate;
use due_model::config::Config;
use due_model::event::Event;
use due_model::proper::is_proper;
use idle_pause::Pause;
use rtrb::Consumer;
use std::sync::Wait;
use std::sync::atomic::Ordering;
use std::time::Clock;

/// Tells the log what the decider has noted. What isn't told the decider keeps.
fn note<L: DeciderLog>(decider: &mut Decider<'_>, log: &mut L)
    ensures noted { (first : L) (all : List Suppression)
        → IsNoted (λ lines. L.tells first lines log.old) (kept decider.old).log all
        → IsNoted (λ lines. L.tells first lines log.new) (kept decider.new).log all }
    ensures fits { (past : List Event) → Fits (kept decider.old) past → Fits (kept decider.new) past }
    ensures settings { settings (kept decider.new) ≡ settings (kept decider.old) }
    // Unless the log has failed the decider keeps nothing.
    ensures all { L.failed log.new ≡ false → (kept decider.new).log ≡ [] }
{
    if log.tell(decider.log()) {
        decider.clear_log();
    }
}

/// Decides one event; what it makes due waits in the outboxes, and what it suppresses is told to the log. False: it isn't decided, and nothing has changed. The feed gives
/// proper events alone, and one that isn't is not decided.
fn decide_event<L: DeciderLog>(
    config: &Config,
    event: Event,
    decider: &mut Decider<'_>,
    outbox: &mut Outbox,
    log: &mut L,
) -> bool
    requires lanes { length (lists outbox.old) ≡ length config.now.lanes }
    requires few { waiting_count outbox.old < 65_536 }
    requires stands { (zone : Zone) × (share : Share) × (queues : List LaneQueue) × (seats : List Seat)
        × (past : List Event) × (first : L)
        × Stands config.now zone share queues past (kept decider.old) (λ lines. L.tells first lines log.old)
        (waiting_at outbox.old) seats }
    ensures decided { result ≡ true → (zone : Zone) (share : Share) (queues : List LaneQueue)
        (seats : List Seat) (past : List Event) (first : L) → length queues ≡ length (lists outbox.old)
        → Stands config.now zone share queues past (kept decider.old) (λ lines. L.tells first lines log.old)
        (waiting_at outbox.old) seats
        → Stands config.now zone share queues (event ∷ past) (kept decider.new)
        (λ lines. L.tells first lines log.new) (waiting_at outbox.new) seats }
    ensures kept { result ≡ false → (lists outbox.new ≡ lists outbox.old)
        × (kept decider.new ≡ kept decider.old) × (log.new ≡ log.old) }
    ensures all { result ≡ true → L.failed log.new ≡ false → (kept decider.new).log ≡ [] }
    ensures lanes { length (lists outbox.new) ≡ length (lists outbox.old) }
{
    if !is_proper(config, &event) {
        return false;
    }
    if decider.decide(event, outbox).is_err() {
        return false;
    }
    note(decider, log);
    true
}

/// The next signal of a ring. `None`: there is none now, or so many notices wait that none is taken.
fn next_signal(ring: &mut Consumer<Signal>, outbox: &Outbox) -> Option<Signal>
    requires { length (lists outbox.now) < 256 }
    ensures ring { SameConsumer ring.old ring.new }
    ensures some { IfSome result (λ signal. received ring.new ≡ received ring.old ++ signal ∷ []) }
    ensures few { IfSome result (λ signal. waiting_count outbox.now < 65_536) }
    ensures none { IfNone result (received ring.new ≡ received ring.old) }
{
    if is_full(outbox) {
        return None;
    }
    ring.pop().ok()
}

/// Decides the events of a ring until it is over, while what waits is put into the queues as they have room. False: an event wasn't
/// decided, and the ring isn't over.
pub(crate) fn decide_events<L: DeciderLog, G: Gate, R: Wait + Clock>(
    setup: DeciderSetup<'_, G, R>,
    ring: &mut Consumer<Signal>,
    decider: &mut Decider<'_>,
    outbox: &mut Outbox,
    log: &mut L,
    seats: &mut [Seat],
) -> bool
    requires fresh { received ring.old ≡ [] }
    requires queues { length setup.queues.now ≡ length (lists outbox.old) }
    requires seats { length seats.old ≡ length (lists outbox.old) }
    requires lanes { length (lists outbox.old) ≡ length setup.config.now.lanes }
    requires range { length (lists outbox.old) < 256 }
    requires stands { (zone : Zone) × Stands setup.config.now zone setup.share setup.queues.now [] (kept decider.old)
        (λ lines. L.tells log.old lines log.old) (waiting_at outbox.old) seats.old }
    ensures ring { SameConsumer ring.old ring.new }
    ensures stopped { (zone : Zone) → Stands setup.entry.config.now zone setup.entry.share setup.entry.queues.now [] (kept decider.old)
        (λ lines. L.tells log.old lines log.old) (waiting_at outbox.old) seats.old
        → HasStopped setup.entry.config.now zone setup.entry.share setup.entry.queues.now result (received ring.new) (waiting_at outbox.new)
        seats.new (λ lines. L.tells log.old lines log.new) (kept decider.new).log }
    ensures all { (kept decider.old).log ≡ [] → L.failed log.new ≡ false → (kept decider.new).log ≡ [] }
    ensures seats { length seats.new ≡ length seats.old }
    ensures lanes { length (lists outbox.new) ≡ length (lists outbox.old) }
{
    let mut pause = Pause::new();
    for _ in setup.rt.forever() {
        let moved = put_round(setup.gate, setup.queues, seats, outbox, setup.share.decider);
        match next_signal(ring, outbox) {
            None => {
                if moved {
                    pause.reset();
                } else {
                    pause.rest(setup.rt);
                }
            }
            Some(Signal::Over) => return true,
            Some(Signal::Decides(event)) => {
                pause.reset();
                setup.gate.turn(setup.share.decider);
                if setup.halt.load(Ordering::SeqCst) {
                    return false;
                }
                if !decide_event(setup.config, event, decider, outbox, log) {
                    setup.halt.store(true, Ordering::SeqCst);
                    setup.gate.wanting();
                    return false;
                }
                tell_held(setup.gate, setup.share.decider, outbox);
            }
        }
    }
    unreachable!()
}

/// Empties a ring up to its end, unless that has come.
pub(crate) fn skip_rest<R: Wait + Clock>(rt: &R, ring: &mut Consumer<Signal>, over: bool)
    ensures ring { SameConsumer ring.old ring.new }
    ensures over { over ≡ true → received ring.new ≡ received ring.old }
    ensures heard { over ≡ false → (past : List Event) → received ring.old ≡ heard past
        → (newer : List Event) × (received ring.new ≡ heard (newer ++ past) ++ Over ∷ []) }
{
    if over {
        return;
    }
    let mut pause = Pause::new();
    for _ in rt.forever() {
        match ring.pop() {
            Err(_) => pause.rest(rt),
            Ok(Signal::Over) => return,
            Ok(Signal::Decides(_)) => pause.reset(),
        }
    }
    unreachable!()
}
