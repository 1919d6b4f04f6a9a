//! What is put together once all threads have ended.

ghost use Rattle.std.specs.Prelude.{◌≡◌, ◌<◌, ◌++◌, ◌∷◌, ℕ, List, [], Some, length, slice_get};
ghost use Rattle.due_model.specs.declared.config.Config.{Config};
ghost use Rattle.due_model.specs.declared.event.Event.{Event};
ghost use Rattle.due_model.specs.declared.zone.Zone.{Zone};
ghost use Rattle.rtrb.specs.Ring.{IsPair, received, sent};
ghost use Rattle.decider_thread.specs.Decided.{heard};
ghost use Rattle.decider_thread.specs.declared.Signal.TheVariants.{Over};
ghost use Rattle.due_model.specs.declared.notice.Notice.{Notice};
ghost use Rattle.due_model.specs.declared.notice.Suppression.{Suppression};
ghost use Rattle.engine_threads.specs.Joins.{AreEnds, AreKept, ArePicked, AreWorkers, IsEnd, IsMet};
ghost use Rattle.decider_thread.specs.Puts.{HaveEnded};

use channel_queue::LaneQueue;
use decider_thread::{DeciderEnd, Seat, Signal};
use delivery_worker::Served;
use rtrb::{Consumer, Producer};

/// Joins a decider's passes to those of the workers, lane by lane.
fn join_seats(queues: &[LaneQueue], served: &mut Vec<Served>, seats: Vec<Seat>)
    requires seats { length seats.items ≡ length queues.now }
    requires served { length served.old.items ≡ length queues.now }
    requires workers { AreWorkers queues.now served.old.items }
    requires ended { (d : ℕ) × (put : ℕ → List Notice) × HaveEnded d queues.now seats.items put }
    ensures workers { AreWorkers queues.now served.new.items }
    ensures kept { AreKept served.old.items served.new.items }
    ensures picked { (d : ℕ) (put : ℕ → List Notice) → HaveEnded d queues.now seats.items put
        → ArePicked d queues.now put served.old.items }
    ensures served { length served.new.items ≡ length served.old.items }
{
    let mut place = 0;
    for seat in seats {
        let Seat { pass, lane: _ } = seat;
        queues[place].absorb(&mut served[place].pass, pass);
        place += 1;
    }
}

/// Compares what a decider has received with what it was sent.
fn compare(ring: &mut Consumer<Signal>, sender: &mut Producer<Signal>)
    requires { IsPair sender.old ring.old }
    ensures { (all past : List Event) → received ring.old ≡ heard all ++ Over ∷ []
        → sent sender.old ≡ heard past ++ Over ∷ [] → all ≡ past }
{
    ring.slots_beside(sender);
}

/// Puts together what a decider has put and what the workers have picked. True: memory ran out in it.
fn meet_one(
    queues: &[LaneQueue],
    served: &mut Vec<Served>,
    end: DeciderEnd,
    sender: &mut Producer<Signal>,
) -> bool
    requires served { length served.old.items ≡ length queues.now }
    requires workers { AreWorkers queues.now served.old.items }
    requires end { (c : Config) × (zone : Zone) × (n d : ℕ) × (events : List Event) × (told : List Suppression)
        × IsEnd c zone n d queues.now events told end sender.old }
    ensures workers { AreWorkers queues.now served.new.items }
    ensures kept { AreKept served.old.items served.new.items }
    ensures served { length served.new.items ≡ length served.old.items }
    ensures met { (c : Config) (zone : Zone) (n d : ℕ) (events : List Event) (told : List Suppression)
        → IsEnd c zone n d queues.now events told end sender.old
        → IsMet c zone n d queues.now events result served.old.items told end.log.items }
{
    let DeciderEnd {
        ring,
        seats,
        log: _,
        memory,
    } = end;
    let mut ring = ring;
    compare(&mut ring, sender);
    join_seats(queues, served, seats);
    memory
}

/// Puts together what the deciders have put and what the workers have picked. True: memory ran out in a decider.
pub(crate) fn meet_all(
    queues: &[LaneQueue],
    served: &mut Vec<Served>,
    ends: Vec<DeciderEnd>,
    senders: &mut Vec<Producer<Signal>>,
) -> bool
    requires served { length served.old.items ≡ length queues.now }
    requires senders { length senders.old.items ≡ length ends.items }
    requires workers { AreWorkers queues.now served.old.items }
    requires ends { (c : Config) × (zone : Zone) × (events : List Event) × (told : ℕ → List Suppression)
        × AreEnds c zone queues.now events told ends.items senders.old.items }
    ensures kept { AreKept served.old.items served.new.items }
    ensures served { length served.new.items ≡ length served.old.items }
    ensures met { (c : Config) (zone : Zone) (events : List Event) (told : ℕ → List Suppression)
        → AreEnds c zone queues.now events told ends.items senders.old.items
        → (d : ℕ) (e : DeciderEnd) → slice_get ends.items d ≡ Some e
        → IsMet c zone (length ends.items) d queues.now events result served.old.items
        (told d) e.log.items }
{
    let mut memory = false;
    let mut place = 0;
    for end in ends {
        let refused = meet_one(queues, served, end, &mut senders[place]);
        memory |= refused;
        place += 1;
    }
    memory
}
