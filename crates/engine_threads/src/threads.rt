//! The threads from their start to their end.

ghost use Rattle.std.specs.Prelude.{◌≡◌, ◌||◌, ◌<◌, ◌≤◌, ℕ, List, [], IfErr, IfOk, IfSome, length, reverse};
ghost use Rattle.std.specs.Prelude.{false, true, slice_get, vec_capacity, Some};
ghost use Rattle.due_model.specs.claims.Accepted.{IsAccepted};
ghost use Rattle.rtrb.specs.Ring.{IsPair};
ghost use Rattle.decider_thread.specs.claims.Order.{IsInOrder};
ghost use Rattle.engine_threads.specs.Lanes.{HaveTaken};
ghost use Rattle.engine_threads.specs.Logs.{AreInOrder, HasEach};
ghost use Rattle.engine_threads.specs.Run.{AreLaneEnds};
ghost use Rattle.engine_threads.specs.Told.{HaveLogged};
ghost use Rattle.engine_threads.specs.Sent.{HaveSent};
ghost use Rattle.engine_threads.specs.Works.{AreDeciderWorks, AreNewWorkers, HaveDeciders};

use crate::ends::meet_all;
use crate::joins::{join_all, join_lanes};
use crate::lane_work::LaneWork;
use crate::logs::merge_logs;
use crate::shared::Shared;
use crate::signals::feed_from;
use crate::source::Source;
use crate::starts::{DeciderWork, start_deciders, start_lanes};
use crate::zone::GivesZone;
use channel::Channel;
use decider_thread::laws::made_of_share;
use decider_thread::{DeciderEnd, DeciderLog, Signal};
use delivery_worker::{Gate, Served};
use due_model::notice::Suppression;
use rtrb::Producer;
use std::alloc::Global;
use std::sync::Wait;
use std::thread::{Scope, Threads};
use std::time::Clock;

/// What the threads of a run gave back.
#[derive(Drop)]
pub(crate) struct Driven<C: Channel, S: Source, L: DeciderLog> {
    /// Each lane, in order.
    pub served: Vec<Served>,
    /// The channels of each, in its place.
    pub channels: Vec<Vec<C>>,
    /// What was suppressed and not told, by event, then object, then contact.
    pub log: Vec<Suppression>,
    /// The log of each decider, in order.
    pub logs: Vec<L>,
    /// Whether memory ran out in a decider.
    pub refused: bool,
    /// Whether it ran out in the intake, or for the log.
    pub memory: bool,
    pub source: S,
}

/// Room for the two things that each of so many threads gives back, made before they begin. `None`: a growth was refused.
fn rooms<T: Drop, U: Drop>(alloc: Global, count: usize) -> Option<(Vec<T>, Vec<U>)>
    ensures first { IfSome result (λ r. (r.0.items ≡ []) × (count ≤ vec_capacity r.0)) }
    ensures second { IfSome result (λ r. (r.1.items ≡ []) × (count ≤ vec_capacity r.1)) }
{
    let first = Vec::with_capacity(alloc, count).ok()?;
    let second = Vec::with_capacity(alloc, count).ok()?;
    Some((first, second))
}

/// Starts all threads, sends them the events, and puts together what they give back. Where a thread can't be started, or
/// a growth is refused before they begin, the source comes back as it was.
pub(crate) fn drive<
    's,
    E,
    C: Channel + 's,
    S: Source,
    L: DeciderLog + 's,
    Z: GivesZone + Sync,
    G: Gate + Sync,
    R: Threads + Wait + Clock + Sync,
>(
    scope: &'s Scope<'s, E>,
    shared: Shared<'s, Z, G, R>,
    source: S,
    works: Vec<LaneWork<C>>,
    deciders: Vec<DeciderWork>,
    senders: Vec<Producer<Signal>>,
    logs: Vec<L>,
) -> Result<Driven<C, S, L>, S>
    requires accepted { IsAccepted shared.config.now }
    requires tries { 0 < shared.tries }
    requires source { S.given_so_far source ≡ [] }
    requires some { 0 < length deciders.items }
    requires most { length deciders.items ≤ 8 }
    requires lanes { length shared.queues.now ≡ length shared.config.now.lanes }
    requires queues { HaveDeciders (length deciders.items) shared.queues.now }
    requires works { length works.items ≡ length shared.queues.now }
    requires workers { AreNewWorkers (λ w. w.pass) shared.queues.now works.items }
    requires deciders { AreDeciderWorks shared.queues.now deciders.items }
    requires senders { length senders.items ≡ length deciders.items }
    requires logs { length logs.items ≡ length deciders.items }
    requires unsent { HaveSent [] senders.items }
    requires pairs { (d : ℕ) (w : _) (p : _) → slice_get deciders.items d ≡ Some w
        → slice_get senders.items d ≡ Some p → IsPair p w.ring }
    ensures lanes { IfOk result (λ r. (channels : ℕ → ℕ)
        → ((l : ℕ) (w : _) → slice_get works.items l ≡ Some w → length w.channels.items ≡ channels l)
        → AreLaneEnds shared.entry.config.now (Z.zone shared.entry.zone.now) channels (reverse (S.given_so_far r.source)) r.refused
        r.served.items) }
    ensures log { IfOk result (λ r. HaveLogged L.tells L.failed shared.entry.config.now (Z.zone shared.entry.zone.now)
        (reverse (S.given_so_far r.source)) (r.refused || r.memory) logs.items r.logs.items r.log.items) }
    ensures channels { IfOk result (λ r. (l : ℕ) (w s b : _) → slice_get works.items l ≡ Some w
        → slice_get r.served.items l ≡ Some s → slice_get r.channels.items l ≡ Some b
        → HaveTaken C.account C.offered shared.entry.tries shared.entry.config.now s w.channels.items b.items) }
    ensures places { IfOk result (λ r. length r.channels.items ≡ length r.served.items) }
    ensures source { IfOk result (λ r. S.goes shared.entry.config.now source r.source) }
    ensures over { IfOk result (λ r. r.memory ≡ false → S.ended r.source) }
    ensures none { IfErr result (λ s. s ≡ source) }
{
    let Some(lanes) = start_lanes(scope, shared, works) else {
        shared.word.leave();
        return Err(source);
    };
    let Some(ends) = start_deciders(scope, shared, deciders, logs) else {
        shared.word.leave();
        return Err(source);
    };
    let (Some((ended, told)), Some((left, places))) = (
        rooms(shared.alloc, ends.len()),
        rooms(shared.alloc, lanes.len()),
    ) else {
        shared.word.leave();
        return Err(source);
    };
    shared.word.go();
    let mut senders = senders;
    let mut source = source;
    let stopped = feed_from(
        shared.rt,
        shared.config,
        &mut senders,
        &mut source,
        shared.gate,
        shared.halt,
    );
    let (ends, logs) = join_all(shared.rt, ends, ended, told);
    let (mut served, channels) = join_lanes(shared.rt, lanes, left, places);
    made_of_share();
    let (log, unmerged) = merged_log(shared.alloc, &ends);
    let refused = meet_all(shared.queues, &mut served, ends, &mut senders);
    let memory = stopped | unmerged;
    Ok(Driven {
        served,
        channels,
        log,
        logs,
        refused,
        memory,
        source,
    })
}

/// The logs of all deciders as one, and whether memory ran out for it; then it is empty.
fn merged_log(alloc: Global, ends: &[DeciderEnd]) -> (Vec<Suppression>, bool)
    ensures order { AreInOrder ends.now → IsInOrder result.0.items }
    ensures each { result.1 ≡ false → HasEach ends.now result.0.items }
    ensures none { result.1 ≡ true → result.0.items ≡ [] }
{
    match merge_logs(alloc, ends) {
        Ok(log) => (log, false),
        Err(_) => (Vec::new(alloc), true),
    }
}
