//! The start of the threads.

ghost use Rattle.std.specs.Prelude.{◌≡◌, ◌<◌, ◌≤◌, [], ℕ, IfSome, length, slice_get, Some};
ghost use Rattle.due_model.specs.claims.Accepted.{IsAccepted};
ghost use Rattle.decider.specs.claims.Share.{IsShare};
ghost use Rattle.channel_queue.specs.Passes.{IsWorker};
ghost use Rattle.rtrb.specs.Ring.{received};
ghost use Rattle.engine_threads.specs.Lanes.{HaveTaken, IsServed};
ghost use Rattle.decider_thread.specs.Decided.{HasToldAndDecided};
ghost use Rattle.decider_thread.specs.Puts.{ArePut};
ghost use Rattle.engine_threads.specs.Works.{AreDeciderWorks, AreNewWorkers};

use crate::lane_work::{LaneWork, serve_lane};
use crate::shared::Shared;
use crate::zone::GivesZone;
use channel::Channel;
use channel_queue::LaneQueue;
use decider::Share;
use decider_thread::{DeciderEnd, DeciderLog, DeciderSetup, Seat, Signal, decide_ring};
use delivery_worker::{Closers, Gate, Served};
use due_model::config::Config;
use rtrb::Consumer;
use std::snapshot::Snapshot;
use std::sync::Wait;
use std::thread::{Promise, PromisedHandle, Scope};
use std::time::Clock;

/// What the thread of a lane promises of what it gives back, unless it leaves.
#[derive(Drop)]
pub(crate) struct ServesLane<'s, C: Channel> {
    pub queue: &'s LaneQueue,
    pub channels: usize,
    pub config: &'s Config,
    pub tries: u8,
    pub given: Snapshot<Vec<C>>,
}

impl<'s, C: Channel> Promise<Option<(Served, Vec<C>)>> for ServesLane<'s, C> {
    ghost use Rattle.std.specs.Prelude.{IfSome};
    ghost use Rattle.engine_threads.specs.Lanes.{HaveTaken, IsServed};

    ghost kept_by = { λ p r. IfSome r (λ e. IsServed p.queue.now p.channels e.0
        × HaveTaken C.account C.offered p.tries p.config.now e.0 p.given.value.items e.1.items) };
}

/// Starts the thread of a lane. `None`: it can't be started.
pub(crate) fn start_lane<'s, E, C: Channel + 's, Z: Sync, G: Gate + Sync, R: Wait + Clock + Sync>(
    scope: &'s Scope<'s, E>,
    shared: Shared<'s, Z, G, R>,
    work: LaneWork<C>,
    queue: &'s LaneQueue,
) -> Option<PromisedHandle<Option<(Served, Vec<C>)>, ServesLane<'s, C>>>
    requires tries { 0 < shared.tries }
    requires deciders { queue.now.deciders ≤ 8 }
    requires worker { IsWorker queue.now [] [] work.pass }
    ensures queue { IfSome result (λ h. h.promise.queue.now ≡ queue.entry.now) }
    ensures channels { IfSome result (λ h. h.promise.channels ≡ length work.channels.items) }
    ensures config { IfSome result (λ h. h.promise.config.now ≡ shared.entry.config.now) }
    ensures tries { IfSome result (λ h. h.promise.tries ≡ shared.entry.tries) }
    ensures given { IfSome result (λ h. h.promise.given.value ≡ work.channels) }
{
    let channels = work.channels.len();
    let promise = ServesLane {
        queue,
        channels,
        config: shared.config,
        tries: shared.tries,
        given: Snapshot::of(&work.channels),
    };
    let started = scope.spawn_with(
        promise,
        move || -> Option<(Served, Vec<C>)>
            requires { (0 < shared.tries) × (queue.now.deciders ≤ 8) × IsWorker queue.now [] [] work.pass }
            ensures { IfSome result (λ e. IsServed queue.entry.now (length work.channels.items) e.0
                × HaveTaken C.account C.offered shared.entry.tries shared.entry.config.now e.0 work.channels.items e.1.items) }
        {
            if !shared.word.wait(shared.rt) {
                return None;
            }
            Some(serve_lane(shared, work, queue))
        },
    );
    match started {
        Ok(handle) => Some(handle),
        Err(_) => None,
    }
}

/// Starts the threads of all lanes. `None`: one can't be started, or a growth was refused.
pub(crate) fn start_lanes<'s, E, C: Channel + 's, Z: Sync, G: Gate + Sync, R: Wait + Clock + Sync>(
    scope: &'s Scope<'s, E>,
    shared: Shared<'s, Z, G, R>,
    works: Vec<LaneWork<C>>,
) -> Option<Vec<PromisedHandle<Option<(Served, Vec<C>)>, ServesLane<'s, C>>>>
    requires tries { 0 < shared.tries }
    requires count { length works.items ≡ length shared.queues.now }
    requires deciders { (l : ℕ) (q : _) → slice_get shared.queues.now l ≡ Some q → q.deciders ≤ 8 }
    requires workers { AreNewWorkers (λ w. w.pass) shared.queues.now works.items }
    ensures count { IfSome result (λ hs. length hs.items ≡ length works.items) }
    ensures each { IfSome result (λ hs. (l : ℕ) (w : _) (h : _)
        → slice_get works.items l ≡ Some w → slice_get hs.items l ≡ Some h
        → (slice_get shared.entry.queues.now l ≡ Some h.promise.queue.now)
        × (h.promise.channels ≡ length w.channels.items)
        × (h.promise.config.now ≡ shared.entry.config.now) × (h.promise.tries ≡ shared.entry.tries)
        × (h.promise.given.value ≡ w.channels)) }
{
    let Ok(mut handles) = Vec::with_capacity(shared.alloc, works.len()) else {
        return None;
    };
    for work in works {
        let queue = &shared.queues[handles.len()];
        let handle = start_lane(scope, shared, work, queue)?;
        if handles.push(handle).is_err() {
            return None;
        }
    }
    Some(handles)
}

/// What a decider begins with: its end of a ring, and its passes.
#[derive(Drop)]
pub(crate) struct DeciderWork {
    pub ring: Consumer<Signal>,
    pub seats: Vec<Seat>,
}

/// What the thread of a decider promises of what it gives back, unless it leaves.
#[derive(Drop)]
pub(crate) struct Decides<'s, Z: GivesZone, L: DeciderLog> {
    config: &'s Config,
    zone: &'s Z,
    queues: &'s [LaneQueue],
    share: Share,
    ring: Snapshot<Consumer<Signal>>,
    log: Snapshot<L>,
}

impl<'s, Z: GivesZone, L: DeciderLog> Promise<Option<(DeciderEnd, L)>> for Decides<'s, Z, L> {
    ghost use Rattle.std.specs.Prelude.{IfSome};
    ghost use Rattle.decider_thread.specs.Decided.{HasToldAndDecided};

    ghost kept_by = { λ p r. IfSome r (λ e. HasToldAndDecided L.tells L.failed p.config.now (Z.zone p.zone.now) p.share
        p.queues.now p.ring.value p.log.value e.0 e.1) };
}

/// Starts the thread of a decider. `None`: it can't be started.
fn start_decider<
    's,
    E,
    Z: GivesZone + Sync,
    L: DeciderLog + 's,
    G: Gate + Sync,
    R: Wait + Clock + Sync,
>(
    scope: &'s Scope<'s, E>,
    shared: Shared<'s, Z, G, R>,
    share: Share,
    work: DeciderWork,
    log: L,
) -> Option<PromisedHandle<Option<(DeciderEnd, L)>, Decides<'s, Z, L>>>
    requires accepted { IsAccepted shared.config.now }
    requires share { IsShare share }
    requires fresh { received work.ring ≡ [] }
    requires queues { length shared.queues.now ≡ length shared.config.now.lanes }
    requires seats { length work.seats.items ≡ length shared.queues.now }
    requires puts { ArePut share.decider shared.queues.now work.seats.items (λ _. []) (λ _. []) }
    ensures config { IfSome result (λ h. h.promise.config.now ≡ shared.entry.config.now) }
    ensures zone { IfSome result (λ h. h.promise.zone.now ≡ shared.entry.zone.now) }
    ensures queues { IfSome result (λ h. h.promise.queues.now ≡ shared.entry.queues.now) }
    ensures share { IfSome result (λ h. h.promise.share ≡ share) }
    ensures ring { IfSome result (λ h. h.promise.ring.value ≡ work.ring) }
    ensures log { IfSome result (λ h. h.promise.log.value ≡ log) }
{
    let promise = Decides {
        config: shared.config,
        zone: shared.zone,
        queues: shared.queues,
        share,
        ring: Snapshot::of(&work.ring),
        log: Snapshot::of(&log),
    };
    let started = scope.spawn_with(
        promise,
        move || -> Option<(DeciderEnd, L)>
            requires { IsAccepted shared.config.now × IsShare share × (received work.ring ≡ [])
                × (length shared.queues.now ≡ length shared.config.now.lanes)
                × (length work.seats.items ≡ length shared.queues.now)
                × ArePut share.decider shared.queues.now work.seats.items (λ _. []) (λ _. []) }
            ensures { IfSome result (λ e. HasToldAndDecided L.tells L.failed shared.entry.config.now (Z.zone shared.entry.zone.now)
                share shared.entry.queues.now work.ring log e.0 e.1) }
        {
            if !shared.word.wait(shared.rt) {
                return None;
            }
            let DeciderWork { ring, seats } = work;
            let setup = DeciderSetup {
                rt: shared.rt,
                alloc: shared.alloc,
                config: shared.config,
                zone: shared.zone.zone(),
                share,
                queues: shared.queues,
                gate: shared.gate,
                halt: shared.halt,
            };
            Some(decide_ring(setup, ring, log, seats))
        },
    );
    match started {
        Ok(handle) => Some(handle),
        Err(_) => None,
    }
}

/// Starts the threads of all deciders. `None`: one can't be started, or a growth was refused.
pub(crate) fn start_deciders<
    's,
    E,
    Z: GivesZone + Sync,
    L: DeciderLog + 's,
    G: Gate + Sync,
    R: Wait + Clock + Sync,
>(
    scope: &'s Scope<'s, E>,
    shared: Shared<'s, Z, G, R>,
    works: Vec<DeciderWork>,
    logs: Vec<L>,
) -> Option<Vec<PromisedHandle<Option<(DeciderEnd, L)>, Decides<'s, Z, L>>>>
    requires accepted { IsAccepted shared.config.now }
    requires deciders { length works.items ≤ 8 }
    requires logs { length logs.items ≡ length works.items }
    requires queues { length shared.queues.now ≡ length shared.config.now.lanes }
    requires works { AreDeciderWorks shared.queues.now works.items }
    ensures count { IfSome result (λ hs. length hs.items ≡ length works.items) }
    ensures each { IfSome result (λ hs. (d : ℕ) (w : _) (h : _)
        → slice_get works.items d ≡ Some w → slice_get hs.items d ≡ Some h
        → (h.promise.config.now ≡ shared.entry.config.now) × (h.promise.zone.now ≡ shared.entry.zone.now)
        × (h.promise.queues.now ≡ shared.entry.queues.now)
        × (h.promise.share ≡ record { decider = d; deciders = length works.items })
        × (h.promise.ring.value ≡ w.ring)) }
    ensures logs { IfSome result (λ hs. (d : ℕ) (a : _) (h : _) → slice_get logs.items d ≡ Some a
        → slice_get hs.items d ≡ Some h → h.promise.log.value ≡ a) }
{
    let deciders = works.len() as u8;
    let Ok(mut handles) = Vec::with_capacity(shared.alloc, works.len()) else {
        return None;
    };
    let mut rest = logs.into_iter();
    for work in works {
        let Some(log) = rest.next() else {
            unreachable!()
        };
        let share = Share {
            decider: handles.len() as u8,
            deciders,
        };
        let handle = start_decider(scope, shared, share, work, log)?;
        if handles.push(handle).is_err() {
            return None;
        }
    }
    Some(handles)
}
