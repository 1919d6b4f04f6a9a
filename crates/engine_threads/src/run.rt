//! A run of all threads.

ghost use Rattle.std.specs.Prelude.{◌≡◌, ◌≢◌, ◌||◌, ◌<◌, ◌≤◌, ℕ, List, [], IfErr, IfOk, false};
ghost use Rattle.std.specs.Prelude.{true, length, reverse, slice_get, Some};
ghost use Rattle.due_model.specs.declared.config.Config.{Config};
ghost use Rattle.due_model.specs.declared.event.Event.{Event};
ghost use Rattle.due_model.specs.declared.zone.Zone.{Zone};
ghost use Rattle.due_model.specs.claims.Accepted.{IsAccepted};
ghost use Rattle.engine_threads.specs.Lanes.{HaveTaken};
ghost use Rattle.engine_threads.specs.Run.{AreLaneEnds, IsLogOf, IsRun};
ghost use Rattle.engine_threads.specs.Told.{HasRun, HaveLogged};
ghost use Rattle.due_model.specs.declared.notice.Suppression.{Suppression};
ghost use Rattle.engine_threads.specs.Works.{AreDeciderWorks, AreNewWorkers, AreRings, HaveDeciders};

use crate::lane_work::LaneWork;
use crate::prepared::{Prepared, prepare_all};
use crate::shared::{Setup, Shared};
use crate::source::Source;
use crate::starts::DeciderWork;
use crate::threads::{Driven, drive};
use crate::word::StartWord;
use crate::zone::GivesZone;
use channel::Channel;
use decider_thread::{DeciderLog, Signal};
use delivery_worker::{Gate, Served};
use due_model::notice::Suppression;
use due_model::zone::Zone;
use rtrb::Producer;
use std::alloc::Global;
use std::sync::Wait;
use std::sync::atomic::AtomicBool;
use std::thread;
use std::thread::Threads;
use std::time::Clock;
use steps::Settings;
use undelivered::Why;

/// What the threads of a run leave.
#[derive(Drop)]
pub struct ThreadsEnd<C: Channel, S: Source, L: DeciderLog> {
    /// Each lane in order; none where a thread can't be started or memory ran out before they begin, and then no event was taken.
    pub lanes: Vec<Served>,
    /// The channels of each lane that is there, each in its place.
    pub channels: Vec<Vec<C>>,
    /// What was suppressed and not told, by event, then object, then contact.
    pub log: Vec<Suppression>,
    /// The log of each decider, in order; none where the threads didn't begin.
    pub logs: Vec<L>,
    /// Whether memory ran out in any thread, or one can't be started.
    pub memory: bool,
    /// Whether the threads began. Where they didn't, nothing was asked of the source.
    pub started: bool,
    /// Where the events came from.
    pub source: S,
}

/// The threads of a run, in a scope.
fn run_scope<
    C: Channel,
    S: Source,
    L: DeciderLog,
    Z: GivesZone + Sync,
    G: Gate + Sync,
    R: Threads + Wait + Clock + Sync,
>(
    shared: Shared<'_, Z, G, R>,
    source: S,
    works: Vec<LaneWork<C>>,
    deciders: Vec<DeciderWork>,
    senders: Vec<Producer<Signal>>,
    logs: Vec<L>,
) -> Result<Driven<C, S, L>, S>
    requires accepted { IsAccepted shared.config.now }
    requires tries { 0 < shared.tries }
    requires source { S.given_so_far source ≡ [] }
    requires some { 0 < length deciders.items }
    requires most { length deciders.items ≤ 8 }
    requires lanes { length shared.queues.now ≡ length shared.config.now.lanes }
    requires queues { HaveDeciders (length deciders.items) shared.queues.now }
    requires works { length works.items ≡ length shared.queues.now }
    requires workers { AreNewWorkers (λ w. w.pass) shared.queues.now works.items }
    requires deciders { AreDeciderWorks shared.queues.now deciders.items }
    requires senders { length senders.items ≡ length deciders.items }
    requires logs { length logs.items ≡ length deciders.items }
    requires rings { AreRings deciders.items senders.items }
    ensures lanes { IfOk result (λ r. (channels : ℕ → ℕ)
        → ((l : ℕ) (w : _) → slice_get works.items l ≡ Some w → length w.channels.items ≡ channels l)
        → AreLaneEnds shared.entry.config.now (Z.zone shared.entry.zone.now) channels (reverse (S.given_so_far r.source)) r.refused
        r.served.items) }
    ensures log { IfOk result (λ r. HaveLogged L.tells L.failed shared.entry.config.now (Z.zone shared.entry.zone.now)
        (reverse (S.given_so_far r.source)) (r.refused || r.memory) logs.items r.logs.items r.log.items) }
    ensures channels { IfOk result (λ r. (l : ℕ) (w s b : _) → slice_get works.items l ≡ Some w
        → slice_get r.served.items l ≡ Some s → slice_get r.channels.items l ≡ Some b
        → HaveTaken C.account C.offered shared.entry.tries shared.entry.config.now s w.channels.items b.items) }
    ensures places { IfOk result (λ r. length r.channels.items ≡ length r.served.items) }
    ensures source { IfOk result (λ r. S.goes shared.entry.config.now source r.source) }
    ensures over { IfOk result (λ r. r.memory ≡ false → S.ended r.source) }
    ensures none { IfErr result (λ s. s ≡ source) }
{
    thread::scope(
        thread::scope_env(),
        shared.rt,
        move |scope| -> Result<Driven<C, S, L>, S>
            requires { IsAccepted shared.config.now × (0 < shared.tries) × (S.given_so_far source ≡ [])
                × (0 < length deciders.items) × (length deciders.items ≤ 8)
                × (length shared.queues.now ≡ length shared.config.now.lanes)
                × HaveDeciders (length deciders.items) shared.queues.now
                × (length works.items ≡ length shared.queues.now)
                × AreNewWorkers (λ w. w.pass) shared.queues.now works.items
                × AreDeciderWorks shared.queues.now deciders.items
                × (length senders.items ≡ length deciders.items)
                × (length logs.items ≡ length deciders.items)
                × AreRings deciders.items senders.items }
            ensures lanes { IfOk result (λ r. (channels : ℕ → ℕ)
                → ((l : ℕ) (w : _) → slice_get works.items l ≡ Some w → length w.channels.items ≡ channels l)
                → AreLaneEnds shared.entry.config.now (Z.zone shared.entry.zone.now) channels
                (reverse (S.given_so_far r.source)) r.refused r.served.items) }
            ensures log { IfOk result (λ r. HaveLogged L.tells L.failed shared.entry.config.now (Z.zone shared.entry.zone.now)
                (reverse (S.given_so_far r.source)) (r.refused || r.memory) logs.items r.logs.items r.log.items) }
            ensures channels { IfOk result (λ r. (l : ℕ) (w s b : _) → slice_get works.items l ≡ Some w
                → slice_get r.served.items l ≡ Some s → slice_get r.channels.items l ≡ Some b
                → HaveTaken C.account C.offered shared.entry.tries shared.entry.config.now s w.channels.items b.items) }
            ensures places { IfOk result (λ r. length r.channels.items ≡ length r.served.items) }
            ensures source { IfOk result (λ r. S.goes shared.entry.config.now source r.source) }
            ensures over { IfOk result (λ r. r.memory ≡ false → S.ended r.source) }
            ensures none { IfErr result (λ s. s ≡ source) }
        { drive(scope, shared, source, works, deciders, senders, logs) },
    )
}

/// Whether memory ran out in a worker.
fn any_refused(lanes: &[Served]) -> bool
    ensures { result ≡ false → (l : ℕ) (s : _) → slice_get lanes.now l ≡ Some s
        → s.why ≢ Why.NoMemory }
{
    for lane in lanes {
        if lane.why == Why::NoMemory {
            return true;
        }
    }
    false
}

/// A run in which memory ran out, or a thread couldn't be started, before it began.
fn nothing<C: Channel, S: Source, L: DeciderLog>(alloc: Global, source: S) -> ThreadsEnd<C, S, L>
    ensures lanes { result.lanes.items ≡ [] }
    ensures channels { result.channels.items ≡ [] }
    ensures log { result.log.items ≡ [] }
    ensures logs { result.logs.items ≡ [] }
    ensures memory { result.memory ≡ true }
    ensures started { result.started ≡ false }
    ensures source { result.source ≡ source }
{
    ThreadsEnd {
        lanes: Vec::new(alloc),
        channels: Vec::new(alloc),
        log: Vec::new(alloc),
        logs: Vec::new(alloc),
        memory: true,
        started: false,
        source,
    }
}

/// What the threads left, as a run's end.
fn end_of<C: Channel, S: Source, L: DeciderLog>(driven: Driven<C, S, L>) -> ThreadsEnd<C, S, L>
    ensures run { (c : Config) (zone : Zone) (channels : ℕ → ℕ) (past : List Event) (told : ℕ → List Suppression)
        → AreLaneEnds c zone channels past driven.refused driven.served.items
        → IsLogOf c zone past (driven.refused || driven.memory) told driven.log.items
        → IsRun c zone channels past result.memory result.lanes.items told result.log.items }
    ensures source { result.source ≡ driven.source }
    ensures memory { result.memory ≡ false → driven.memory ≡ false }
    ensures refused { result.memory ≡ false → (driven.refused || driven.memory) ≡ false }
    ensures lanes { result.lanes.items ≡ driven.served.items }
    ensures channels { result.channels.items ≡ driven.channels.items }
    ensures log { result.log.items ≡ driven.log.items }
    ensures logs { result.logs.items ≡ driven.logs.items }
    ensures started { result.started ≡ true }
{
    let Driven {
        served,
        channels,
        log,
        logs,
        refused,
        memory,
        source,
    } = driven;
    let memory = (refused | memory) | any_refused(&served);
    ThreadsEnd {
        lanes: served,
        channels,
        log,
        logs,
        memory,
        started: true,
        source,
    }
}

/// Takes the events of a source to their end, decides each by all deciders, and hands what is due to the channels of the lanes, of
/// which each has a worker; all in threads of their own. Of a lane's channels, at most eight, the first serves, and each other where
/// the one before has failed, beginning with the letter in hand. Each thread waits for a word first: where one can't be started, none
/// begins. Where a growth is refused in the source or a decider, no further event is taken or decided.
pub fn run_threads<
    C: Channel,
    S: Source,
    L: DeciderLog,
    G: Gate + Sync,
    R: Threads + Wait + Clock + Sync,
>(
    setup: Setup<'_, Zone, G, R>,
    source: S,
    given: Vec<Vec<C>>,
    logs: Vec<L>,
    settings: Settings,
) -> ThreadsEnd<C, S, L>
    requires accepted { IsAccepted setup.config.now }
    requires source { S.given_so_far source ≡ [] }
    requires lanes { length given.items ≡ length setup.config.now.lanes }
    // There is a log for each decider.
    requires logs { length logs.items ≡ settings.deciders }
    requires few { (l : ℕ) (c : _) → slice_get given.items l ≡ Some c → length c.items ≤ 8 }
    ensures run { (channels : ℕ → ℕ)
        → ((l : ℕ) (c : _) → slice_get given.items l ≡ Some c → length c.items ≡ channels l)
        → HasRun L.tells L.failed setup.entry.config.now setup.entry.zone.now channels (reverse (S.given_so_far result.source)) result.memory
        result.lanes.items logs.items result.logs.items result.log.items }
    // Each lane's channels are given back in their places, and each has taken what its record says.
    ensures channels { (l : ℕ) (c s b : _) → slice_get given.items l ≡ Some c
        → slice_get result.lanes.items l ≡ Some s → slice_get result.channels.items l ≡ Some b
        → HaveTaken C.account C.offered settings.tries setup.entry.config.now s c.items b.items }
    ensures places { length result.channels.items ≡ length result.lanes.items }
    ensures source { S.goes setup.entry.config.now source result.source }
    ensures over { result.memory ≡ false → S.ended result.source }
    ensures few { length result.lanes.items ≤ length setup.entry.config.now.lanes }
    ensures whole { S.given_so_far result.source ≢ []
        → length result.lanes.items ≡ length setup.entry.config.now.lanes }
    // Where the threads began, every lane is there; where they didn't, the source is as it was.
    ensures all { result.started ≡ true → length result.lanes.items ≡ length setup.entry.config.now.lanes }
    ensures unstarted { result.started ≡ false
        → (result.source ≡ source) × (result.memory ≡ true) × (result.lanes.items ≡ [])
        × (result.log.items ≡ []) }
{
    let capacity = usize::from(settings.queue);
    let Ok(prepared) = prepare_all(setup.alloc, given, settings.deciders, capacity) else {
        return nothing(setup.alloc, source);
    };
    let Prepared {
        queues,
        works,
        deciders,
        senders,
    } = prepared;
    let word = StartWord::new();
    let halt = AtomicBool::new(false);
    let shared = Shared {
        rt: setup.rt,
        alloc: setup.alloc,
        config: setup.config,
        zone: setup.zone,
        closers: setup.closers,
        gate: setup.gate,
        queues: queues.as_slice(),
        word: &word,
        halt: &halt,
        tries: settings.tries,
    };
    match run_scope(shared, source, works, deciders, senders, logs) {
        Ok(driven) => end_of(driven),
        Err(source) => nothing(setup.alloc, source),
    }
}
