//! A run over any source of events: what runs over a reader and runs over callers' feeds have in common.

ghost use Rattle.std.specs.Prelude.{◌≡◌, ◌<◌, ◌≤◌, ℕ, List, [], false, true, length, slice_get};
ghost use Rattle.std.specs.Prelude.{vec_capacity, IfOk, Some};
ghost use Rattle.due_model.specs.declared.config.Config.{Config};
ghost use Rattle.due_model.specs.declared.event.Event.{Event};
ghost use Rattle.due_model.specs.declared.zone.Zone.{Zone};
ghost use Rattle.due_model.specs.claims.Accepted.{IsAccepted};
ghost use Rattle.engine.specs.claims.Lanes.{HaveTaken, LaneParts, channels_on, count_of};
ghost use Rattle.engine.specs.Lanes.{IsEndOf};
ghost use Rattle.engine.specs.Logs.{given_logs};
ghost use Rattle.engine.specs.claims.Run.{IsRunAfter};
ghost use Rattle.engine.specs.Run.{AreThreadsEnd, IsToldRunOf};
ghost use Rattle.due_model.specs.declared.notice.Suppression.{Suppression};

use crate::lanes::{channels_of, counts_of, ends_of};
use crate::post::Post;
use crate::run_end::LaneEnd;
use channel::Channel;
use decider_thread::DeciderLog;
use delivery_worker::Gate;
use due_model::config::Config;
use due_model::notice::Suppression;
use due_model::zone::Zone;
use engine_threads::{Setup, Source, ThreadsEnd, run_threads};
use std::alloc::{AllocError, Global};
use std::sync::Wait;
use std::thread::Threads;
use std::time::Clock;
use steps::Settings;

/// What a run leaves, and the source that its events came from.
#[derive(Drop)]
pub(crate) struct Ran<C: Channel, S: Source, L: DeciderLog> {
    /// Each lane in order; none where memory ran out, or a thread couldn't be started, before the first event was taken.
    pub lanes: Vec<LaneEnd>,
    /// The channels of each lane that is there, in the order of its posts.
    pub channels: Vec<Vec<C>>,
    /// What was suppressed and not told, by event, then object, then contact.
    pub log: Vec<Suppression>,
    /// The log of each decider, in order; none where the run didn't begin.
    pub logs: Vec<L>,
    /// Whether memory ran out in any thread, or one couldn't be started.
    pub memory: bool,
    /// Whether the run began. Where it didn't, nothing was asked of the source.
    pub started: bool,
    pub source: S,
}

/// Takes the events of a source to their end, decides them, and hands what they make due to the channels of the lanes.
pub(crate) fn run_source<
    C: Channel,
    S: Source,
    L: DeciderLog,
    G: Gate + Sync,
    T: Threads + Wait + Clock + Sync,
>(
    setup: Setup<'_, Zone, G, T>,
    source: S,
    posts: Vec<Post<C>>,
    logs: Result<Vec<L>, AllocError>,
    settings: Settings,
) -> Ran<C, S, L>
    requires accepted { IsAccepted setup.config.now }
    requires source { S.given_so_far source ≡ [] }
    requires few { (l : ℕ) → count_of (λ post. post.lane.0) posts.items l ≤ 8 }
    // There is a log for each decider, unless a growth was refused for them: then the run doesn't begin.
    requires logs { IfOk logs (λ ls. length ls.items ≡ settings.deciders) }
    ensures run { IsToldRunOf L.tells L.failed setup.entry.config.now setup.entry.zone.now (count_of (λ post. post.lane.0) posts.items)
        (S.given_so_far result.source) result.memory result.lanes.items (given_logs logs) result.logs.items
        result.log.items }
    ensures channels { (l : ℕ) (lane cs : _) → slice_get result.lanes.items l ≡ Some lane
        → slice_get result.channels.items l ≡ Some cs
        → HaveTaken C.account C.offered settings.tries setup.entry.config.now lane
        (channels_on (λ p. p.lane.0) (λ p. p.channel) l posts.items) cs.items }
    ensures places { length result.channels.items ≡ length result.lanes.items }
    ensures source { S.goes setup.entry.config.now source result.source }
    ensures over { result.memory ≡ false → S.ended result.source }
    // Where the run began, every lane is there; where it didn't, the source is as it was.
    ensures all { result.started ≡ true → length result.lanes.items ≡ length setup.entry.config.now.lanes }
    ensures unstarted { result.started ≡ false
        → (result.source ≡ source) × (result.memory ≡ true) × (result.lanes.items ≡ [])
        × (result.log.items ≡ []) }
{
    let Ok((channels, counts, room)) = begin(setup.alloc, setup.config, posts) else {
        return nothing(setup.alloc, source);
    };
    let Ok(logs) = logs else {
        return nothing(setup.alloc, source);
    };
    let left = run_threads(setup, source, channels, logs, settings);
    end_of(left, &counts, room)
}

/// What a run begins with: the channels of each lane, how many these are, and room for what the lanes leave. A refused growth is the
/// only error.
fn begin<C: Channel>(
    alloc: Global,
    config: &Config,
    posts: Vec<Post<C>>,
) -> Result<(Vec<Vec<C>>, Vec<usize>, Vec<LaneEnd>), AllocError>
    requires { IsAccepted config.now }
    ensures lanes { IfOk result (λ r. length r.0.items ≡ length config.now.lanes) }
    ensures channels { IfOk result (λ r. (l : ℕ) (of_lane : _) → slice_get r.0.items l ≡ Some of_lane
        → of_lane.items ≡ channels_on (λ p. p.lane.0) (λ p. p.channel) l posts.items) }
    ensures counts { IfOk result (λ r. length r.1.items ≡ length config.now.lanes) }
    ensures each { IfOk result (λ r. (l n : ℕ) → slice_get r.1.items l ≡ Some n
        → n ≡ count_of (λ p. p.lane.0) posts.items l) }
    ensures none { IfOk result (λ r. r.2.items ≡ []) }
    ensures room { IfOk result (λ r. length config.now.lanes ≤ vec_capacity r.2) }
{
    let count = config.lanes.len();
    let channels = channels_of(alloc, count as u8, posts)?;
    let counts = counts_of(alloc, &channels)?;
    let room = Vec::with_capacity(alloc, count)?;
    Ok((channels, counts, room))
}

/// A run in which memory ran out before it began.
fn nothing<C: Channel, S: Source, L: DeciderLog>(alloc: Global, source: S) -> Ran<C, S, L>
    ensures run { (c : Config) (zone : Zone) (given : ℕ → ℕ) (events : List Event) (logs : List L) → events ≡ []
        → IsToldRunOf L.tells L.failed c zone given events result.memory result.lanes.items logs result.logs.items
        result.log.items }
    ensures source { result.source ≡ source }
    ensures memory { result.memory ≡ true }
    ensures lanes { result.lanes.items ≡ [] }
    ensures channels { result.channels.items ≡ [] }
    ensures log { result.log.items ≡ [] }
    ensures started { result.started ≡ false }
{
    Ran {
        lanes: Vec::new(alloc),
        channels: Vec::new(alloc),
        log: Vec::new(alloc),
        logs: Vec::new(alloc),
        memory: true,
        started: false,
        source,
    }
}

/// What the threads left, as what a run leaves.
fn end_of<C: Channel, S: Source, L: DeciderLog>(
    left: ThreadsEnd<C, S, L>,
    counts: &[usize],
    room: Vec<LaneEnd>,
) -> Ran<C, S, L>
    requires none { room.items ≡ [] }
    requires room { length left.lanes.items ≤ vec_capacity room }
    requires counts { length left.lanes.items ≤ length counts.now }
    requires few { length left.lanes.items < 256 }
    ensures run { (c : Config) (zone : Zone) (given : ℕ → ℕ) (events : List Event) (told : ℕ → List Suppression)
        → ((l n : ℕ) → slice_get counts.now l ≡ Some n → n ≡ given l)
        → AreThreadsEnd c zone given events left.memory left.lanes.items told left.log.items
        → IsRunAfter c zone given events result.memory result.lanes.items told result.log.items }
    ensures source { result.source ≡ left.source }
    ensures memory { result.memory ≡ left.memory }
    ensures count { length result.lanes.items ≡ length left.lanes.items }
    ensures each { (l n : ℕ) (s : _) (lane : LaneParts) → slice_get counts.now l ≡ Some n
        → slice_get left.lanes.items l ≡ Some s → slice_get result.lanes.items l ≡ Some lane
        → IsEndOf l n s lane }
    ensures channels { result.channels.items ≡ left.channels.items }
    ensures log { result.log.items ≡ left.log.items }
    ensures logs { result.logs.items ≡ left.logs.items }
    ensures started { result.started ≡ left.started }
{
    let ThreadsEnd {
        lanes,
        channels,
        log,
        logs,
        memory,
        started,
        source,
    } = left;
    Ran {
        lanes: ends_of(lanes, counts, room),
        channels,
        log,
        logs,
        memory,
        started,
        source,
    }
}
