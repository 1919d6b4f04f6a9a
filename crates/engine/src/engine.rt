//! The engine.

ghost use Rattle.std.specs.Prelude.{◌≡◌, ◌≤◌, ℕ, Bool, true, length, slice_get, IfOk, Some};
ghost use Rattle.due_model.specs.claims.Accepted.{IsAccepted};
ghost use Rattle.engine.specs.claims.Feed.{NoneIsAhead, ahead_in};
ghost use Rattle.engine.specs.claims.Lanes.{HaveTaken, channels_on, count_of};
ghost use Rattle.engine.specs.Logs.{given_logs};
ghost use Rattle.engine.specs.claims.Run.{IsReadOf, IsRunOf};
ghost use Rattle.engine.specs.Run.{IsToldRunOf};
ghost use Rattle.engine.specs.claims.Unread.{HasStarted};
ghost use Rattle.event_feed.specs.claims.Feed.{no_line};

use crate::intake::Intake;
use crate::limited_feed::LimitedFeed;
use crate::logs::{Outlets, kept_logs};
use crate::post::Post;
use crate::run_end::RunEnd;
use crate::source_run::{Ran, run_source};
use channel::Channel;
use decider_thread::DeciderLog;
use delivery_worker::{Closers, Gate};
use due_model::config::Config;
use due_model::zone::Zone;
use engine_threads::Setup;
use event_feed::{Horizon, OpenHorizon};
use std::alloc::{AllocError, Global};
use std::sync::Wait;
use std::thread::Threads;
use std::time::Clock;
use steps::Settings;
use text_lines::{Input, LineReader};

/// The notification engine.
pub struct Engine;

impl Engine {
    /// Reads a feed to its end, in the calling thread, decides its events in so many deciders, and hands what they make due to the
    /// channels of the lanes, each in a thread of its own. Of the posts of one lane the first serves until a letter has failed as often
    /// as it may be tried; it is then closed, and the next serves, beginning with that letter, which so may reach two channels' peers.
    /// A lane whose last channel has failed so is closed, and all that comes after is undelivered, in order; so is one that `closers`
    /// were asked to close; the other lanes go on. A lane without a post has no channel, and all of it is undelivered. All channels come
    /// back, lane by lane; one that didn't serve is as it was, and open.
    ///
    /// Beyond what the clauses say, and only tested: `gate` is asked before each notice is tried, and by each decider before each event;
    /// and where a growth is refused in the intake or a decider, no further line is read and no further event is decided. One that is
    /// refused in a lane's thread is told when all have ended.
    pub fn run<C: Channel, R: Input + Drop, G: Gate + Sync, T: Threads + Wait + Clock + Sync>(
        rt: &T,
        alloc: Global,
        config: &Config,
        zone: &Zone,
        reader: R,
        posts: Vec<Post<C>>,
        settings: Settings,
        closers: &Closers,
        gate: &G,
    ) -> (RunEnd, Vec<Vec<C>>)
        requires accepted { IsAccepted config.now }
        // Of each lane there are at most eight posts.
        requires few { (l : ℕ) → count_of (λ post. post.lane.0) posts.items l ≤ 8 }
        // Of the events that were taken: of each object, each lane has taken or given up exactly what was due, in order, the log is all
        // that was suppressed, and a lane is closed for a cause; where memory ran out, a front of that.
        ensures run { IsRunOf config.now zone.now (count_of (λ post. post.lane.0) posts.items)
            result.0.events.items result.0.memory result.0.lanes.items result.0.log.items }
        // The events and the refused lines are those of the bytes; where memory ran out, a front of them.
        ensures read { IsReadOf no_line R.can_fail config.now (R.remaining reader) result.0.memory
            result.0.events.items result.0.refused.items result.0.cut }
        ensures near { NoneIsAhead result.0.refused.items }
        // Where the run began every lane is there; where it didn't, nothing was read.
        ensures started { HasStarted config.now result.0.started result.0.events.items result.0.refused.items
            result.0.log.items result.0.lanes.items result.0.memory }
        // Each lane's channels come back, in the order of its posts: each is the one that was given, it has taken what its record says
        // and nothing else, each letter was offered to it until it was taken, and it was replaced only since the next letter had
        // failed as often as it may be tried.
        ensures channels { (l : ℕ) (lane cs : _) → slice_get result.0.lanes.items l ≡ Some lane
            → slice_get result.1.items l ≡ Some cs
            → HaveTaken C.account C.offered settings.tries config.now lane
            (channels_on (λ post. post.lane.0) (λ post. post.channel) l posts.items) cs.items }
        ensures places { length result.1.items ≡ length result.0.lanes.items }
    {
        let feed = LimitedFeed {
            reader,
            horizon: OpenHorizon,
        };
        let setup = Setup {
            rt,
            alloc,
            config,
            zone,
            closers,
            gate,
        };
        Engine::run_within(setup, feed, posts, settings)
    }

    /// The same, where a line whose stamp is past what a horizon says is refused as `Ahead`. It is asked in the calling thread, once
    /// for each line that would give an event, after the line was read.
    pub fn run_within<
        C: Channel,
        R: Input + Drop,
        H: Horizon + Drop,
        G: Gate + Sync,
        T: Threads + Wait + Clock + Sync,
    >(
        setup: Setup<'_, Zone, G, T>,
        feed: LimitedFeed<R, H>,
        posts: Vec<Post<C>>,
        settings: Settings,
    ) -> (RunEnd, Vec<Vec<C>>)
        requires accepted { IsAccepted setup.config.now }
        requires few { (l : ℕ) → count_of (λ post. post.lane.0) posts.items l ≤ 8 }
        // Of the events that were taken, the same is promised of the lanes and the log;
        ensures run { IsRunOf setup.entry.config.now setup.entry.zone.now (count_of (λ post. post.lane.0) posts.items)
            result.0.events.items result.0.memory result.0.lanes.items result.0.log.items }
        // and they and the refused lines are those of the bytes, of whose lines just those are too far ahead that are refused so.
        ensures read { (far : ℕ → Bool)
            → ((line : ℕ) → far line ≡ ahead_in result.0.refused.items line)
            → IsReadOf far R.can_fail setup.entry.config.now (R.remaining feed.reader) result.0.memory
            result.0.events.items result.0.refused.items result.0.cut }
        ensures near { H.is_open feed.horizon ≡ true → NoneIsAhead result.0.refused.items }
        ensures started { HasStarted setup.entry.config.now result.0.started result.0.events.items result.0.refused.items
            result.0.log.items result.0.lanes.items result.0.memory }
        ensures channels { (l : ℕ) (lane cs : _) → slice_get result.0.lanes.items l ≡ Some lane
            → slice_get result.1.items l ≡ Some cs
            → HaveTaken C.account C.offered settings.tries setup.entry.config.now lane
            (channels_on (λ post. post.lane.0) (λ post. post.channel) l posts.items) cs.items }
        ensures places { length result.1.items ≡ length result.0.lanes.items }
    {
        let logs = kept_logs(setup.alloc, settings.deciders);
        let (end, channels, _logs) = run_reader(setup, feed, posts, logs, settings);
        (end, channels)
    }

    /// The same, where each decider has a log of its own, which is told what an event suppresses as soon as it is decided. What a log
    /// was told isn't kept, so the run's log has what comes after it: nothing of a decider whose log hasn't failed. The logs come back,
    /// one for each decider; none where the run didn't begin.
    pub fn run_told<
        C: Channel,
        R: Input + Drop,
        H: Horizon + Drop,
        L: DeciderLog,
        G: Gate + Sync,
        T: Threads + Wait + Clock + Sync,
    >(
        setup: Setup<'_, Zone, G, T>,
        feed: LimitedFeed<R, H>,
        outlets: Outlets<C, L>,
        settings: Settings,
    ) -> (RunEnd, Vec<Vec<C>>, Vec<L>)
        requires accepted { IsAccepted setup.config.now }
        requires few { (l : ℕ) → count_of (λ post. post.lane.0) outlets.posts.items l ≤ 8 }
        // There is a log for each decider.
        requires logs { length outlets.logs.items ≡ settings.deciders }
        // What the logs were told and then the run's log are, of each object, all that was suppressed; a log that hasn't failed was told
        // all of it. The rest is as before.
        ensures run { IsToldRunOf L.tells L.failed setup.entry.config.now setup.entry.zone.now
            (count_of (λ post. post.lane.0) outlets.posts.items) result.0.events.items result.0.memory
            result.0.lanes.items outlets.logs.items result.2.items result.0.log.items }
        ensures read { (far : ℕ → Bool)
            → ((line : ℕ) → far line ≡ ahead_in result.0.refused.items line)
            → IsReadOf far R.can_fail setup.entry.config.now (R.remaining feed.reader) result.0.memory
            result.0.events.items result.0.refused.items result.0.cut }
        ensures near { H.is_open feed.horizon ≡ true → NoneIsAhead result.0.refused.items }
        ensures started { HasStarted setup.entry.config.now result.0.started result.0.events.items result.0.refused.items
            result.0.log.items result.0.lanes.items result.0.memory }
        ensures channels { (l : ℕ) (lane cs : _) → slice_get result.0.lanes.items l ≡ Some lane
            → slice_get result.1.items l ≡ Some cs
            → HaveTaken C.account C.offered settings.tries setup.entry.config.now lane
            (channels_on (λ post. post.lane.0) (λ post. post.channel) l outlets.posts.items) cs.items }
        ensures places { length result.1.items ≡ length result.0.lanes.items }
    {
        let Outlets { posts, logs } = outlets;
        run_reader(setup, feed, posts, Ok(logs), settings)
    }
}

/// A run over a reader, with these logs, if there was memory for them.
fn run_reader<
    C: Channel,
    R: Input + Drop,
    H: Horizon + Drop,
    L: DeciderLog,
    G: Gate + Sync,
    T: Threads + Wait + Clock + Sync,
>(
    setup: Setup<'_, Zone, G, T>,
    feed: LimitedFeed<R, H>,
    posts: Vec<Post<C>>,
    logs: Result<Vec<L>, AllocError>,
    settings: Settings,
) -> (RunEnd, Vec<Vec<C>>, Vec<L>)
    requires accepted { IsAccepted setup.config.now }
    requires few { (l : ℕ) → count_of (λ post. post.lane.0) posts.items l ≤ 8 }
    requires logs { IfOk logs (λ ls. length ls.items ≡ settings.deciders) }
    ensures run { IsToldRunOf L.tells L.failed setup.entry.config.now setup.entry.zone.now (count_of (λ post. post.lane.0) posts.items)
        result.0.events.items result.0.memory result.0.lanes.items (given_logs logs) result.2.items
        result.0.log.items }
    ensures read { (far : ℕ → Bool)
        → ((line : ℕ) → far line ≡ ahead_in result.0.refused.items line)
        → IsReadOf far R.can_fail setup.entry.config.now (R.remaining feed.reader) result.0.memory
        result.0.events.items result.0.refused.items result.0.cut }
    ensures near { H.is_open feed.horizon ≡ true → NoneIsAhead result.0.refused.items }
    ensures started { HasStarted setup.entry.config.now result.0.started result.0.events.items result.0.refused.items
        result.0.log.items result.0.lanes.items result.0.memory }
    ensures channels { (l : ℕ) (lane cs : _) → slice_get result.0.lanes.items l ≡ Some lane
        → slice_get result.1.items l ≡ Some cs
        → HaveTaken C.account C.offered settings.tries setup.entry.config.now lane
        (channels_on (λ post. post.lane.0) (λ post. post.channel) l posts.items) cs.items }
    ensures places { length result.1.items ≡ length result.0.lanes.items }
{
    let LimitedFeed { reader, horizon } = feed;
    let Ok(lines) = LineReader::new(setup.alloc, reader) else {
        return (
            RunEnd::unread(setup.alloc),
            Vec::new(setup.alloc),
            Vec::new(setup.alloc),
        );
    };
    let Ran {
        lanes,
        channels,
        log,
        logs,
        memory,
        started,
        source,
    } = run_source(
        setup,
        Intake::new(setup.alloc, lines, horizon),
        posts,
        logs,
        settings,
    );
    let (events, refused, cut) = source.into_parts(memory);
    let end = RunEnd {
        events,
        refused,
        log,
        lanes,
        memory,
        cut,
        started,
    };
    (end, channels, logs)
}
