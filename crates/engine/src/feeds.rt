//! Runs over feeds from callers' own threads.

ghost use Rattle.std.specs.Prelude.{◌≡◌, ◌≢◌, ◌≤◌, ℕ, All, [], true, false, length, reverse, None, IfOk};
ghost use Rattle.std.specs.Prelude.{IsSome, slice_get, Some};
ghost use Rattle.std.specs.List.{AllZip};
ghost use Rattle.due_model.specs.declared.config.Config.{Config};
ghost use Rattle.due_model.specs.claims.Accepted.{IsAccepted};
ghost use Rattle.due_model.specs.claims.Proper.{IsProper};
ghost use Rattle.caller_feeds.specs.Feeds.{ArePairs, AreUnread, AreUnsent, IsSameEnd};
ghost use Rattle.caller_feeds.specs.Taken.{AreOver, IsTaken};
ghost use Rattle.engine.specs.Feeds.{AreCut, AreTaken, FeedsGo};
ghost use Rattle.engine.specs.claims.Lanes.{HaveTaken, channels_on, count_of};
ghost use Rattle.engine.specs.claims.Run.{IsRunOf};
ghost use Rattle.engine.specs.claims.Unread.{HasStarted};

use crate::engine::Engine;
use crate::logs::kept_logs;
use crate::post::Post;
use crate::run_end::RunEnd;
use crate::source_run::{Ran, run_source};
use caller_feeds::{FeedEnd, FeedHandle, Intake, IntakeStop};
use channel::Channel;
use delivery_worker::{Closers, Gate};
use due_model::config::Config;
use due_model::event::Event;
use due_model::limits::MAX_EVENTS;
use due_model::zone::Zone;
use engine_threads::{Given, Setup, Source};
use std::alloc::{AllocError, Global};
use std::sync::Wait;
use std::thread::Threads;
use std::time::Clock;
use steps::Settings;

/// What was taken of callers' feeds.
#[derive(Drop)]
pub(crate) struct Feeds {
    intake: Intake,
    /// Where the feeds are over, whether they were cut: an event can't be numbered, or the end of one is missing.
    over: Option<bool>,
}

impl Feeds {
    /// Nothing was taken of these ends' feeds. It takes no memory.
    fn new(alloc: Global, ends: Vec<FeedEnd>) -> Self
        requires { AreUnread ends.items }
        ensures ends { result.intake.ends ≡ ends.items }
        ensures events { result.intake.events ≡ [] }
        ensures taken { (c : Config) → AreTaken c result × IsTaken c ends.items [] }
    {
        Feeds {
            intake: Intake::new(alloc, ends, MAX_EVENTS as usize),
            over: None,
        }
    }

    /// The events, the ends in their order, and whether the feeds were cut; they aren't said to be where memory ran out.
    fn into_parts(self, memory: bool) -> (Vec<Event>, Vec<FeedEnd>, bool)
        ensures events { result.0.items ≡ self.intake.events }
        ensures ends { result.1.items ≡ self.intake.ends }
        ensures over { (c : Config) → AreTaken c self → memory ≡ false → IsSome self.over
            → result.2 ≡ false → AreOver self.intake.ends }
        ensures cut { (c : Config) → AreTaken c self → result.2 ≡ true
            → AreCut c self.intake.ends self.intake.events }
        ensures uncut { memory ≡ true → result.2 ≡ false }
    {
        let Feeds { intake, over } = self;
        let (events, ends) = intake.into_lists();
        (events, ends, over == Some(true) && !memory)
    }
}

impl Source for Feeds {
    ghost use Rattle.std.specs.Prelude.{IsSome};
    ghost use Rattle.caller_feeds.specs.FeedLaws.{goes_on, goes_on_then};
    ghost use Rattle.engine.specs.Feeds.{FeedsGo};

    ghost given_so_far = { λ s. s.intake.events };

    ghost goes = { λ c a b. FeedsGo c a b };

    ghost stays = { λ c s. record { intake = goes_on c s.intake; taken = λ taken. taken } };

    ghost ended = { λ s. IsSome s.over };

    ghost follows = { λ c a b d one two. record {
      intake = goes_on_then c a.intake b.intake d.intake one.intake two.intake;
      taken = λ taken. two.taken (one.taken taken);
    } };

    fn next<G: Gate>(&mut self, config: &Config, _gate: &G) -> Result<Given, AllocError> {
        if self.over.is_some() {
            return Ok(Given::Over);
        }
        match self.intake.try_event(config) {
            Ok(Some(event)) => return Ok(Given::Event(event)),
            Ok(None) => return Ok(Given::Nothing),
            Err(IntakeStop::NoMemory) => return Err(AllocError),
            Err(IntakeStop::Over) => self.over = Some(false),
            Err(IntakeStop::Ended | IntakeStop::HandleDropped) => self.over = Some(true),
        }
        Ok(Given::Over)
    }
}

impl Engine {
    /// So many feeds for callers in threads of their own: the handles, on which callers post, and in the same order the ends, which
    /// `run_feeds` takes. Each holds 256 items. A refused growth is the only error.
    pub fn feeds(alloc: Global, count: usize) -> Result<(Vec<FeedHandle>, Vec<FeedEnd>), AllocError>
        ensures count { IfOk result (λ r. length r.1.items ≡ count) }
        ensures pairs { IfOk result (λ r. ArePairs r.0.items r.1.items) }
        ensures unsent { IfOk result (λ r. AreUnsent r.0.items) }
        ensures unread { IfOk result (λ r. AreUnread r.1.items) }
    {
        caller_feeds::feeds(alloc, count)
    }

    /// As `run`, but the events come from the ends of callers' feeds, one at a time, of each feed in its order; in which order they
    /// come of different feeds isn't promised. An improper event is passed over, and its end counts it. Events keep the stamps that
    /// were sent: one that says less than an earlier one is taken at the earlier one's moment. The run goes on until each feed has
    /// sent its end. It is cut where as many events were taken as can be numbered and one more waits in its feed, and where all that
    /// was posted was taken and each feed whose end is missing has lost its handle: so a handle that is dropped doesn't hold the run
    /// up, and `FeedEnd::is_over` tells which it was. The ends come back in their order, where memory ran out too.
    pub fn run_feeds<C: Channel, G: Gate + Sync, T: Threads + Wait + Clock + Sync>(
        rt: &T,
        alloc: Global,
        config: &Config,
        zone: &Zone,
        ends: Vec<FeedEnd>,
        posts: Vec<Post<C>>,
        settings: Settings,
        closers: &Closers,
        gate: &G,
    ) -> (RunEnd, Vec<FeedEnd>, Vec<Vec<C>>)
        requires accepted { IsAccepted config.now }
        // Of each lane there are at most eight posts.
        requires few { (l : ℕ) → count_of (λ post. post.lane.0) posts.items l ≤ 8 }
        requires unread { AreUnread ends.items }
        // Of the events that were taken: of each object, each lane has taken or given up exactly what was due, in order, the log is all
        // that was suppressed, and a lane is closed for a cause; where memory ran out, a front of that.
        ensures run { IsRunOf config.now zone.now (count_of (λ post. post.lane.0) posts.items)
            result.0.events.items result.0.memory result.0.lanes.items result.0.log.items }
        // All that was taken: the events are a merge of the proper ones that the ends have received, and each has counted the others.
        ensures taken { IsTaken config.now result.1.items result.0.events.items }
        ensures proper { All (IsProper config.now) result.0.events.items }
        ensures refused { result.0.refused.items ≡ [] }
        // The ends come back in order, each that of its feed.
        ensures ends { AllZip IsSameEnd ends.items result.1.items }
        // Each feed's end was received, or the feeds were cut,
        ensures over { result.0.memory ≡ false → result.0.cut ≡ false → AreOver result.1.items }
        ensures cut { result.0.cut ≡ true → AreCut config.now result.1.items result.0.events.items }
        // or memory ran out.
        ensures uncut { result.0.memory ≡ true → result.0.cut ≡ false }
        // Where the run began every lane is there; where it didn't, nothing was taken of the feeds.
        ensures started { HasStarted config.now result.0.started result.0.events.items result.0.refused.items
            result.0.log.items result.0.lanes.items result.0.memory }
        ensures untaken { result.0.started ≡ false → result.1.items ≡ ends.items }
        // Each lane's channels are given back, in the order of its posts: each is the one that was given, it has taken what its record
        // says and nothing else, and it was replaced only since a letter had failed as often as it may be tried.
        ensures channels { (l : ℕ) (lane cs : _) → slice_get result.0.lanes.items l ≡ Some lane
            → slice_get result.2.items l ≡ Some cs
            → HaveTaken C.account C.offered settings.tries config.now lane
            (channels_on (λ post. post.lane.0) (λ post. post.channel) l posts.items) cs.items }
        ensures places { length result.2.items ≡ length result.0.lanes.items }
    {
        let setup = Setup {
            rt,
            alloc,
            config,
            zone,
            closers,
            gate,
        };
        let Ran {
            lanes,
            channels,
            log,
            logs: _,
            memory,
            started,
            source,
        } = run_source(
            setup,
            Feeds::new(alloc, ends),
            posts,
            kept_logs(alloc, settings.deciders),
            settings,
        );
        let (events, ends, cut) = source.into_parts(memory);
        let end = RunEnd {
            events,
            refused: Vec::new(alloc),
            log,
            lanes,
            memory,
            cut,
            started,
        };
        (end, ends, channels)
    }
}
