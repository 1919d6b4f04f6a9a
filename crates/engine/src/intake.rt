//! The reading of a feed: the events that are accepted, and the lines that are refused.

ghost use Rattle.std.specs.Prelude.{◌≡◌, ◌+◌, ◌<◌, ◌≤◌, ◌++◌, [], ◌∷◌, ℕ, Bool, List, true, false};
ghost use Rattle.std.specs.Prelude.{IfOk, IsNone, IsSome, None, OnErr, OnOk, Some};
ghost use Rattle.std.specs.Option.{option_to_list};
ghost use Rattle.due_model.specs.declared.config.Config.{Config};
ghost use Rattle.due_model.specs.declared.event.Event.{Event};
ghost use Rattle.event_feed.specs.claims.Feed.{Answer, Feed, feed_limit};
ghost use Rattle.event_feed.specs.Feed.{feed_of};
ghost use Rattle.engine.specs.claims.Feed.{NoneIsAhead};
ghost use Rattle.engine.specs.Feed.{Follows, Goes, HasRead, HasTaken, IsLeft, Offers};
ghost use Rattle.engine.specs.claims.Feed.{ahead_in};
ghost use Rattle.engine.specs.Feed.{StaysOpen, accepts, goes_on};

use delivery_worker::Gate;
use due_model::config::Config;
use due_model::event::Event;
use due_model::limits::MAX_EVENTS;
use engine_threads::{Given, Source};
use event_feed::{FeedFault, Feeder, Horizon, RefusedLine};
use std::alloc::{AllocError, Global};
use std::io::Read;
use std::marker::Model;
use text_lines::{Input, LineReader};

/// What the next line of a feed is.
#[derive(Clone, Copy)]
pub(crate) enum Next {
    /// An event that is accepted.
    Accepts(Event),
    /// A line that was refused, and the feed goes on.
    Refused,
    /// The feed is over, and was cut or not.
    Over(bool),
}

/// What was read of a feed. Contracts see the feed, the events, the refused lines, whether no line is too far ahead for it, whether it
/// is over, and the room for more.
#[derive(Drop)]
pub(crate) struct Intake<R: Read, H: Horizon> {
    feeder: Feeder<R>,
    /// What says how late the stamp of a line may be.
    horizon: H,
    /// The events that were accepted.
    events: Vec<Event>,
    /// The lines that were refused.
    refused: Vec<RefusedLine>,
    /// Where the feed is over, whether it was cut.
    over: Option<bool>,
}

impl<R: Read, H: Horizon> Model for Intake<R, H> {
    ghost use Rattle.std.specs.Prelude.{◌-◌, vec_len, vec_capacity};
    ghost use Rattle.engine.specs.Feed.{Kept};

    ghost Value = { Kept };

    ghost view = { λ s. record {
      read = record {
        feed = s.feeder;
        events = s.events.items;
        refused = s.refused.items;
      };
      is_open = H.is_open s.horizon;
      over = s.over;
      events_room = vec_capacity s.events - vec_len s.events;
      refused_room = vec_capacity s.refused - vec_len s.refused;
    } };
}

impl<R: Input + Drop, H: Horizon + Drop> Intake<R, H> {
    /// Nothing was read of the feed whose first line is the next of this reader. It takes no memory.
    pub(crate) fn new(alloc: Global, lines: LineReader<R>, horizon: H) -> Self
        ensures read { result.read
            ≡ record { feed = feed_of lines 0 0 None; events = []; refused = [] } }
        ensures is_open { result.is_open ≡ H.is_open horizon }
        ensures over { result.over ≡ None }
    {
        Intake {
            feeder: Feeder::new(lines),
            horizon,
            events: Vec::new(alloc),
            refused: Vec::new(alloc),
            over: None,
        }
    }

    /// Reads the next line that says something. A refused growth is the only error, and comes before anything is read; after
    /// Ok there is room for the line.
    fn read_line(&mut self, config: &Config) -> Result<Next, AllocError>
        ensures next { IfOk result (λ next. (start : Feed) (said : List Answer)
            → HasRead config.now start said self.old.read
            → Follows R.can_fail config.now start said next self.new.read) }
        ensures line { IfOk result (λ next. goes_on next ≡ true
            → self.old.read.feed.line < self.new.read.feed.line) }
        ensures limit { OnOk result (self.new.read.feed.line ≤ feed_limit + 1) }
        ensures events_room { IfOk result (λ next. goes_on next ≡ true → 0 < self.new.events_room) }
        ensures refused_room { IfOk result (λ next. (e : Event) → next ≡ Next.Accepts e
            → 0 < self.new.refused_room) }
        ensures events { self.new.read.events ≡ self.old.read.events }
        ensures over { self.new.over ≡ self.old.over }
        ensures err { OnErr result (self.new.read ≡ self.old.read) }
        ensures near { StaysOpen self.old self.new }
    {
        self.events.reserve(1)?;
        self.refused.reserve(1)?;
        match self.feeder.next_within(config, &self.horizon) {
            Ok(None) => Ok(Next::Over(false)),
            Ok(Some(event)) => Ok(Next::Accepts(event)),
            Err(refusal) => {
                let _room = self.refused.push(refusal);
                if let Some(_stop) = self.feeder.stop() {
                    return Ok(Next::Over(true));
                }
                Ok(Next::Refused)
            }
        }
    }

    /// Accepts the event of the last line. One that can't be numbered is refused as Ended, and the feed is over. It takes no
    /// memory.
    fn accept(&mut self, event: Event) -> Next
        requires events_room { 0 < self.old.events_room }
        requires refused_room { 0 < self.old.refused_room }
        requires goes_on { self.old.over ≡ None }
        ensures taken { (can_fail : _) (c : Config) (start : Feed) (said : List Answer)
            → Offers c start said event self.old.read
            → (all : List Answer) × HasTaken can_fail c start all self.new.over self.new.read }
        ensures given { self.new.read.events ≡ self.old.read.events ++ accepts result }
        ensures goes_on { goes_on result ≡ true → self.new.over ≡ None }
        ensures over { goes_on result ≡ false → IsSome self.new.over }
        ensures feed { self.new.read.feed ≡ self.old.read.feed }
        ensures near { StaysOpen self.old self.new }
    {
        if self.events.len() as u64 == MAX_EVENTS {
            let refusal = RefusedLine {
                line: self.feeder.line(),
                fault: FeedFault::Ended,
            };
            let _room = self.refused.push(refusal);
            self.over = Some(true);
            return Next::Over(true);
        }
        let _room = self.events.push(event);
        Next::Accepts(event)
    }

    /// Reads the next line that says something, and accepts its event. A refused growth is the only error, and changes nothing
    /// of what was read.
    fn take_line(&mut self, config: &Config) -> Result<Next, AllocError>
        requires { self.old.over ≡ None }
        ensures goes { Goes R.can_fail config.now self.old self.new }
        ensures given { IfOk result (λ next.
            self.new.read.events ≡ self.old.read.events ++ accepts next) }
        ensures goes_on { IfOk result (λ next. goes_on next ≡ true → self.new.over ≡ None) }
        ensures over { IfOk result (λ next. goes_on next ≡ false → IsSome self.new.over) }
        ensures line { IfOk result (λ next. goes_on next ≡ true
            → self.old.read.feed.line < self.new.read.feed.line) }
        ensures limit { OnOk result (self.new.read.feed.line ≤ feed_limit + 1) }
        ensures err { OnErr result (self.new.read ≡ self.old.read) }
    {
        match self.read_line(config)? {
            Next::Accepts(event) => Ok(self.accept(event)),
            Next::Refused => Ok(Next::Refused),
            Next::Over(cut) => {
                self.over = Some(cut);
                Ok(Next::Over(cut))
            }
        }
    }

    /// Reads on to the next event that is accepted, or to the end of the feed. A refused growth is the only error. The gate is told of
    /// each line that is refused before that.
    fn next_event<G: Gate>(
        &mut self,
        config: &Config,
        gate: &G,
    ) -> Result<Option<Event>, AllocError>
        ensures goes { Goes R.can_fail config.now self.old self.new }
        ensures ok { IfOk result (λ event.
            self.new.read.events ≡ self.old.read.events ++ option_to_list event) }
        ensures err { OnErr result (self.new.read.events ≡ self.old.read.events) }
        ensures over { IfOk result (λ event. event ≡ None → IsSome self.new.over) }
    {
        while self.over.is_none() {
            match self.take_line(config)? {
                Next::Accepts(event) => return Ok(Some(event)),
                Next::Refused => tell_last(&self.refused, gate),
                Next::Over(cut) => {
                    tell_cut(cut, &self.refused, gate);
                    return Ok(None);
                }
            }
        }
        Ok(None)
    }

    /// The events, the refused lines, and whether the feed was cut. Where memory ran out, here or elsewhere, the feed isn't said
    /// to be cut, and the line at which it was is left out.
    pub(crate) fn into_parts(self, memory: bool) -> (Vec<Event>, Vec<RefusedLine>, bool)
        ensures events { result.0.items ≡ self.read.events }
        ensures refused { IsNone self.over → result.1.items ≡ self.read.refused }
        // Just those lines are too far ahead that are refused so.
        ensures left { (can_fail : _) (c : Config) (start : Feed) (said : List Answer)
            (far : ℕ → Bool) → HasTaken can_fail c start said self.over self.read
            → (memory ≡ false → IsSome self.over)
            → ((line : ℕ) → far line ≡ ahead_in result.1.items line)
            → IsLeft far can_fail c start memory result.0.items result.1.items result.2 }
        ensures near { NoneIsAhead self.read.refused → NoneIsAhead result.1.items }
    {
        let Intake {
            feeder: _,
            horizon: _,
            events,
            mut refused,
            over,
        } = self;
        let Some(cut) = over else {
            return (events, refused, false);
        };
        if memory && cut {
            let _line = refused.pop();
            return (events, refused, false);
        }
        (events, refused, cut)
    }
}

/// Tells a gate of the line at which a feed was cut, if it was.
fn tell_cut<G: Gate>(cut: bool, refused: &[RefusedLine], gate: &G) {
    if cut {
        tell_last(refused, gate);
    }
}

/// Tells a gate of the line that was refused last.
fn tell_last<G: Gate>(refused: &[RefusedLine], gate: &G) {
    if let Some(last) = refused.last() {
        gate.refused(last.line, last.fault.name());
    }
}

impl<R: Input + Drop, H: Horizon + Drop> Source for Intake<R, H> {
    ghost use Rattle.std.specs.Prelude.{IsSome};
    ghost use Rattle.engine.specs.Feed.{Goes};
    ghost use Rattle.engine.specs.FeedLaws.{goes_nowhere, goes_then};

    ghost given_so_far = { λ s. s.read.events };

    ghost goes = { λ c a b. Goes R.can_fail c a b };

    ghost stays = { λ c s. goes_nowhere R.can_fail c s };

    ghost ended = { λ s. IsSome s.over };

    ghost follows = { λ c a b d one two. goes_then R.can_fail c a b d one two };

    fn next<G: Gate>(&mut self, config: &Config, gate: &G) -> Result<Given, AllocError> {
        match self.next_event(config, gate)? {
            Some(event) => Ok(Given::Event(event)),
            None => Ok(Given::Over),
        }
    }
}
