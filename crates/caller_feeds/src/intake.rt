//! The intake: it takes events from the ends of feeds, one at a time.

ghost use Rattle.std.specs.Prelude.{◌≡◌, ◌↔◌, ◌<◌, ◌≤◌, None, Ok, Some, IsTrue, IsErrOf};
ghost use Rattle.std.specs.Prelude.{OnOk, OnErr, IfOk, [], All, length, slice_get, vec_capacity};
ghost use Rattle.std.specs.List.{AllZip};
ghost use Rattle.due_model.specs.declared.config.Config.{Config};
ghost use Rattle.caller_feeds.specs.Feeds.{AreUnread, HasLooked, NothingWaits};
ghost use Rattle.caller_feeds.specs.Taken.{AreOver, GivesNext, GoesOn, IsTaken, TakesNext, found_by};
ghost use Rattle.caller_feeds.specs.Taken.{Taking};

use crate::end::FeedEnd;
use due_model::config::Config;
use due_model::event::Event;
use idle_pause::Pause;
use std::alloc::{AllocError, Global};
use std::marker::Model;
use std::sync::Wait;
use std::time::Clock;

/// Why an intake gives no more events.
#[derive(Clone, Copy, Debug, PartialEq, Eq)]
pub enum IntakeStop {
    /// Each feed's end was received.
    Over,
    /// As many events were taken as may be, and one more waits in its feed.
    Ended,
    /// A growth of memory was refused. The event for which it was to be waits in its feed.
    NoMemory,
    /// All that was posted was taken, but a handle was dropped that hadn't sent its end. Each other feed's end was received, or
    /// its handle was dropped too. It is noticed by the ring's sign that a handle was dropped, of which no contract speaks.
    HandleDropped,
}

impl From<AllocError> for IntakeStop {
    ghost use Rattle.caller_feeds.specs.declared.intake.IntakeStop.TheVariants.{NoMemory};

    ghost from_gives = { λ _ stop. stop ≡ NoMemory };

    fn from(_error: AllocError) -> IntakeStop {
        IntakeStop::NoMemory
    }
}

/// Takes events from the ends of feeds, one at a time. Contracts see the ends, the events that were taken, and how many may be.
///
/// The ends have their turns one after the other, and each call goes on after the end that was served last, so that a feed that
/// is never empty keeps no other from its turn. No contract says so.
#[derive(Drop)]
pub struct Intake {
    ends: Vec<FeedEnd>,
    events: Vec<Event>,
    /// How many events may be taken.
    most: usize,
    /// The place of the end that has the next turn; that of the first, where there is none.
    place: usize,
}

impl Model for Intake {
    ghost use Rattle.caller_feeds.specs.Taken.{Taking};

    ghost Value = { Taking };

    ghost view = { λ s. record {
      ends = s.ends.items;
      events = s.events.items;
      most = s.most;
    } };
}

/// Makes room for one event more.
fn make_room(most: usize, events: &mut Vec<Event>) -> Result<(), IntakeStop>
    ensures events { events.new.items ≡ events.old.items }
    ensures room { OnOk result (length events.new.items < vec_capacity events.new) }
    ensures most { OnOk result (length events.old.items < most) }
    ensures ended { IsErrOf result IntakeStop.Ended → most ≤ length events.old.items }
    ensures over { IsErrOf result IntakeStop.Over → ⊥ }
    ensures dropped { IsErrOf result IntakeStop.HandleDropped → ⊥ }
{
    if events.len() >= most {
        return Err(IntakeStop::Ended);
    }
    events.reserve(1)?;
    Ok(())
}

/// Takes what an end has next. A proper event is added to the events, and given; room for it is made before it is taken.
fn take_next(
    config: &Config,
    most: usize,
    end: &mut FeedEnd,
    events: &mut Vec<Event>,
) -> Result<Option<Event>, IntakeStop>
    ensures { TakesNext config.now most result end.old end.new events.old.items events.new.items }
{
    let Some(item) = end.peek() else {
        return Ok(None);
    };
    let Some(event) = item.proper_event(config) else {
        end.pass(config, item);
        return Ok(None);
    };
    make_room(most, events)?;
    end.pass(config, item);
    let _room = events.push(event);
    Ok(Some(event))
}

/// Whether nothing more comes of any of these feeds.
fn are_done(ends: &mut Vec<FeedEnd>) -> bool
    ensures looked { AllZip HasLooked ends.old.items ends.new.items }
    ensures done { IsTrue result → All NothingWaits ends.new.items }
{
    for place in 0..ends.len() {
        if !ends[place].is_done() {
            return false;
        }
    }
    true
}

impl Intake {
    /// An intake that takes no more than `most` events of these ends, and has taken none. It takes no memory.
    pub fn new(alloc: Global, ends: Vec<FeedEnd>, most: usize) -> Intake
        ensures new { result ≡ record { ends = ends.items; events = []; most = most } }
        ensures taken { AreUnread ends.items → (c : Config) → IsTaken c ends.items [] }
    {
        Intake {
            ends,
            events: Vec::new(alloc),
            most,
            place: 0,
        }
    }

    /// Takes the next proper event, passes over the improper ones before it, and waits while no feed has one. An event that
    /// isn't given for want of room stays in its feed.
    pub fn next_event<R: Wait + Clock>(
        &mut self,
        rt: &R,
        config: &Config,
    ) -> Result<Event, IntakeStop>
        ensures { GivesNext config.now (found_by result) self.old self.new }
    {
        let mut pause = Pause::new();
        for _turn in rt.forever() {
            if let Some(event) = self.try_event(config)? {
                return Ok(event);
            }
            pause.rest(rt);
        }
        unreachable!()
    }

    /// As `next_event`, but it doesn't wait. `None`: each feed had a turn, none gave a proper event, and some feed goes on. It is
    /// for a caller that has more to watch than these feeds.
    pub fn try_event(&mut self, config: &Config) -> Result<Option<Event>, IntakeStop>
        ensures { GivesNext config.now result self.old self.new }
    {
        if let Some(event) = self.go_round(config)? {
            return Ok(Some(event));
        }
        if self.is_over() {
            return Err(IntakeStop::Over);
        }
        if self.is_done() {
            return Err(IntakeStop::HandleDropped);
        }
        Ok(None)
    }

    /// Gives each end a turn, until an event comes.
    fn go_round(&mut self, config: &Config) -> Result<Option<Event>, IntakeStop>
        ensures next { GivesNext config.now result self.old self.new }
        ensures over { IsErrOf result IntakeStop.Over → ⊥ }
        ensures dropped { IsErrOf result IntakeStop.HandleDropped → ⊥ }
    {
        for _end in 0..self.ends.len() {
            let place = self.turn();
            if let Some(event) = self.take_at(config, place)? {
                return Ok(Some(event));
            }
        }
        Ok(None)
    }

    /// The place of the end whose turn it is. The one after it has the next.
    fn turn(&mut self) -> usize
        requires { 0 < length self.old.ends }
        ensures place { result < length self.old.ends }
        ensures same { self.new ≡ self.old }
    {
        let place = if self.place < self.ends.len() {
            self.place
        } else {
            0
        };
        self.place = place + 1;
        place
    }

    /// Takes what the end at a place has next.
    fn take_at(&mut self, config: &Config, place: usize) -> Result<Option<Event>, IntakeStop>
        requires { place < length self.old.ends }
        ensures next { GivesNext config.now result self.old self.new }
        ensures over { IsErrOf result IntakeStop.Over → ⊥ }
        ensures dropped { IsErrOf result IntakeStop.HandleDropped → ⊥ }
    {
        take_next(config, self.most, &mut self.ends[place], &mut self.events)
    }

    /// Whether each feed's end was received.
    fn is_over(&self) -> bool
        ensures { IsTrue result ↔ AreOver self.now.ends }
    {
        self.ends.iter().all(|end| end.is_over())
    }

    /// Whether nothing more comes of any feed.
    fn is_done(&mut self) -> bool
        ensures events { self.new.events ≡ self.old.events }
        ensures goes { (c : Config) → GoesOn c self.old self.new }
        ensures done { IsTrue result → All NothingWaits self.new.ends }
        ensures over { AreOver self.new.ends → AreOver self.old.ends }
    {
        are_done(&mut self.ends)
    }

    /// The events that were taken, and the ends, in their order.
    pub fn into_lists(self) -> (Vec<Event>, Vec<FeedEnd>)
        ensures events { result.0.items ≡ self.events }
        ensures ends { result.1.items ≡ self.ends }
    {
        let Intake {
            ends,
            events,
            most: _,
            place: _,
        } = self;
        (events, ends)
    }
}
