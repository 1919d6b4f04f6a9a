//! A search through a feed.

ghost use Rattle.std.specs.Prelude.{◌≡◌, ◌≤◌, ◌+◌, [], ◌∷◌, List, None, Ok, length, true, false};
ghost use Rattle.std.specs.Prelude.{IfNone, IfOk, IfSome, IsErrOf};
ghost use Rattle.decider.specs.claims.Fits.{Fits, core_kept, settings};
ghost use Rattle.due_model.specs.claims.Accepted.{IsAccepted};
ghost use Rattle.due_model.specs.claims.Proper.{IsProper};
ghost use Rattle.due_model.specs.declared.event.Event.{Event};
ghost use Rattle.event_feed.specs.claims.Feed.{feed_limit};
ghost use Rattle.event_feed.specs.Feed.{feed_of};
ghost use Rattle.messages.specs.claims.Entries.{event_entries};
ghost use Rattle.messages.specs.Entries.{notices_in};
ghost use Rattle.due_feed.specs.Seen.{IsSeen, IsStopped, StopsAmong, is_ended, whole_share};
ghost use Rattle.due_feed.specs.Search.{Ends, GoesOn, Stops};

use crate::looker::{LookFault, Looker, show};
use decider::{DecideFault, EventDecider, Share};
use due_model::config::Config;
use due_model::event::Event;
use due_model::zone::Zone;
use event_feed::Feeder;
use std::alloc::{AllocError, Global};
use std::io::Read;
use text_lines::{Input, LineReader};

/// The share of the one decider: all objects.
const WHOLE: Share = Share {
    decider: 0,
    deciders: 1,
};

/// A search under way: the feed that is read, the decider of its events, and how many it has decided.
#[derive(Drop)]
pub(crate) struct Search<'a, R: Read> {
    config: &'a Config,
    zone: &'a Zone,
    feeder: Feeder<R>,
    decider: EventDecider<'a>,
    count: u64,
    ghost settings: { settings (core_kept decider) ≡ (config.now, zone.now, whole_share) },
}

impl<'a, R: Input + Drop> Search<'a, R> {
    /// Nothing is read yet. A refused growth is the only error.
    pub(crate) fn new(
        alloc: Global,
        config: &'a Config,
        zone: &'a Zone,
        lines: LineReader<R>,
    ) -> Result<Self, AllocError>
        requires accepted { IsAccepted config.now }
        ensures config { IfOk result (λ search. search.config.now ≡ config.now) }
        ensures zone { IfOk result (λ search. search.zone.now ≡ zone.now) }
        ensures feed { IfOk result (λ search. search.feeder ≡ feed_of lines 0 0 None) }
        ensures fits { IfOk result (λ search. Fits (core_kept search.decider) []) }
        ensures count { IfOk result (λ search. search.count ≡ 0) }
    {
        Ok(Search {
            config,
            zone,
            feeder: Feeder::new(lines),
            decider: EventDecider::new(alloc, config, zone, WHOLE)?,
            count: 0,
        })
    }

    /// Shows all that is due from the feed's beginning on. The answer is how many events were decided.
    pub(crate) fn look<L: Looker>(&mut self, looker: &mut L) -> Result<u64, LookFault>
        requires goes_on { self.old.feeder.stop ≡ None }
        requires fits { Fits (core_kept self.old.decider) [] }
        requires count { self.old.count ≡ 0 }
        ensures seen { IfOk result (λ count. IsSeen R.can_fail
            self.old.config.now self.old.zone.now self.old.feeder L.saw count looker.old looker.new) }
        ensures stopped { IsErrOf result LookFault.Stopped → IsStopped R.can_fail
            self.old.config.now self.old.zone.now self.old.feeder L.saw L.stops looker.old looker.new }
    {
        loop {
            match self.take_line(looker)? {
                None => {}
                Some(count) => return Ok(count),
            }
        }
    }

    /// Reads the next line that says something, and shows what it makes due. The answer is how many events were decided, once the feed
    /// is over.
    fn take_line<L: Looker>(&mut self, looker: &mut L) -> Result<Option<u64>, LookFault>
        requires goes_on { self.old.feeder.stop ≡ None }
        requires fits { (past : List Event) × Fits (core_kept self.old.decider) past
            × (self.old.count ≡ length past) }
        ensures config { self.new.config.now ≡ self.old.config.now }
        ensures zone { self.new.zone.now ≡ self.old.zone.now }
        ensures goes_on { IfOk result (λ over. IfNone over (GoesOn
            self.old.config.now self.old.zone.now (core_kept self.old.decider) self.old.feeder self.old.count
            (core_kept self.new.decider) self.new.feeder self.new.count L.saw looker.old looker.new)) }
        ensures ends { IfOk result (λ over. IfSome over (λ count. Ends R.can_fail
            self.old.config.now (core_kept self.old.decider) self.old.feeder self.old.count
            count L.saw looker.old looker.new)) }
        ensures stopped { IsErrOf result LookFault.Stopped → Stops R.can_fail
            self.old.config.now self.old.zone.now (core_kept self.old.decider) self.old.feeder
            L.saw L.stops looker.old looker.new }
        ensures limit { self.new.feeder.line ≤ feed_limit + 1 }
    {
        match self.feeder.next(self.config) {
            Ok(None) => Ok(Some(self.count)),
            Ok(Some(event)) => self.take_event(event, looker),
            Err(_) => match self.feeder.stop() {
                None => Ok(None),
                Some(_) => Ok(Some(self.count)),
            },
        }
    }

    /// Decides an event, and shows what it makes due. The answer is how many events were decided, where it can't be numbered.
    fn take_event<L: Looker>(
        &mut self,
        event: Event,
        looker: &mut L,
    ) -> Result<Option<u64>, LookFault>
        requires proper { IsProper self.old.config.now event }
        requires fits { (past : List Event) × Fits (core_kept self.old.decider) past
            × (self.old.count ≡ length past) }
        ensures config { self.new.config.now ≡ self.old.config.now }
        ensures zone { self.new.zone.now ≡ self.old.zone.now }
        ensures feed { self.new.feeder ≡ self.old.feeder }
        ensures goes_on { IfOk result (λ over. IfNone over ((past : List Event)
            → Fits (core_kept self.old.decider) past → self.old.count ≡ length past
            → (is_ended past (Ok event) ≡ false)
            × Fits (core_kept self.new.decider) (event ∷ past)
            × (self.new.count ≡ length (event ∷ past))
            × L.saw looker.old (notices_in
            (event_entries self.old.config.now self.old.zone.now event past)) looker.new)) }
        ensures ends { IfOk result (λ over. IfSome over (λ count. (past : List Event)
            → Fits (core_kept self.old.decider) past
            → (is_ended past (Ok event) ≡ true) × (count ≡ self.old.count)
            × L.saw looker.old [] looker.new)) }
        ensures stopped { IsErrOf result LookFault.Stopped → (past : List Event)
            → Fits (core_kept self.old.decider) past
            → (is_ended past (Ok event) ≡ false)
            × StopsAmong L.saw L.stops looker.old (notices_in
            (event_entries self.old.config.now self.old.zone.now event past)) looker.new }
    {
        match self.decider.decide(event) {
            Ok(()) => {
                let entries = self.decider.entries();
                show(looker, entries)?;
                self.count = self.count.saturating_add(1);
                Ok(None)
            }
            Err(DecideFault::Ended) => Ok(Some(self.count)),
            Err(DecideFault::NoMemory) => Err(LookFault::NoMemory),
        }
    }
}
