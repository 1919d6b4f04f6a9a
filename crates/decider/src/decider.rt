//! The decider.

ghost use Rattle.std.specs.Prelude.{◌≡◌, ◌↔◌, ℕ, ◌+◌, ◌^◌, ◌<◌, [], ◌∷◌};
ghost use Rattle.std.specs.Prelude.{◌++◌};
ghost use Rattle.std.specs.Prelude.{List, length, OnOk, OnErr, IfOk, IsErrOf};
ghost use Rattle.due_model.specs.declared.event.Event.{Event};
ghost use Rattle.due_model.specs.claims.Accepted.{IsAccepted};
ghost use Rattle.due_model.specs.claims.Limits.{max_events};
ghost use Rattle.due_model.specs.claims.Proper.{IsProper};
ghost use Rattle.decider.specs.claims.Outbox.{lists, waiting_at};

use crate::event_decider::{DecideFault, EventDecider};
use crate::log::note;
use crate::outbox::Outbox;
use crate::share::Share;
use due_model::config::Config;
use due_model::event::Event;
use due_model::notice::Suppression;
use due_model::zone::Zone;
use messages::entries::suppressions;
use problem_count::laws::fit_on;
use std::alloc::{AllocError, Global};
use suppression_log::Log;

/// Decides the events one by one, for the objects of its share: it puts the notices into an outbox, and
/// keeps the suppressions in a log.
#[derive(Drop)]
pub struct Decider<'a> {
    core: EventDecider<'a>,
    /// The suppressions so far.
    log: Log,
}

impl<'a> Decider<'a> {
    ghost use Rattle.decider.specs.claims.Decider.{gained, suppressed_gained};
    ghost use Rattle.decider.specs.claims.Fits.{kept, Fits, settings};
    ghost use Rattle.decider.specs.Fits.{HasDecidedNothing};
    ghost use Rattle.decider.specs.claims.Ready.{judged};
    ghost use Rattle.decider.specs.claims.Share.{IsShare};

    /// A decider of the objects of this share, which has decided no event. A refused growth is the only
    /// error.
    pub fn new(
        alloc: Global,
        config: &'a Config,
        zone: &'a Zone,
        share: Share,
    ) -> Result<Decider<'a>, AllocError>
        requires accepted { IsAccepted config.now }
        requires share { IsShare share }
        ensures { IfOk result (λ decider.
            HasDecidedNothing config.now zone.now share (kept decider)) }
    {
        Ok(Decider {
            core: EventDecider::new(alloc, config, zone, share)?,
            log: Log::new(alloc),
        })
    }

    /// Decides one event for the objects of the share. `Ok` adds to each lane of the outbox the notices
    /// that become due, in object order, and to the log the suppressions. `NoMemory` and `Ended` change
    /// nothing.
    pub fn decide(&mut self, event: Event, outbox: &mut Outbox) -> Result<(), DecideFault>
        requires proper { IsProper (kept self.old).config event }
        requires fits { (past : List Event) × Fits (kept self.old) past }
        requires lanes { length (lists outbox.old) ≡ length (kept self.old).config.lanes }
        // It fits the past with the event.
        ensures fits { OnOk result ((past : List Event)
            → Fits (kept self.old) past → Fits (kept self.new) (event ∷ past)) }
        // Each lane gains what becomes due.
        ensures notices { OnOk result ((past : List Event)
            → Fits (kept self.old) past → (l : ℕ) → l < length (lists outbox.old)
            → waiting_at outbox.new l ≡ waiting_at outbox.old l
            ++ gained (kept self.old).config (kept self.old).zone (kept self.old).share l
            event past) }
        // The log gains what is suppressed.
        ensures suppressions { OnOk result ((past : List Event) → Fits (kept self.old) past
            → (kept self.new).log ≡ (kept self.old).log
            ++ suppressed_gained (kept self.old).config (kept self.old).zone (kept self.old).share
            event past) }
        // The clock judges the problems of the share that are ready; another event judges none.
        ensures examined { OnOk result ((past : List Event) → Fits (kept self.old) past
            → (kept self.new).index.examined ≡ (kept self.old).index.examined
            + judged (kept self.old).config (kept self.old).zone (kept self.old).share
            event past) }
        ensures settings { settings (kept self.new) ≡ settings (kept self.old) }
        ensures lanes { length (lists outbox.new) ≡ length (lists outbox.old) }
        ensures err { OnErr result ((kept self.new ≡ kept self.old)
            × (lists outbox.new ≡ lists outbox.old)) }
        // It ends at event number 2^32, and only there.
        ensures ended { (past : List Event) → Fits (kept self.old) past
            → IsErrOf result DecideFault.Ended ↔ (length past ≡ max_events) }
    {
        fit_on();
        self.core.stage(event)?;
        outbox.reserve(self.core.staged())?;
        self.log.reserve(suppressions(self.core.staged()))?;
        self.core.commit(event);
        outbox.deliver(self.core.entries());
        note(&mut self.log, self.core.entries());
        Ok(())
    }

    /// How many events it has decided.
    pub fn decided(&self) -> u64
        ensures { result ≡ (kept self.now).count }
    {
        self.core.decided()
    }

    /// How many problems it has judged at the clock's events: at each, those of its share that were ready (chapter
    /// "Notifications").
    pub fn examined(&self) -> u64
        ensures { result ≡ (kept self.now).index.examined }
    {
        self.core.examined()
    }

    /// Forgets the suppressions so far, and keeps their room. A caller that has passed them on calls it,
    /// so that the log doesn't grow with the feed.
    pub fn clear_log(&mut self)
        ensures log { kept self.new ≡ record (kept self.old) { log = [] } }
        ensures fits { (past : List Event) → Fits (kept self.old) past → Fits (kept self.new) past }
    {
        self.log.clear();
    }

    /// The suppressions so far, by event, then object, then contact.
    pub fn log(&self) -> &[Suppression]
        ensures { result.now ≡ (kept self.now).log }
    {
        self.log.lines()
    }

    /// The suppressions so far as a vector, in the same order.
    pub fn into_log(self) -> Vec<Suppression>
        ensures { result.items ≡ (kept self.entry).log }
    {
        let Decider { core: _, log } = self;
        log.into_lines()
    }
}
