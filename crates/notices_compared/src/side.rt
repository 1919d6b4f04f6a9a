//! One of the two configurations: its decider, and the notices of the last line of the feed.

ghost use Rattle.std.specs.Prelude.{◌≡◌, ◌++◌, ◌||◌, [], List, false, IfErr, IfOk, Ok, OnOk};
ghost use Rattle.command_output.specs.declared.outcome.CommandFault.TheVariants.{NoMemory};
ghost use Rattle.due_model.specs.declared.event.Event.{Event};
ghost use Rattle.due_model.specs.claims.Accepted.{IsAccepted};
ghost use Rattle.due_model.specs.claims.Proper.{IsProper};
ghost use Rattle.decider.specs.claims.Fits.{Fits, core_kept, settings};
ghost use Rattle.messages.specs.Entries.{notices_in};
ghost use Rattle.notices_compared.specs.Sides.{given_notices, past_on};
ghost use Rattle.notices_compared.specs.Past.{is_ended, whole_share};

use command_output::CommandFault;
use decider::{DecideFault, EventDecider, Share};
use due_model::config::Config;
use due_model::event::Event;
use due_model::notice::Notice;
use due_model::zone::Zone;
use event_feed::FeedFault;
use messages::entries::Entry;
use std::alloc::{AllocError, Global};

/// The share of the one decider of a report: all objects.
const WHOLE: Share = Share {
    decider: 0,
    deciders: 1,
};

/// A decider of a configuration, and the notices of the last line that it took.
#[derive(Drop)]
pub(crate) struct Side<'a> {
    pub(crate) config: &'a Config,
    pub(crate) zone: &'a Zone,
    pub(crate) decider: EventDecider<'a>,
    pub(crate) notices: Vec<Notice>,
    /// Whether some event couldn't be numbered.
    pub(crate) ended: bool,
    ghost settings: { settings (core_kept decider) ≡ (config.now, zone.now, whole_share) },
}

impl<'a> Side<'a> {
    /// It has taken nothing.
    pub(crate) fn new(
        alloc: Global,
        config: &'a Config,
        zone: &'a Zone,
    ) -> Result<Side<'a>, AllocError>
        requires { IsAccepted config.now }
        ensures config { IfOk result (λ side. side.config.now ≡ config.now) }
        ensures zone { IfOk result (λ side. side.zone.now ≡ zone.now) }
        ensures fits { IfOk result (λ side. Fits (core_kept side.decider) []) }
        ensures ended { IfOk result (λ side. side.ended ≡ false) }
    {
        Ok(Side {
            config,
            zone,
            decider: EventDecider::new(alloc, config, zone, WHOLE)?,
            notices: Vec::new(alloc),
            ended: false,
        })
    }

    /// Takes what a line of the feed gives: then its notices are there, and none of a line that is refused, or whose event can't
    /// be numbered. After `Err` it isn't to be used.
    pub(crate) fn take(&mut self, given: Result<Event, FeedFault>) -> Result<(), CommandFault>
        requires proper { IfOk given (IsProper self.old.config.now) }
        requires fits { (past : List Event) × Fits (core_kept self.old.decider) past }
        ensures config { self.new.config.now ≡ self.old.config.now }
        ensures zone { self.new.zone.now ≡ self.old.zone.now }
        ensures fits { OnOk result ((past : List Event) → Fits (core_kept self.old.decider) past
            → Fits (core_kept self.new.decider) (past_on past given)) }
        ensures notices { OnOk result ((past : List Event) → Fits (core_kept self.old.decider) past
            → self.new.notices.items
            ≡ given_notices self.old.config.now self.old.zone.now past given) }
        ensures ended { OnOk result ((past : List Event) → Fits (core_kept self.old.decider) past
            → self.new.ended ≡ (self.old.ended || is_ended past given)) }
        ensures fault { IfErr result (λ fault. fault ≡ NoMemory) }
    {
        self.notices.clear();
        match given {
            Ok(event) => self.decide(event),
            Err(_) => Ok(()),
        }
    }

    /// Decides an event. No notices are there yet.
    fn decide(&mut self, event: Event) -> Result<(), CommandFault>
        requires proper { IsProper self.old.config.now event }
        requires fits { (past : List Event) × Fits (core_kept self.old.decider) past }
        requires empty { self.old.notices.items ≡ [] }
        ensures config { self.new.config.now ≡ self.old.config.now }
        ensures zone { self.new.zone.now ≡ self.old.zone.now }
        ensures fits { OnOk result ((past : List Event) → Fits (core_kept self.old.decider) past
            → Fits (core_kept self.new.decider) (past_on past (Ok event))) }
        ensures notices { OnOk result ((past : List Event) → Fits (core_kept self.old.decider) past
            → self.new.notices.items
            ≡ given_notices self.old.config.now self.old.zone.now past (Ok event)) }
        ensures ended { OnOk result ((past : List Event) → Fits (core_kept self.old.decider) past
            → self.new.ended ≡ (self.old.ended || is_ended past (Ok event))) }
        ensures fault { IfErr result (λ fault. fault ≡ NoMemory) }
    {
        match self.decider.decide(event) {
            Ok(()) => {
                let entries = self.decider.entries();
                add_notices(&mut self.notices, entries)?;
                Ok(())
            }
            Err(DecideFault::Ended) => {
                self.ended = true;
                Ok(())
            }
            Err(DecideFault::NoMemory) => Err(CommandFault::NoMemory),
        }
    }
}

/// Adds the notices among entries.
fn add_notices(notices: &mut Vec<Notice>, entries: &[Entry]) -> Result<(), AllocError>
    ensures { OnOk result (notices.new.items ≡ notices.old.items ++ notices_in entries.now) }
{
    for entry in entries {
        if let Entry::Sent(notice) = entry {
            notices.push(*notice)?;
        }
    }
    Ok(())
}
