//! Two configurations side by side: what each line of a feed changes.

ghost use Rattle.std.specs.Prelude.{◌≡◌, ◌++◌, ◌||◌, ℕ, List, [], false, length, IfErr, IfOk, OnOk};
ghost use Rattle.std.specs.Prelude.{if◌then◌else◌};
ghost use Rattle.command_output.specs.declared.outcome.CommandFault.TheVariants.{NoMemory};
ghost use Rattle.command_output.specs.declared.outcome.Ending.TheVariants.{Short, Whole};
ghost use Rattle.contact_tallies.specs.Marks.{Mark, marks_after};
ghost use Rattle.contact_tallies.specs.Tallies.{AreTallies};
ghost use Rattle.due_model.specs.declared.event.Event.{Event};
ghost use Rattle.due_model.specs.declared.zone.Zone.{Zone};
ghost use Rattle.due_model.specs.claims.Accepted.{IsAccepted};
ghost use Rattle.due_model.specs.claims.Proper.{IsProper};
ghost use Rattle.decider.specs.claims.Fits.{Fits, core_kept};
ghost use Rattle.changed_notices.specs.Changed.{changes_of};
ghost use Rattle.notices_compared.specs.Sides.{given_notices, past_on};
ghost use Rattle.paired_feed.specs.Paired.{is_cut};
ghost use Rattle.notices_compared.specs.Past.{is_ended};
ghost use Rattle.notices_compared.specs.Told.{event_of, marks_on_line, table_of};

use crate::side::Side;
use changed_notices::{ChangeForm, Form, Given, push_changes};
use command_output::{CommandFault, Ending};
use contact_table::{ToldBy, push_table};
use contact_tallies::Tallies;
use due_model::config::Config;
use due_model::event::Event;
use due_model::zone::Zone;
use event_feed::FeedFault;
use paired_feed::PairedLine;
use std::alloc::{AllocError, Global};
use text_lines::Stop;
use zone_times::clock::ZoneClock;

/// Two deciders side by side, and what their contacts were told.
#[derive(Drop)]
pub(crate) struct Comparison<'a> {
    pub(crate) form: Form,
    pub(crate) before: Side<'a>,
    pub(crate) after: Side<'a>,
    pub(crate) clock: ZoneClock<'a>,
    pub(crate) told_before: Tallies,
    pub(crate) told_after: Tallies,
}

impl<'a> Comparison<'a> {
    /// Nothing of a feed was taken yet. A refused growth is the only error.
    pub(crate) fn new(
        alloc: Global,
        before: &'a Config,
        after: &'a Config,
        zone: &'a Zone,
        form: ChangeForm,
    ) -> Result<Comparison<'a>, AllocError>
        requires before { IsAccepted before.now }
        requires after { IsAccepted after.now }
        ensures form { IfOk result (λ both. both.form.form ≡ form) }
        ensures before { IfOk result (λ both. both.before.config.now ≡ before.now) }
        ensures after { IfOk result (λ both. both.after.config.now ≡ after.now) }
        ensures zones { IfOk result (λ both. (both.clock ≡ zone.now)
            × (both.before.zone.now ≡ zone.now) × (both.after.zone.now ≡ zone.now)) }
        ensures fits_before { IfOk result (λ both. Fits (core_kept both.before.decider) []) }
        ensures fits_after { IfOk result (λ both. Fits (core_kept both.after.decider) []) }
        ensures ended { IfOk result (λ both.
            (both.before.ended ≡ false) × (both.after.ended ≡ false)) }
        ensures told_before { IfOk result (λ both. (zone : Zone)
            → AreTallies zone (length before.now.contacts) [] both.told_before) }
        ensures told_after { IfOk result (λ both. (zone : Zone)
            → AreTallies zone (length after.now.contacts) [] both.told_after) }
    {
        Ok(Comparison {
            form: Form { alloc, form },
            before: Side::new(alloc, before, zone)?,
            after: Side::new(alloc, after, zone)?,
            clock: ZoneClock::new(zone),
            told_before: Tallies::new(alloc, before.contacts.len())?,
            told_after: Tallies::new(alloc, after.contacts.len())?,
        })
    }

    /// Takes what a line of the feed gives by each configuration, and adds what that changes to a text. After `Err`, which is want
    /// of memory, it isn't to be used.
    pub(crate) fn take(&mut self, pair: PairedLine, text: &mut Vec<u8>) -> Result<(), CommandFault>
        requires first { IfOk pair.first (IsProper self.old.before.config.now) }
        requires second { IfOk pair.second (IsProper self.old.after.config.now) }
        requires fits_before { (past : List Event) × Fits (core_kept self.old.before.decider) past }
        requires fits_after { (past : List Event) × Fits (core_kept self.old.after.decider) past }
        ensures form { self.new.form ≡ self.old.form }
        ensures configs { (self.new.before.config.now ≡ self.old.before.config.now)
            × (self.new.after.config.now ≡ self.old.after.config.now) }
        ensures zones { (self.new.clock ≡ self.old.clock)
            × (self.new.before.zone.now ≡ self.old.before.zone.now)
            × (self.new.after.zone.now ≡ self.old.after.zone.now) }
        ensures fits_before { OnOk result ((past : List Event)
            → Fits (core_kept self.old.before.decider) past
            → Fits (core_kept self.new.before.decider) (past_on past pair.first)) }
        ensures fits_after { OnOk result ((past : List Event)
            → Fits (core_kept self.old.after.decider) past
            → Fits (core_kept self.new.after.decider) (past_on past pair.second)) }
        ensures ended_before { OnOk result ((past : List Event)
            → Fits (core_kept self.old.before.decider) past
            → self.new.before.ended ≡ (self.old.before.ended || is_ended past pair.first)) }
        ensures ended_after { OnOk result ((past : List Event)
            → Fits (core_kept self.old.after.decider) past
            → self.new.after.ended ≡ (self.old.after.ended || is_ended past pair.second)) }
        ensures told_before { OnOk result ((past : List Event) (marks : List Mark)
            → Fits (core_kept self.old.before.decider) past
            → AreTallies self.old.clock (length self.old.before.config.now.contacts) marks
            self.old.told_before
            → AreTallies self.old.clock (length self.old.before.config.now.contacts)
            (marks_on_line self.old.before.config.now self.old.before.zone.now past marks pair.first)
            self.new.told_before) }
        ensures told_after { OnOk result ((past : List Event) (marks : List Mark)
            → Fits (core_kept self.old.after.decider) past
            → AreTallies self.old.clock (length self.old.after.config.now.contacts) marks
            self.old.told_after
            → AreTallies self.old.clock (length self.old.after.config.now.contacts)
            (marks_on_line self.old.after.config.now self.old.after.zone.now past marks pair.second)
            self.new.told_after) }
        ensures text { OnOk result ((past past' : List Event)
            → Fits (core_kept self.old.before.decider) past
            → Fits (core_kept self.old.after.decider) past'
            → text.new.items ≡ text.old.items ++ changes_of self.old.form.form
            self.old.before.config.now self.old.after.config.now self.old.clock
            (given_notices self.old.before.config.now self.old.before.zone.now past pair.first)
            (given_notices self.old.after.config.now self.old.after.zone.now past' pair.second)) }
        ensures fault { IfErr result (λ fault. fault ≡ NoMemory) }
    {
        move_clock(&mut self.clock, self.before.config, pair.first);
        self.before.take(pair.first)?;
        self.after.take(pair.second)?;
        let first = event_of(pair.first);
        let second = event_of(pair.second);
        count(&mut self.told_before, &self.clock, first, &self.before)?;
        count(&mut self.told_after, &self.clock, second, &self.after)?;
        let form = self.form;
        let before = &self.before;
        let after = &self.after;
        let given = Given {
            a: before.config,
            b: after.config,
            before: before.notices.as_slice(),
            after: after.notices.as_slice(),
        };
        push_changes(form, text, &self.clock, given)?;
        Ok(())
    }

    /// How the reading ended, where the feed did for this reason.
    pub(crate) fn ending(&self, stop: Option<Stop>) -> Ending
        ensures { result ≡ (if (self.now.before.ended || self.now.after.ended) || is_cut stop
            then Short else Whole) }
    {
        if self.before.ended || self.after.ended || is_cut(stop) {
            Ending::Short
        } else {
            Ending::Whole
        }
    }

    /// Adds the table of the contacts. A refused growth is the only error.
    pub(crate) fn push_table(&self, text: &mut Vec<u8>) -> Result<(), AllocError>
        ensures { OnOk result ((marks others : List Mark)
            → AreTallies self.now.clock (length self.now.before.config.now.contacts) marks
            self.now.told_before
            → AreTallies self.now.clock (length self.now.after.config.now.contacts) others
            self.now.told_after
            → text.new.items ≡ text.old.items ++ table_of self.now.form.form
            self.now.before.config.now self.now.after.config.now self.now.clock marks others) }
    {
        let before = ToldBy {
            contacts: self.before.config.contacts.as_slice(),
            tallies: self.told_before.contacts(),
        };
        let after = ToldBy {
            contacts: self.after.config.contacts.as_slice(),
            tallies: self.told_after.contacts(),
        };
        push_table(self.form.form, text, before, after)
    }
}

/// Tells a clock the moment of an event, if there is one.
fn move_clock(clock: &mut ZoneClock<'_>, _config: &Config, given: Result<Event, FeedFault>)
    requires { IfOk given (IsProper _config.now) }
    ensures { clock.new ≡ clock.old }
{
    if let Ok(event) = given {
        clock.move_to(event.moment);
    }
}

/// Counts the notices of a line of the feed. A refused growth is the only error.
fn count(
    told: &mut Tallies,
    clock: &ZoneClock<'_>,
    event: Option<Event>,
    side: &Side<'_>,
) -> Result<(), AllocError>
    ensures { OnOk result ((count : ℕ) (past : List Mark)
        → AreTallies clock.now count past told.old
        → AreTallies clock.now count (marks_after past side.now.notices.items event) told.new) }
{
    told.count(clock, event, side.notices.as_slice())
}

/// The event of a line that isn't refused.
fn event_of(given: Result<Event, FeedFault>) -> Option<Event>
    ensures { result ≡ event_of given }
{
    match given {
        Ok(event) => Some(event),
        Err(_) => None,
    }
}

/// Whether a feed ended before its input.
fn is_cut(stop: Option<Stop>) -> bool
    ensures { result ≡ is_cut stop }
{
    !matches!(stop, Some(Stop::InputEnded))
}
