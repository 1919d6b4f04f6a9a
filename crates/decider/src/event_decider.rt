//! The core of a decider: it decides the events one by one, and gives the entries of each in order.

ghost use Rattle.std.specs.Prelude.{◌≡◌, ◌↔◌, ◌+◌, ◌<◌, ◌≤◌, []};
ghost use Rattle.std.specs.Prelude.{◌∷◌, List, length, replicate, OnOk, OnErr, IfOk, IsErrOf};
ghost use Rattle.due_model.specs.declared.event.Event.{Event};
ghost use Rattle.due_model.specs.claims.Accepted.{IsAccepted};
ghost use Rattle.due_model.specs.claims.Limits.{max_events};
ghost use Rattle.due_model.specs.claims.Proper.{IsProper};
ghost use Rattle.problem_count.specs.claims.Book.{new_book};
ghost use Rattle.problem_count.specs.Fits.{FitsNothing};

use crate::reading::{EventContext, Reading};
use crate::ready::{mark, new_index, take_judged};
use crate::share::Share;
use crate::staging::{Staged, settle, stage_event};
use crate::statuses::Statuses;
use dependency::search::Search;
use due_model::config::Config;
use due_model::event::Event;
use due_model::limits::MAX_EVENTS;
use due_model::zone::Zone;
use due_times::Index;
use messages::entries::Entry;
use outcomes::rules::Rules;
use problem_count::Book;
use problem_count::laws::fit_on;
use std::alloc::{AllocError, Global};
use std::mem::swap;
use thiserror::Error;
use time_period::compile::compile_all;
use time_period::compiled::Compiled;
use zone_times::clock::ZoneClock;

/// Why an event isn't decided. Both change nothing.
#[derive(Clone, Copy, Debug, PartialEq, Eq, Error)]
pub enum DecideFault {
    /// A growth of memory was refused. The same event can be decided again.
    #[error("NoMemory")]
    NoMemory,
    /// The event would be one more than the most that a feed may have: its number would be 2^32.
    #[error("Ended")]
    Ended,
}

/// Decides the events one by one, for the objects of its share, and gives the entries of each. It takes in
/// the hard states, downtimes and flapping of all objects.
#[derive(Drop)]
pub struct EventDecider<'a> {
    alloc: Global,
    config: &'a Config,
    /// The clock of the zone, which remembers its offset at the moment of the event under way.
    zone: ZoneClock<'a>,
    share: Share,
    /// The periods of the configuration as they are worked out, in the order of their numbers.
    periods: Vec<Compiled>,
    /// The search through the dependencies of the configuration.
    dependencies: Search,
    /// How many events were decided.
    count: u64,
    /// The greatest stamp so far.
    moment: u64,
    /// The program switch.
    program: bool,
    /// The status of each object, in the share or not.
    statuses: Statuses,
    /// The book of each object; those of objects outside the share are never read.
    books: Vec<Book>,
    /// When each object of the share is next due: what its book says.
    index: Index,
    /// The entries of the last event decided.
    entries: Vec<Entry>,
    /// What is decided of the event under way, kept for its room.
    staged: Staged,
}

impl<'a> EventDecider<'a> {
    ghost use Rattle.messages.specs.claims.Entries.{event_entries};
    ghost use Rattle.decider.specs.Books.{share_books};
    ghost use Rattle.decider.specs.Entries.{share_entries};
    ghost use Rattle.decider.specs.claims.Fits.{Fits, core_kept};
    ghost use Rattle.decider.specs.Fits.{HasDecidedNothing, context_of};
    ghost use Rattle.decider.specs.Fits.{last_entries};
    ghost use Rattle.decider.specs.claims.Fits.{settings};
    ghost use Rattle.decider.specs.Fits.{kept_after};
    ghost use Rattle.decider.specs.claims.Ready.{judged};
    ghost use Rattle.decider.specs.Ready.{HasRoom, IsIndexAfter};
    ghost use Rattle.decider.specs.claims.Share.{IsShare};

    /// A decider of the objects of this share, which has decided no event. It works out the periods of the
    /// configuration. A refused growth is the only error.
    pub fn new(
        alloc: Global,
        config: &'a Config,
        zone: &'a Zone,
        share: Share,
    ) -> Result<EventDecider<'a>, AllocError>
        requires accepted { IsAccepted config.now }
        requires share { IsShare share }
        ensures decided { IfOk result (λ decider.
            HasDecidedNothing config.now zone.now share (core_kept decider)) }
        ensures entries { IfOk result (λ decider. last_entries decider ≡ []) }
    {
        let count = config.objects.len();
        Ok(EventDecider {
            alloc,
            config,
            zone: ZoneClock::new(zone),
            share,
            periods: compile_all(alloc, config)?,
            dependencies: Search::new(alloc, config)?,
            count: 0,
            moment: 0,
            program: true,
            statuses: Statuses::new(alloc, count)?,
            books: new_books(alloc, count)?,
            index: new_index(alloc, count)?,
            entries: Vec::new(alloc),
            staged: Staged::new(alloc),
        })
    }

    /// Decides one event for the objects of the share. After `Ok`, `entries` gives its entries.
    /// `NoMemory` and `Ended` change nothing.
    pub fn decide(&mut self, event: Event) -> Result<(), DecideFault>
        requires proper { IsProper (core_kept self.old).config event }
        requires fits { (past : List Event) × Fits (core_kept self.old) past }
        // It fits the past with the event.
        ensures fits { OnOk result ((past : List Event)
            → Fits (core_kept self.old) past → Fits (core_kept self.new) (event ∷ past)) }
        // Its entries are those of its share; where it decides alone, of all objects.
        ensures entries { OnOk result ((past : List Event) → Fits (core_kept self.old) past
            → last_entries self.new ≡ share_entries (core_kept self.old).config
            (core_kept self.old).zone (core_kept self.old).share event past) }
        ensures all { OnOk result ((past : List Event)
            → Fits (core_kept self.old) past → (core_kept self.old).share.deciders ≡ 1
            → last_entries self.new
            ≡ event_entries (core_kept self.old).config (core_kept self.old).zone event past) }
        // The clock judges the problems of its share that are ready; another event judges none.
        ensures examined { OnOk result ((past : List Event) → Fits (core_kept self.old) past
            → (core_kept self.new).index.examined ≡ (core_kept self.old).index.examined
            + judged (core_kept self.old).config (core_kept self.old).zone
            (core_kept self.old).share event past) }
        ensures settings { settings (core_kept self.new) ≡ settings (core_kept self.old) }
        ensures err { OnErr result ((core_kept self.new ≡ core_kept self.old)
            × (last_entries self.new ≡ last_entries self.old)) }
        // It ends at event number 2^32, and only there.
        ensures ended { (past : List Event) → Fits (core_kept self.old) past
            → IsErrOf result DecideFault.Ended ↔ (length past ≡ max_events) }
    {
        fit_on();
        self.stage(event)?;
        self.commit(event);
        Ok(())
    }

    /// The entries of the last event decided, by object, then contact, then lane; none before the first.
    pub fn entries(&self) -> &[Entry]
        ensures { result.now ≡ last_entries self.now }
    {
        self.entries.as_slice()
    }

    /// How many events it has decided.
    pub(crate) fn decided(&self) -> u64
        ensures { result ≡ (core_kept self.now).count }
    {
        self.count
    }

    /// How many problems it has judged at the clock's events.
    pub(crate) fn examined(&self) -> u64
        ensures { result ≡ (core_kept self.now).index.examined }
    {
        self.index.examined()
    }

    /// What an event says, and what it makes of the moment and the switch.
    fn context(&self, event: Event) -> EventContext
        ensures { result ≡ context_of (core_kept self.now) event }
    {
        EventContext {
            number: self.count,
            kind: event.kind,
            moment: self.moment.max(event.moment),
            program: event.kind.switch_after(self.program),
        }
    }

    /// Decides an event, and stages what that gives. Nothing that counts is changed.
    pub(crate) fn stage(&mut self, event: Event) -> Result<(), DecideFault>
        requires proper { IsProper (core_kept self.old).config event }
        requires fits { (past : List Event) × Fits (core_kept self.old) past }
        ensures kept { core_kept self.new ≡ core_kept self.old }
        ensures entries { last_entries self.new ≡ last_entries self.old }
        ensures books { OnOk result ((past : List Event) → Fits (core_kept self.old) past
            → self.new.staged.books.items ≡ share_books (core_kept self.old).config
            (core_kept self.old).zone (core_kept self.old).share event past) }
        ensures staged { OnOk result ((past : List Event) → Fits (core_kept self.old) past
            → self.new.staged.entries.items ≡ share_entries (core_kept self.old).config
            (core_kept self.old).zone (core_kept self.old).share event past) }
        ensures room { OnOk result
            (HasRoom (core_kept self.new).index self.new.staged.books.items) }
        ensures number { OnOk result (self.old.count < max_events) }
        ensures ended { IsErrOf result DecideFault.Ended ↔ (max_events ≤ self.old.count) }
    {
        if self.count >= MAX_EVENTS {
            return Err(DecideFault::Ended);
        }
        let context = self.context(event);
        self.zone.move_to(context.moment);
        let reading = Reading {
            rules: Rules {
                config: self.config,
                zone: &self.zone,
                periods: &self.periods,
            },
            share: self.share,
            context,
            books: &self.books,
            index: &self.index,
        };
        stage_event(
            self.alloc,
            &reading,
            &mut self.dependencies,
            &mut self.statuses,
            &mut self.staged,
        )?;
        Ok(())
    }

    /// The entries that are staged.
    pub(crate) fn staged(&self) -> &[Entry]
        ensures { result.now ≡ self.now.staged.entries.items }
    {
        self.staged.entries.as_slice()
    }

    /// Lets what is staged count.
    pub(crate) fn commit(&mut self, event: Event)
        requires proper { IsProper (core_kept self.old).config event }
        requires fits { (past : List Event) × Fits (core_kept self.old) past }
        requires room { HasRoom (core_kept self.old).index self.old.staged.books.items }
        ensures kept { core_kept self.new
            ≡ kept_after (core_kept self.old) event self.old.staged.books.items
            (core_kept self.new).index }
        ensures index { IsIndexAfter event.kind (context_of (core_kept self.old) event).moment
            self.old.staged.books.items (core_kept self.old).index (core_kept self.new).index }
        ensures entries { last_entries self.new ≡ self.old.staged.entries.items }
    {
        swap(&mut self.entries, &mut self.staged.entries);
        self.program = event.kind.switch_after(self.program);
        self.moment = self.moment.max(event.moment);
        self.count += 1;
        self.statuses.count(event.kind);
        settle(&mut self.books, &self.staged.books);
        take_judged(&mut self.index, event.kind, self.moment);
        mark(&mut self.index, &self.staged.books);
    }
}

/// The books of so many objects of which nothing is known yet.
fn new_books(alloc: Global, objects: usize) -> Result<Vec<Book>, AllocError>
    ensures { IfOk result (λ books. books.items ≡ replicate objects new_book) }
{
    vec![in alloc; Book::new(); objects]
}

impl From<AllocError> for DecideFault {
    ghost use Rattle.decider.specs.declared.event_decider.DecideFault.TheVariants.{NoMemory};

    ghost from_gives = { λ _ fault. fault ≡ NoMemory };

    fn from(_error: AllocError) -> DecideFault {
        DecideFault::NoMemory
    }
}
