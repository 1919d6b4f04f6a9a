//! The tallies of a configuration's contacts.

ghost use Rattle.std.specs.Prelude.{◌≡◌, ◌<◌, ◌≤◌, ◌∷◌, ℕ, List, [], replicate, IfOk, OnOk};
ghost use Rattle.due_model.specs.declared.zone.Zone.{Zone};
ghost use Rattle.due_model.specs.claims.Limits.{last_moment};
ghost use Rattle.contact_tallies.specs.Marks.{Given, Mark, is_night, is_of_problem, marks_after};
ghost use Rattle.contact_tallies.specs.Marks.{recovered, since};
ghost use Rattle.contact_tallies.specs.Tallies.{AreTallies, counted_in, no_tally, silence_in, tallies_of};
ghost use Rattle.contact_tallies.specs.Tallies.{told_by, with_notice};

use crate::heard::{Problems, Told};
use due_model::config::ObjectId;
use due_model::event::{Event, EventKind};
use due_model::limits::LAST_MOMENT;
use due_model::notice::{Kind, Notice};
use due_model::state::State;
use std::alloc::{AllocError, Global};
use zone_times::clock::ZoneClock;

/// Night begins at 22:00, in seconds of the local day.
const NIGHT: u32 = 79_200;

/// It ends at 07:00.
const MORNING: u32 = 25_200;

/// What a contact was told.
#[derive(Clone, Copy, Debug, PartialEq, Eq)]
pub struct Tally {
    pub pages: u64,
    pub at_night: u64,
    /// The longest time between two messages of one problem, in seconds.
    pub silence: u64,
}

/// The tallies of a configuration's contacts, by their numbers.
#[derive(Drop)]
pub struct Tallies {
    contacts: Vec<Tally>,
    problems: Problems,
}

/// Whether it is night by the clock, from 22:00 on and before 07:00.
fn is_night(clock: &ZoneClock<'_>, moment: u64) -> bool
    requires { moment ≤ last_moment }
    ensures { result ≡ is_night clock.now moment }
{
    let second = clock.local_time(moment).second;
    second >= NIGHT || second < MORNING
}

/// Whether messages of this kind are of a problem.
fn is_of_problem(kind: Kind) -> bool
    ensures { result ≡ is_of_problem kind }
{
    matches!(kind, Kind::Problem | Kind::Recovery)
}

/// The object that an event says is UP or OK.
fn recovered(event: Option<Event>) -> Option<ObjectId>
    ensures { result ≡ recovered event }
{
    match event?.kind {
        EventKind::Hard(object, State::Up | State::Fine) => Some(object),
        _ => None,
    }
}

/// How long it is since a moment, if there is one.
fn since(moment: u64, earlier: Option<u64>) -> u64
    ensures { result ≡ since moment earlier }
{
    match earlier {
        Some(earlier) => moment.saturating_sub(earlier),
        None => 0,
    }
}

/// How long the contact of a notice had heard nothing of the problem that it is about.
fn silence_in(problems: &Problems, notice: &Notice) -> u64
    ensures value { result ≡ silence_in problems.now notice.now }
    ensures within { notice.now.object.0 < 65536 }
{
    let last = problems.heard(notice.object, notice.contact);
    if is_of_problem(notice.kind) {
        since(notice.moment, last)
    } else {
        0
    }
}

/// The tally with one notice more.
fn with_notice(tally: Tally, clock: &ZoneClock<'_>, notice: &Notice, silence: u64) -> Tally
    ensures { result ≡ with_notice clock.now notice.now silence tally }
{
    let is_at_night = notice.moment <= LAST_MOMENT && is_night(clock, notice.moment);
    Tally {
        pages: tally.pages.saturating_add(1),
        at_night: tally.at_night.saturating_add(u64::from(is_at_night)),
        silence: tally.silence.max(silence),
    }
}

/// Counts a notice, where its contact is one of so many.
fn add_notice(contacts: &mut Vec<Tally>, clock: &ZoneClock<'_>, notice: &Notice, silence: u64)
    ensures { contacts.new.items
        ≡ counted_in clock.now notice.now silence contacts.old.items }
{
    let place = usize::from(notice.contact.0);
    if place < contacts.len() {
        contacts[place] = with_notice(contacts[place], clock, notice, silence);
    }
}

/// So many tallies of contacts that nobody told anything.
fn nothing(alloc: Global, count: usize) -> Result<Vec<Tally>, AllocError>
    ensures { IfOk result (λ tallies. tallies.items ≡ replicate count no_tally) }
{
    let none = Tally {
        pages: 0,
        at_night: 0,
        silence: 0,
    };
    vec![in alloc; none; count]
}

impl Tallies {
    /// Nobody was told of anything: so many contacts. A refused growth is the only error.
    pub fn new(alloc: Global, count: usize) -> Result<Tallies, AllocError>
        ensures { IfOk result (λ tallies. (zone : Zone) → AreTallies zone count [] tallies) }
    {
        Ok(Tallies {
            contacts: nothing(alloc, count)?,
            problems: Problems::new(alloc)?,
        })
    }

    /// The tallies, by the numbers of the contacts.
    pub fn contacts(&self) -> &[Tally]
        ensures { (zone : Zone) (count : ℕ) (past : List Mark)
            → AreTallies zone count past self.now → result.now ≡ tallies_of zone past count }
    {
        self.contacts.as_slice()
    }

    /// Counts the notices that a line of the feed gives, and ends the problem of which its event says so. A refused growth is the
    /// only error; after it they aren't to be used.
    pub fn count(
        &mut self,
        clock: &ZoneClock<'_>,
        event: Option<Event>,
        notices: &[Notice],
    ) -> Result<(), AllocError>
        ensures { OnOk result ((count : ℕ) (past : List Mark)
            → AreTallies clock.now count past self.old
            → AreTallies clock.now count (marks_after past notices.now event) self.new) }
    {
        for notice in notices {
            self.count_notice(clock, notice)?;
        }
        match recovered(event) {
            Some(object) => {
                self.problems.end(object);
                Ok(())
            }
            None => Ok(()),
        }
    }

    /// Counts a notice.
    fn count_notice(&mut self, clock: &ZoneClock<'_>, notice: &Notice) -> Result<(), AllocError>
        ensures { OnOk result ((count : ℕ) (past : List Mark)
            → AreTallies clock.now count past self.old
            → AreTallies clock.now count (Given notice.now ∷ past) self.new) }
    {
        let silence = silence_in(&self.problems, notice);
        add_notice(&mut self.contacts, clock, notice, silence);
        tell(&mut self.problems, notice)
    }
}

/// The contact of a notice is told of the problem that it is about.
fn tell(problems: &mut Problems, notice: &Notice) -> Result<(), AllocError>
    ensures { OnOk result (problems.new ≡ told_by problems.old notice.now) }
{
    if !is_of_problem(notice.kind) {
        return Ok(());
    }
    let told = Told {
        contact: notice.contact,
        moment: notice.moment,
    };
    problems.tell(notice.object, told)
}
