//! What the feed makes due, against what the journals say was sent of it.

ghost use Rattle.std.specs.Prelude.{◌≡◌, ◌≤◌, ◌-◌, ◌==◌, ℕ, [], List, map, IfNone, IfOk, IfSome, Some, if◌then◌else◌, length, slice_index_or};
ghost use Rattle.due_feed.specs.Seen.{due_of, past_of, unread};
ghost use Rattle.due_model.specs.claims.Accepted.{IsAccepted};
ghost use Rattle.event_feed.specs.claims.Feed.{Answer, AreGivenBy};
ghost use Rattle.earlier_runs.specs.Compared.{AreLong, IsFirstLeft, IsShort, TellsChange};

use crate::left::LaneState;
use due_feed::{LookFault, Looker, look_through};
use due_model::config::{Config, LaneId};
use due_model::notice::Notice;
use due_model::zone::Zone;
use journaled::Claim;
use std::alloc::{AllocError, Global};
use text_lines::Input;

/// What has changed since letters were sent.
#[derive(Clone, Copy, Debug, PartialEq, Eq)]
pub enum Change {
    /// This is due now, and another was sent in its place, or one that is due after it.
    Differs(Notice),
    /// The feed has fewer events than this, from which on letters of this lane are handed over.
    Short(LaneId, u64),
    /// So many letters of this lane that were sent aren't due any more.
    Gone(LaneId, u64),
}

/// Who compares what is due with what was sent.
#[derive(Drop)]
struct Comparing<'s> {
    states: &'s [LaneState],
    /// How many of each lane that were sent weren't due yet.
    left: Vec<u64>,
    /// The first that wasn't sent just as it is due.
    differs: Option<Notice>,
}

/// One less at this place, if there is one.
fn take_one(left: &mut Vec<u64>, place: usize)
    ensures fewer { (l : ℕ) → slice_index_or left.new.items l 0
        ≡ slice_index_or left.old.items l 0 - (if l == place then 1 else 0) }
    ensures count { length left.new.items ≡ length left.old.items }
{
    if place < left.len() {
        left[place] = left[place].saturating_sub(1);
    }
}

impl Looker for Comparing<'_> {
    ghost use Rattle.earlier_runs.specs.Compared.{HasCompared, StopsAt};
    ghost use Rattle.earlier_runs.specs.ComparedLaws.{compared_more, compared_none};

    ghost saw = { λ a notices b. HasCompared a.states.now a.left.items a.differs notices
        b.states.now b.left.items b.differs };

    ghost stays = { λ s. compared_none s.states.now s.left.items s.differs };

    ghost follows = { λ a b c one two. compared_more a.states.now b.states.now c.states.now
        a.left.items b.left.items c.left.items a.differs b.differs c.differs one two };

    ghost stops = { λ a notice b. StopsAt a.states.now notice b.states.now b.differs };

    fn see(&mut self, notice: &Notice) -> Result<(), LookFault> {
        let Some(state) = self.states.get(usize::from(notice.lane.0)) else {
            return Ok(());
        };
        if notice.event < state.from {
            return Ok(());
        }
        match state.past.find(notice) {
            Claim::New => Ok(()),
            Claim::Held => {
                take_one(&mut self.left, usize::from(notice.lane.0));
                Ok(())
            }
            Claim::Differs => {
                self.differs = Some(*notice);
                Err(LookFault::Stopped)
            }
        }
    }
}

/// What has changed, if something has: what the feed makes due, as far as it goes now, is compared with what was sent.
pub fn change_of<R: Input + Drop>(
    alloc: Global,
    config: &Config,
    zone: &Zone,
    states: &[LaneState],
    feed: R,
) -> Result<Option<Change>, AllocError>
    requires accepted { IsAccepted config.now }
    requires few { length states.now ≤ 256 }
    // It tells of a change exactly where one is.
    ensures change { IfOk result (λ found. (given : List Answer)
        × AreGivenBy R.can_fail config.now.objects (unread (R.remaining feed)) given
        × TellsChange states.now (length (past_of given))
        (due_of config.now zone.now (past_of given)) found) }
{
    let left = sent_of(alloc, states)?;
    let mut comparing = Comparing {
        states,
        left,
        differs: None,
    };
    match look_through(alloc, config, zone, feed, &mut comparing) {
        Ok(count) => match first_short(states, count) {
            Some(short) => Ok(Some(short)),
            None => Ok(first_left(&comparing.left)),
        },
        Err(LookFault::Stopped) => Ok(difference(comparing.differs)),
        Err(LookFault::NoMemory) => Err(AllocError),
    }
}

/// That a notice differs, if there is one.
fn difference(differs: Option<Notice>) -> Option<Change>
    ensures { IfSome differs (λ notice. result ≡ Some (Change.Differs notice)) }
{
    match differs {
        Some(notice) => Some(Change::Differs(notice)),
        None => None,
    }
}

/// The first lane of which letters are handed over from an event on that the feed, of so many events, doesn't come to.
fn first_short(states: &[LaneState], events: u64) -> Option<Change>
    requires few { length states.now ≤ 256 }
    ensures short { IfSome result (IsShort states.now events) }
    ensures long { IfNone result (AreLong states.now events) }
{
    let place = states.iter().position(|state| events < state.from)?;
    Some(Change::Short(LaneId(place as u8), states[place].from))
}

/// How many letters of each lane were sent. A refused growth is the only error.
fn sent_of(alloc: Global, states: &[LaneState]) -> Result<Vec<u64>, AllocError>
    ensures { IfOk result (λ sent. sent.items ≡ map (λ state. state.sent) states.now) }
{
    let mut sent = Vec::with_capacity(alloc, states.len())?;
    for state in states {
        sent.push(state.sent)?;
    }
    Ok(sent)
}

/// The first lane of which something is left.
fn first_left(left: &[u64]) -> Option<Change>
    requires few { length left.now ≤ 256 }
    ensures { IsFirstLeft left.now result }
{
    let place = left.iter().position(|count| *count > 0)?;
    Some(Change::Gone(LaneId(place as u8), left[place]))
}
