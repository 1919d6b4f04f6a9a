//! What is due so far and was never sent is given up, and a run goes on from there.

ghost use Rattle.std.specs.Prelude.{◌≡◌, ◌<◌, [], ◌∷◌, length, min, IfOk, List, OnOk, true, false};
ghost use Rattle.std.specs.Arc.{arc_value};
ghost use Rattle.due_feed.specs.Seen.{due_of, past_of, unread};
ghost use Rattle.event_feed.specs.claims.Feed.{Answer, AreGivenBy};
ghost use Rattle.due_model.specs.claims.Accepted.{IsAccepted};
ghost use Rattle.due_model.specs.declared.config.LaneId.{LaneId};
ghost use Rattle.journaled.specs.Claims.{IsHeld};
ghost use Rattle.earlier_runs.specs.FromNow.{AreBegun, GivesUpAll, HasGivenUp, WritesAt};
ghost use Rattle.earlier_runs.specs.State.{IsState};
ghost use Rattle.journal_folder.specs.declared.lane_past.LanePast.{LanePast};

use crate::journals::Journals;
use crate::left::LaneState;
use crate::state::lane_state;
use due_feed::{LookFault, Looker, look_through};
use due_model::config::{Config, LaneId};
use due_model::notice::Notice;
use due_model::zone::Zone;
use journal_folder::{FolderFault, LanePast};
use journal_text::entry::Entry;
use journaled::{Claim, Journal, Past};
use std::alloc::{AllocError, Global};
use std::sync::Arc;
use text_lines::Input;

/// Who looks only how many there are.
#[derive(Drop)]
struct Counting;

impl Looker for Counting {
    ghost use Rattle.std.specs.Prelude.{⊤};

    ghost saw = { λ _ _ _. ⊤ };

    ghost stays = { λ _. tt };

    ghost follows = { λ _ _ _ _ _ _ _. tt };

    ghost stops = { λ _ _ _. ⊤ };

    fn see(&mut self, _notice: &Notice) -> Result<(), LookFault> {
        Ok(())
    }
}

/// Who gives up what was never sent.
#[derive(Drop)]
struct GivingUp<J: Journal> {
    states: Vec<LaneState>,
    /// The first event that it leaves.
    from: u64,
    /// The new journal of each lane.
    journals: Vec<J>,
    /// The lane whose journal couldn't be written.
    failed: Option<LaneId>,
}

/// Writes an entry to the journal at a place, if there is one. False: it isn't written.
fn write_at<J: Journal>(journals: &mut Vec<J>, place: usize, entry: Entry) -> bool
    ensures { result ≡ true → WritesAt J.wrote journals.old.items place (entry ∷ []) journals.new.items }
{
    if place < journals.len() {
        journals[place].write(entry)
    } else {
        true
    }
}

/// Whether a letter was sent just as it is, or is of an event before those that count.
fn is_held(past: &Past, notice: &Notice) -> bool
    ensures yes { result ≡ true → IsHeld past.now notice.now }
    ensures no { result ≡ false → IsHeld past.now notice.now → ⊥ }
{
    match past.find(notice) {
        Claim::Held => true,
        Claim::New => false,
        Claim::Differs => false,
    }
}

impl<J: Journal> Looker for GivingUp<J> {
    ghost use Rattle.std.specs.Prelude.{⊤};
    ghost use Rattle.earlier_runs.specs.FromNow.{HasGivenUp};
    ghost use Rattle.earlier_runs.specs.FromNowLaws.{given_up_more, given_up_none};

    ghost saw = { λ a notices b. HasGivenUp J.wrote a.states.items a.from a.journals.items notices
        b.states.items b.from b.journals.items };

    ghost stays = { λ s. given_up_none J.wrote J.stays s.states.items s.from s.journals.items };

    ghost follows = { λ a b c one two. given_up_more J.wrote J.follows a.states.items b.states.items c.states.items
        a.from b.from c.from a.journals.items b.journals.items c.journals.items one two };

    ghost stops = { λ _ _ _. ⊤ };

    fn see(&mut self, notice: &Notice) -> Result<(), LookFault> {
        if self.from <= notice.event {
            return Ok(());
        }
        let place = usize::from(notice.lane.0);
        let Some(state) = self.states.get(place) else {
            return Ok(());
        };
        if is_held(&state.past, notice) {
            return Ok(());
        }
        if write_at(&mut self.journals, place, Entry::GivenUp(*notice)) {
            return Ok(());
        }
        self.failed = Some(notice.lane);
        Err(LookFault::Stopped)
    }
}

/// How many events a feed has as far as it goes now.
pub fn events_of<R: Input + Drop>(
    alloc: Global,
    config: &Config,
    zone: &Zone,
    feed: R,
) -> Result<u64, AllocError>
    requires accepted { IsAccepted config.now }
    ensures count { IfOk result (λ count. (given : List Answer)
        × AreGivenBy R.can_fail config.now.objects (unread (R.remaining feed)) given
        × (count ≡ length (past_of given))) }
{
    match look_through(alloc, config, zone, feed, &mut Counting) {
        Ok(count) => Ok(count),
        Err(_) => Err(AllocError),
    }
}

/// Begins a new journal of each lane, from this event on, in which all is given up that the events of the feed before it make due, and that
/// no journal says was sent. These then take the place of the lanes' journals.
pub fn give_up_all<J: Journal, F: Journals<J>, R: Input + Drop>(
    alloc: Global,
    journals: &F,
    config: &Arc<Config, Global>,
    zone: &Zone,
    from: u64,
    feed: R,
) -> Result<(), FolderFault>
    requires accepted { IsAccepted (arc_value config.now) }
    ensures { OnOk result ((given : List Answer)
        × AreGivenBy R.can_fail (arc_value config.now).objects (unread (R.remaining feed)) given
        × GivesUpAll F.knows F.begins F.replaced J.wrote journals.now (arc_value config.now) from
        (due_of (arc_value config.now) zone.now (past_of given))) }
{
    let (states, begun) = begin_all::<J, F>(alloc, journals, config, from)?;
    give_up_due(alloc, config, zone, states, begun, from, feed)?;
    finish_all::<J, F>(journals, config)?;
    Ok(())
}

/// What the journals say of each lane, as far as they say something, and a new one for each.
fn begin_all<J: Journal, F: Journals<J>>(
    alloc: Global,
    journals: &F,
    config: &Arc<Config, Global>,
    from: u64,
) -> Result<(Vec<LaneState>, Vec<J>), FolderFault>
    ensures { IfOk result (λ found. AreBegun F.knows F.begins journals.now (arc_value config.now) from
        (min (length (arc_value config.now).lanes) 256) found.0.items found.1.items) }
{
    let mut states = Vec::new(alloc);
    let mut begun = Vec::new(alloc);
    let lanes = config.lanes.len().min(256);
    for number in 0..lanes {
        let lane = LaneId(number as u8);
        states.push(known_state::<J, F>(alloc, journals, config, lane)?)?;
        begun.push(journals.begin_anew(config, lane, from)?)?;
    }
    Ok((states, begun))
}

/// What the journals of a lane say, as far as they say something. A refused growth is the only error.
fn known_state<J: Journal, F: Journals<J>>(
    alloc: Global,
    journals: &F,
    config: &Config,
    lane: LaneId,
) -> Result<LaneState, AllocError>
    ensures { IfOk result (λ state. (read : LanePast) × F.knows journals.now config.now lane read
        × IsState read.from read.settled.items read.begun.items state) }
{
    let read = journals.read_known(config, lane)?;
    let LanePast {
        from,
        settled,
        begun,
    } = read;
    let state = lane_state(alloc, from, settled, begun)?;
    Ok(state)
}

/// Gives up in these journals what the feed makes due by the events before this one, and that wasn't sent.
fn give_up_due<J: Journal, R: Input + Drop>(
    alloc: Global,
    config: &Config,
    zone: &Zone,
    states: Vec<LaneState>,
    begun: Vec<J>,
    from: u64,
    feed: R,
) -> Result<Vec<J>, FolderFault>
    requires accepted { IsAccepted config.now }
    ensures { IfOk result (λ after. (given : List Answer)
        × AreGivenBy R.can_fail config.now.objects (unread (R.remaining feed)) given
        × HasGivenUp J.wrote states.items from begun.items
        (due_of config.now zone.now (past_of given)) states.items from after.items) }
{
    let mut giving = GivingUp {
        states,
        from,
        journals: begun,
        failed: None,
    };
    match look_through(alloc, config, zone, feed, &mut giving) {
        Ok(_count) => Ok(giving.journals),
        Err(LookFault::NoMemory) => Err(FolderFault::NoMemory),
        Err(LookFault::Stopped) => {
            let lane = giving.failed.unwrap_or(LaneId(0));
            Err(FolderFault::NotWritten(lane, 0))
        }
    }
}

/// Puts the new journals in the place of the lanes' journals.
fn finish_all<J: Journal, F: Journals<J>>(journals: &F, config: &Config) -> Result<(), FolderFault>
    ensures { OnOk result ((lane : LaneId) → lane.0 < min (length config.now.lanes) 256
        → F.replaced journals.now config.now lane) }
{
    let lanes = config.lanes.len().min(256);
    for number in 0..lanes {
        journals.finish_anew(config, LaneId(number as u8))?;
    }
    Ok(())
}
