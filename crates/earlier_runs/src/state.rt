//! What earlier runs left of each lane.

ghost use Rattle.std.specs.Prelude.{◌≡◌, ◌↔◌, [], length, map, true, false, Contains, IfOk, IsTrue, OnOk};
ghost use Rattle.std.specs.Arc.{arc_value};
ghost use Rattle.journal_text.specs.declared.entry.Entry.TheVariants.{GivenUp};
ghost use Rattle.journaled.specs.Runs.{since};
ghost use Rattle.earlier_runs.specs.State.{AddsOnce, AreDoubts, AreEachOnce, AreGivenUp, AreLeft, IsLeft, IsState};

use crate::journals::Journals;
use crate::left::LaneState;
use due_model::config::{Config, LaneId};
use due_model::notice::Notice;
use journal_folder::lane_past::new_among;
use journal_folder::{FolderFault, LanePast};
use journal_text::entry::Entry;
use journaled::{Journal, Past};
use std::alloc::{AllocError, Global};
use std::sync::Arc;

/// What earlier runs left of a lane, of which this was read. A refused growth is the only error.
pub fn lane_state(
    alloc: Global,
    from: u64,
    settled: Vec<Notice>,
    begun: Vec<Notice>,
) -> Result<LaneState, AllocError>
    ensures { IfOk result (IsState from settled.items begun.items) }
{
    let earlier = settled.len() as u64;
    let sent = count_since(from, &settled) as u64;
    Ok(LaneState {
        past: Arc::new(alloc, Past::new(from, settled, begun))?,
        from,
        earlier,
        sent,
    })
}

/// How many notices are of the events from this one on.
fn count_since(from: u64, notices: &[Notice]) -> usize
    ensures { result ≡ length (since from notices.now) }
{
    let found = notices.iter().filter(|notice| from <= notice.event);
    found.count()
}

/// What earlier runs left of each lane, in their order. Where letters in doubt are dropped each is given up in the lane's first journal.
pub fn states_of<J: Journal, F: Journals<J>>(
    alloc: Global,
    journals: &F,
    config: &Arc<Config, Global>,
    drops_doubt: bool,
) -> Result<Vec<LaneState>, FolderFault>
    // Each is what the lane's journals say.
    ensures { IfOk result (λ states. AreLeft F.says F.goes_on J.wrote journals.now (arc_value config.now)
        drops_doubt states.items) }
{
    let mut states = Vec::new(alloc);
    let lanes = config.lanes.len().min(256);
    for number in 0..lanes {
        let state = state_of::<J, F>(alloc, journals, config, LaneId(number as u8), drops_doubt)?;
        states.push(state)?;
    }
    Ok(states)
}

/// What earlier runs left of a lane.
fn state_of<J: Journal, F: Journals<J>>(
    alloc: Global,
    journals: &F,
    config: &Arc<Config, Global>,
    lane: LaneId,
    drops_doubt: bool,
) -> Result<LaneState, FolderFault>
    ensures { IfOk result (IsLeft (F.says journals.now (arc_value config.now) lane)
        (F.goes_on journals.now (arc_value config.now) lane) J.wrote drops_doubt) }
{
    let read = journals.read_lane(config, lane)?;
    let dropped = dropped_of::<J, F>(alloc, journals, config, lane, &read, drops_doubt)?;
    let LanePast {
        from,
        settled,
        begun,
    } = read;
    let mut settled = settled;
    settled.extend_from_slice(&dropped)?;
    Ok(lane_state(alloc, from, settled, begun)?)
}

/// What of a lane is in doubt, where that is dropped: each is given up.
fn dropped_of<J: Journal, F: Journals<J>>(
    alloc: Global,
    journals: &F,
    config: &Arc<Config, Global>,
    lane: LaneId,
    read: &LanePast,
    drops_doubt: bool,
) -> Result<Vec<Notice>, FolderFault>
    ensures none { IfOk result (λ dropped. drops_doubt ≡ false → dropped.items ≡ []) }
    ensures doubts { IfOk result (λ dropped. drops_doubt ≡ true → AreDoubts read.now dropped.items) }
    ensures given_up { IfOk result (λ dropped.
        AreGivenUp (F.goes_on journals.now (arc_value config.now) lane) J.wrote dropped.items) }
{
    if !drops_doubt {
        return Ok(Vec::new(alloc));
    }
    let doubts = doubts_of(alloc, read)?;
    if doubts.is_empty() {
        return Ok(doubts);
    }
    let mut journal = journals.first_journal(config, lane, read.from)?;
    if !give_up_each(&mut journal, &doubts) {
        return Err(FolderFault::NotWritten(lane, 0));
    }
    Ok(doubts)
}

/// Writes down that each of these was given up. False: one wasn't written.
fn give_up_each<J: Journal>(journal: &mut J, notices: &[Notice]) -> bool
    ensures { result ≡ true → J.wrote journal.old (map GivenUp notices.now) journal.new }
{
    for notice in notices {
        if !journal.write(Entry::GivenUp(*notice)) {
            return false;
        }
    }
    true
}

/// What is in doubt by what was read of a lane, each once. A refused growth is the only error.
fn doubts_of(alloc: Global, read: &LanePast) -> Result<Vec<Notice>, AllocError>
    ensures { IfOk result (λ doubts. AreDoubts read.now doubts.items) }
{
    let past = Past::new(
        read.from,
        Vec::from_slice(alloc, &read.settled)?,
        Vec::from_slice(alloc, &read.begun)?,
    );
    let among = new_among(alloc, &past, &read.begun)?;
    let doubts = each_once(alloc, &among)?;
    Ok(doubts)
}

/// Each of some notices once, as it stands first. A refused growth is the only error.
fn each_once(alloc: Global, notices: &[Notice]) -> Result<Vec<Notice>, AllocError>
    ensures { IfOk result (λ found. AreEachOnce notices.now found.items) }
{
    let mut found: Vec<Notice> = Vec::new(alloc);
    for notice in notices {
        push_once(&mut found, notice)?;
    }
    Ok(found)
}

/// Adds a notice, unless it is there. A refused growth is the only error.
fn push_once(found: &mut Vec<Notice>, notice: &Notice) -> Result<(), AllocError>
    ensures { OnOk result (AddsOnce found.old.items notice.now found.new.items) }
{
    if holds(found, notice) {
        return Ok(());
    }
    found.push(*notice)?;
    Ok(())
}

/// Whether it is one of these.
fn holds(notices: &[Notice], notice: &Notice) -> bool
    ensures { IsTrue result ↔ Contains notices.now notice.now }
{
    notices.contains(notice)
}
