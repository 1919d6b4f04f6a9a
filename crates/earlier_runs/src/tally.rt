//! The line of what a lane's journals come to.

ghost use Rattle.std.specs.Prelude.{◌≡◌, ◌↔◌, ◌∷◌, ◌++◌, [], cond, decimal, filter, Bool, Contains, IfOk, IsTrue, OnOk};
ghost use Rattle.command_output.specs.claims.Fields.{field};
ghost use Rattle.due_model.specs.declared.notice.Notice.{Notice};
ghost use Rattle.earlier_runs.specs.Tally.{IsTally, journal_line};

use due_model::config::{Config, LaneId};
use due_model::notice::Notice;
use itoa::Buffer;
use journal_folder::lane_past::new_among;
use journaled::Past;
use notice_text::texts::lane_name;
use std::alloc::{AllocError, Global};

/// What comes of the letters of a lane.
#[derive(Clone, Copy, Debug)]
pub struct LaneTally {
    /// How many earlier runs have settled.
    pub earlier: u64,
    /// How many of those were due again.
    pub claimed: u64,
    /// How many were handed over now.
    pub new: u64,
    /// How many of these may have gone out before.
    pub again: u64,
}

/// Adds a notice, if it was about to be handed over in an earlier run. A refused growth is the only error.
fn push_begun(found: &mut Vec<Notice>, past: &Past, notice: &Notice) -> Result<(), AllocError>
    ensures { OnOk result ((was_begun : Notice → Bool)
        → ((n : Notice) → IsTrue (was_begun n) ↔ Contains past.now.begun n)
        → found.new.items ≡ found.old.items ++ cond (was_begun notice.now) (notice.now ∷ []) []) }
{
    if past.has_begun(notice) {
        found.push(*notice)?;
    }
    Ok(())
}

/// Which of these were about to be handed over in an earlier run. A refused growth is the only error.
fn begun_among(alloc: Global, past: &Past, notices: &[Notice]) -> Result<Vec<Notice>, AllocError>
    ensures { IfOk result (λ found. (was_begun : Notice → Bool)
        → ((n : Notice) → IsTrue (was_begun n) ↔ Contains past.now.begun n)
        → found.items ≡ filter was_begun notices.now) }
{
    let mut found = Vec::new(alloc);
    for notice in notices {
        push_begun(&mut found, past, notice)?;
    }
    Ok(found)
}

/// What comes of the letters that a lane's channels took. A refused growth is the only error.
pub fn tally_of(
    alloc: Global,
    past: &Past,
    earlier: u64,
    taken: &[Notice],
) -> Result<LaneTally, AllocError>
    ensures tally { IfOk result (IsTally past.now taken.now) }
    ensures earlier { IfOk result (λ tally. tally.earlier ≡ earlier) }
{
    let new = new_among(alloc, past, taken)?;
    let again = begun_among(alloc, past, &new)?;
    Ok(LaneTally {
        earlier,
        claimed: (taken.len() - new.len()) as u64,
        new: new.len() as u64,
        again: again.len() as u64,
    })
}

/// Adds a field.
fn push_field(line: &mut Vec<u8>, word: &[u8]) -> Result<(), AllocError>
    ensures { OnOk result (line.new.items ≡ line.old.items ++ field word.now) }
{
    line.push(b';')?;
    line.extend_from_slice(word)
}

/// Adds a number as a field.
fn push_number(line: &mut Vec<u8>, number: u64) -> Result<(), AllocError>
    ensures { OnOk result (line.new.items ≡ line.old.items ++ field (decimal number)) }
{
    let mut buffer = Buffer::new();
    push_field(line, buffer.format(number).as_bytes())
}

/// Adds the line of a lane.
pub fn push_tally(
    line: &mut Vec<u8>,
    config: &Config,
    lane: LaneId,
    tally: LaneTally,
) -> Result<(), AllocError>
    ensures { OnOk result (line.new.items ≡ line.old.items ++ journal_line config.now lane.0 tally) }
{
    line.push(b'J')?;
    push_field(line, lane_name(config, lane))?;
    push_number(line, tally.earlier)?;
    push_number(line, tally.claimed)?;
    push_number(line, tally.new)?;
    push_number(line, tally.again)?;
    line.push(b'\n')?;
    Ok(())
}
