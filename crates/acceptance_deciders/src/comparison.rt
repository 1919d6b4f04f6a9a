//! One decider against the slow program, and several deciders against one.

ghost use Rattle.std.specs.Prelude.{All, ◌<◌, ◌≤◌, length};
ghost use Rattle.due_model.specs.claims.Accepted.{IsAccepted};
ghost use Rattle.due_model.specs.claims.Limits.{max_deciders};
ghost use Rattle.due_model.specs.claims.Proper.{IsProper};
ghost use Rattle.decider.specs.claims.Share.{IsShare};

use crate::said::{LANES, Said};
use decider::Share;
use due_model::config::{Config, LaneId, ObjectId};
use due_model::event::Event;
use due_model::notice::{Notice, Suppression};
use due_model::zone::Zone;
use slow_rules::slow::{slow_due, slow_sup};
use std::alloc::Global;
use std::process::Abort;
use std::test::Fail;

/// One decider.
const SOLE: Share = Share {
    decider: 0,
    deciders: 1,
};

/// Compares the notices that are said of an object on a lane.
fn has_notices(
    rt: &impl Abort,
    alloc: Global,
    said: &Said,
    object: ObjectId,
    lane: LaneId,
    wanted: &[Notice],
) -> Result<(), Fail> {
    let found = said.notices_of(alloc, object, lane)?;
    assert_eq!(rt; found.as_slice(), wanted, "{object:?} on {lane:?}");
    Ok(())
}

/// Compares the suppressions that are said of an object.
fn has_suppressions(
    rt: &impl Abort,
    alloc: Global,
    said: &Said,
    object: ObjectId,
    wanted: &[Suppression],
) -> Result<(), Fail> {
    let found = said.suppressions_of(alloc, object)?;
    assert_eq!(rt; found.as_slice(), wanted, "{object:?}");
    Ok(())
}

/// Compares what the slow program and one decider say of an object.
fn compare_slow(
    rt: &impl Abort,
    alloc: Global,
    config: &Config,
    events: &[Event],
    object: ObjectId,
    sole: &Said,
) -> Result<(), Fail>
    requires accepted { IsAccepted config.now }
    requires proper { All (IsProper config.now) events.now }
    requires object { object.0 < length config.now.objects }
{
    let zone = Zone::Utc;
    for lane in 0..LANES {
        let lane = LaneId(lane);
        let due = slow_due(alloc, config, &zone, events, object, lane)?;
        has_notices(rt, alloc, sole, object, lane, due.as_slice())?;
    }
    let stopped = slow_sup(alloc, config, &zone, events, object)?;
    has_suppressions(rt, alloc, sole, object, stopped.as_slice())
}

/// Compares what one decider says of an object, and the one of several whose share has it.
fn compare_part(
    rt: &impl Abort,
    alloc: Global,
    object: ObjectId,
    sole: &Said,
    part: &Said,
) -> Result<(), Fail> {
    for lane in 0..LANES {
        let lane = LaneId(lane);
        let all = sole.notices_of(alloc, object, lane)?;
        has_notices(rt, alloc, part, object, lane, all.as_slice())?;
    }
    let all = sole.suppressions_of(alloc, object)?;
    has_suppressions(rt, alloc, part, object, all.as_slice())
}

/// Compares what the slow program and one decider say of each object.
fn compare_slowly(
    rt: &impl Abort,
    alloc: Global,
    config: &Config,
    events: &[Event],
    sole: &Said,
) -> Result<(), Fail>
    requires accepted { IsAccepted config.now }
    requires proper { All (IsProper config.now) events.now }
{
    for number in 0..config.objects.len() {
        let object = ObjectId(number as u16);
        compare_slow(rt, alloc, config, events, object, sole)?;
    }
    Ok(())
}

/// Compares what one decider says of the objects of a share, and what the decider of that share says.
fn compare_share(
    rt: &impl Abort,
    alloc: Global,
    config: &Config,
    share: Share,
    sole: &Said,
    part: &Said,
) -> Result<(), Fail>
    requires accepted { IsAccepted config.now }
    requires share { IsShare share }
{
    for number in 0..config.objects.len() {
        let object = ObjectId(number as u16);
        if share.owns(object) {
            compare_part(rt, alloc, object, sole, part)?;
        }
    }
    Ok(())
}

/// Compares one decider and so many, which say together no more than the one.
fn compare_to(
    rt: &impl Abort,
    alloc: Global,
    config: &Config,
    events: &[Event],
    sole: &Said,
    deciders: u8,
) -> Result<(), Fail>
    requires accepted { IsAccepted config.now }
    requires proper { All (IsProper config.now) events.now }
    requires deciders { deciders ≤ max_deciders }
{
    let mut notices = 0usize;
    let mut suppressions = 0usize;
    for decider in 0..deciders {
        let share = Share { decider, deciders };
        let part = Said::of(alloc, config, events, share)?;
        compare_share(rt, alloc, config, share, sole, &part)?;
        notices = notices.saturating_add(part.notices.len());
        suppressions = suppressions.saturating_add(part.suppressions.len());
    }
    assert_eq!(rt; notices, sole.notices.len());
    assert_eq!(rt; suppressions, sole.suppressions.len());
    Ok(())
}

/// Compares what is said of each object: by the slow program, by one decider, and by the one of two, three and eight
/// whose share has it. Several say together no more than the one.
pub(crate) fn compare(
    rt: &impl Abort,
    alloc: Global,
    config: &Config,
    events: &[Event],
) -> Result<Said, Fail>
    requires accepted { IsAccepted config.now }
    requires proper { All (IsProper config.now) events.now }
{
    let sole = Said::of(alloc, config, events, SOLE)?;
    compare_slowly(rt, alloc, config, events, &sole)?;
    compare_to(rt, alloc, config, events, &sole, 2)?;
    compare_to(rt, alloc, config, events, &sole, 3)?;
    compare_to(rt, alloc, config, events, &sole, 8)?;
    Ok(sole)
}
