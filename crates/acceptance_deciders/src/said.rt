//! What a decider says of some events.

ghost use Rattle.std.specs.Prelude.{◌≡◌, ◌∷◌, All, List, OnOk, length};
ghost use Rattle.due_model.specs.declared.event.Event.{Event};
ghost use Rattle.due_model.specs.claims.Accepted.{IsAccepted};
ghost use Rattle.due_model.specs.claims.Proper.{IsProper};
ghost use Rattle.decider.specs.claims.Fits.{Fits, kept, settings};
ghost use Rattle.decider.specs.claims.Outbox.{lists};
ghost use Rattle.decider.specs.claims.Share.{IsShare};

use decider::{DecideFault, Decider, Outbox, Share};
use due_model::config::{Config, LaneId, ObjectId};
use due_model::event::Event;
use due_model::notice::{Notice, Suppression};
use due_model::zone::Zone;
use std::alloc::{AllocError, Global};
use std::test::Fail;

/// How many lanes a configuration has.
pub(crate) const LANES: u8 = 2;

/// More notices than wait for a lane.
const MANY: u32 = 100_000;

/// Decides an event, and once more where its growth was refused: then nothing has changed.
fn decide(decider: &mut Decider<'_>, event: Event, outbox: &mut Outbox) -> Result<(), DecideFault>
    requires proper { IsProper (kept decider.old).config event }
    requires fits { (past : List Event) × Fits (kept decider.old) past }
    requires lanes { length (lists outbox.old) ≡ length (kept decider.old).config.lanes }
    ensures fits { OnOk result ((past : List Event)
        → Fits (kept decider.old) past → Fits (kept decider.new) (event ∷ past)) }
    ensures settings { settings (kept decider.new) ≡ settings (kept decider.old) }
    ensures lanes { length (lists outbox.new) ≡ length (lists outbox.old) }
{
    match decider.decide(event, outbox) {
        Err(DecideFault::NoMemory) => decider.decide(event, outbox),
        decided => decided,
    }
}

/// The decider of these objects and its outbox after these events.
fn decided<'a>(
    alloc: Global,
    config: &'a Config,
    zone: &'a Zone,
    events: &[Event],
    share: Share,
) -> Result<(Decider<'a>, Outbox), Fail>
    requires accepted { IsAccepted config.now }
    requires proper { All (IsProper config.now) events.now }
    requires share { IsShare share }
{
    let mut outbox = Outbox::new(alloc, config.lanes.len())?;
    let mut decider = Decider::new(alloc, config, zone, share)?;
    for event in events {
        decide(&mut decider, *event, &mut outbox)?;
    }
    Ok((decider, outbox))
}

/// How many problems the decider of these objects has judged at the clock's events, after these events.
pub(crate) fn examined(
    alloc: Global,
    config: &Config,
    events: &[Event],
    share: Share,
) -> Result<u64, Fail>
    requires accepted { IsAccepted config.now }
    requires proper { All (IsProper config.now) events.now }
    requires share { IsShare share }
{
    let zone = Zone::Utc;
    let (decider, _outbox) = decided(alloc, config, &zone, events, share)?;
    Ok(decider.examined())
}

/// What a decider said of some events: the notices, lane by lane, and the suppressions.
#[derive(Drop)]
pub(crate) struct Said {
    pub(crate) notices: Vec<Notice>,
    pub(crate) suppressions: Vec<Suppression>,
}

impl Said {
    /// What a decider of these objects says, lane by lane.
    pub(crate) fn of(
        alloc: Global,
        config: &Config,
        events: &[Event],
        share: Share,
    ) -> Result<Said, Fail>
        requires accepted { IsAccepted config.now }
        requires proper { All (IsProper config.now) events.now }
        requires share { IsShare share }
    {
        let zone = Zone::Utc;
        let (decider, mut outbox) = decided(alloc, config, &zone, events, share)?;
        Ok(Said::taken(alloc, decider.log(), &mut outbox)?)
    }

    /// What a log and an outbox hold.
    fn taken(alloc: Global, log: &[Suppression], outbox: &mut Outbox) -> Result<Said, AllocError> {
        let suppressions = Vec::from_slice(alloc, log)?;
        let mut notices = Vec::new(alloc);
        for lane in 0..LANES {
            take_lane(outbox, LaneId(lane), &mut notices)?;
        }
        Ok(Said {
            notices,
            suppressions,
        })
    }

    /// The notices of an object on a lane.
    pub(crate) fn notices_of(
        &self,
        alloc: Global,
        object: ObjectId,
        lane: LaneId,
    ) -> Result<Vec<Notice>, AllocError> {
        let mut found = Vec::new(alloc);
        for notice in self.notices.as_slice() {
            if notice.object == object && notice.lane == lane {
                found.push(*notice)?;
            }
        }
        Ok(found)
    }

    /// The suppressions of an object.
    pub(crate) fn suppressions_of(
        &self,
        alloc: Global,
        object: ObjectId,
    ) -> Result<Vec<Suppression>, AllocError> {
        let mut found = Vec::new(alloc);
        for suppression in self.suppressions.as_slice() {
            if suppression.object == object {
                found.push(*suppression)?;
            }
        }
        Ok(found)
    }
}

/// Takes what waits for a lane, if there is such a lane.
fn take_lane(
    outbox: &mut Outbox,
    lane: LaneId,
    notices: &mut Vec<Notice>,
) -> Result<(), AllocError> {
    for _taken in 0..MANY {
        if lane.0 as usize >= outbox.len() {
            return Ok(());
        }
        match outbox.take_front(lane) {
            None => return Ok(()),
            Some(notice) => notices.push(notice)?,
        }
    }
    Ok(())
}
