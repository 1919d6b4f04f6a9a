//! The lines of a trace beside those of refused lines: why a step line is refused, and what a lane holds.

ghost use Rattle.std.specs.Prelude.{◌≡◌, ◌++◌, OnOk};
ghost use Rattle.command_output.specs.claims.TraceLine.{lane_line, list_fields, refusal_name};

use crate::fields::{push_lane, push_notices, push_object};
use due_model::config::{Config, LaneId, ObjectId};
use due_model::notice::Notice;
use std::alloc::AllocError;

/// Why a step line does nothing.
#[derive(Clone, Copy, Debug, PartialEq, Eq)]
pub enum StepRefusal {
    /// It says no step of this run.
    BadStep,
    /// Its step isn't enabled.
    NotEnabled,
}

/// What a lane holds of an object, each list with the oldest notice first.
#[derive(Clone, Copy, Debug)]
pub struct LaneLine<'a> {
    pub lane: LaneId,
    pub object: ObjectId,
    /// What the lane's channel has taken.
    pub taken: &'a [Notice],
    /// The message in hand.
    pub hand: &'a [Notice],
    /// What was given up.
    pub undelivered: &'a [Notice],
    /// What waits in the lane's queue.
    pub queue: &'a [Notice],
    /// What waits in the outbox of the object's decider.
    pub outbox: &'a [Notice],
}

impl StepRefusal {
    /// The name, as a trace prints it.
    pub fn name(self) -> &'static str
        ensures { result.now ≡ refusal_name self }
    {
        match self {
            StepRefusal::BadStep => "BadStep",
            StepRefusal::NotEnabled => "NotEnabled",
        }
    }
}

/// Adds the five lists.
#[tactic(auto, unfolding(crate::specs::claims::TraceLine::list_fields))]
fn push_lists(line: &mut Vec<u8>, config: &Config, held: &LaneLine<'_>) -> Result<(), AllocError>
    ensures { OnOk result (line.new.items ≡ line.old.items ++ list_fields config.now
        held.now.taken.now held.now.hand.now held.now.undelivered.now held.now.queue.now
        held.now.outbox.now) }
{
    push_notices(line, config, held.taken)?;
    push_notices(line, config, held.hand)?;
    push_notices(line, config, held.undelivered)?;
    push_notices(line, config, held.queue)?;
    push_notices(line, config, held.outbox)
}

/// Adds the line of what a lane holds of an object.
pub(crate) fn push_held(
    line: &mut Vec<u8>,
    config: &Config,
    held: &LaneLine<'_>,
) -> Result<(), AllocError>
    ensures { OnOk result (line.new.items ≡ line.old.items ++ lane_line config.now held.now) }
{
    line.extend_from_slice(b"L")?;
    push_lane(line, config, held.lane)?;
    push_object(line, config, held.object)?;
    push_lists(line, config, held)?;
    line.extend_from_slice(b"\n")
}
