//! The steps of a world, and why one is refused.

ghost use Rattle.std.specs.Prelude.{◌≡◌};

use due_model::config::LaneId;
use due_model::event::Event;
use std::alloc::AllocError;
use thiserror::Error;

/// One action of one actor. A step that names a decider or a lane that isn't there isn't enabled.
#[derive(Clone, Copy, Debug, PartialEq, Eq)]
pub enum Step {
    /// The intake appends an event to the posted ones. Enabled while fewer than 2^32 are posted.
    Post(Event),
    /// A decider decides its next event. Enabled where it has decided fewer events than are posted.
    Decide(u8),
    /// The front of a decider's outbox for a lane goes to the back of the lane's queue. Enabled where the
    /// outbox isn't empty and the queue isn't full.
    Put(u8, LaneId),
    /// A step of a lane alone. Enabled as its kind says, where the lane is there.
    Lane(LaneId, LaneStep),
}

/// What is done to a lane alone.
#[derive(Clone, Copy, Debug, PartialEq, Eq)]
pub enum LaneStep {
    /// The front of the queue goes into the hand. Enabled where the lane is serving and not asked to close, its
    /// hand is empty and its queue isn't.
    Pick,
    /// The channel that serves takes the message in hand. Enabled where the lane is serving, with a message in hand.
    Settle,
    /// The channel that serves doesn't take the message in hand. Enabled where the lane is serving, with a message in hand
    /// and fewer failures than tries.
    Fail,
    /// The lane is asked to close. Enabled where it is serving and wasn't asked.
    Ask,
    /// The channel that serves is replaced by the next that stands by, and the message stays in hand. Enabled where the
    /// lane is serving and not asked to close, with as many failures as tries and a channel that stands by.
    Replace,
    /// The lane is shut, and a message in hand is given up. Enabled where it is serving, and asked, or with as
    /// many failures as tries and no channel that stands by.
    Close,
    /// The front of the queue is given up. Enabled where the lane is shut and its queue isn't empty.
    Drain,
}

/// Why a step isn't done. Both leave the world unchanged.
#[derive(Clone, Copy, Debug, PartialEq, Eq, Error)]
pub enum StepFault {
    /// The step isn't enabled.
    #[error("NotEnabled")]
    NotEnabled,
    /// A growth of memory was refused. The same step can be done again.
    #[error("NoMemory")]
    NoMemory,
}

/// Where a run of steps stopped, and why. The steps before are done, and that one and those after it aren't.
#[derive(Clone, Copy, Debug, PartialEq, Eq)]
pub struct Stopped {
    /// The place of the refused step, from 0.
    pub step: usize,
    pub fault: StepFault,
}

impl From<AllocError> for StepFault {
    ghost use Rattle.steps.specs.declared.step.StepFault.TheVariants.{NoMemory};

    ghost from_gives = { λ _ fault. fault ≡ NoMemory };

    fn from(_error: AllocError) -> StepFault {
        StepFault::NoMemory
    }
}
