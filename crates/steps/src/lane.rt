//! A lane: its queue, the message in hand, and what its channels have taken or not. One channel serves, and others stand by.

ghost use Rattle.std.specs.Prelude.{◌≡◌, map, IfOk};
ghost use Rattle.steps.specs.claims.Lanes.{lane_state, new_lane};

use crate::line::{LineParts, about_in, about_in_hand, about_in_queue, about_in_records};
use crate::step::LaneStep;
use due_model::config::ObjectId;
use due_model::notice::Notice;
use std::alloc::{AllocError, Global};
use std::collections::VecDeque;
use std::mem;

/// What is kept of a lane of the configuration.
#[derive(Drop)]
pub struct KeptLane {
    /// What each channel has taken that was replaced, in order.
    ended: Vec<Vec<Notice>>,
    /// What the channel of now has taken, the oldest first.
    taken: Vec<Notice>,
    /// The message in hand.
    hand: Option<Notice>,
    /// What was given up, the oldest first.
    undelivered: Vec<Notice>,
    /// What waits, the oldest first.
    queue: VecDeque<Notice>,
    /// How often the message in hand wasn't taken.
    failures: u8,
    /// How many channels stand by.
    standbys: u8,
    /// Whether it is asked to close.
    asked: bool,
    /// Whether it is shut.
    shut: bool,
}

impl KeptLane {
    ghost use Rattle.std.specs.Prelude.{◌↔◌, ◌<◌, [], ◌∷◌, length, IsTrue, OnOk, OnErr};
    ghost use Rattle.steps.specs.claims.Lanes.{Can, CanSettle, about, all_taken, closed};
    ghost use Rattle.steps.specs.claims.Lanes.{does, drained, queued, replaced, settled};

    /// A lane with nothing in it and so many channels.
    pub(crate) fn new(alloc: Global, channels: u8) -> Self
        ensures { lane_state result ≡ new_lane channels }
    {
        KeptLane {
            ended: Vec::new(alloc),
            taken: Vec::new(alloc),
            hand: None,
            undelivered: Vec::new(alloc),
            queue: VecDeque::new(alloc),
            failures: 0,
            standbys: channels.saturating_sub(1),
            asked: false,
            shut: channels == 0,
        }
    }

    /// How many notices wait.
    pub fn waiting(&self) -> usize
        ensures { result ≡ length (lane_state self.now).queue }
    {
        self.queue.len()
    }

    /// Whether the step is enabled.
    pub fn can(&self, step: LaneStep, tries: u8) -> bool
        ensures { IsTrue result ↔ Can tries step (lane_state self.now) }
    {
        let all_failed = self.failures == tries;
        match step {
            LaneStep::Pick => {
                !self.shut && !self.asked && self.hand.is_none() && !self.queue.is_empty()
            }
            LaneStep::Settle => !self.shut && self.hand.is_some(),
            LaneStep::Fail => !self.shut && self.hand.is_some() && self.failures < tries,
            LaneStep::Ask => !self.shut && !self.asked,
            LaneStep::Replace => !self.shut && !self.asked && all_failed && self.standbys > 0,
            LaneStep::Close => !self.shut && (self.asked || (all_failed && self.standbys == 0)),
            LaneStep::Drain => self.shut && !self.queue.is_empty(),
        }
    }

    /// The channel of now has taken the message in hand. A refused growth changes nothing.
    fn settle(&mut self) -> Result<(), AllocError>
        requires { CanSettle (lane_state self.old) }
        ensures ok { OnOk result (lane_state self.new ≡ settled (lane_state self.old)) }
        ensures err { OnErr result (lane_state self.new ≡ lane_state self.old) }
    {
        if let Some(notice) = self.hand {
            self.taken.push(notice)?;
        }
        self.hand = None;
        self.failures = 0;
        Ok(())
    }

    /// The record of the channel of now ends, and that of the next begins with the message still in hand. A refused growth
    /// changes nothing.
    fn replace(&mut self) -> Result<(), AllocError>
        requires { 0 < (lane_state self.old).standbys }
        ensures ok { OnOk result (lane_state self.new ≡ replaced (lane_state self.old)) }
        ensures err { OnErr result (lane_state self.new ≡ lane_state self.old) }
    {
        self.ended.reserve(1)?;
        let next = Vec::new(self.taken.allocator().clone()?);
        let _room = self.ended.push(mem::replace(&mut self.taken, next));
        self.failures = 0;
        self.standbys -= 1;
        Ok(())
    }

    /// It is shut, and a message in hand is given up. A refused growth changes nothing.
    fn close(&mut self) -> Result<(), AllocError>
        ensures ok { OnOk result (lane_state self.new ≡ closed (lane_state self.old)) }
        ensures err { OnErr result (lane_state self.new ≡ lane_state self.old) }
    {
        if let Some(notice) = self.hand {
            self.undelivered.push(notice)?;
        }
        self.hand = None;
        self.shut = true;
        Ok(())
    }

    /// The queue's front is given up. A refused growth changes nothing.
    fn drain(&mut self) -> Result<(), AllocError>
        ensures ok { OnOk result (lane_state self.new ≡ drained (lane_state self.old)) }
        ensures err { OnErr result (lane_state self.new ≡ lane_state self.old) }
    {
        if let Some(first) = self.queue.front().copied() {
            self.undelivered.push(first)?;
            self.queue.pop_front();
        }
        Ok(())
    }

    /// Does an enabled step. A refused growth changes nothing.
    pub fn perform(&mut self, step: LaneStep, tries: u8) -> Result<(), AllocError>
        requires { Can tries step (lane_state self.old) }
        ensures ok { OnOk result (lane_state self.new ≡ does step (lane_state self.old)) }
        ensures err { OnErr result (lane_state self.new ≡ lane_state self.old) }
    {
        match step {
            LaneStep::Pick => {
                self.hand = self.queue.pop_front();
                Ok(())
            }
            LaneStep::Settle => self.settle(),
            LaneStep::Fail => {
                self.failures += 1;
                Ok(())
            }
            LaneStep::Ask => {
                self.asked = true;
                Ok(())
            }
            LaneStep::Replace => self.replace(),
            LaneStep::Close => self.close(),
            LaneStep::Drain => self.drain(),
        }
    }

    /// A notice comes to the back of the queue. A refused growth changes nothing.
    pub fn enqueue(&mut self, notice: Notice) -> Result<(), AllocError>
        ensures ok { OnOk result
            (lane_state self.new ≡ queued (notice ∷ []) (lane_state self.old)) }
        ensures err { OnErr result (lane_state self.new ≡ lane_state self.old) }
    {
        self.queue.push_back(notice)?;
        Ok(())
    }

    /// What it holds of an object, but for the outboxes. A refused growth is the only error.
    pub fn about(
        &self,
        alloc: Global,
        object: ObjectId,
        outbox: Vec<Notice>,
    ) -> Result<LineParts, AllocError>
        ensures taken { IfOk result (λ parts.
            parts.taken.items ≡ about object.0 (all_taken (lane_state self.now))) }
        ensures hand { IfOk result (λ parts.
            parts.hand.items ≡ about object.0 (lane_state self.now).hand) }
        ensures undelivered { IfOk result (λ parts.
            parts.undelivered.items ≡ about object.0 (lane_state self.now).undelivered) }
        ensures queue { IfOk result (λ parts.
            parts.queue.items ≡ about object.0 (lane_state self.now).queue) }
        ensures outbox { IfOk result (λ parts. parts.outbox.items ≡ outbox.items) }
    {
        Ok(LineParts {
            taken: about_in_records(alloc, &self.ended, &self.taken, object)?,
            hand: about_in_hand(alloc, self.hand, object)?,
            undelivered: about_in(alloc, &self.undelivered, object)?,
            queue: about_in_queue(alloc, &self.queue, object)?,
            outbox,
        })
    }
}

/// A lane for each of these, with nothing in it and so many channels. A refused growth is the only error.
pub fn new_lanes(alloc: Global, served: &[u8]) -> Result<Vec<KeptLane>, AllocError>
    ensures { IfOk result (λ lanes. map lane_state lanes.items ≡ map new_lane served.now) }
{
    let mut made = Vec::with_capacity(alloc, served.len())?;
    for channels in served {
        made.push(KeptLane::new(alloc, *channels))?;
    }
    Ok(made)
}
