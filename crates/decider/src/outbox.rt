//! The notices of one decider that wait for the queues of their lanes.

use due_model::config::LaneId;
use due_model::notice::Notice;
use messages::entries::{Entry, notices_for};
use std::alloc::{AllocError, Global};
use std::collections::VecDeque;

/// The notices of one decider that wait for the queues of their lanes: a list for each lane.
#[derive(Drop)]
pub struct Outbox {
    /// Those for each lane, the oldest first.
    pub(crate) lanes: Vec<VecDeque<Notice>>,
}

impl Outbox {
    ghost use Rattle.std.specs.Prelude.{◌≡◌, ◌≢◌, ℕ, ◌<◌, ◌≤◌, ◌+◌, ◌++◌};
    ghost use Rattle.std.specs.Prelude.{[], ◌∷◌, drop, length, replicate, slice_get, slice_set};
    ghost use Rattle.std.specs.Prelude.{IfOk};
    ghost use Rattle.std.specs.Prelude.{OnOk};
    ghost use Rattle.messages.specs.Entries.{notices_on};
    ghost use Rattle.decider.specs.claims.Outbox.{lists, waiting_at};
    ghost use Rattle.decider.specs.Outbox.{spare_at, count_for, HasRoomFor};

    /// An outbox for so many lanes, in which nothing waits.
    pub fn new(alloc: Global, lanes: usize) -> Result<Outbox, AllocError>
        ensures { IfOk result (λ outbox. lists outbox ≡ replicate lanes []) }
    {
        let mut made = Vec::with_capacity(alloc, lanes)?;
        for _lane in 0..lanes {
            made.push(VecDeque::new(alloc))?;
        }
        Ok(Outbox { lanes: made })
    }

    /// How many lanes there are.
    pub fn len(&self) -> usize
        ensures { result ≡ length (lists self.now) }
    {
        self.lanes.as_slice().len()
    }

    /// How many notices wait for this lane.
    pub fn waiting(&self, lane: LaneId) -> usize
        requires { lane.0 < length (lists self.now) }
        ensures { result ≡ length (waiting_at self.now lane.0) }
    {
        self.lanes[lane.0 as usize].len()
    }

    /// The notice at a place among those that wait for this lane, the one that has waited longest at 0.
    /// It takes no memory.
    pub fn get(&self, lane: LaneId, place: usize) -> Option<Notice>
        requires { lane.0 < length (lists self.now) }
        ensures { result ≡ slice_get (waiting_at self.now lane.0) place }
    {
        self.lanes[lane.0 as usize].get(place).copied()
    }

    /// The notice that has waited longest for this lane. It takes no memory.
    pub fn front(&self, lane: LaneId) -> Option<Notice>
        requires { lane.0 < length (lists self.now) }
        ensures { result ≡ slice_get (waiting_at self.now lane.0) 0 }
    {
        self.get(lane, 0)
    }

    /// Takes the notice that has waited longest for this lane. It takes no memory.
    pub fn take_front(&mut self, lane: LaneId) -> Option<Notice>
        requires { lane.0 < length (lists self.old) }
        ensures first { result ≡ slice_get (waiting_at self.old lane.0) 0 }
        ensures rest { lists self.new
            ≡ slice_set (lists self.old) lane.0 (drop 1 (waiting_at self.old lane.0)) }
    {
        let queue = &mut self.lanes[lane.0 as usize];
        queue.pop_front()
    }

    /// Makes room in each lane for as many notices as these entries have for it. A refused growth leaves
    /// what waits.
    pub(crate) fn reserve(&mut self, entries: &[Entry]) -> Result<(), AllocError>
        ensures waiting { lists self.new ≡ lists self.old }
        ensures room { OnOk result (HasRoomFor self.new entries.now) }
    {
        for lane in 0..self.lanes.len() {
            self.reserve_lane(lane, entries)?;
        }
        Ok(())
    }

    /// Makes room in one lane for as many notices as these entries have for it.
    fn reserve_lane(&mut self, lane: usize, entries: &[Entry]) -> Result<(), AllocError>
        requires { lane < length (lists self.old) }
        ensures waiting { lists self.new ≡ lists self.old }
        ensures room { OnOk result (count_for lane entries.now ≤ spare_at self.new lane) }
        ensures others { (l : ℕ) → l ≢ lane → spare_at self.new l ≡ spare_at self.old l }
    {
        let more = notices_for(entries, lane);
        let queue = &mut self.lanes[lane];
        queue.reserve(more)
    }

    /// Adds to each lane the notices that these entries have for it, in their order.
    pub(crate) fn deliver(&mut self, entries: &[Entry])
        requires { HasRoomFor self.old entries.now }
        ensures lanes { length (lists self.new) ≡ length (lists self.old) }
        ensures waiting { (l : ℕ) → l < length (lists self.old)
            → waiting_at self.new l ≡ waiting_at self.old l ++ notices_on l entries.now }
    {
        for entry in entries {
            self.deliver_one(entry);
        }
    }

    /// Adds the notice that an entry is, if it is one, to its lane.
    fn deliver_one(&mut self, entry: &Entry)
        requires { HasRoomFor self.old (entry.now ∷ []) }
        ensures lanes { length (lists self.new) ≡ length (lists self.old) }
        ensures spare { (l : ℕ) → l < length (lists self.old)
            → spare_at self.old l ≡ count_for l (entry.now ∷ []) + spare_at self.new l }
        ensures waiting { (l : ℕ) → l < length (lists self.old)
            → waiting_at self.new l ≡ waiting_at self.old l ++ notices_on l (entry.now ∷ []) }
    {
        if let Entry::Sent(notice) = entry {
            let lane = notice.lane.0 as usize;
            if lane < self.len() {
                let queue = &mut self.lanes[lane];
                queue.push_back_reserved(*notice);
            }
        }
    }
}
