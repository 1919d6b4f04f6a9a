//! Gates that hold workers and deciders back until others have come as far, or that ask a lane to close.

use due_model::config::LaneId;
use due_model::notice::Notice;
use engine::{Closers, Gate};
use std::alloc::{AllocError, Global};
use std::sync::atomic::{AtomicBool, AtomicU64, Ordering};
use std::thread;

/// How many turns one wait may take.
const MOST_TURNS: u64 = 10_000_000;

/// Where callers meet: the kth call of each waits inside the call until the kth of each other was made.
#[derive(Drop)]
pub(crate) struct Meeting {
    calls: Vec<AtomicU64>,
    /// Whether a call waited in vain.
    late: AtomicBool,
}

impl Meeting {
    /// Nobody has called yet, of so many.
    pub(crate) fn new(alloc: Global, callers: usize) -> Result<Meeting, AllocError> {
        let mut calls = Vec::new(alloc);
        for _caller in 0..callers {
            calls.push(AtomicU64::new(0))?;
        }
        Ok(Meeting {
            calls,
            late: AtomicBool::new(false),
        })
    }

    /// Whether no call waited in vain, and each caller has called so often.
    pub(crate) fn went(&self, calls: u64) -> bool {
        for made in &self.calls {
            if made.load(Ordering::SeqCst) != calls {
                return false;
            }
        }
        !self.late.load(Ordering::SeqCst)
    }

    /// A call of this caller.
    fn come(&self, caller: u8) {
        let Some(mine) = self.calls.get(usize::from(caller)) else {
            self.late.store(true, Ordering::SeqCst);
            return;
        };
        let call = mine.fetch_add(1, Ordering::SeqCst).saturating_add(1);
        for other in &self.calls {
            self.wait_for(other, call);
        }
    }

    /// Waits for a call of another. Once one waited in vain none waits any more.
    fn wait_for(&self, other: &AtomicU64, call: u64) {
        for _turn in 0..MOST_TURNS {
            if other.load(Ordering::SeqCst) >= call || self.late.load(Ordering::SeqCst) {
                return;
            }
            thread::yield_now();
        }
        self.late.store(true, Ordering::SeqCst);
    }
}

/// The kth notice of each lane waits for the kth of every other, and the kth turn of each decider for that of every other.
#[derive(Drop)]
pub(crate) struct AllMeet {
    pub(crate) lanes: Meeting,
    pub(crate) deciders: Meeting,
}

impl Gate for AllMeet {
    fn admit(&self, lane: LaneId, _notice: &Notice) -> bool {
        self.lanes.come(lane.0);
        true
    }

    fn turn(&self, decider: u8) {
        self.deciders.come(decider);
    }
}

/// Asks a lane to close while it admits its notice of one event.
#[derive(Drop)]
pub(crate) struct AsksAt {
    pub(crate) closers: Closers,
    pub(crate) lane: LaneId,
    pub(crate) event: u64,
}

impl Gate for AsksAt {
    fn admit(&self, lane: LaneId, notice: &Notice) -> bool {
        if lane == self.lane && notice.event == self.event {
            let _there = self.closers.ask(lane);
        }
        true
    }

    fn turn(&self, _decider: u8) {}
}
