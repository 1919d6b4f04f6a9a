//! What asks lanes to close while they are served, from any thread, and the bell of each lane that hears it.

ghost use Rattle.std.specs.Prelude.{◌≡◌, ◌<◌, ◌↔◌, IfOk, IsTrue, vec_len};
ghost use Rattle.delivery_worker.specs.Closers.{lanes_of};

use crate::Bell;
use due_model::config::LaneId;
use std::alloc::{AllocError, Global};
use std::sync::atomic::{AtomicBool, Ordering};

/// For each lane, whether it was asked to close. Once it was, it stays so.
#[derive(Drop)]
pub struct Closers {
    asked: Vec<AtomicBool>,
}

impl Closers {
    /// For so many lanes, none of which was asked. A refused growth is the only error.
    pub fn new(alloc: Global, lanes: u8) -> Result<Closers, AllocError>
        ensures { IfOk result (λ closers. lanes_of closers ≡ lanes) }
    {
        let mut asked = Vec::with_capacity(alloc, usize::from(lanes))?;
        for _lane in 0..lanes {
            asked.push(AtomicBool::new(false))?;
        }
        Ok(Closers { asked })
    }

    /// Asks a lane to close. False for a lane that isn't there. It takes no memory, and never waits.
    pub fn ask(&self, lane: LaneId) -> bool
        ensures { IsTrue result ↔ (lane.0 < lanes_of self.now) }
    {
        match self.asked.get(usize::from(lane.0)) {
            Some(asked) => {
                asked.store(true, Ordering::SeqCst);
                true
            }
            None => false,
        }
    }

    /// Whether a lane was asked to close. A lane that isn't there never was.
    fn is_asked(&self, lane: LaneId) -> bool {
        match self.asked.get(usize::from(lane.0)) {
            Some(asked) => asked.load(Ordering::SeqCst),
            None => false,
        }
    }
}

/// The bell of one lane: it is true from the moment on at which the lane was asked to close.
#[derive(Drop)]
pub struct LaneBell<'a> {
    closers: &'a Closers,
    pub(crate) lane: LaneId,
    /// How many true answers there were.
    pub(crate) count: u64,
    /// How often it was asked, up to `u64::MAX`.
    pub(crate) asks: u64,
}

impl<'a> LaneBell<'a> {
    /// A bell that wasn't asked yet.
    pub fn new(closers: &'a Closers, lane: LaneId) -> LaneBell<'a>
        ensures { result.count ≡ 0 }
    {
        LaneBell {
            closers,
            lane,
            count: 0,
            asks: 0,
        }
    }

    /// Whether the lane was asked to close. The bell isn't asked by that, and counts nothing.
    pub(crate) fn is_rung(&self) -> bool {
        self.closers.is_asked(self.lane)
    }
}

impl<'a> Bell for LaneBell<'a> {
    ghost count = { λ b. b.count };

    ghost asks = { λ b. b.asks };

    fn asked(&mut self) -> bool {
        self.asks = self.asks.saturating_add(1);
        if self.count == u64::MAX || !self.closers.is_asked(self.lane) {
            return false;
        }
        self.count += 1;
        true
    }

    fn count(&self) -> u64 {
        self.count
    }
}
