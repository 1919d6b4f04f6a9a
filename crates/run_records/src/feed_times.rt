//! When the lines of a feed came.

use std::sync::atomic::{AtomicU64, Ordering};
use std::time::{Clock, Duration};

/// When something was last, in full seconds of the machine's monotonic time.
#[derive(Drop)]
struct LastTime {
    /// One more than that; 0 where it never was.
    seconds: AtomicU64,
}

impl LastTime {
    /// It never was.
    fn new() -> LastTime {
        LastTime {
            seconds: AtomicU64::new(0),
        }
    }

    /// It is now.
    fn set(&self, now: u64) {
        self.seconds.store(now.saturating_add(1), Ordering::SeqCst);
    }

    /// How many seconds ago it was, if it was.
    fn age(&self, now: u64) -> Option<u64> {
        match self.seconds.load(Ordering::SeqCst) {
            0 => None,
            seconds => Some(now.saturating_add(1).saturating_sub(seconds)),
        }
    }
}

/// When a line of a feed came last, and when one of its clock.
#[derive(Drop)]
pub struct FeedTimes {
    rt: HostRuntime,
    line: LastTime,
    clock: LastTime,
}

impl FeedTimes {
    /// None came yet.
    pub fn new(rt: &HostRuntime) -> FeedTimes {
        FeedTimes {
            rt: *rt,
            line: LastTime::new(),
            clock: LastTime::new(),
        }
    }

    /// Lines of the feed were read, and whether one of its clock is among them.
    pub(crate) fn see(&self, has_clock: bool) {
        let now = now_of(&self.rt);
        self.line.set(now);
        if has_clock {
            self.clock.set(now);
        }
    }

    /// How many seconds ago a line came last, and one of its clock, if there was one.
    pub(crate) fn ages(&self) -> (Option<u64>, Option<u64>) {
        let now = now_of(&self.rt);
        (self.line.age(now), self.clock.age(now))
    }
}

/// The machine's monotonic time, in full seconds; 0 where it can't be read.
pub(crate) fn now_of(rt: &HostRuntime) -> u64 {
    rt.monotonic().unwrap_or(Duration::ZERO).as_secs()
}
