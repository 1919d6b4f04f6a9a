//! How long a bell waits between two tries.

use delivery_worker::{Bell, Closers, Gate, LaneBell, PatientBell};
use due_model::config::LaneId;
use due_model::notice::Notice;
use std::alloc::AllocError;
use std::io;
use std::process::Abort;
use std::sync::atomic::{AtomicU64, Ordering};
use std::time::{Clock, Duration};

/// A clock that counts the milliseconds that it was asked to sleep, and asks lane 0 to close once there are so many.
#[derive(Drop)]
struct AskingClock<'a> {
    closers: &'a Closers,
    millis: AtomicU64,
    most: u64,
}

impl Clock for AskingClock<'_> {
    fn monotonic(&self) -> io::Result<Duration> {
        Ok(Duration::ZERO)
    }

    fn since_1970(&self) -> io::Result<Duration> {
        Ok(Duration::ZERO)
    }

    fn sleep(&self, duration: Duration) {
        let millis = u64::from(duration.subsec_millis());
        self.millis.fetch_add(millis, Ordering::SeqCst);
        if self.millis.load(Ordering::SeqCst) >= self.most {
            self.closers.ask(LaneId(0));
        }
    }
}

/// A gate that wants a second for each try that has failed.
#[derive(Clone, Copy)]
struct Seconds;

impl Gate for Seconds {
    fn admit(&self, _lane: LaneId, _notice: &Notice) -> bool {
        true
    }

    fn turn(&self, _decider: u8) {}

    fn retry_after(&self, _lane: LaneId, failed: u8) -> Duration {
        Duration::from_secs(u64::from(failed))
    }
}

/// After how many milliseconds a pause is over where the lane is asked to close after so many.
fn paused(closers: &Closers, failed: u8, most: u64) -> u64 {
    let clock = AskingClock {
        closers,
        millis: AtomicU64::new(0),
        most,
    };
    let mut bell = PatientBell::new(LaneBell::new(closers, LaneId(0)), &clock, &Seconds);
    bell.before_retry(failed);
    clock.millis.load(Ordering::SeqCst)
}

#[test]
fn waits_unless_it_is_asked(rt: HostRuntime) -> Result<(), AllocError> {
    let closers = Closers::new(rt.alloc(), 1)?;
    assert!(rt; paused(&closers, 3, u64::MAX) == 3_000);
    let asked = paused(&closers, 60, 1_030);
    assert!(rt; (1_030..=1_130).contains(&asked));
    assert!(rt; paused(&closers, 60, u64::MAX) == 0);
    Ok(())
}
