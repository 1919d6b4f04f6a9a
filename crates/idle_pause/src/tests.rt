//! How long a pause sleeps.

use crate::Pause;
use std::io;
use std::process::Abort;
use std::sync::atomic::{AtomicU64, Ordering};
use std::time::{Clock, Duration};

/// A clock that counts the microseconds that it was asked to sleep.
#[derive(Drop)]
struct CountingClock {
    micros: AtomicU64,
}

impl Clock for CountingClock {
    fn monotonic(&self) -> io::Result<Duration> {
        Ok(Duration::ZERO)
    }

    fn since_1970(&self) -> io::Result<Duration> {
        Ok(Duration::ZERO)
    }

    fn sleep(&self, duration: Duration) {
        let micros = u64::from(duration.subsec_micros());
        self.micros.fetch_add(micros, Ordering::SeqCst);
    }
}

/// How many microseconds it sleeps in so many rests.
fn slept(pause: &mut Pause, rests: u32) -> u64 {
    let clock = CountingClock {
        micros: AtomicU64::new(0),
    };
    for _ in 0..rests {
        pause.rest(&clock);
    }
    clock.micros.load(Ordering::SeqCst)
}

#[test]
fn sleeps_longer_and_longer(rt: HostRuntime) {
    let mut pause = Pause::new();
    assert!(rt; slept(&mut pause, 11 + 500) == 0);
    assert!(rt;
        slept(&mut pause, 9) == 100 + 200 + 400 + 800 + 1_600 + 3_200 + 6_400 + 10_000 + 10_000
    );
    pause.reset();
    assert!(rt; slept(&mut pause, 12 + 500) == 100);
}
