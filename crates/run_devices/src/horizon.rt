//! How far past the machine's clock the stamps of a feed may be.

ghost use Rattle.std.specs.Prelude.{◌≡◌, ◌+◌, min};

use engine::Horizon;
use std::time::SystemTime;

/// So many seconds past the machine's clock, if there is a limit.
#[derive(Drop)]
pub struct ClockHorizon {
    pub rt: HostRuntime,
    pub ahead: Option<u32>,
}

impl Horizon for ClockHorizon {
    ghost use Rattle.std.specs.Prelude.{is_none};
    ghost use Rattle.run_devices.specs.Ahead.{SaysAhead};

    ghost is_open = { λ s. is_none s.ahead };

    ghost says = { λ s latest. SaysAhead s.ahead latest };

    // Where the machine's clock can't be read there is no limit.
    fn latest(&self) -> Option<u64> {
        let ahead = self.ahead?;
        let Ok(now) = SystemTime::now(&self.rt) else {
            return None;
        };
        Some(latest_of(seconds_of(now), ahead))
    }
}

/// The seconds from the epoch to then.
fn seconds_of(time: SystemTime) -> u64 {
    match time.duration_since(SystemTime::UNIX_EPOCH) {
        Ok(since) => since.as_secs(),
        Err(_) => 0,
    }
}

/// So many seconds later.
fn latest_of(now: u64, ahead: u32) -> u64
    ensures { result ≡ min (now + ahead) 18446744073709551615 }
{
    now.saturating_add(u64::from(ahead))
}
