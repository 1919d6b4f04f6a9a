//! A pause between two looks for work.
#![tactic(auto)]

ghost use Rattle.std.specs.Prelude.{◌≡◌, ◌*◌, ◌≤◌, min};

#[cfg(test)]
mod tests;

use crossbeam_utils::Backoff;
use std::thread;
use std::time::{Clock, Duration};

/// How often the processor is yielded before the first sleep, after `Backoff` has spun and yielded.
const YIELDS: u32 = 500;

/// How long the first sleep is, in microseconds.
const SHORTEST: u64 = 100;

/// How long the longest is.
const LONGEST: u64 = 10_000;

/// A pause between two looks for work that another thread makes. It first spins and yields, as `Backoff` does, then yields 500
/// times more, which passes over the gaps of a feed in full run, and then sleeps: 100 microseconds and then twice as long each
/// time, up to 10 milliseconds.
#[derive(Drop)]
pub struct Pause {
    backoff: Backoff,
    /// How often it yields before it sleeps.
    pub(crate) yields: u32,
    /// How long the next sleep is, in microseconds.
    pub(crate) micros: u64,
    ghost least: { 100 ≤ micros },
    ghost most: { micros ≤ 10_000 },
}

impl Pause {
    /// A pause that begins.
    pub fn new() -> Pause
        ensures yields { result.yields ≡ 500 }
        ensures sleep { result.micros ≡ 100 }
    {
        Pause {
            backoff: Backoff::new(),
            yields: YIELDS,
            micros: SHORTEST,
        }
    }

    /// Begins anew, since something was found.
    pub fn reset(&mut self)
        ensures yields { self.new.yields ≡ 500 }
        ensures sleep { self.new.micros ≡ 100 }
    {
        self.backoff.reset();
        self.yields = YIELDS;
        self.micros = SHORTEST;
    }

    /// Lets some time pass, since nothing was found: more each time.
    pub fn rest<C: Clock>(&mut self, clock: &C)
        ensures yields { self.new.yields ≤ self.old.yields }
        ensures sleep { self.old.micros ≤ self.new.micros }
    {
        if !self.backoff.is_completed() {
            self.backoff.snooze();
        } else if self.yields > 0 {
            thread::yield_now();
            self.yields -= 1;
        } else {
            thread::sleep(clock, Duration::from_micros(self.micros));
            self.micros = twice(self.micros);
        }
    }
}

/// Twice as long, and no longer than the longest.
fn twice(micros: u64) -> u64
    requires { micros ≤ 10_000 }
    ensures { result ≡ min (2 * micros) 10_000 }
{
    (2 * micros).min(LONGEST)
}
