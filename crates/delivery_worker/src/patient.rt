//! The bell of a lane that takes its time between two tries of a letter.

ghost use Rattle.std.specs.Prelude.{◌≡◌};

use crate::closers::LaneBell;
use crate::{Bell, Gate};
use std::thread;
use std::time::{Clock, Duration};

/// How many milliseconds it sleeps at most before it looks whether the lane was asked to close.
const STEP: u64 = 50;

/// The bell of one lane. Before a letter is tried again it lets time pass, as long as a gate says, unless the lane is asked to
/// close: it looks for that each 50 milliseconds.
#[derive(Drop)]
pub struct PatientBell<'a, C: Clock, G: Gate> {
    bell: LaneBell<'a>,
    clock: &'a C,
    gate: &'a G,
}

impl<'a, C: Clock, G: Gate> PatientBell<'a, C, G> {
    /// This bell, with the pauses of a gate.
    pub fn new(bell: LaneBell<'a>, clock: &'a C, gate: &'a G) -> PatientBell<'a, C, G>
        ensures { result.bell ≡ bell.entry }
    {
        PatientBell { bell, clock, gate }
    }
}

impl<'a, C: Clock, G: Gate> Bell for PatientBell<'a, C, G> {
    ghost count = { λ b. b.bell.count };

    ghost asks = { λ b. b.bell.asks };

    fn asked(&mut self) -> bool {
        self.bell.asked()
    }

    fn count(&self) -> u64 {
        self.bell.count()
    }

    fn before_retry(&mut self, failed: u8) {
        wait(
            self.clock,
            &self.bell,
            self.gate.retry_after(self.bell.lane, failed),
        );
    }
}

/// Lets so much time pass, unless the lane of this bell is asked to close.
fn wait<C: Clock>(clock: &C, bell: &LaneBell<'_>, pause: Duration) {
    let mut left = pause;
    for _ in 0..u64::MAX {
        if left.is_zero() || bell.is_rung() {
            return;
        }
        let step = left.min(Duration::from_millis(STEP));
        thread::sleep(clock, step);
        left = left.saturating_sub(step);
    }
}
