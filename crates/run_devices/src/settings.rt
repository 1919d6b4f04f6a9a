//! How a run is set up.

ghost use Rattle.std.specs.Prelude.{◌≡◌, ◌*◌, ◌^◌, ◌-◌, min};

use due_model::config::Choices;
use std::time::Duration;
use steps::Settings;

/// How many seconds pass at most between two tries of a letter.
const LONGEST: u8 = 60;

/// How a run is set up, beside its configuration and its channels.
#[derive(Clone, Copy, Debug)]
pub struct RunSettings {
    /// Whose rules decide.
    pub choices: Choices,
    /// How many deciders there are, how many notices a lane's queue holds, and how often a letter is tried.
    pub settings: Settings,
    /// How long a pager or a program may take for a try, in seconds: at least 1.
    pub timeout: u16,
    /// How many seconds pass before the second try of a letter: at most 60.
    pub pause: u8,
    /// Whether nothing is said on standard error before the report.
    pub quiet: bool,
    /// How many seconds past the machine's clock the stamp of a line of the feed may be at most, if there is a limit.
    pub ahead: Option<u32>,
}

impl RunSettings {
    /// How long a try may take.
    pub fn limit(self) -> Duration {
        Duration::from_secs(u64::from(self.timeout))
    }
}

/// How many seconds pass after so many failed tries: these after the first, then twice as many each time, and at most 60.
pub(crate) fn pause_after(first: u8, failed: u8) -> u8
    ensures { result ≡ min (first * 2 ^ (failed - 1)) 60 }
{
    let mut pause = first.min(LONGEST);
    for _doubled in 0..failed.saturating_sub(1) {
        pause = (2 * pause).min(LONGEST);
    }
    pause
}
