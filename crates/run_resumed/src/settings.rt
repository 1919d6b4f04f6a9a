//! How a run that goes on is set up.

use run_devices::RunSettings;

/// Where a run keeps what it has handed over, and what it does with what is in doubt.
#[derive(Clone, Copy, Debug)]
pub struct StateSettings<'s> {
    /// The path of the folder of its journals.
    pub folder: &'s str,
    /// The path of the feed, which is read twice: what it makes due is compared with what was sent before anything is sent.
    pub feed: &'s str,
    /// Whether a letter that an earlier run was about to hand over is given up.
    pub drops_doubt: bool,
    /// Whether what the feed makes due as far as it goes now, and was never sent, is given up.
    pub from_now: bool,
}

/// How a run that goes on is set up.
#[derive(Clone, Copy, Debug)]
pub struct ResumedSettings<'s> {
    pub run: RunSettings,
    pub state: StateSettings<'s>,
}
