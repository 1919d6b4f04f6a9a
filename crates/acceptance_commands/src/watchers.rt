//! A watcher that notes what was asked of it.

use progress::{Progress, Watcher};

/// A watcher that notes how often it had to make way.
#[derive(Drop)]
pub(crate) struct Noting {
    pub(crate) ways: u64,
}

impl Watcher for Noting {
    fn tell(&mut self, _progress: Progress) {}

    fn make_way(&mut self) {
        self.ways = self.ways.saturating_add(1);
    }
}
