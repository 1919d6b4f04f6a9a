//! What is counted of a command as it goes, and who shows it.

use crate::{Progress, ProgressLine, Watcher};
use std::io::Eprint;
use std::sync::atomic::{AtomicBool, AtomicU64, Ordering};
use std::thread;
use std::time::{Clock, Duration};

/// After how many milliseconds it is looked again what is counted.
const STEP: u64 = 50;

/// What is counted of a command as it goes, from any thread.
#[derive(Drop)]
pub struct Counts {
    events: AtomicU64,
    messages: AtomicU64,
    is_over: AtomicBool,
    /// Whether a line was said since it was last shown what is counted.
    is_said: AtomicBool,
}

impl Counts {
    /// Nothing is counted yet.
    pub const fn new() -> Counts {
        Counts {
            events: AtomicU64::new(0),
            messages: AtomicU64::new(0),
            is_over: AtomicBool::new(false),
            is_said: AtomicBool::new(false),
        }
    }

    /// An event more is decided.
    pub fn count_event(&self) {
        self.events.fetch_add(1, Ordering::SeqCst);
    }

    /// A message more was taken.
    pub fn count_message(&self) {
        self.messages.fetch_add(1, Ordering::SeqCst);
    }

    /// There will be no more.
    pub fn end(&self) {
        self.is_over.store(true, Ordering::SeqCst);
    }

    /// A line was said where it is shown what is counted, and stands in the place of that.
    pub fn say(&self) {
        self.is_said.store(true, Ordering::SeqCst);
    }

    /// What is counted now.
    pub fn progress(&self) -> Progress {
        Progress {
            events: self.events.load(Ordering::SeqCst),
            messages: self.messages.load(Ordering::SeqCst),
        }
    }
}

/// Shows on standard error what is counted, as long as there may be more, and again after a line that was said there; then the line
/// is taken away.
pub fn show<E: Eprint + Clock>(errors: &E, counts: &Counts) {
    let mut line = ProgressLine::new(errors, true);
    for _ in 0..u64::MAX {
        if counts.is_over.load(Ordering::SeqCst) {
            break;
        }
        if counts.is_said.swap(false, Ordering::SeqCst) {
            line.was_taken();
        }
        line.tell(counts.progress());
        thread::sleep(errors, Duration::from_millis(STEP));
    }
    line.make_way();
}
