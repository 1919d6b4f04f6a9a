//! Who shows how far a run is, and who writes its metrics.

use crate::feed_times::now_of;
use crate::teller::Teller;
use progress::{Counts, Progress, ProgressLine, Watcher, show};
use std::alloc::Global;
use std::io::IsTerminal;
use std::sync::Arc;
use std::thread::{self, JoinHandle, Threads, spawn};
use std::time::Duration;

/// After how many milliseconds it is looked again whether the run is over.
const STEP: u64 = 50;

/// After how many seconds the metrics are written again.
const PERIOD: u64 = 15;

/// Where standard error is a terminal, a thread shows there what is counted, until lines of the report are to be written.
/// Where that thread can't be started, only the end is shown. Another writes the metrics, if the run has any.
#[derive(Drop)]
pub struct RunWatcher<'a, T: Threads> {
    rt: &'a HostRuntime,
    threads: &'a T,
    counts: Arc<Counts, Global>,
    shown: Option<JoinHandle<()>>,
    /// What has the metrics, and the thread that writes them.
    teller: Option<Arc<Teller, Global>>,
    written: Option<JoinHandle<()>>,
}

impl<'a, T: Threads> RunWatcher<'a, T> {
    /// From now on it is shown what is counted.
    pub fn new(
        rt: &'a HostRuntime,
        threads: &'a T,
        counts: Arc<Counts, Global>,
    ) -> RunWatcher<'a, T> {
        let shown = start(rt, threads, &counts);
        RunWatcher {
            rt,
            threads,
            counts,
            shown,
            teller: None,
            written: None,
        }
    }

    /// From now on the metrics of this teller are written, if it has any: at once, each 15 seconds, and when the run is over. Where no thread can be
    /// started, they are written then alone.
    pub fn write_metrics(&mut self, teller: Arc<Teller, Global>) {
        if teller.is_metered() {
            self.written = start_writing(self.rt, self.threads, &teller);
            self.teller = Some(teller);
        }
    }

    /// No more is counted: the metrics are written for the last time.
    fn end_metrics(&mut self) {
        let Some(teller) = self.teller.take() else {
            return;
        };
        if let Some(metrics) = teller.metrics() {
            metrics.end();
        }
        if let Some(written) = self.written.take() {
            written.join(self.threads);
        }
        teller.write_metrics();
    }

    /// The run is over: what was counted last stays, on a line of its own, and in the metrics.
    pub fn finish(mut self) {
        self.make_way();
        ProgressLine::new(self.rt, self.rt.stderr().is_terminal()).finish_at(
            self.counts.progress(),
        );
        self.end_metrics();
    }
}

impl<T: Threads> Watcher for RunWatcher<'_, T> {
    fn tell(&mut self, _progress: Progress) {}

    fn make_way(&mut self) {
        self.counts.end();
        if let Some(shown) = self.shown.take() {
            shown.join(self.threads);
        }
    }
}

/// Has the thread that shows what is counted end before lines are written. It doesn't wait for it.
#[derive(Drop)]
pub struct WayMaker {
    counts: Arc<Counts, Global>,
}

impl WayMaker {
    /// Of the thread that shows these.
    pub fn new(counts: Arc<Counts, Global>) -> WayMaker {
        WayMaker { counts }
    }
}

impl Watcher for WayMaker {
    fn tell(&mut self, _progress: Progress) {}

    fn make_way(&mut self) {
        self.counts.end();
    }
}

/// Starts the thread that shows what is counted, where standard error is a terminal.
fn start<T: Threads>(
    rt: &HostRuntime,
    threads: &T,
    counts: &Arc<Counts, Global>,
) -> Option<JoinHandle<()>> {
    if !rt.stderr().is_terminal() {
        return None;
    }
    let counts = Arc::try_clone(counts).ok()?;
    let rt = *rt;
    spawn(threads, move || show(&rt, &counts)).ok()
}

/// Starts the thread that writes the metrics.
fn start_writing<T: Threads>(
    rt: &HostRuntime,
    threads: &T,
    teller: &Arc<Teller, Global>,
) -> Option<JoinHandle<()>> {
    let teller = Arc::try_clone(teller).ok()?;
    let rt = *rt;
    spawn(threads, move || write_each(&rt, &teller)).ok()
}

/// Writes the metrics now, and then each 15 seconds, until the run is over.
fn write_each(rt: &HostRuntime, teller: &Teller) {
    let Some(metrics) = teller.metrics() else {
        return;
    };
    let mut next = 0;
    for _ in 0..u64::MAX {
        if metrics.is_over() {
            break;
        }
        let now = now_of(rt);
        if now >= next {
            teller.write_metrics();
            next = now.saturating_add(PERIOD);
        }
        thread::sleep(rt, Duration::from_millis(STEP));
    }
}
