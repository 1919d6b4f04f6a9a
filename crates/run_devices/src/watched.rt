//! What a run counts by, what says at once what fails, and who shows how far it is and writes its metrics.

use crate::counted::CountingGate;
use progress::Counts;
use run_records::run_log::RunLog;
use run_records::run_metrics::RunMetrics;
use run_records::teller::Teller;
use run_records::watcher::RunWatcher;
use std::alloc::{AllocError, Global};
use std::sync::Arc;
use std::thread::Threads;

/// What watches a run. From when it is made a terminal at standard error shows what is counted.
#[derive(Drop)]
pub struct Watched<'r, T: Threads> {
    pub rt: &'r HostRuntime,
    /// By which threads are started.
    pub threads: &'r T,
    pub counts: Arc<Counts, Global>,
    /// It says nothing where the run is quiet.
    pub teller: Arc<Teller, Global>,
    pub(crate) watcher: RunWatcher<'r, T>,
}

impl<'r, T: Threads> Watched<'r, T> {
    /// What watches a run on this machine, which is quiet or not, and has a log and metrics or none. A refused growth is the only error.
    pub fn new(
        rt: &'r HostRuntime,
        threads: &'r T,
        is_quiet: bool,
        log: Option<RunLog>,
        metrics: Option<RunMetrics>,
    ) -> Result<Watched<'r, T>, AllocError> {
        let counts = Arc::new(rt.alloc(), Counts::new())?;
        let watcher = RunWatcher::new(rt, threads, Arc::try_clone(&counts)?);
        let teller = Teller::new(rt, Arc::try_clone(&counts)?, is_quiet, log, metrics);
        Ok(Watched {
            rt,
            threads,
            counts,
            teller: Arc::new(rt.alloc(), teller)?,
            watcher,
        })
    }

    /// A gate that counts there, and before the second try of a letter has so many seconds pass.
    pub(crate) fn gate(&self, pause: u8) -> Result<CountingGate, AllocError> {
        Ok(CountingGate::new(
            Arc::try_clone(&self.counts)?,
            Arc::try_clone(&self.teller)?,
            pause,
        ))
    }
}
