//! The metrics of a run, and the file that they are written to.

use crate::feed_times::FeedTimes;
use crate::meters::Meters;
use due_model::config::Config;
use metrics_text::metrics_text;
use std::alloc::{AllocError, Global};
use std::fs::{self, OpenOptions};
use std::io::{self, ErrorKind, Write};
use std::sync::Arc;
use std::sync::atomic::{AtomicBool, Ordering};

/// What is counted of a run, and the file at whose path the text of that is put as a whole.
#[derive(Drop)]
pub struct RunMetrics {
    rt: HostRuntime,
    pub(crate) meters: Meters,
    /// The file, and that which is renamed to it.
    path: String,
    new_path: String,
    /// Whether the file couldn't be written.
    was_failing: AtomicBool,
    /// Whether the run is over.
    is_over: AtomicBool,
}

/// The file that the metrics of a run are written to, and when the lines of its feed came.
#[derive(Clone, Copy)]
pub struct MetricsPlace<'m> {
    pub path: &'m str,
    pub times: &'m Arc<FeedTimes, Global>,
}

/// The metrics of a run with this configuration and so many deciders, for their place, if there is one. Nothing is written yet. A refused growth is
/// the only error.
pub fn metrics_at(
    rt: &HostRuntime,
    config: &Config,
    deciders: u8,
    place: Option<MetricsPlace<'_>>,
) -> Result<Option<RunMetrics>, AllocError> {
    let Some(MetricsPlace { path, times }) = place else {
        return Ok(None);
    };
    let alloc = rt.alloc();
    let mut new_path = String::from_str(alloc, path)?;
    new_path.push_str(".tmp")?;
    Ok(Some(RunMetrics {
        rt: *rt,
        meters: Meters::new(rt, config, deciders, Arc::try_clone(times)?)?,
        path: String::from_str(alloc, path)?,
        new_path,
        was_failing: AtomicBool::new(false),
        is_over: AtomicBool::new(false),
    }))
}

impl RunMetrics {
    /// Writes what is counted, where so many events were decided. False: the file can't be written, for the first time.
    pub fn write(&self, events: u64) -> bool {
        self.try_write(events).is_ok() || self.was_failing.swap(true, Ordering::SeqCst)
    }

    /// The run is over.
    pub(crate) fn end(&self) {
        self.is_over.store(true, Ordering::SeqCst);
    }

    /// Whether it is.
    pub(crate) fn is_over(&self) -> bool {
        self.is_over.load(Ordering::SeqCst)
    }

    /// Writes what is counted to a file beside, which is then renamed.
    fn try_write(&self, events: u64) -> io::Result<()> {
        let Ok(text) = self.text(events) else {
            return Err(io::Error::from(ErrorKind::OutOfMemory));
        };
        let mut file = OpenOptions::new()
            .write(true)
            .create(true)
            .truncate(true)
            .open(&self.rt, self.new_path.as_str())?;
        file.write_all(text.as_slice())?;
        fs::rename(&self.rt, self.new_path.as_str(), self.path.as_str())
    }

    /// The text of what is counted. A refused growth is the only error.
    fn text(&self, events: u64) -> Result<Vec<u8>, AllocError> {
        metrics_text(self.rt.alloc(), &self.meters.metrics(events)?)
    }
}
