//! The log of a run: lines of its report, which are written as they happen.

use crate::rotated_file::RotatedFile;
use command_output::{Lines, OutputLine};
use due_model::config::Config;
use idle_pause::Pause;
use std::alloc::{AllocError, Global};
use std::io::Write;
use std::sync::atomic::{AtomicBool, AtomicU64, Ordering};
use std::sync::{Arc, Mutex, MutexGuard};

/// How many bytes of a line there is memory for before the run begins.
const ROOM: usize = 65_536;

/// The log of a run, which takes lines from any thread, and writes each by itself. One that can't be written is lost and counted.
#[derive(Drop)]
pub struct RunLog {
    rt: HostRuntime,
    config: Arc<Config, Global>,
    file: Mutex<LogFile>,
    /// How many lines were lost.
    lost: AtomicU64,
    /// Whether a line was lost.
    was_failing: AtomicBool,
}

/// The file of a log, and where its lines are made.
#[derive(Drop)]
struct LogFile {
    file: RotatedFile,
    lines: Lines,
    text: Vec<u8>,
}

impl RunLog {
    /// A log in the file at a path, which is made if it isn't there, and else appended to. `Ok(None)`: it can't be opened. A refused
    /// growth is the only error.
    pub fn open(
        rt: &HostRuntime,
        config: Arc<Config, Global>,
        path: &str,
    ) -> Result<Option<RunLog>, AllocError> {
        let alloc = rt.alloc();
        let lines = Lines::new(alloc)?;
        let text = Vec::with_capacity(alloc, ROOM)?;
        let Some(file) = RotatedFile::open(rt, String::from_str(alloc, path)?) else {
            return Ok(None);
        };
        Ok(Some(RunLog {
            rt: *rt,
            config,
            file: Mutex::new(LogFile { file, lines, text }),
            lost: AtomicU64::new(0),
            was_failing: AtomicBool::new(false),
        }))
    }

    /// Writes a line of the report. False: it is the first that is lost.
    pub fn write(&self, line: &OutputLine<'_>) -> bool {
        let is_written = match self.lock() {
            Some(file) => {
                let mut file = file;
                file.write_line(&self.config, line)
            }
            None => false,
        };
        if is_written { true } else { self.lose() }
    }

    /// Writes the line of a line of the feed that is refused. False: it is the first that is lost.
    pub(crate) fn write_refused(&self, line: u64, fault: &str) -> bool {
        match format!(in self.rt.alloc(); "R;{line};{fault}\n") {
            Ok(text) => self.put(text.as_bytes()) || self.lose(),
            Err(_) => self.lose(),
        }
    }

    /// Writes lines that are made. False: they aren't written.
    pub(crate) fn put(&self, text: &[u8]) -> bool {
        match self.lock() {
            Some(file) => {
                let mut file = file;
                file.file.write(text).is_ok()
            }
            None => false,
        }
    }

    /// The file, once no other thread writes.
    fn lock(&self) -> Option<MutexGuard<'_, LogFile>> {
        let mut pause = Pause::new();
        for _ in 0..u64::MAX {
            if let Some(file) = self.file.try_lock() {
                return Some(file);
            }
            pause.rest(&self.rt);
        }
        None
    }

    /// A line more is lost. False: it is the first.
    pub(crate) fn lose(&self) -> bool {
        self.lost.fetch_add(1, Ordering::SeqCst);
        self.was_failing.swap(true, Ordering::SeqCst)
    }

    /// How many lines were lost.
    pub fn lost(&self) -> u64 {
        self.lost.load(Ordering::SeqCst)
    }
}

impl LogFile {
    /// Makes a line and writes it. False: it isn't written.
    fn write_line(&mut self, config: &Config, line: &OutputLine<'_>) -> bool {
        self.text.clear();
        let made = self.lines.write(&mut self.text, config, line);
        let flushed = self.lines.flush(&mut self.text);
        made.is_ok() && flushed.is_ok() && self.file.write(self.text.as_slice()).is_ok()
    }
}
