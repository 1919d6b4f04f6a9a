//! A file that is read as a feed.

use crate::minutes::Minutes;
use std::alloc::Global;
use std::fs::{self, File, OpenOptions};
use std::io::{self, Eprint, ErrorKind, IsTerminal, Read};
use std::os::unix::fs::MetadataExt;
use std::thread;
use std::time::Duration;

/// How long it waits before it looks again whether the file has grown, in milliseconds.
const LOOK: u64 = 50;

/// What takes the line that shows how far a run is away.
const EMPTY: &str = "\r\x1b[K";

/// How a feed in a file is read.
#[derive(Clone, Copy, Debug, PartialEq, Eq)]
pub struct FeedWays {
    /// Whether it goes on as the file grows, and never ends.
    pub follows: bool,
    /// Whether a line `[now] CLOCK` is added to it at each full minute.
    pub keeps_clock: bool,
    /// Whether nothing is said on standard error.
    pub is_quiet: bool,
}

/// A file that is read from its start. Where it is followed, what is added to it is read within a tenth of a second, and reading fails
/// once it is shorter than what was read, or its path is another file's or none: that is said on standard error, as is a line of the
/// clock that couldn't be added.
#[derive(Drop)]
pub struct FeedFile {
    rt: HostRuntime,
    path: String,
    file: File,
    /// How many bytes were read.
    place: u64,
    ways: FeedWays,
    minutes: Option<Minutes>,
}

impl FeedFile {
    /// The file at a path. It is made if it isn't there and lines of the clock are added to it.
    pub fn open(rt: &HostRuntime, path: &str, ways: FeedWays) -> io::Result<FeedFile> {
        let minutes = if ways.keeps_clock {
            Some(Minutes::new(rt, path)?)
        } else {
            None
        };
        let Ok(name) = String::from_str(rt.alloc(), path) else {
            return Err(io::Error::from(ErrorKind::OutOfMemory));
        };
        Ok(FeedFile {
            rt: *rt,
            path: name,
            file: File::open(rt, path)?,
            place: 0,
            ways,
            minutes,
        })
    }

    /// Adds the clock's line, if a minute has begun.
    fn keep_clock(&mut self) -> io::Result<()> {
        let Some(minutes) = &mut self.minutes else {
            return Ok(());
        };
        let told = minutes.tell();
        if told.is_err() {
            self.say("a line of the clock couldn't be added to it");
        }
        told
    }

    /// What is wrong with the file, where no more of it can be followed.
    fn wrong(&self) -> Option<&'static str> {
        let Ok(own) = self.file.metadata() else {
            return Some("it can't be read any more");
        };
        if own.len() < self.place {
            return Some("it has become shorter");
        }
        match fs::metadata(&self.rt, self.path.as_str()) {
            Ok(there) if there.dev() == own.dev() && there.ino() == own.ino() => None,
            _ => Some("another file has taken its place"),
        }
    }

    /// Says why the feed ends.
    fn say(&self, why: &str) {
        if self.ways.is_quiet {
            return;
        }
        let begin = if self.rt.stderr().is_terminal() {
            EMPTY
        } else {
            ""
        };
        let path = self.path.as_str();
        if let Ok(line) = format!(in self.rt.alloc(); "{begin}notify-run: feed: {path}: {why}\n") {
            let _ = self.rt.eprint(line.as_str());
        }
    }
}

impl Read for FeedFile {
    fn read(&mut self, buffer: &mut [u8]) -> io::Result<usize> {
        for _look in 0..u64::MAX {
            self.keep_clock()?;
            let count = self.file.read(buffer)?;
            self.place = self.place.saturating_add(count as u64);
            if count > 0 || !self.ways.follows || buffer.is_empty() {
                return Ok(count);
            }
            if let Some(why) = self.wrong() {
                self.say(why);
                return Err(io::Error::from(ErrorKind::UnexpectedEof));
            }
            thread::sleep(&self.rt, Duration::from_millis(LOOK));
        }
        Ok(0)
    }
}
