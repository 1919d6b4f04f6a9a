//! The minutes of the machine's clock, each told once at the end of a file.

use crate::clock_line::{clock_line, minute_of};
use std::fs::{File, OpenOptions};
use std::io::{self, ErrorKind, Write};
use std::time::Clock;

/// What tells the minutes that begin.
#[derive(Drop)]
pub(crate) struct Minutes {
    rt: HostRuntime,
    /// It is written to at its end.
    file: File,
    /// The minute that was told last, or in which it began.
    last: u64,
}

impl Minutes {
    /// The minutes after this one, at the end of the file at a path, which is made if it isn't there.
    pub(crate) fn new(rt: &HostRuntime, path: &str) -> io::Result<Minutes> {
        let file = OpenOptions::new().append(true).create(true).open(rt, path)?;
        let last = minute_of(rt.since_1970()?.as_secs());
        Ok(Minutes {
            rt: *rt,
            file,
            last,
        })
    }

    /// Tells the minute that has begun, if one has, by one write. An error where the file doesn't take the whole line. Where the clock
    /// fails, or there is no memory, nothing is told: the next call does.
    pub(crate) fn tell(&mut self) -> io::Result<()> {
        let Ok(now) = self.rt.since_1970() else {
            return Ok(());
        };
        let minute = minute_of(now.as_secs());
        if minute == self.last {
            return Ok(());
        }
        let Ok(line) = clock_line(self.rt.alloc(), now.as_secs()) else {
            return Ok(());
        };
        if self.file.write(&line)? < line.len() {
            return Err(io::Error::from(ErrorKind::WriteZero));
        }
        self.last = minute;
        Ok(())
    }
}
