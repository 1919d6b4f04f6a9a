//! A file whose flush reaches the disk.

use std::fs::File;
use std::io::{self, Write};

/// Who is told once that a file takes no more.
pub trait Complaint: Drop {
    /// It failed to be written, or to be brought to the disk.
    fn failed(&mut self);
}

/// A file that is flushed once what was written to it is on the disk.
#[derive(Drop)]
pub struct SyncedFile<C: Complaint> {
    file: File,
    complaint: C,
}

impl<C: Complaint> SyncedFile<C> {
    /// This file, which is written to at its end, and who is told where that fails.
    pub fn new(file: File, complaint: C) -> SyncedFile<C> {
        SyncedFile { file, complaint }
    }
}

impl<C: Complaint> Write for SyncedFile<C> {
    fn write(&mut self, bytes: &[u8]) -> io::Result<usize> {
        let written = self.file.write(bytes);
        if written.is_err() {
            self.complaint.failed();
        }
        written
    }

    fn flush(&mut self) -> io::Result<()> {
        let synced = self.file.sync_data();
        if synced.is_err() {
            self.complaint.failed();
        }
        synced
    }
}
