//! A writer to a run's log.

use crate::teller::Teller;
use std::alloc::Global;
use std::io::{self, ErrorKind, Write};
use std::sync::Arc;

/// A writer to the log of a run. What it is given at once is whole lines.
#[derive(Drop)]
pub struct LogWriter {
    teller: Arc<Teller, Global>,
}

impl LogWriter {
    /// A writer to the log of this teller.
    pub fn new(teller: Arc<Teller, Global>) -> LogWriter {
        LogWriter { teller }
    }
}

impl Write for LogWriter {
    fn write(&mut self, bytes: &[u8]) -> io::Result<usize> {
        if self.teller.log_lines(bytes) {
            Ok(bytes.len())
        } else {
            Err(io::Error::from(ErrorKind::Other))
        }
    }

    fn flush(&mut self) -> io::Result<()> {
        Ok(())
    }
}
