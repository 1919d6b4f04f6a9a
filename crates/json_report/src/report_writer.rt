//! A writer of the lines of a report, as they are or as objects of JSON.

use crate::writer::JsonWriter;
use std::io::{self, Write};

/// A writer that is given the lines of a report.
#[derive(Drop)]
pub enum ReportWriter<'a, W: Write> {
    /// It writes them as they are.
    Plain(W),
    /// It writes each as an object of JSON.
    Json(JsonWriter<'a, W>),
}

impl<W: Write> Write for ReportWriter<'_, W> {
    ghost use Rattle.json_report.specs.Writers.{contents_of};

    ghost contents = { contents_of W.contents };

    fn write(&mut self, bytes: &[u8]) -> io::Result<usize> {
        match self {
            ReportWriter::Plain(writer) => writer.write(bytes),
            ReportWriter::Json(writer) => writer.write(bytes),
        }
    }

    fn flush(&mut self) -> io::Result<()> {
        match self {
            ReportWriter::Plain(writer) => writer.flush(),
            ReportWriter::Json(writer) => writer.flush(),
        }
    }
}
