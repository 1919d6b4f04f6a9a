//! A line of a report, before it has a form.

use event_feed::RefusedLine;
use messages::entries::Entry;

/// What a line of a report tells.
#[derive(Clone, Copy, Debug, PartialEq, Eq)]
pub enum ReportLine {
    /// What became of a message: an N, S or C line.
    Decided(Entry),
    /// A refused line of the feed: an R line.
    Refused(RefusedLine),
}
