//! The time zone in which periods are read.

use jiff::tz::{TimeZone, Tzif};

/// A time zone, which owns all that it needs.
#[derive(Drop)]
pub enum Zone {
    /// Coordinated universal time.
    Utc,
    /// A POSIX rule text.
    Rules(TimeZone<'static>),
    /// A table, as a zone file holds it.
    File(Tzif),
}
