//! What is read at every event and stays as it is.

use due_model::config::Config;
use time_period::compiled::Compiled;
use zone_times::clock::ZoneClock;

/// A configuration and what is worked out of it once. It borrows all of that.
#[derive(Clone, Copy)]
pub struct Rules<'a> {
    pub config: &'a Config,
    /// The clock of the time zone in which periods are read.
    pub zone: &'a ZoneClock<'a>,
    /// The periods of the configuration as they are worked out, in the order of their numbers.
    pub periods: &'a [Compiled],
}
