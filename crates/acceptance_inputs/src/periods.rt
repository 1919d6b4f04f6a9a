//! Time periods as tables.

ghost use Rattle.std.specs.Prelude.{◌≡◌, IfOk, IsOk, length};
ghost use Rattle.due_model.specs.claims.Accepted.{IsAccepted};

use crate::accepted::is_accepted;
use crate::rows::config_of_periods;
use due_model::config::{Config, PeriodId, Range};
use std::alloc::{AllocError, Global};

/// A period with the same ranges on some weekdays that follow one another, from Sunday, which is 0.
#[derive(Clone, Copy)]
pub struct Row {
    /// The first of the weekdays.
    pub first: u8,
    /// The last of them.
    pub last: u8,
    /// The ranges of each.
    pub ranges: &'static [Range],
    /// What it excludes: rows before its own.
    pub excludes: &'static [PeriodId],
}

impl Row {
    /// Every moment.
    pub const ALWAYS: Row = Row {
        first: 0,
        last: 6,
        ranges: &[Range {
            start: 0,
            end: 86_400,
        }],
        excludes: &[],
    };

    /// No moment.
    pub const NEVER: Row = Row {
        ranges: &[],
        ..Row::ALWAYS
    };

    /// Thursdays. 1970-01-01 was one.
    pub const THURSDAYS: Row = Row {
        first: 4,
        last: 4,
        ..Row::ALWAYS
    };
}

/// Refuses a configuration that isn't seen to be accepted.
fn refuse(config: &Config) -> Result<(), AllocError>
    ensures { IsOk result → IsAccepted config.now }
{
    if is_accepted(config) {
        Ok(())
    } else {
        Err(AllocError)
    }
}

/// The configuration of these periods, which has nothing else. Rows that can't be accepted are refused as memory is.
pub fn periods(alloc: Global, rows: &[Row]) -> Result<Config, AllocError>
    ensures accepted { IfOk result (λ config. IsAccepted config) }
    ensures periods { IfOk result (λ config. length config.periods ≡ length rows.now) }
{
    let config = config_of_periods(alloc, rows)?;
    refuse(&config)?;
    Ok(config)
}
