//! The ranges of one day.

ghost use Rattle.std.specs.Prelude.{◌<◌};
ghost use Rattle.due_model.specs.claims.Limits.{day};
ghost use Rattle.time_period.specs.Days.{IsDay, in_ranges};
ghost use Rattle.time_period.specs.Stretches.{IsStretch};

use crate::stretch::Stretch;
use due_model::config::Range;

/// Whether some range of a day holds the second, and a second up to which that stays. They stand in order: a binary search.
pub(crate) fn stretch_in(ranges: &[Range], second: u32) -> Stretch
    requires day { IsDay ranges.now }
    requires second { second < day }
    ensures { IsStretch (in_ranges ranges.now) second result }
{
    let place = ranges.partition_point(|range| range.end <= second);
    match ranges.get(place) {
        Some(range) => Stretch::of_range(*range, second),
        None => Stretch::never(),
    }
}
