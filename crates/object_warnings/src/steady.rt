//! Moments between which no range of a weekday begins or ends (chapter "Time Periods").

ghost use Rattle.std.specs.Prelude.{◌≡◌, ◌<◌, ◌^◌, false, true, All};
ghost use Rattle.due_model.specs.claims.Periods.{in_range, weekly_ranges};
ghost use Rattle.object_warnings.specs.Steady.{IsSteady, Keeps, own_holds};

use due_model::config::{Period, Range};
use zone_times::clock::ZoneClock;
use zone_times::local::LocalTime;

/// Whether a range has the second of a day.
fn is_inside(range: &Range, second: u32) -> bool
    ensures { result ≡ in_range second range.now }
{
    range.start <= second && second < range.end
}

/// A period's ranges of the weekday.
fn weekly_ranges(period: &Period, weekday: u8) -> &[Range]
    ensures { result.now ≡ weekly_ranges period.now weekday }
{
    match period.days.get(usize::from(weekday)) {
        None => &[],
        Some(ranges) => ranges.as_slice(),
    }
}

/// Whether one of them has the second.
fn own_holds(period: &Period, weekday: u8, second: u32) -> bool
    ensures { result ≡ own_holds period.now weekday second }
{
    weekly_ranges(period, weekday)
        .iter()
        .any(|range| is_inside(range, second))
}

/// Whether one is so and the other isn't.
fn are_apart(one: bool, other: bool) -> bool
    ensures { result ≡ false → one ≡ other }
{
    if one { !other } else { other }
}

/// Whether they have the one second of the weekday, and not the other, or the other way round.
fn changes(period: &Period, weekday: u8, one: u32, other: u32) -> bool
    ensures { result ≡ false → Keeps weekday one other period.now }
{
    are_apart(
        own_holds(period, weekday, one),
        own_holds(period, weekday, other),
    )
}

/// Whether none of the periods changes so.
fn all_keep(periods: &[Period], weekday: u8, one: u32, other: u32) -> bool
    ensures { result ≡ true → All (Keeps weekday one other) periods.now }
{
    for period in periods {
        if changes(period, weekday, one, other) {
            return false;
        }
    }
    true
}

/// Whether both are of one weekday.
fn are_of_one_day(one: LocalTime, other: LocalTime) -> bool
    ensures { result ≡ true → one.weekday ≡ other.weekday }
{
    one.weekday == other.weekday
}

/// Whether both moments are of one weekday, and each period's own ranges of it hold at both or at neither.
pub(crate) fn is_steady(periods: &[Period], clock: &ZoneClock<'_>, one: u64, other: u64) -> bool
    requires one { one < 2 ^ 35 }
    requires other { other < 2 ^ 35 }
    ensures { result ≡ true → IsSteady periods.now clock.now one other }
{
    let before = clock.local_time(one);
    let now = clock.local_time(other);
    if are_of_one_day(before, now) {
        all_keep(periods, now.weekday, before.second, now.second)
    } else {
        false
    }
}
