//! The ranges that a period has on a local day (chapter "Time Periods"): those of the dated lines that decide, or its weekday's.

ghost use Rattle.std.specs.Prelude.{◌≡◌, not, nat_lt, ◌&&◌, if◌then◌else◌};
ghost use Rattle.std.specs.List.{list_any};
ghost use Rattle.day_rules.specs.Dates.{shown};
ghost use Rattle.due_model.specs.claims.Days.{class_of, names_day};
ghost use Rattle.due_model.specs.claims.Local.{weekday_at};
ghost use Rattle.due_model.specs.claims.Periods.{in_range, weekly_ranges};
ghost use Rattle.slow_rules.specs.Rounds.{is_first, own_ranges_hold};

use day_rules::{CalendarTime, class_of};
use due_model::config::{Dated, DayRule, Period, Range};

/// Whether a local time is in one of the period's own ranges.
pub(crate) fn own_ranges_hold(period: &Period, time: CalendarTime) -> bool
    ensures { result ≡ own_ranges_hold (shown time) period.now }
{
    let dated = period.dated.as_slice();
    if is_named(dated, time) {
        is_in_deciding(dated, time)
    } else {
        is_in_weekly(period, time)
    }
}

/// Whether one of these lines names the day.
fn is_named(dated: &[Dated], time: CalendarTime) -> bool
    ensures { result ≡ list_any (λ line. names_day (shown time) line.day) dated.now }
{
    dated.iter().any(|line| time.is_named_by(line.day))
}

/// Whether the time is in a range of one of these lines that names the day and that no line of an earlier class precedes.
fn is_in_deciding(dated: &[Dated], time: CalendarTime) -> bool
    ensures { result ≡ list_any (λ line. is_first dated.now (shown time) line.day
        && list_any (in_range time.second) line.ranges) dated.now }
{
    dated.iter().any(|line| is_first(dated, time, line.day)
        & is_in_any(line.ranges.as_slice(), time.second()))
}

/// Whether a rule names the day, and none of an earlier class does.
fn is_first(dated: &[Dated], time: CalendarTime, rule: DayRule) -> bool
    ensures { result ≡ is_first dated.now (shown time) rule }
{
    time.is_named_by(rule) && !is_preceded(dated, time, class_of(rule))
}

/// Whether one of these lines names the day and is of an earlier class.
fn is_preceded(dated: &[Dated], time: CalendarTime, class: u8) -> bool
    ensures { result ≡ list_any (λ other. names_day (shown time) other.day
        && nat_lt (class_of other.day) class) dated.now }
{
    dated.iter().any(|other| time.is_named_by(other.day) & (class_of(other.day) < class))
}

/// Whether the time is in one of the weekday's ranges.
fn is_in_weekly(period: &Period, time: CalendarTime) -> bool
    ensures { result
        ≡ list_any (in_range time.second) (weekly_ranges period.now (weekday_at (shown time))) }
{
    match period.days.get(usize::from(time.weekday())) {
        None => false,
        Some(ranges) => is_in_any(ranges.as_slice(), time.second()),
    }
}

/// Whether a second is in one of these ranges.
fn is_in_any(ranges: &[Range], second: u32) -> bool
    ensures { result ≡ list_any (in_range second) ranges.now }
{
    ranges
        .iter()
        .any(|range| range.start <= second && second < range.end)
}
