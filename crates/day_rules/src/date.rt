//! A date of the calendar, by its numbers and by its place in its month.

ghost use Rattle.std.specs.Prelude.{◌≡◌, ◌+◌, ◌*◌, ◌&&◌, ◌==◌, nat_le, nat_lt};
ghost use Rattle.jiff_core.specs.Date.{month_length};
ghost use Rattle.due_model.specs.claims.Days.{day_from, is_nth};

use jiff_core::civil::{Date, days_in_month};

/// Whether the date has this month, and this day of it, which counts from the month's end where it is negative.
pub(crate) fn is_day_of(date: Date, month: u8, day: i8) -> bool
    ensures { result ≡ (date.month == month && date.day == day_from (month_length date) day) }
{
    date.month == month && is_day(date, day)
}

/// Whether the date is this day of its month, which counts from the month's end where it is negative.
pub(crate) fn is_day(date: Date, day: i8) -> bool
    ensures { result ≡ (date.day == day_from (month_length date) day) }
{
    if day >= 0 {
        i16::from(date.day) == i16::from(day)
    } else {
        let length = days_in_month(date.year, date.month);
        i16::from(date.day) == i16::from(length) + 1 + i16::from(day)
    }
}

/// Whether the date is at this place among the days of its weekday in its month, which counts from the month's end where it is
/// negative.
pub(crate) fn is_place(date: Date, place: i8) -> bool
    ensures { result ≡ is_nth (month_length date) date.day place }
{
    let n = place.unsigned_abs();
    if place >= 0 {
        is_in_week(date.day, n)
    } else {
        let length = days_in_month(date.year, date.month);
        is_in_week(length + 1 - date.day, n)
    }
}

/// Whether a day, counted from 1, is one of the n-th seven.
fn is_in_week(day: u8, n: u8) -> bool
    ensures { result ≡ (nat_lt (7 * n) (day + 7) && nat_le day (7 * n)) }
{
    let last = 7 * u16::from(n);
    last < u16::from(day) + 7 && u16::from(day) <= last
}
