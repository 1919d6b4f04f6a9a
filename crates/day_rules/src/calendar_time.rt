//! A local time on the calendar, and whether a rule names its day.

ghost use Rattle.std.specs.Prelude.{◌≡◌, ◌+ℤ◌, pos, unsigned_abs};
ghost use Rattle.std.specs.Int.{int_rem_euclid};
ghost use Rattle.jiff_core.specs.Calendar.{IsEpochDay};
ghost use Rattle.jiff_core.specs.Date.{epoch_day};

use crate::date::{is_day, is_day_of, is_place};
use due_model::config::DayRule;
use jiff_core::civil::Date;

/// What a calendar and a clock on the wall show. Contracts see the local time (`shown`).
#[derive(Clone, Copy, Debug)]
pub struct CalendarTime {
    date: Date,
    /// From Sunday, which is 0.
    weekday: u8,
    /// Of the day.
    second: u32,
    ghost of_date: { weekday ≡ unsigned_abs (int_rem_euclid (epoch_day date +ℤ pos 4) (pos 7)) },
}

impl CalendarTime {
    ghost use Rattle.due_model.specs.claims.Days.{names_day};
    ghost use Rattle.due_model.specs.claims.Local.{weekday_at};
    ghost use Rattle.day_rules.specs.Dates.{fits, shown};

    /// The time at a second of the day that is so many days after 1970-01-01, or before it where the number is negative. The
    /// calendar has the years from -9999 to 9999.
    pub fn new(day: i32, second: u32) -> CalendarTime
        requires { IsEpochDay day }
        ensures { shown result ≡ record { day = day; second = second } }
    {
        let date = match Date::from_unix_epoch_day(i64::from(day)) {
            Ok(date) => date,
            Err(_) => unreachable!(),
        };
        CalendarTime {
            date,
            weekday: (i64::from(day) + 4).rem_euclid(7) as u8,
            second,
        }
    }

    /// The weekday, from Sunday, which is 0.
    pub fn weekday(self) -> u8
        ensures { result ≡ weekday_at (shown self) }
    {
        self.weekday
    }

    /// The second of the day.
    pub fn second(self) -> u32
        ensures { result ≡ (shown self).second }
    {
        self.second
    }

    /// Whether the rule names the day.
    pub fn is_named_by(self, rule: DayRule) -> bool
        ensures { result ≡ names_day (shown self) rule }
    {
        self.fits(rule)
    }

    /// Whether the rule names the day, by the date's numbers.
    fn fits(self, rule: DayRule) -> bool
        ensures { result ≡ fits self.date self.weekday rule }
    {
        let date = self.date;
        match rule {
            DayRule::Date { year, month, day } => {
                date.year == year && date.month == month && date.day == day
            }
            DayRule::OfMonth { month, day } => is_day_of(date, month, day),
            DayRule::OfEachMonth { day } => is_day(date, day),
            DayRule::WeekdayOfMonth {
                weekday,
                place,
                month,
            } => self.weekday == weekday && date.month == month && is_place(date, place),
            DayRule::WeekdayOfEachMonth { weekday, place } => {
                self.weekday == weekday && is_place(date, place)
            }
        }
    }
}
