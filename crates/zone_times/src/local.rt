//! Local time: what a clock and a calendar on the wall show.

ghost use Rattle.std.specs.Prelude.{◌≡◌, ◌^◌, ◌<◌, pos, ◌*ℤ◌, ◌+ℤ◌, unsigned_abs};
ghost use Rattle.std.specs.Int.{int_div_euclid, int_rem_euclid};
ghost use Rattle.jiff_core.specs.Calendar.{IsEpochDay};
ghost use Rattle.due_model.specs.claims.Limits.{day as day_length};
ghost use Rattle.due_model.specs.claims.Local.{local, offset, weekday_at};

use due_model::limits::DAY;
use due_model::zone::Zone;
use jiff::Timestamp;

/// What a clock and a calendar on the wall show.
#[derive(Clone, Copy, Debug, PartialEq, Eq)]
pub struct LocalTime {
    /// 0 on 1970-01-01.
    pub day: i32,
    /// From Sunday, which is 0, to Saturday.
    pub weekday: u8,
    /// Of the day.
    pub second: u32,
    ghost in_week: { weekday < 7 },
    ghost in_day: { second < day_length },
    ghost in_calendar: { IsEpochDay day },
}

/// Local time at a moment, in seconds since the epoch (chapter "Time Periods").
pub fn local_time(zone: &Zone, t: u64) -> LocalTime
    requires { t < 2 ^ 35 }
    ensures day { result.day ≡ (local zone.now t).day }
    ensures weekday { result.weekday ≡ weekday_at (local zone.now t) }
    ensures second { result.second ≡ (local zone.now t).second }
{
    clock_at(t as i64 + i64::from(offset_at(zone, t)))
}

/// How far the zone's clock is ahead of UTC, in seconds.
pub(crate) fn offset_at(zone: &Zone, t: u64) -> i32
    requires { t < 2 ^ 35 }
    ensures value { result ≡ offset zone.now t }
    ensures small { unsigned_abs result < 93600 }
{
    match zone {
        Zone::Utc => 0,
        Zone::Rules(rules) => rules.to_offset(instant(t)).seconds(),
        Zone::File(table) => table.to_offset(instant(t).to_plain()).seconds,
    }
}

/// That many seconds after the epoch.
pub(crate) fn instant(t: u64) -> Timestamp
    requires { t < 2 ^ 35 }
    ensures { result.nanosecond ≡ pos t *ℤ pos 1_000_000_000 }
{
    match Timestamp::from_second(t as i64) {
        Ok(instant) => instant,
        Err(_) => unreachable!(),
    }
}

/// What the clock shows that many seconds after its own midnight of 1970-01-01, a Thursday.
pub(crate) fn clock_at(second: i64) -> LocalTime
    requires { unsigned_abs second < 2 ^ 36 }
    ensures day { result.day ≡ int_div_euclid second (pos day_length) }
    ensures weekday { result.weekday
        ≡ unsigned_abs (int_rem_euclid (int_div_euclid second (pos day_length) +ℤ pos 4) (pos 7)) }
    ensures second { result.second ≡ unsigned_abs (int_rem_euclid second (pos day_length)) }
{
    let days = second.div_euclid(DAY as i64);
    LocalTime {
        day: days as i32,
        weekday: (days + 4).rem_euclid(7) as u8,
        second: second.rem_euclid(DAY as i64) as u32,
    }
}
