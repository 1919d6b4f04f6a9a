//! The text of a moment, as a zone's clock and calendar show it: for people, and by ISO 8601 for programs.
#![tactic(auto)]

ghost use Rattle.std.specs.Prelude.{◌≡◌, ◌<◌, ◌^◌, ◌++◌, OnOk, decimal};
ghost use Rattle.jiff_core.specs.Calendar.{IsEpochDay};
ghost use Rattle.jiff_core.specs.Date.{epoch_day};
ghost use Rattle.local_text.specs.Calendar.{civil_date, date_of};
ghost use Rattle.local_text.specs.Text.{clock_text, date_text, iso_text, local_text, offset_text};
ghost use Rattle.local_text.specs.Text.{ahead_of, iso_of, numbers_text, seconds_text, sign_text, two};

use itoa::Buffer;
use jiff_core::civil::Date;
use std::alloc::AllocError;
use zone_times::clock::ZoneClock;
use zone_times::local::LocalTime;

/// Moments before this one have a local text, in seconds since the epoch: 2^35.
const TEXTS_END: u64 = 34_359_738_368;

/// The date of a day, which is 0 on 1970-01-01.
fn date_at(day: i32) -> Date
    requires { IsEpochDay day }
    ensures { epoch_day result ≡ day }
{
    match Date::from_unix_epoch_day(i64::from(day)) {
        Ok(date) => date,
        Err(_) => unreachable!(),
    }
}

/// The last two decimal digits of a number.
fn two(number: u64) -> [u8; 2]
    ensures { result ≡ two number }
{
    [b'0' + (number / 10 % 10) as u8, b'0' + (number % 10) as u8]
}

/// Adds a date, by its numbers: `2026-11-29`.
#[tactic(auto, unfolding(crate::specs::Text::numbers_text))]
fn push_numbers(text: &mut Vec<u8>, year: u64, month: u64, day: u64) -> Result<(), AllocError>
    ensures { OnOk result (text.new.items ≡ text.old.items ++ numbers_text year month day) }
{
    text.extend_from_slice(&two(year / 100))?;
    text.extend_from_slice(&two(year))?;
    text.push(b'-')?;
    text.extend_from_slice(&two(month))?;
    text.push(b'-')?;
    text.extend_from_slice(&two(day))
}

/// Adds a date.
fn push_date(text: &mut Vec<u8>, date: Date) -> Result<(), AllocError>
    ensures { OnOk result (text.new.items ≡ text.old.items ++ date_text (civil_date date)) }
{
    let year = u64::from(date.year.unsigned_abs());
    push_numbers(text, year, u64::from(date.month), u64::from(date.day))
}

/// Adds the date of a day, which is 0 on 1970-01-01.
#[tactic(auto, using(crate::proofs::Dates::date_of_date))]
fn push_day(text: &mut Vec<u8>, day: i32) -> Result<(), AllocError>
    requires { IsEpochDay day }
    ensures { OnOk result (text.new.items ≡ text.old.items ++ date_text (date_of day)) }
{
    push_date(text, date_at(day))
}

/// Adds a time of the day, by its second: `13:09:17`.
fn push_clock(text: &mut Vec<u8>, second: u32) -> Result<(), AllocError>
    ensures { OnOk result (text.new.items ≡ text.old.items ++ clock_text second) }
{
    let second = u64::from(second);
    text.extend_from_slice(&two(second / 3_600))?;
    text.push(b':')?;
    text.extend_from_slice(&two(second / 60 % 60))?;
    text.push(b':')?;
    text.extend_from_slice(&two(second % 60))
}

/// Adds how far a clock is ahead of UTC, in seconds: `+01:00`, with seconds only where there are some.
#[tactic(auto, unfolding(crate::specs::Text::offset_text))]
fn push_offset(text: &mut Vec<u8>, ahead: i64) -> Result<(), AllocError>
    ensures { OnOk result (text.new.items ≡ text.old.items ++ offset_text ahead) }
{
    push_sign(text, ahead)?;
    let seconds = ahead.unsigned_abs();
    text.extend_from_slice(&two(seconds / 3_600))?;
    text.push(b':')?;
    text.extend_from_slice(&two(seconds / 60 % 60))?;
    push_seconds(text, seconds % 60)
}

/// Adds a sign.
fn push_sign(text: &mut Vec<u8>, number: i64) -> Result<(), AllocError>
    ensures { OnOk result (text.new.items ≡ text.old.items ++ sign_text number) }
{
    let sign = if number < 0 { b'-' } else { b'+' };
    text.push(sign)?;
    Ok(())
}

/// Adds a colon and seconds, where there are some.
fn push_seconds(text: &mut Vec<u8>, seconds: u64) -> Result<(), AllocError>
    ensures { OnOk result (text.new.items ≡ text.old.items ++ seconds_text seconds) }
{
    if seconds == 0 {
        return Ok(());
    }
    text.push(b':')?;
    text.extend_from_slice(&two(seconds))
}

/// Adds a moment that has no local text, in seconds since the epoch.
fn push_moment(text: &mut Vec<u8>, moment: u64) -> Result<(), AllocError>
    ensures { OnOk result (text.new.items ≡ text.old.items ++ decimal moment) }
{
    let mut buffer = Buffer::new();
    text.extend_from_slice(buffer.format(moment).as_bytes())
}

/// Adds what a zone's clock and calendar show at a moment, in seconds since the epoch, for people: `2026-11-29 13:09:17`.
/// From 2^35 seconds on the moment is written in seconds. A refused growth is the only error.
pub fn push_local(text: &mut Vec<u8>, clock: &ZoneClock<'_>, moment: u64) -> Result<(), AllocError>
    ensures { OnOk result (text.new.items ≡ text.old.items ++ local_text clock.now moment) }
{
    if moment >= TEXTS_END {
        return push_moment(text, moment);
    }
    let shown = clock.local_time(moment);
    push_day(text, shown.day)?;
    text.push(b' ')?;
    push_clock(text, shown.second)
}

/// The same with the clock's offset from UTC, by ISO 8601: `2026-11-29T13:09:17+01:00`.
pub fn push_iso(text: &mut Vec<u8>, clock: &ZoneClock<'_>, moment: u64) -> Result<(), AllocError>
    ensures { OnOk result (text.new.items ≡ text.old.items ++ iso_text clock.now moment) }
{
    if moment >= TEXTS_END {
        return push_moment(text, moment);
    }
    push_iso_of(text, clock.local_time(moment), moment)
}

/// The same of what a clock shows at the moment.
#[tactic(auto, unfolding(crate::specs::Text::iso_of))]
fn push_iso_of(text: &mut Vec<u8>, shown: LocalTime, moment: u64) -> Result<(), AllocError>
    requires { moment < 2 ^ 35 }
    ensures { OnOk result
        (text.new.items ≡ text.old.items ++ iso_of shown.day shown.second moment) }
{
    push_day(text, shown.day)?;
    text.push(b'T')?;
    push_clock(text, shown.second)?;
    push_offset(text, seconds_ahead(shown, moment))
}

/// How far a clock that shows this is ahead of UTC, in seconds.
#[tactic(auto, unfolding(crate::specs::Text::ahead_of))]
fn seconds_ahead(shown: LocalTime, moment: u64) -> i64
    requires { moment < 2 ^ 35 }
    ensures { result ≡ ahead_of shown.day shown.second moment }
{
    i64::from(shown.day) * 86_400 + i64::from(shown.second) - moment as i64
}
