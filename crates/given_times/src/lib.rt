//! The times of a command line: a moment in seconds, by ISO 8601 or as a zone's clock shows it, and how many minutes something
//! lasts.
#![tactic(auto)]

ghost use Rattle.std.specs.Prelude.{◌≡◌, ℕ, ◌<◌, ◌≤◌, ◌^◌, pos, IfNone, IfSome};
ghost use Rattle.std.specs.Int.{int_div_euclid};
ghost use Rattle.due_model.specs.claims.Limits.{last_moment};
ghost use Rattle.given_times.specs.Given.{IsMinutes, IsMoment, IsSeconds, most_minutes};

mod showing;

use due_model::limits::LAST_MOMENT;
use due_model::zone::Zone;
use jiff_core::Timestamp;
use jiff_fmt::{friendly, temporal};
use showing::first_showing;

/// How many nanoseconds a second has, and a minute.
const SECOND: i128 = 1_000_000_000;

const MINUTE: i128 = 60 * SECOND;

/// The most minutes of a command line: those of a week.
const MOST_MINUTES: i128 = 10_080;

/// The moment that a text says, in seconds since the epoch, up to the end of the year 2999: in such seconds, as
/// `1795907460`; by ISO 8601 with an offset, as `2026-11-29T00:11:00+01:00`; or without one, as `2026-11-29 00:11`, which is
/// the first moment at which the zone's clock shows that. None where it says none, and where the clock never shows that.
pub fn moment_given(zone: &Zone, text: &str) -> Option<u64>
    ensures limit { IfSome result (λ moment. moment ≤ last_moment) }
    ensures held { IfSome result (IsMoment zone.now text.now) }
    ensures lacking { IfNone result ((moment : ℕ)
        → moment ≤ last_moment → IsMoment zone.now text.now moment → ⊥) }
{
    if let Ok(seconds) = u64::from_str_radix(text, 10) {
        return if seconds <= LAST_MOMENT {
            Some(seconds)
        } else {
            None
        };
    }
    match temporal::parse_timestamp(text.as_bytes()) {
        Ok(instant) => second_of(instant),
        Err(_) => match temporal::parse_datetime(text.as_bytes()) {
            Ok(shown) => first_showing(zone, shown),
            Err(_) => None,
        },
    }
}

/// The second of an instant, from the epoch on, if it isn't later than moments are.
fn second_of(instant: Timestamp) -> Option<u64>
    ensures limit { IfSome result (λ moment. moment ≤ last_moment) }
    ensures held { IfSome result (λ moment.
        pos moment ≡ int_div_euclid instant.nanosecond (pos 1_000_000_000)) }
    ensures lacking { IfNone result ((moment : ℕ) → moment ≤ last_moment
        → pos moment ≡ int_div_euclid instant.nanosecond (pos 1_000_000_000) → ⊥) }
{
    let second = instant.nanosecond.div_euclid(SECOND);
    if second < 0 || second > LAST_MOMENT as i128 {
        None
    } else {
        Some(second as u64)
    }
}

/// How many whole minutes a length of time has, as `4h`, `30m`, `90s` or `1h 30m`, 1 to 10,080. None where it has fewer or
/// more, and where the text says no length.
pub fn minutes_given(text: &str) -> Option<u16>
    ensures range { IfSome result (λ minutes. (1 ≤ minutes) × (minutes ≤ most_minutes)) }
    ensures held { IfSome result (IsMinutes text.now) }
    ensures lacking { IfNone result ((minutes : ℕ)
        → 1 ≤ minutes → minutes ≤ most_minutes → IsMinutes text.now minutes → ⊥) }
{
    match friendly::parse_duration(text.as_bytes()) {
        Ok(length) => minutes_of(length),
        Err(_) => None,
    }
}

/// How many whole minutes so many nanoseconds have, 1 to 10,080.
fn minutes_of(length: i128) -> Option<u16>
    ensures range { IfSome result (λ minutes. (1 ≤ minutes) × (minutes ≤ most_minutes)) }
    ensures held { IfSome result (λ minutes.
        pos minutes ≡ int_div_euclid length (pos 60_000_000_000)) }
    ensures lacking { IfNone result ((minutes : ℕ) → 1 ≤ minutes → minutes ≤ most_minutes
        → pos minutes ≡ int_div_euclid length (pos 60_000_000_000) → ⊥) }
{
    let minutes = length.div_euclid(MINUTE);
    if minutes < 1 || minutes > MOST_MINUTES {
        None
    } else {
        Some(minutes as u16)
    }
}
