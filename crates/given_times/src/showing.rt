//! The first moment at which a zone's clock shows a date and a time.

ghost use Rattle.std.specs.Prelude.{◌≡◌, ℕ, ◌+◌, ◌-◌, ◌*◌, ◌<◌, ◌≤◌, ◌^◌, IfNone, IfSome};
ghost use Rattle.due_model.specs.claims.Limits.{last_moment};
ghost use Rattle.due_model.specs.claims.Local.{local};
ghost use Rattle.given_times.specs.Given.{IsFirst, shown_by};
ghost use Rattle.jiff_core.specs.Date.{epoch_day};
ghost use Rattle.jiff_fmt.specs.Temporal.{date_parts, time_parts};
ghost use Rattle.zone_times.specs.Clock.{GoesOn};

use due_model::limits::LAST_MOMENT;
use due_model::zone::Zone;
use jiff_core::civil::{DateTime, Time};
use zone_times::clock::ZoneClock;
use zone_times::local::LocalTime;

/// The first moment at which the zone's clock shows a date and a time, if it shows them. It goes through the days from the
/// epoch on: some milliseconds.
pub(crate) fn first_showing(zone: &Zone, shown: DateTime) -> Option<u64>
    ensures limit { IfSome result (λ moment. moment ≤ last_moment) }
    ensures held { IfSome result (IsFirst zone.now
        (shown_by (date_parts shown.date, time_parts shown.time))) }
    ensures lacking { IfNone result ((moment : ℕ) → moment ≤ last_moment
        → local zone.now moment ≡ shown_by (date_parts shown.date, time_parts shown.time) → ⊥) }
{
    let day = shown.date.to_unix_epoch_day();
    let second = second_of_day(shown.time);
    let mut clock = ZoneClock::new(zone);
    let mut from = 0;
    while from <= LAST_MOMENT {
        clock.move_to(from);
        let until = clock.goes_on_until(from);
        if let Some(moment) = moment_within(clock.local_time(from), from, until, day, second) {
            return if moment <= LAST_MOMENT {
                Some(moment)
            } else {
                None
            };
        }
        from = until;
    }
    None
}

/// The second of the day of a time.
fn second_of_day(time: Time) -> u32
    ensures { result ≡ time.hour * 3600 + time.minute * 60 + time.second }
{
    u32::from(time.hour) * 3_600 + u32::from(time.minute) * 60 + u32::from(time.second)
}

/// The moment at which a clock shows this second of this day, from one moment on, at which it shows `now`, and before
/// another, up to which it goes on second by second.
fn moment_within(now: LocalTime, from: u64, until: u64, day: i32, second: u32) -> Option<u64>
    requires { from < 2 ^ 35 }
    ensures held { IfSome result (λ moment. (now.day ≡ day) × (from ≤ moment) × (moment < until)
        × (now.second + (moment - from) ≡ second)) }
    ensures lacking { IfNone result ((moment : ℕ) → from ≤ moment → moment < until
        → now.day ≡ day → now.second + (moment - from) ≡ second → ⊥) }
{
    if now.day != day || second < now.second {
        return None;
    }
    let moment = from + u64::from(second - now.second);
    if moment < until { Some(moment) } else { None }
}
