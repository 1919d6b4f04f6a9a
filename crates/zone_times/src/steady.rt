//! How long a zone's offset stays as it is, from a moment.

ghost use Rattle.std.specs.Prelude.{◌≡◌, ℕ, ◌^◌, ◌<◌, ◌≤◌, ◌<ℤ◌, pos, option_map};
ghost use Rattle.due_model.specs.claims.Local.{offset};
ghost use Rattle.zone_times.specs.Changes.{SameYear, next_change};

use crate::local::instant;
use due_model::limits::DAY;
use due_model::zone::Zone;
use jiff::Timestamp;
use jiff_core::Offset;
use jiff_core::civil::Date;

/// No moment that is asked about is later: 2^36.
const HORIZON: u64 = 68_719_476_736;

/// A second up to which the zone's offset stays as it is at `t`; at the second itself it may be another. A rule's
/// offset may change at the end of a year of UTC without a change that `jiff` tells.
pub(crate) fn offset_until(zone: &Zone, t: u64) -> u64
    requires { t < 2 ^ 35 }
    ensures later { t < result }
    ensures steady { (k : ℕ) → t ≤ k → k < result → offset zone.now k ≡ offset zone.now t }
{
    let change = match change_after(zone, t) {
        Some(change) => seconds_below(change.as_second()),
        None => HORIZON,
    };
    change.min(year_end(t)).max(t + 1)
}

/// The instant at which the zone's offset next changes, after that of a moment.
fn change_after(zone: &Zone, t: u64) -> Option<Timestamp>
    requires { t < 2 ^ 35 }
    ensures { option_map (λ x. x.nanosecond) result ≡ next_change zone.now t }
{
    match zone {
        Zone::Utc => None,
        Zone::Rules(rules) => match rules.following(instant(t)).next() {
            Some(change) => Some(change.timestamp()),
            None => None,
        },
        Zone::File(table) => match table.next_transition(instant(t).to_plain()) {
            Some(change) => Some(Timestamp::from_plain(change.timestamp)),
            None => None,
        },
    }
}

/// A second up to which the year of UTC is that of `t`.
fn year_end(t: u64) -> u64
    requires { t < 2 ^ 35 }
    ensures same { (k : ℕ) → t ≤ k → k < result → SameYear t k }
    ensures near { result ≤ 2 ^ 36 }
{
    let date = Offset::UTC.to_datetime(instant(t).to_plain()).date;
    let last = Date::constrain(date.year, 12, 31).to_unix_epoch_day();
    seconds_below((i64::from(last) + 1) * DAY as i64).min(HORIZON)
}

/// How many seconds of the epoch lie before this one.
fn seconds_below(second: i64) -> u64
    ensures { (k : ℕ) → k < result → pos k <ℤ second }
{
    if second < 0 { 0 } else { second as u64 }
}
