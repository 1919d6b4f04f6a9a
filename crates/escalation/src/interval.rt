//! How long after a problem notice the next of the same state is due.

ghost use Rattle.std.specs.Prelude.{◌≡◌, ◌*◌, ◌<◌, ◌≤◌, All};
ghost use Rattle.std.specs.Prelude.{Some, length, min, slice_get};
ghost use Rattle.std.specs.Prelude.{option_map, unwrap_or};
ghost use Rattle.due_model.specs.claims.Accepted.{IsAccepted};
ghost use Rattle.due_model.specs.claims.Escalations.{gap};
ghost use Rattle.due_model.specs.claims.Limits.{last_moment, max_number};
ghost use Rattle.due_model.specs.declared.config.Object.{Object};
ghost use Rattle.time_period.specs.claims.Days.{AreCompiled};
ghost use Rattle.escalation.specs.Matching.{applying, least_of};

use crate::matching::applies;
use due_model::config::{Config, ObjectId};
use due_model::options::OptionLetter;
use time_period::compiled::Compiled;
use zone_times::clock::ZoneClock;

/// How long after the n-th problem notice of an object, which goes out at `t` about a state of this letter, the
/// next of the same state is due, in seconds: 0 to 60,000,000, and 0 is never. It is the least interval of the
/// escalations that match, and the object's own where none does. It takes no memory.
pub fn matching_interval(
    config: &Config,
    object: ObjectId,
    number: u64,
    letter: OptionLetter,
    t: u64,
    periods: &[Compiled],
    zone: &ZoneClock<'_>,
) -> u64
    requires accepted { IsAccepted config.now }
    requires object { object.0 < length config.now.objects }
    requires moment { t ≤ last_moment }
    requires compiled { AreCompiled config.now periods.now }
    ensures value { (settings : Object) → slice_get config.now.objects object.0 ≡ Some settings
        → result ≡ gap config.now zone.now object.0 settings number letter t }
    ensures range { result ≤ 60 * max_number }
{
    let own = config.objects.as_slice()[usize::from(object.0)].interval;
    let places = config.escalations.of(object);
    let least = least_interval(config, places, number, letter, t, periods, zone);
    60 * u64::from(least.unwrap_or(own))
}

/// The least interval of the escalations at these places that apply, if one does.
fn least_interval(
    config: &Config,
    places: &[usize],
    number: u64,
    letter: OptionLetter,
    t: u64,
    periods: &[Compiled],
    zone: &ZoneClock<'_>,
) -> Option<u32>
    requires accepted { IsAccepted config.now }
    requires within { All (λ place. place < length config.now.escalations) places.now }
    requires moment { t ≤ last_moment }
    requires compiled { AreCompiled config.now periods.now }
    ensures { result ≡ least_of (applying config.now zone.now number letter t places.now) }
{
    let mut least = None;
    for place in places {
        let escalation = &config.escalations.as_slice()[*place];
        if applies(escalation, number, letter, t, periods, zone) {
            least = Some(lesser(least, escalation.interval));
        }
    }
    least
}

/// The lesser of an interval and another, if there is another.
fn lesser(least: Option<u32>, interval: u32) -> u32
    ensures { result ≡ unwrap_or (option_map (λ other. min other interval) least) interval }
{
    match least {
        Some(other) => other.min(interval),
        None => interval,
    }
}
