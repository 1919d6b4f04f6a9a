//! Whether an escalation of an object applies to a notification of that object.

ghost use Rattle.std.specs.Prelude.{◌≡◌, ◌<◌, ◌≤◌};
ghost use Rattle.due_model.specs.declared.config.Config.{Config};
ghost use Rattle.due_model.specs.claims.Limits.{last_moment};
ghost use Rattle.time_period.specs.claims.Days.{AreCompiled};
ghost use Rattle.escalation.specs.Matching.{applies};

use due_model::config::Escalation;
use due_model::options::OptionLetter;
use time_period::compiled::{Compiled, is_in_period};
use zone_times::clock::ZoneClock;

/// Whether an escalation applies to the n-th notification of a problem of its object: the number is one of
/// its numbers, the letter one of its options, and the moment in its period.
pub(crate) fn applies(
    escalation: &Escalation,
    number: u64,
    letter: OptionLetter,
    t: u64,
    periods: &[Compiled],
    zone: &ZoneClock<'_>,
) -> bool
    requires moment { t ≤ last_moment }
    ensures { (c : Config) → AreCompiled c periods.now
        → result ≡ applies c zone.now number letter t escalation.now }
{
    u64::from(escalation.first) <= number
        && (escalation.last == 0 || number <= u64::from(escalation.last))
        && escalation.options.contains(letter)
        && is_in_period(periods, escalation.period, zone, t)
}
