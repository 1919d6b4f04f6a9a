//! Time periods that never hold, and those for which the zone counts (chapter "Time Periods").

ghost use Rattle.std.specs.Prelude.{◌≡◌, ◌≤◌, ◌<◌, length, IfOk};
ghost use Rattle.std.specs.List.{list_all};
ghost use Rattle.due_model.specs.claims.Limits.{last_moment};
ghost use Rattle.due_model.specs.declared.config.Config.{Config};
ghost use Rattle.object_warnings.specs.Numbers.{numbers_where};
ghost use Rattle.object_warnings.specs.Periods.{has_whole_day, is_always, is_partial_at};
ghost use Rattle.object_warnings.specs.Periods.{never_holds, without_zone};
ghost use Rattle.time_period.specs.claims.Days.{AreCompiled};

use crate::numbers::push_where;
use due_model::config::{Config, Period, Range};
use due_model::limits::DAY;
use due_model::sequence::Sequence;
use std::alloc::{AllocError, Global};
use time_period::compiled::Compiled;
use zone_times::clock::ZoneClock;

/// Whether one of the ranges is the whole day.
fn has_whole_day(ranges: &[Range]) -> bool
    ensures { result ≡ has_whole_day ranges.now }
{
    ranges
        .iter()
        .any(|range| range.start == 0 && range.end == DAY)
}

/// Whether each of the days has.
fn have_whole_days(days: &[Sequence<Range>]) -> bool
    ensures { result ≡ list_all has_whole_day days.now }
{
    days.iter().all(|ranges| has_whole_day(ranges.as_slice()))
}

/// Whether each weekday has a range of the whole day, and neither a dated line nor an exclusion takes anything out.
fn is_always(period: &Period) -> bool
    ensures { result ≡ is_always period.now }
{
    have_whole_days(&period.days) && period.dated.len() == 0 && period.excludes.len() == 0
}

/// Whether the period of that number isn't always.
fn is_partial_at(config: &Config, number: usize) -> bool
    ensures { result ≡ is_partial_at config.now number }
{
    match config.periods.as_slice().get(number) {
        None => false,
        Some(period) => !is_always(period),
    }
}

/// The numbers of the periods that aren't always, where no zone is given (NoZone). A refused growth leaves nothing.
pub fn without_zone(alloc: Global, config: &Config, given: bool) -> Result<Vec<usize>, AllocError>
    ensures { IfOk result (λ found. found.items ≡ without_zone config.now given) }
{
    let mut found = Vec::new(alloc);
    if given {
        return Ok(found);
    }
    for number in 0..config.periods.len() {
        push_where(&mut found, number, is_partial_at(config, number))?;
    }
    Ok(found)
}

/// Whether the period of that number never holds within 400 days from the moment on.
fn never_holds(periods: &[Compiled], zone: &ZoneClock<'_>, t: u64, number: usize) -> bool
    requires moment { t ≤ last_moment }
    requires within { number < length periods.now }
    ensures { (c : Config) → AreCompiled c periods.now → result ≡ never_holds c zone.now t number }
{
    match periods[number].next(zone, t) {
        None => true,
        Some(_) => false,
    }
}

/// The numbers of the periods that never hold within 400 days from the moment on (NeverHours). They are the configuration's,
/// in the order of their numbers. A refused growth leaves nothing.
pub fn never(
    alloc: Global,
    periods: &[Compiled],
    zone: &ZoneClock<'_>,
    t: u64,
) -> Result<Vec<usize>, AllocError>
    requires { t ≤ last_moment }
    ensures { IfOk result (λ found. (c : Config) → AreCompiled c periods.now
        → found.items ≡ numbers_where (never_holds c zone.now t) (length c.periods)) }
{
    let mut found = Vec::new(alloc);
    for number in 0..periods.len() {
        push_where(&mut found, number, never_holds(periods, zone, t, number))?;
    }
    Ok(found)
}
