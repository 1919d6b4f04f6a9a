//! When a period holds, and when it next does (chapter "Time Periods").

ghost use Rattle.std.specs.Prelude.{◌≡◌, ◌<◌, ◌≤◌, ◌^◌, IfOk, length, map};
ghost use Rattle.std.specs.List.{list_any};
ghost use Rattle.due_model.specs.claims.Limits.{last_moment};
ghost use Rattle.day_rules.specs.Dates.{shown};
ghost use Rattle.due_model.specs.claims.Periods.{in_period, next_in};
ghost use Rattle.slow_rules.specs.Flags.{flag_at};
ghost use Rattle.slow_rules.specs.Rounds.{ArePeriodFlags, ArePeriodsAt, is_open};
ghost use Rattle.slow_rules.specs.Rounds.{period_flag};

use crate::flags::flag_at;
use crate::ranges::own_ranges_hold;
use day_rules::CalendarTime;
use due_model::config::{Config, Period, PeriodId};
use due_model::zone::Zone;
use std::alloc::{AllocError, Global};
use zone_times::local::local_time;

/// How many moments `next_in` looks at, one a second: 400 days, both ends counted.
const MOMENTS: u64 = 34_560_001;

/// Whether a moment, in seconds since the epoch, is in a period; no period is always. The work grows with the square
/// of how many periods the configuration has, times their ranges and exclusions. Want of memory is the only error,
/// and leaves nothing.
pub fn in_period(
    alloc: Global,
    config: &Config,
    zone: &Zone,
    period: Option<PeriodId>,
    t: u64,
) -> Result<bool, AllocError>
    requires { t ≤ last_moment }
    ensures { IfOk result (λ is. is ≡ in_period config.now zone.now period t) }
{
    let flags = flags_at(alloc, config, zone, t)?;
    Ok(is_open(flags.as_slice(), period))
}

/// The least moment of a period at or after `t`, in seconds since the epoch, at most 400 days on; none, if there is
/// none. It looks at one second after another, so the work is that of `in_period` for each second up to the answer, and
/// for all 34,560,001 of them where there is none. Want of memory is the only error, and leaves nothing.
pub fn next_in(
    alloc: Global,
    config: &Config,
    zone: &Zone,
    period: Option<PeriodId>,
    t: u64,
) -> Result<Option<u64>, AllocError>
    requires { t ≤ last_moment }
    ensures { IfOk result (λ next. next ≡ next_in config.now zone.now period t) }
{
    for at in t..t + MOMENTS {
        let flags = flags_at(alloc, config, zone, at)?;
        if is_open(flags.as_slice(), period) {
            return Ok(Some(at));
        }
    }
    Ok(None)
}

/// A flag for each period: whether it holds at a moment.
pub(crate) fn flags_at(
    alloc: Global,
    config: &Config,
    zone: &Zone,
    t: u64,
) -> Result<Vec<bool>, AllocError>
    requires { t < 2 ^ 35 }
    ensures { IfOk result (λ flags. ArePeriodsAt config.now zone.now t flags.items) }
{
    let local = local_time(zone, t);
    let time = CalendarTime::new(local.day, local.second);
    rounds(alloc, config.periods.as_slice(), time)
}

/// Whether a period holds by these flags; no period is always.
pub(crate) fn is_open(flags: &[bool], period: Option<PeriodId>) -> bool
    ensures { result ≡ is_open flags.now period }
{
    match period {
        None => true,
        Some(period) => flag_at(flags, period.0),
    }
}

/// A flag for each period: whether it holds at a local time. Each round lets chains of exclusions have one
/// period more.
#[tactic(auto, using(crate::proofs::RoundLemmas::periods_more))]
fn rounds(alloc: Global, periods: &[Period], time: CalendarTime) -> Result<Vec<bool>, AllocError>
    ensures { IfOk result (λ flags. ArePeriodFlags (length periods.now) periods.now
        (shown time) flags.items) }
{
    let mut flags = Vec::new(alloc);
    for _round in 0..periods.len() {
        let next = round(alloc, periods, flags.as_slice(), time)?;
        flags = next;
    }
    Ok(flags)
}

/// The flags of the next round.
fn round(
    alloc: Global,
    periods: &[Period],
    before: &[bool],
    time: CalendarTime,
) -> Result<Vec<bool>, AllocError>
    ensures { IfOk result (λ flags. flags.items
        ≡ map (period_flag before.now (shown time))
        periods.now) }
{
    let mut flags = Vec::new(alloc);
    for period in periods {
        flags.push(period_flag(period, before, time))?;
    }
    Ok(flags)
}

/// A period's flag of the next round: one of its own ranges holds, and no period that it excludes does.
fn period_flag(period: &Period, before: &[bool], time: CalendarTime) -> bool
    ensures { result ≡ period_flag before.now (shown time) period.now }
{
    own_ranges_hold(period, time) && !holds_any(period.excludes.as_slice(), before)
}

/// Whether one of these periods holds by the flags.
fn holds_any(periods: &[PeriodId], flags: &[bool]) -> bool
    ensures { result ≡ list_any (λ period. flag_at flags.now period.0) periods.now }
{
    periods.iter().any(|period| flag_at(flags, period.0))
}
