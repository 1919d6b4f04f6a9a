//! The first span of a week in which a period holds and none of some others does.

ghost use Rattle.std.specs.Prelude.{◌≡◌, ℕ, ◌<◌, ◌≤◌, not, if◌then◌else◌};
ghost use Rattle.std.specs.List.{list_any};
ghost use Rattle.object_warnings.specs.Hours.{IsFirst, flag, gap_by, row_at, week};

use crate::hours::Span;
use crate::week::{WEEK, Week};
use due_model::config::PeriodId;

/// Whether a period holds by the flags of all periods; no period is always.
pub(crate) fn flag(flags: &[bool], period: Option<PeriodId>) -> bool
    ensures { result ≡ flag flags.now period }
{
    match period {
        None => true,
        Some(number) => match flags.get(usize::from(number.0)) {
            None => false,
            Some(holds) => *holds,
        },
    }
}

/// Whether one of the periods does.
fn some_holds(flags: &[bool], hours: &[Option<PeriodId>]) -> bool
    ensures { result ≡ list_any (flag flags.now) hours.now }
{
    hours.iter().any(|period| flag(flags, *period))
}

/// Whether the period holds, and none of the others does.
fn is_gap(flags: &[bool], period: Option<PeriodId>, hours: &[Option<PeriodId>]) -> bool
    ensures { result ≡ gap_by flags.now period hours.now }
{
    flag(flags, period) && !some_holds(flags, hours)
}

/// Whether it is so, or isn't, as it is wanted.
fn is_as_wanted(so: bool, wanted: bool) -> bool
    ensures { result ≡ (if wanted then so else not so) }
{
    if wanted { so } else { !so }
}

/// The first minute from one on at which there is a gap, or none, as it is wanted; a week, where there is no such minute.
fn first_from(
    all: &Week,
    period: Option<PeriodId>,
    hours: &[Option<PeriodId>],
    from: usize,
    wanted: bool,
) -> usize
    requires { from ≤ week }
    ensures low { from ≤ result }
    ensures high { result ≤ week }
    ensures others { (minute : ℕ) → from ≤ minute → minute < result
        → gap_by (row_at all.now minute) period hours.now ≡ not wanted }
    ensures found { result < week → gap_by (row_at all.now result) period hours.now ≡ wanted }
{
    let mut minute = from;
    while minute < WEEK {
        let gap = is_gap(all.row(minute), period, hours);
        if is_as_wanted(gap, wanted) {
            return minute;
        }
        minute = all.until(minute);
    }
    minute
}

/// The first span of the week in which the period holds, and none of the others does.
pub(crate) fn first_gap(
    all: &Week,
    period: Option<PeriodId>,
    hours: &[Option<PeriodId>],
) -> Option<Span>
    ensures { IsFirst (λ minute. gap_by (row_at all.now minute) period hours.now) result }
{
    let start = first_from(all, period, hours, 0, true);
    if start >= WEEK {
        return None;
    }
    let end = first_from(all, period, hours, start, false);
    Some(Span {
        start: start as u16,
        end: end as u16,
    })
}
