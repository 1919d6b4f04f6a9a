//! What is kept of a period from which a dated line is reached: its ranges in order, and the periods that it excludes.

ghost use Rattle.std.specs.Prelude.{◌≡◌, ◌<◌, All, IfOk};
ghost use Rattle.due_model.specs.claims.Limits.{max_periods};
ghost use Rattle.time_period.specs.Steps.{AreMerged, AreMergedLines, IsOwnOf};

use crate::made_day::merged;
use crate::step::Step;
use due_model::config::{Dated, Period, PeriodId, Range};
use due_model::sequence::Sequence;
use std::alloc::{AllocError, Global};

/// What is kept of the period of that number.
pub(crate) fn own_step(alloc: Global, number: u16, period: &Period) -> Result<Step, AllocError>
    requires number { number < max_periods }
    requires excludes { All (λ excluded. excluded.0 < max_periods) period.now.excludes }
    ensures { IfOk result (IsOwnOf number period.now) }
{
    let days = merged_days(alloc, &period.days)?;
    let dated = merged_lines(alloc, period.dated.as_slice())?;
    let excludes = copy_ids(alloc, period.excludes.as_slice())?;
    Ok(Step::new(number, days, dated, excludes))
}

/// Days with their ranges in order.
fn merged_days(
    alloc: Global,
    days: &[Sequence<Range>],
) -> Result<Sequence<Sequence<Range>>, AllocError>
    ensures { IfOk result (AreMerged days.now) }
{
    let mut all = Vec::with_capacity(alloc, days.len())?;
    for day in days {
        let ranges = merged(alloc, day.as_slice())?;
        all.push(Sequence::new(ranges))?;
    }
    Ok(Sequence::new(all))
}

/// Dated lines with their ranges in order.
fn merged_lines(alloc: Global, dated: &[Dated]) -> Result<Sequence<Dated>, AllocError>
    ensures { IfOk result (AreMergedLines dated.now) }
{
    let mut all = Vec::with_capacity(alloc, dated.len())?;
    for line in dated {
        let ranges = merged(alloc, line.ranges.as_slice())?;
        all.push(Dated {
            day: line.day,
            ranges: Sequence::new(ranges),
        })?;
    }
    Ok(Sequence::new(all))
}

/// The same numbers once more.
fn copy_ids(alloc: Global, ids: &[PeriodId]) -> Result<Sequence<PeriodId>, AllocError>
    ensures { IfOk result (λ copy. copy ≡ ids.now) }
{
    let mut copy = Vec::new(alloc);
    copy.extend_from_slice(ids)?;
    Ok(Sequence::new(copy))
}
