//! How a day's ranges are made: in order, with a gap between each two, and without those of other periods.

ghost use Rattle.std.specs.Prelude.{◌≡◌, ℕ, ◌<◌, ◌≤◌, not, length, All, IfOk, IsOk};
ghost use Rattle.std.specs.List.Sorted.{IsNonDecreasingBy};
ghost use Rattle.due_model.specs.claims.Limits.{day};
ghost use Rattle.time_period.specs.Days.{closed, holds_any, holds_without, IsDayOf};
ghost use Rattle.time_period.specs.claims.Ranges.{in_ranges};
ghost use Rattle.time_period.specs.Ranges.{IsDay};
ghost use Rattle.time_period.specs.Stretches.{IsStretch};

use crate::day::stretch_in;
use crate::step::Step;
use crate::stretch::Stretch;
use due_model::config::{PeriodId, Range};
use due_model::limits::DAY;
use std::alloc::{AllocError, Global};

/// A day's ranges in order, without those of the weekday of excluded periods, which are done.
pub(crate) fn day_of(
    alloc: Global,
    own: &[Range],
    excludes: &[PeriodId],
    done: &[Step],
    weekday: u8,
) -> Result<Vec<Range>, AllocError>
    requires { All (λ excluded. excluded.0 < length done.now) excludes.now }
    ensures { IfOk result (λ day. IsDayOf (holds_without own.now excludes.now done.now weekday) day.items) }
{
    let sorted = merged(alloc, own)?;
    without(alloc, sorted.as_slice(), excludes, done, weekday)
}

/// The same of ranges that stand in order.
fn without(
    alloc: Global,
    own: &[Range],
    excludes: &[PeriodId],
    done: &[Step],
    weekday: u8,
) -> Result<Vec<Range>, AllocError>
    requires sorted { IsDay own.now }
    requires known { All (λ excluded. excluded.0 < length done.now) excludes.now }
    ensures { IfOk result (λ day. IsDayOf (holds_without own.now excludes.now done.now weekday) day.items) }
{
    let mut day = Vec::new(alloc);
    let mut start = stays_until(own, excludes, done, weekday, 0, false);
    while start < DAY {
        let end = stays_until(own, excludes, done, weekday, start, true);
        day.push(Range { start, end })?;
        start = stays_until(own, excludes, done, weekday, end, false);
    }
    Ok(day)
}

/// A day's ranges in order, those that meet joined.
pub(crate) fn merged(alloc: Global, own: &[Range]) -> Result<Vec<Range>, AllocError>
    ensures { IfOk result (λ day. IsDayOf (in_ranges own.now) day.items) }
{
    let mut sorted = Vec::from_slice(alloc, own)?;
    sorted.sort_unstable_by_key(|range| range.start);
    joined(alloc, sorted.as_slice())
}

/// The same of ranges that stand in the order of their starts.
fn joined(alloc: Global, sorted: &[Range]) -> Result<Vec<Range>, AllocError>
    requires { IsNonDecreasingBy (λ r. r.start) sorted.now }
    ensures { IfOk result (λ day. IsDayOf (in_ranges sorted.now) day.items) }
{
    let mut day = Vec::new(alloc);
    let mut start = 0;
    let mut end = 0;
    for range in sorted {
        let high = range.end.min(DAY);
        if range.start <= end {
            end = end.max(high);
        } else if range.start < high {
            close(&mut day, start, end)?;
            start = range.start;
            end = high;
        }
    }
    close(&mut day, start, end)?;
    Ok(day)
}

/// Adds a range, where it isn't empty.
fn close(day: &mut Vec<Range>, start: u32, end: u32) -> Result<(), AllocError>
    ensures { IsOk result → day.new.items ≡ closed day.old.items start end }
{
    if start < end {
        day.push(Range { start, end })?;
    }
    Ok(())
}

/// The first second, from one on, at which the day starts to hold, or no longer holds; or its end.
fn stays_until(
    own: &[Range],
    excludes: &[PeriodId],
    done: &[Step],
    weekday: u8,
    from: u32,
    holds: bool,
) -> u32
    requires sorted { IsDay own.now }
    requires known { All (λ excluded. excluded.0 < length done.now) excludes.now }
    requires from { from ≤ day }
    ensures low { from ≤ result }
    ensures high { result ≤ day }
    ensures alike { (k : ℕ) → from ≤ k → k < result
        → holds_without own.now excludes.now done.now weekday k ≡ holds }
    ensures over { result < day
        → holds_without own.now excludes.now done.now weekday result ≡ not holds }
{
    let mut end = from;
    while end < DAY {
        let stretch = stretch_at(own, excludes, done, weekday, end);
        if stretch.holds != holds {
            return end;
        }
        end = stretch.end;
    }
    end
}

/// Whether the day holds a second, and a second up to which that stays.
fn stretch_at(
    own: &[Range],
    excludes: &[PeriodId],
    done: &[Step],
    weekday: u8,
    second: u32,
) -> Stretch
    requires sorted { IsDay own.now }
    requires known { All (λ excluded. excluded.0 < length done.now) excludes.now }
    requires second { second < day }
    ensures { IsStretch (holds_without own.now excludes.now done.now weekday) second result }
{
    stretch_in(own, second).without(excluded(excludes, done, weekday, second))
}

/// The same of the periods that are excluded: whether any of them holds.
fn excluded(excludes: &[PeriodId], done: &[Step], weekday: u8, second: u32) -> Stretch
    requires known { All (λ excluded. excluded.0 < length done.now) excludes.now }
    requires second { second < day }
    ensures { IsStretch (λ k. holds_any excludes.now done.now weekday k) second result }
{
    let mut stretch = Stretch::never();
    for period in excludes {
        stretch = stretch.or(done[usize::from(period.0)].on_weekday(weekday, second));
    }
    stretch
}
