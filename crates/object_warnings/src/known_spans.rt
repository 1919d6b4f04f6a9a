//! First spans that were found before, so that objects with the same hours share one search.

ghost use Rattle.std.specs.Prelude.{◌≡◌, ◌<◌, Bool, List, None, false, length, slice_index_or, true, IfOk, IfSome};
ghost use Rattle.object_warnings.specs.Hours.{AreKnown, IsFirst, IsKnown, gap_by, row_at};

use crate::hours::Span;
use crate::spans::first_gap;
use crate::told_hours::{differs, is_same};
use crate::week::Week;
use due_model::config::PeriodId;
use std::alloc::{AllocError, Global};

/// How many spans are kept at most.
const SLOTS: usize = 4_096;

/// A span that was found: the first in which the period holds, and none of the hours does.
#[derive(Drop)]
pub(crate) struct Known {
    pub(crate) period: Option<PeriodId>,
    pub(crate) hours: Vec<Option<PeriodId>>,
    pub(crate) span: Option<Span>,
}

/// Slots for spans that are found, each span in the slot of its period and hours: a later one takes the place of one before
/// it. There is none yet.
pub(crate) fn no_spans(alloc: Global) -> Result<Vec<Option<Known>>, AllocError>
    ensures { IfOk result (λ known. (rows : List (List Bool)) → AreKnown rows known.items) }
{
    let mut known = Vec::with_capacity(alloc, SLOTS)?;
    for _slot in 0..SLOTS {
        known.push(None)?;
    }
    Ok(known)
}

/// A number for a period; 0 where there is none.
fn code(period: Option<PeriodId>) -> usize
    ensures { result < 65_537 }
{
    match period {
        None => 0,
        Some(number) => usize::from(number.0) + 1,
    }
}

/// The slot of a period and hours.
fn slot_of(period: Option<PeriodId>, hours: &[Option<PeriodId>]) -> usize
    ensures { result < 4_096 }
{
    let mut slot = code(period) % SLOTS;
    for other in hours {
        slot = (slot * 613 + code(*other)) % SLOTS;
    }
    slot
}

/// Whether the hours at a place differ.
fn differ_at(one: &[Option<PeriodId>], other: &[Option<PeriodId>], place: usize) -> bool
    requires one { place < length one.now }
    requires other { place < length other.now }
    ensures { result ≡ false → slice_index_or one.now place None ≡ slice_index_or other.now place None }
{
    differs(one[place], other[place])
}

/// Whether so many hours are the same.
fn are_same_items(one: &[Option<PeriodId>], other: &[Option<PeriodId>]) -> bool
    requires { length one.now ≡ length other.now }
    ensures { result ≡ true → one.now ≡ other.now }
{
    let mut place = 0;
    while place < one.len() {
        if differ_at(one, other, place) {
            return false;
        }
        place += 1;
    }
    true
}

/// Whether the hours are the same.
fn are_same(one: &[Option<PeriodId>], other: &[Option<PeriodId>]) -> bool
    ensures { result ≡ true → one.now ≡ other.now }
{
    if one.len() == other.len() {
        are_same_items(one, other)
    } else {
        false
    }
}

/// Whether the span is that of the period and the hours.
fn fits(one: &Known, period: Option<PeriodId>, hours: &[Option<PeriodId>]) -> bool
    ensures period { result ≡ true → one.now.period ≡ period }
    ensures hours { result ≡ true → one.now.hours.items ≡ hours.now }
{
    is_same(one.period, period) && are_same(one.hours.as_slice(), hours)
}

/// The span, if it is.
fn span_if_fit(
    one: &Known,
    period: Option<PeriodId>,
    hours: &[Option<PeriodId>],
) -> Option<Option<Span>>
    ensures { (rows : List (List Bool)) → IsKnown rows one.now → IfSome result
        (IsFirst (λ minute. gap_by (row_at rows minute) period hours.now)) }
{
    if fits(one, period, hours) {
        Some(one.span)
    } else {
        None
    }
}

/// The span of a slot, if it is that of the period and the hours.
fn span_in(
    slot: &Option<Known>,
    period: Option<PeriodId>,
    hours: &[Option<PeriodId>],
) -> Option<Option<Span>>
    ensures { (rows : List (List Bool)) → IfSome slot.now (IsKnown rows) → IfSome result
        (IsFirst (λ minute. gap_by (row_at rows minute) period hours.now)) }
{
    match slot {
        None => None,
        Some(one) => span_if_fit(one, period, hours),
    }
}

/// The span in the slot of that number, if it is.
fn found(
    known: &[Option<Known>],
    slot: usize,
    period: Option<PeriodId>,
    hours: &[Option<PeriodId>],
) -> Option<Option<Span>>
    ensures { (rows : List (List Bool)) → AreKnown rows known.now → IfSome result
        (IsFirst (λ minute. gap_by (row_at rows minute) period hours.now)) }
{
    if slot >= known.len() {
        return None;
    }
    span_in(&known[slot], period, hours)
}

/// Puts a span into a slot.
fn put(known: &mut Vec<Option<Known>>, slot: usize, one: Known)
    ensures { (rows : List (List Bool)) → IsKnown rows one → AreKnown rows known.old.items
        → AreKnown rows known.new.items }
{
    if slot >= known.len() {
        return;
    }
    known[slot] = Some(one);
}

/// The first span of the week in which the period holds, and none of the hours does, which is put into the slot.
fn span_anew(
    all: &Week,
    known: &mut Vec<Option<Known>>,
    slot: usize,
    period: Option<PeriodId>,
    hours: Vec<Option<PeriodId>>,
) -> Option<Span>
    requires { AreKnown all.now known.old.items }
    ensures known { AreKnown all.now known.new.items }
    ensures first { IsFirst (λ minute. gap_by (row_at all.now minute) period hours.items) result }
{
    let span = first_gap(all, period, hours.as_slice());
    put(
        known,
        slot,
        Known {
            period,
            hours,
            span,
        },
    );
    span
}

/// The first span of the week in which the period holds, and none of the hours does: as it was found before, or anew.
pub(crate) fn span_of(
    all: &Week,
    known: &mut Vec<Option<Known>>,
    period: Option<PeriodId>,
    hours: Vec<Option<PeriodId>>,
) -> Option<Span>
    requires { AreKnown all.now known.old.items }
    ensures known { AreKnown all.now known.new.items }
    ensures first { IsFirst (λ minute. gap_by (row_at all.now minute) period hours.items) result }
{
    let slot = slot_of(period, hours.as_slice());
    match found(known.as_slice(), slot, period, hours.as_slice()) {
        Some(span) => span,
        None => span_anew(all, known, slot, period, hours),
    }
}
