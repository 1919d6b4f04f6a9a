//! Lines of dates of time periods (chapters "Time Periods" and "Object Inheritance"): which are none, and which say
//! something other than a day.

ghost use Rattle.std.specs.Prelude.{◌≡◌, ℕ, ◌<◌, List, length, map, slice_index_or, IfOk, OnOk};
ghost use Rattle.std.specs.List.{list_any};
ghost use Rattle.object_faults.specs.Columns.{date_at, date_by, IsFirst};
ghost use Rattle.object_faults.specs.claims.Dated.{has_bad_line, has_colon, has_other_line, has_time, is_bad_day};
ghost use Rattle.object_faults.specs.claims.Dated.{is_bad_line, is_other_day, is_other_line};
ghost use Rattle.object_inheritance.specs.claims.DatedLines.{AreLines};
ghost use Rattle.object_inheritance.specs.DatedLines.{named};
ghost use Rattle.object_inheritance.specs.LineSearch.{AreMarks};
ghost use Rattle.object_reader.specs.declared.block.Block.{Block};

use crate::fault::ValueFault;
use crate::first::{Found, is_registered};
use object_inheritance::dated_lines::{Line, LineMarks, line_marks, lines_at};
use object_inheritance::kinds::is_period;
use object_inheritance::templates::Templates;
use object_values::day_rules::{DayName, day_named};
use object_values::ranges::are_ranges;
use std::alloc::{AllocError, Global};

/// Whether bytes have a colon.
fn has_colon(bytes: &[u8]) -> bool
    ensures { result ≡ has_colon bytes.now }
{
    bytes.iter().any(|byte| *byte == b':')
}

/// Whether a line has a word with a colon, which may be its name.
fn has_time(name: &[u8], text: &[u8]) -> bool
    ensures { result ≡ has_time name.now text.now }
{
    has_colon(name) || has_colon(text)
}

/// Whether the days have a number that none has, or are days and the text isn't ranges.
fn is_bad_day(day: DayName, text: &[u8]) -> bool
    ensures { result ≡ is_bad_day day text.now }
{
    match day {
        DayName::Day(_) => !are_ranges(text),
        DayName::NoDay => true,
        DayName::Other => false,
    }
}

/// Whether a name says something other than a day.
fn is_other_day(day: DayName) -> bool
    ensures { result ≡ is_other_day day }
{
    match day {
        DayName::Day(_) => false,
        DayName::NoDay => false,
        DayName::Other => true,
    }
}

/// Whether a line of dates has no word with a colon, a number that no day has, or a text that isn't ranges.
fn is_bad_line(name: &[u8], text: &[u8]) -> bool
    ensures { result ≡ is_bad_line name.now text.now }
{
    !has_time(name, text) || is_bad_day(day_named(name), text)
}

/// Whether it has such a word, and its name says something other than a day.
fn is_other_line(name: &[u8], text: &[u8]) -> bool
    ensures { result ≡ is_other_line name.now text.now }
{
    has_time(name, text) && is_other_day(day_named(name))
}

/// Whether one of the lines is none.
fn has_bad(lines: &[Line<'_>]) -> bool
    ensures { result ≡ list_any (λ line. is_bad_line line.name.now line.text.now) lines.now }
{
    lines.iter().any(|line| is_bad_line(line.name, line.text))
}

/// Whether one of the lines says something other than a day.
fn has_other(lines: &[Line<'_>]) -> bool
    ensures { result ≡ list_any (λ line. is_other_line line.name.now line.text.now) lines.now }
{
    lines.iter().any(|line| is_other_line(line.name, line.text))
}

/// The fault of a line of dates that is none, or of one that says something other than a day.
fn date_by(bad: bool, other: bool) -> Option<ValueFault>
    ensures { result ≡ date_by bad other }
{
    if bad {
        return Some(ValueFault::BadRange);
    }
    if other {
        return Some(ValueFault::DatedException);
    }
    None
}

/// The fault of the lines of dates that a block has, if it is a registered period.
fn date_fault(
    alloc: Global,
    templates: &Templates<'_>,
    marks: &mut LineMarks,
    place: usize,
) -> Result<Option<ValueFault>, AllocError>
    requires within { place < length templates.now }
    requires marks { AreMarks templates.now marks.old }
    ensures fault { IfOk result (λ fault. fault ≡ date_at templates.now place) }
    ensures marks { OnOk result (AreMarks templates.now marks.new) }
{
    let blocks = templates.blocks();
    let block = &blocks[place];
    if !is_period(block.kind) {
        return Ok(None);
    }
    if !is_registered(block) {
        return Ok(None);
    }
    let lines = lines_at(alloc, templates, marks, place)?;
    Ok(date_by(has_bad(lines.as_slice()), has_other(lines.as_slice())))
}

/// The first registered period with a fault of a line of dates that it has, by itself or by a template.
pub(crate) fn first_dated(alloc: Global, templates: &Templates) -> Result<Option<Found>, AllocError>
    ensures { IfOk result (IsFirst (length templates.now) (date_at templates.now)) }
{
    let mut marks = line_marks(alloc, templates)?;
    for place in 0..templates.blocks().len() {
        match date_fault(alloc, templates, &mut marks, place)? {
            None => {}
            Some(fault) => return Ok(Some(Found { place, fault })),
        }
    }
    Ok(None)
}
