//! Lines of dates of time periods (chapters "Time Periods" and "Object Inheritance"): which are none, and which say
//! something other than a day.

ghost use Rattle.std.specs.Prelude.{◌≡◌, ℕ, ◌<◌, List, length, true, IfOk, OnOk};
ghost use Rattle.std.specs.List.{list_any};
ghost use Rattle.object_check.specs.Marks.{breaks, is_of_lines, is_unfit_line};
ghost use Rattle.object_faults.specs.claims.Dated.{has_colon, has_time, is_bad_day, is_bad_line};
ghost use Rattle.object_faults.specs.claims.Dated.{is_other_day, is_other_line};
ghost use Rattle.object_inheritance.specs.LineSearch.{AreMarks};
ghost use Rattle.object_reader.specs.declared.block.BlockKind.{BlockKind};

use crate::rows::Must;
use object_inheritance::dated_lines::{Line, LineMarks, lines_at};
use object_inheritance::templates::Templates;
use object_values::day_rules::{DayName, day_named};
use object_values::ranges::are_ranges;
use std::alloc::{AllocError, Global};

/// Whether bytes have a colon.
fn has_colon(bytes: &[u8]) -> bool
    ensures { result ≡ has_colon bytes.now }
{
    bytes.iter().any(|byte| *byte == b':')
}

/// Whether a line has a word with a colon, which may be its name.
fn has_time(name: &[u8], text: &[u8]) -> bool
    ensures { result ≡ has_time name.now text.now }
{
    has_colon(name) || has_colon(text)
}

/// Whether the days have a number that none has, or are days and the text isn't ranges.
fn is_bad_day(day: DayName, text: &[u8]) -> bool
    ensures { result ≡ is_bad_day day text.now }
{
    match day {
        DayName::Day(_) => !are_ranges(text),
        DayName::NoDay => true,
        DayName::Other => false,
    }
}

/// Whether a name says something other than a day.
fn is_other_day(day: DayName) -> bool
    ensures { result ≡ is_other_day day }
{
    match day {
        DayName::Day(_) => false,
        DayName::NoDay => false,
        DayName::Other => true,
    }
}

/// Whether a line of dates has no word with a colon, a number that no day has, or a text that isn't ranges.
fn is_bad_line(name: &[u8], text: &[u8]) -> bool
    ensures { result ≡ is_bad_line name.now text.now }
{
    !has_time(name, text) || is_bad_day(day_named(name), text)
}

/// Whether it has such a word, and its name says something other than a day.
fn is_other_line(name: &[u8], text: &[u8]) -> bool
    ensures { result ≡ is_other_line name.now text.now }
{
    has_time(name, text) && is_other_day(day_named(name))
}

/// Whether a line of dates isn't what it must be.
fn is_unfit_line(must: Must, line: &Line<'_>) -> bool
    ensures { result ≡ is_unfit_line must line.now.name.now line.now.text.now }
{
    match must {
        Must::HaveWholeLines => is_bad_line(line.name, line.text),
        Must::HaveDayLines => is_other_line(line.name, line.text),
        Must::Be(_) | Must::Name(_, _) | Must::List(_) => false,
    }
}

/// Whether one of the lines isn't.
fn has_unfit(must: Must, lines: &[Line<'_>]) -> bool
    ensures { result ≡ list_any (λ line. is_unfit_line must line.name.now line.text.now) lines.now }
{
    lines.iter().any(|line| is_unfit_line(must, line))
}

/// Whether the block at the place, if it is asked, has a line of dates that isn't what it must be.
pub(crate) fn has_unfit_line(
    alloc: Global,
    templates: &Templates<'_>,
    marks: &mut LineMarks,
    must: Must,
    place: usize,
) -> Result<bool, AllocError>
    requires of_lines { is_of_lines must ≡ true }
    requires within { place < length templates.now }
    requires marks { AreMarks templates.now marks.old }
    ensures marks { OnOk result (AreMarks templates.now marks.new) }
    ensures unfit { IfOk result (λ unfit. (kind : BlockKind) (directive : List ℕ)
        → unfit ≡ breaks templates.now place kind must directive) }
{
    let lines = lines_at(alloc, templates, marks, place)?;
    Ok(has_unfit(must, lines.as_slice()))
}
