//! The dated lines that periods have (chapters "Time Periods" and "Object Inheritance").

ghost use Rattle.std.specs.Prelude.{◌≡◌, ◌++◌, filter_map, IfOk, OnOk};
ghost use Rattle.std.specs.Option.{option_to_list};
ghost use Rattle.object_inheritance.specs.DatedLines.{named};
ghost use Rattle.object_inheritance.specs.LineSearch.{AreMarks};
ghost use Rattle.object_periods.specs.claims.Periods.{AreDatedOf, dated_in};

use crate::days::line_ranges;
use due_model::config::Dated;
use due_model::sequence::Sequence;
use object_inheritance::dated_lines::{Line, LineMarks, lines_at};
use object_inheritance::templates::Templates;
use object_values::day_rules::{DayName, day_named};
use std::alloc::{AllocError, Global};

/// The dated line that a line of dates is; none where its name says no day.
fn dated_in(alloc: Global, line: Line<'_>) -> Result<Option<Dated>, AllocError>
    ensures { IfOk result (λ dated. dated ≡ dated_in (line.entry.name.now, line.entry.text.now)) }
{
    let ranges = line_ranges(alloc, Some(line.text))?;
    match day_named(line.name) {
        DayName::Day(day) => Ok(Some(Dated { day, ranges })),
        DayName::NoDay => Ok(None),
        DayName::Other => Ok(None),
    }
}

/// Adds the dated line that a line of dates is.
fn push_dated(alloc: Global, dated: &mut Vec<Dated>, line: Line<'_>) -> Result<(), AllocError>
    ensures { OnOk result (dated.new.items
        ≡ dated.old.items ++ option_to_list (dated_in (line.entry.name.now, line.entry.text.now))) }
{
    if let Some(one) = dated_in(alloc, line)? {
        dated.push(one)?;
    }
    Ok(())
}

/// The dated lines that lines of dates are.
fn dated_among(alloc: Global, lines: &[Line<'_>]) -> Result<Vec<Dated>, AllocError>
    ensures { IfOk result (λ dated. dated.items ≡ filter_map dated_in (named lines.now)) }
{
    let mut dated = Vec::new(alloc);
    for line in lines {
        push_dated(alloc, &mut dated, *line)?;
    }
    Ok(dated)
}

/// The dated lines of the block at the place, by its own lines of dates or those of templates.
pub(crate) fn dated_at(
    alloc: Global,
    templates: &Templates<'_>,
    marks: &mut LineMarks,
    place: usize,
) -> Result<Sequence<Dated>, AllocError>
    requires { AreMarks templates.now marks.old }
    ensures dated { IfOk result (AreDatedOf templates.now place) }
    ensures marks { OnOk result (AreMarks templates.now marks.new) }
{
    let blocks = templates.blocks();
    if place >= blocks.len() {
        return Err(AllocError);
    }
    let lines = lines_at(alloc, templates, marks, place)?;
    let dated = dated_among(alloc, lines.as_slice())?;
    Ok(Sequence::new(dated))
}
