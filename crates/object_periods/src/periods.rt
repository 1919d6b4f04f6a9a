//! The time periods of blocks (chapters "Time Periods" and "Object Inheritance").

ghost use Rattle.std.specs.Prelude.{◌≡◌, ◌++◌, ◌∷◌, [], codes, map, slice_get, IfOk, OnOk};
ghost use Rattle.std.specs.Prelude.{Some};
ghost use Rattle.object_groups.specs.claims.Objects.{names_in, objects_in};
ghost use Rattle.object_inheritance.specs.LineSearch.{AreMarks};
ghost use Rattle.object_periods.specs.claims.Periods.{ArePeriodsOf, IsPeriodOf};
ghost use Rattle.object_periods.specs.Periods.{column_of};
ghost use Rattle.object_reader.specs.declared.block.BlockKind.TheVariants.{TimePeriod};

use crate::dated::dated_at;
use crate::days::Week;
use crate::excludes::listed_at;
use due_model::config::{Period, PeriodId};
use due_model::sequence::Sequence;
use due_model::short_list::Text;
use object_groups::names::Names;
use object_groups::objects::Objects;
use object_inheritance::dated_lines::{LineMarks, line_marks};
use object_inheritance::inherited::Values;
use object_inheritance::templates::Templates;
use std::alloc::{AllocError, Global};

/// Adds a period by its number. A number over 65,535 is want of memory.
fn push_id(ids: &mut Vec<PeriodId>, number: usize) -> Result<(), AllocError>
    ensures { OnOk result (map (λ id. id.0) ids.new.items
        ≡ map (λ id. id.0) ids.old.items ++ number ∷ []) }
{
    if number > u16::MAX as usize {
        return Err(AllocError);
    }
    ids.push(PeriodId(number as u16))?;
    Ok(())
}

/// The periods of these numbers.
fn ids_of(alloc: Global, numbers: &[usize]) -> Result<Vec<PeriodId>, AllocError>
    ensures { IfOk result (λ ids. map (λ id. id.0) ids.items ≡ numbers.now) }
{
    let mut ids = Vec::new(alloc);
    for number in numbers {
        push_id(&mut ids, *number)?;
    }
    Ok(ids)
}

/// How many ranges, and dated lines, the periods of a configuration have at most.
const MOST: usize = 2_000_000;

/// How many ranges, and dated lines, a period has.
fn size_of(period: &Period) -> usize {
    let mut size = period.dated.len();
    for day in &period.days {
        size = size.saturating_add(day.len());
    }
    for line in period.dated.as_slice() {
        size = size.saturating_add(line.ranges.len());
    }
    size
}

/// What is left of so much, where a period takes some of it. Too little is want of memory.
fn left_of(left: usize, period: &Period) -> Result<usize, AllocError> {
    let size = size_of(period);
    if size <= left {
        Ok(left - size)
    } else {
        Err(AllocError)
    }
}

/// The period of that number, whose block stands at the place.
fn period_at<'a>(
    alloc: Global,
    templates: &Templates<'a>,
    marks: &mut LineMarks,
    names: &Names<'a>,
    week: &Week<'a>,
    excludes: &Values<'a>,
    number: usize,
    place: usize,
) -> Result<Period, AllocError>
    requires templates { templates.now ≡ week.now }
    requires marks { AreMarks week.now marks.old }
    requires names { names.now ≡ names_in week.now TimePeriod }
    requires excludes { excludes.now ≡ column_of week.now (codes "exclude") }
    requires place { slice_get (objects_in week.now TimePeriod) number ≡ Some place }
    ensures period { IfOk result (IsPeriodOf week.now place) }
    ensures marks { OnOk result (AreMarks week.now marks.new) }
{
    let numbers = listed_at(alloc, names, excludes, place)?;
    let ids = ids_of(alloc, numbers.as_slice())?;
    let name = Text::new(alloc, names.name(number))?;
    Ok(Period {
        name,
        days: week.at(alloc, place)?,
        dated: dated_at(alloc, templates, marks, place)?,
        excludes: Sequence::new(ids),
    })
}

/// The time periods of the blocks, in file order: those of the registered blocks, each with the ranges that it has
/// for each weekday and its dated lines, by its own line or a template's, and the periods that its `exclude` lists. A
/// day line that isn't ranges gives none, a line of dates whose name says no day is left out, and a name that no period
/// has excludes nothing: all are refused before. The time grows with the blocks, their directives, the templates that
/// they use and the entries of their lists. An excluded period with a number over 65,535 is want of memory, and so are
/// over 2,000,000 ranges and dated lines of all periods, where what a template gives counts for each. A refused growth
/// leaves nothing.
pub fn periods_of<'a>(
    alloc: Global,
    templates: &Templates<'a>,
    objects: &Objects<'a>,
) -> Result<Vec<Period>, AllocError>
    requires { objects.now ≡ record { blocks = templates.now; kind = TimePeriod } }
    ensures { IfOk result (λ periods. ArePeriodsOf templates.now periods.items) }
{
    let week = Week::new(alloc, templates)?;
    let excludes = Values::new(alloc, templates, "exclude".as_bytes())?;
    let mut marks = line_marks(alloc, templates)?;
    let mut periods = Vec::new(alloc);
    let mut left = MOST;
    for (number, place) in objects.places().iter().enumerate() {
        let names = objects.names();
        let period = period_at(
            alloc, templates, &mut marks, names, &week, &excludes, number, *place,
        )?;
        left = left_of(left, &period)?;
        periods.push(period)?;
    }
    Ok(periods)
}
