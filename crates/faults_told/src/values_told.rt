//! The faults of values and names, each with the block that holds the value.

ghost use Rattle.std.specs.Prelude.{OnOk};
ghost use Rattle.faults_told.specs.Faults.{IsTelling};
ghost use Rattle.object_check.specs.declared.rows.Must.TheVariants as musts;
ghost use Rattle.object_faults.specs.declared.needs.Side.{Side};
ghost use Rattle.object_inheritance.specs.LineSearch.{AreMarks};

use crate::near::nearest;
use crate::ranges_told::{first_wrong, range_fault};
use crate::telling::{Detail, Telling, row_fault};
use indexmap::IndexMap;
use object_check::misfits::Misfit;
use object_check::rows::{Must, Row};
use object_faults::column::Check;
use object_faults::load_fault::BlockFault;
use object_groups::names::Names;
use object_inheritance::dated_lines::{Line, LineMarks, line_marks, lines_at};
use object_inheritance::inherited::Values;
use object_inheritance::templates::Templates;
use object_names::named::{NamedKind, NamedObjects};
use object_names::references::Reading;
use object_reader::block::BlockKind;
use object_values::day_rules::{DayName, day_named};
use object_values::options::{criteria_in, options_in};
use object_values::ranges::are_ranges;
use object_values::values::command_name;
use std::alloc::{AllocError, Global};

/// The blocks that have a value from one block: the first, and how many others.
#[derive(Clone, Copy)]
struct Users {
    first: usize,
    others: usize,
}

/// Counts the block at the place among those that have the value of the holder.
fn count(
    users: &mut IndexMap<usize, Users>,
    holder: usize,
    place: usize,
) -> Result<(), AllocError> {
    match users.get_mut(&holder) {
        Some(found) => {
            found.others = found.others.saturating_add(1);
        }
        None => {
            users.insert(
                holder,
                Users {
                    first: place,
                    others: 0,
                },
            )?;
        }
    }
    Ok(())
}

/// The block that holds the value that the block at the place has: itself, where it has none.
fn holder_of(values: &Values<'_>, place: usize) -> usize {
    match values.value(place) {
        Some(_) => values.origin(place),
        None => place,
    }
}

/// The blocks with the fault of the row, by the blocks that hold the values.
fn users_of(
    alloc: Global,
    values: &Values<'_>,
    misfits: &[Misfit],
    row: usize,
) -> Result<IndexMap<usize, Users>, AllocError> {
    let mut users = IndexMap::new(alloc);
    for misfit in misfits {
        if misfit.row == row {
            count(&mut users, holder_of(values, misfit.place), misfit.place)?;
        }
    }
    Ok(users)
}

/// The first part of a list of options or states that is none.
fn first_bad_part<'a>(check: Check, text: &'a [u8]) -> &'a [u8] {
    let mut start = 0;
    for at in 0..text.len() {
        let byte = text[at];
        if byte == b',' || byte == b' ' || byte == b'\t' {
            if is_bad_part(check, &text[start..at]) {
                return &text[start..at];
            }
            start = at + 1;
        }
    }
    &text[start..]
}

/// Whether a part of a list is no option or state.
fn is_bad_part(check: Check, part: &[u8]) -> bool {
    match check {
        Check::Options(kind) => options_in(kind, part).is_none(),
        Check::Criteria(kind) => criteria_in(kind, part).is_none(),
        _ => false,
    }
}

/// What is wrong with a value that isn't what it must be, and the part of it that is wrong.
fn detail_of(check: Check, text: &[u8]) -> (Detail, &[u8]) {
    match check {
        Check::Given => (Detail::NotGiven, text),
        Check::Number => (Detail::NoNumber, text),
        Check::Options(_) => (Detail::NoOption, first_bad_part(check, text)),
        Check::Criteria(_) => (Detail::NoState, first_bad_part(check, text)),
        Check::Ranges => {
            let part = first_wrong(text);
            (Detail::Range(range_fault(part)), part)
        }
        Check::Zero => (Detail::NotZero, text),
        Check::Names => (Detail::LeavesOut, text),
    }
}

/// Whether an entry is wrong by itself: it leaves a name out, or none of the names is it.
fn is_wrong_entry<'a>(must: Must, names: &Names<'a>, entry: &'a [u8]) -> bool {
    match must {
        Must::Be(Check::Names) => entry.first() == Some(&b'!'),
        Must::Name(_, Reading::Commands) => names.lacks(command_name(entry)),
        Must::Name(_, _) => names.lacks(entry),
        _ => false,
    }
}

/// All that is told of one row, by the blocks that hold the values and the numbers of the entries in them.
type Told<'a> = IndexMap<(usize, usize), Telling<'a>>;

/// Adds what is told of a value, where it isn't told yet; else only the blocks that have it.
fn add<'a>(told: &mut Told<'a>, number: usize, telling: Telling<'a>) -> Result<(), AllocError> {
    let key = (telling.holder, number);
    match told.get_mut(&key) {
        Some(before) => {
            before.others = before
                .others
                .saturating_add(telling.others)
                .saturating_add(1);
            before.user = before.user.min(telling.user);
        }
        None => {
            told.insert(key, telling)?;
        }
    }
    Ok(())
}

/// What is told of entries: the row, the names that are there, and what is wrong.
#[derive(Clone, Copy)]
struct Entries<'a, 'b> {
    must: Must,
    directive: &'a [u8],
    names: &'b Names<'a>,
    detail: Detail,
}

/// Adds what is told of the entries of one text.
fn add_entries<'a>(
    told: &mut Told<'a>,
    of: Entries<'a, '_>,
    holder: usize,
    entries: &[&'a [u8]],
    users: Users,
) -> Result<(), AllocError> {
    for (number, entry) in entries.iter().enumerate() {
        if is_wrong_entry(of.must, of.names, *entry) {
            let telling = Telling {
                holder,
                fault: row_fault(of.must),
                directive: of.directive,
                value: *entry,
                detail: of.detail,
                near: None,
                user: users.first,
                others: users.others,
            };
            add(told, number, telling)?;
        }
    }
    Ok(())
}

/// Adds what is told of a list: of its own text, and of those to which it is added.
fn add_list<'a>(
    alloc: Global,
    told: &mut Told<'a>,
    values: &Values<'a>,
    of: Entries<'a, '_>,
    users: Users,
    count: usize,
) -> Result<(), AllocError> {
    let mut place = users.first;
    for _text in 0..count {
        let entries = values.nearest_list(alloc, place)?;
        add_entries(told, of, values.origin(place), entries.as_slice(), users)?;
        match values.added_to(place) {
            Some(next) => place = next,
            None => return Ok(()),
        }
    }
    Ok(())
}

/// What is told of a value that is no list.
fn value_telling<'a>(
    values: &Values<'a>,
    must: Must,
    directive: &'a [u8],
    holder: usize,
    users: Users,
) -> Telling<'a>
    ensures { IsTelling must holder users.first users.others result }
{
    let fault = row_fault(must);
    let text = values.value(users.first).unwrap_or(&[]);
    let (detail, value) = match must {
        Must::Be(check) => detail_of(check, text),
        Must::Name(named, _) => (Detail::NoObject(named), text),
        _ => (Detail::NotGiven, text),
    };
    Telling {
        holder,
        fault,
        directive,
        value,
        detail,
        near: None,
        user: users.first,
        others: users.others,
    }
}

/// Whether what a row asks of is a list of names.
fn is_list(must: Must) -> bool {
    match must {
        Must::Be(Check::Names) => true,
        Must::Be(_) => false,
        Must::Name(_, Reading::Period) => false,
        Must::Name(_, _) => true,
        Must::List(_) | Must::HaveWholeLines | Must::HaveDayLines => false,
    }
}

/// The names that a row asks for; those of hosts, where it asks for none.
fn names_for<'a, 'b>(objects: &'b NamedObjects<'a>, must: Must) -> &'b Names<'a> {
    match must {
        Must::Name(named, _) => objects.objects(named).names(),
        _ => objects.objects(NamedKind::Host).names(),
    }
}

/// What is wrong with an entry by the row.
fn entry_detail(must: Must) -> Detail {
    match must {
        Must::Name(named, _) => Detail::NoObject(named),
        _ => Detail::LeavesOut,
    }
}

/// What is told of a row of one directive.
fn told_of_row<'a>(
    alloc: Global,
    templates: &Templates<'a>,
    objects: &NamedObjects<'a>,
    misfits: &[Misfit],
    number: usize,
    row: Row,
) -> Result<Told<'a>, AllocError> {
    let (_, must, name) = row;
    let directive: &'a [u8] = name.as_bytes();
    let values = Values::new(alloc, templates, directive)?;
    let users = users_of(alloc, &values, misfits, number)?;
    let of = Entries {
        must,
        directive,
        names: names_for(objects, must),
        detail: entry_detail(must),
    };
    let mut told = IndexMap::new(alloc);
    for (holder, of_holder) in users.iter() {
        if is_list(must) {
            let count = templates.blocks().len();
            add_list(alloc, &mut told, &values, of, *of_holder, count)?;
        } else {
            let telling = value_telling(&values, must, directive, *holder, *of_holder);
            add(&mut told, 0, telling)?;
        }
    }
    Ok(told)
}

/// What is told of blocks that list no hosts or services on a side.
fn side_telling<'a>(kind: BlockKind, directive: &'a [u8], place: usize) -> Telling<'a>
    ensures { (side : Side) → IsTelling (musts.List side) place place 0 result }
{
    let detail = match kind {
        BlockKind::ServiceEscalation | BlockKind::ServiceDependency => Detail::NoServices,
        _ => Detail::NoHosts,
    };
    Telling {
        holder: place,
        fault: BlockFault::MissingDirective,
        directive,
        value: &[],
        detail,
        near: None,
        user: place,
        others: 0,
    }
}

/// Whether a line of dates isn't what it must be.
fn is_wrong_line(must: Must, line: &Line<'_>) -> bool {
    let has_colon = line.name.contains(&b':') || line.text.contains(&b':');
    match (must, day_named(line.name)) {
        (Must::HaveDayLines, DayName::Other) => has_colon,
        (Must::HaveDayLines, _) => false,
        (_, DayName::Other) => !has_colon,
        (_, DayName::NoDay) => true,
        (_, DayName::Day(_)) => !has_colon || !are_ranges(line.text),
    }
}

/// What is told of a line of dates of the block at the place.
fn line_telling<'a>(must: Must, line: Line<'a>, place: usize) -> Telling<'a>
    ensures { IsTelling must place place 0 result }
{
    let (detail, value) = match (must, day_named(line.name)) {
        (Must::HaveDayLines, _) => (Detail::OtherDay, line.text),
        (_, DayName::Day(_)) if line.text.contains(&b':') => {
            let part = first_wrong(line.text);
            (Detail::Range(range_fault(part)), part)
        }
        _ => (Detail::NoDay, line.text),
    };
    Telling {
        holder: place,
        fault: row_fault(must),
        directive: line.name,
        value,
        detail,
        near: None,
        user: place,
        others: 0,
    }
}

/// Adds what is told of the lines of dates of the block at the place that aren't what they must be.
fn add_lines_at<'a>(
    alloc: Global,
    templates: &Templates<'a>,
    marks: &mut LineMarks,
    must: Must,
    place: usize,
    tellings: &mut Vec<Telling<'a>>,
) -> Result<(), AllocError>
    requires { AreMarks templates.now marks.old }
    ensures { OnOk result (AreMarks templates.now marks.new) }
{
    if place >= templates.blocks().len() {
        return Ok(());
    }
    let lines = lines_at(alloc, templates, marks, place)?;
    for line in lines.as_slice() {
        if is_wrong_line(must, line) {
            tellings.push(line_telling(must, *line, place))?;
        }
    }
    Ok(())
}

/// Adds what is told of the lines of dates that aren't what they must be.
fn add_lines<'a>(
    alloc: Global,
    templates: &Templates<'a>,
    misfits: &[Misfit],
    number: usize,
    must: Must,
    tellings: &mut Vec<Telling<'a>>,
) -> Result<(), AllocError> {
    let mut marks = line_marks(alloc, templates)?;
    for misfit in misfits {
        if misfit.row == number {
            add_lines_at(alloc, templates, &mut marks, must, misfit.place, tellings)?;
        }
    }
    Ok(())
}

/// Whether one of the misfits is of the row.
fn has_row(misfits: &[Misfit], row: usize) -> bool {
    misfits.iter().any(|misfit| misfit.row == row)
}

/// Adds what is told of a row.
fn add_row<'a>(
    alloc: Global,
    templates: &Templates<'a>,
    objects: &NamedObjects<'a>,
    misfits: &[Misfit],
    number: usize,
    row: Row,
    tellings: &mut Vec<Telling<'a>>,
) -> Result<(), AllocError> {
    let (kind, must, name) = row;
    match must {
        Must::Be(_) | Must::Name(_, _) => {
            let told = told_of_row(alloc, templates, objects, misfits, number, row)?;
            for telling in told.values() {
                tellings.push(*telling)?;
            }
        }
        Must::List(_) => {
            for misfit in misfits {
                if misfit.row == number {
                    tellings.push(side_telling(kind, name.as_bytes(), misfit.place))?;
                }
            }
        }
        Must::HaveWholeLines | Must::HaveDayLines => {
            add_lines(alloc, templates, misfits, number, must, tellings)?;
        }
    }
    Ok(())
}

/// What is told of faults by the rows: by the places of the blocks that hold the values, then row by row. A value that many
/// blocks take from one is told once.
pub fn tell_misfits<'a>(
    alloc: Global,
    templates: &Templates<'a>,
    objects: &NamedObjects<'a>,
    misfits: &[Misfit],
    rows: &[Row],
) -> Result<Vec<Telling<'a>>, AllocError> {
    let mut tellings = Vec::new(alloc);
    for (number, row) in rows.iter().enumerate() {
        if has_row(misfits, number) {
            add_row(
                alloc,
                templates,
                objects,
                misfits,
                number,
                *row,
                &mut tellings,
            )?;
        }
    }
    tellings.sort_by_key(|telling| telling.holder)?;
    Ok(tellings)
}

/// The name that an object of the type has most like the value.
fn near_object<'a>(
    alloc: Global,
    objects: &NamedObjects<'a>,
    named: NamedKind,
    value: &[u8],
) -> Result<Option<&'a [u8]>, AllocError> {
    let names = objects.objects(named).names();
    let mut all = Vec::new(alloc);
    for number in 0..names.len().min(4096) {
        all.push(names.name(number))?;
    }
    nearest(alloc, value, all.as_slice())
}

/// At most so many faults are told with a near name.
const MOST_NEAR: usize = 64;

/// Adds to each of the first 64 that name something unknown a name that is there and like it.
pub fn add_near<'a>(
    alloc: Global,
    objects: &NamedObjects<'a>,
    tellings: &mut Vec<Telling<'a>>,
) -> Result<(), AllocError> {
    let mut left = MOST_NEAR;
    for telling in tellings.as_mut_slice() {
        if let Detail::NoObject(named) = telling.detail {
            if left > 0 {
                left -= 1;
                let value = match named {
                    NamedKind::Command => command_name(telling.value),
                    _ => telling.value,
                };
                telling.near = near_object(alloc, objects, named, value)?;
            }
        }
    }
    Ok(())
}
