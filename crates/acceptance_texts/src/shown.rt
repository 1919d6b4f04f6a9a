//! What object text says, as text. A function owns one thing at most, and hands it on: such are proved soonest.

ghost use Rattle.std.specs.Prelude.{◌≡◌};
ghost use Rattle.std.specs.Str.{IsUtf8};
ghost use Rattle.object_groups.specs.declared.groups.GroupKind.TheVariants.{HostGroups};

use crate::of_services::{Asked, show_service_blocks};
use due_model::config::{Dated, Period, Range};
use object_faults::check::check;
use object_faults::fault::PassFault;
use object_groups::groups::{GroupKind, Groups};
use object_groups::objects::Objects;
use object_inheritance::inherited::Values;
use object_inheritance::templates::{InheritanceFault, Templates};
use object_names::doubled::first_doubled;
use object_names::named::NamedObjects;
use object_names::unknown::first_unknown;
use object_periods::loops::loop_of;
use object_periods::periods::periods_of;
use object_reader::block::{Block, BlockKind};
use object_reader::reading::read;
use std::alloc::{AllocError, Global};
use std::fmt::Write;
use std::process::Abort;

/// What is shown of a text.
#[derive(Clone, Copy)]
pub(crate) enum What {
    /// The blocks.
    Blocks,
    /// What each of the first blocks, so many, has for the directive of this name: the value as it is written, the name, and the entries.
    Values(&'static str, usize),
    /// Each group's members, a line each.
    Groups(GroupKind),
    /// Those of the first group of hosts.
    FirstGroup,
    /// The names of the objects of a type, a line each: the place of the block, the number by which the name is found, and whether it
    /// stands before.
    Objects(BlockKind),
    /// The line and the fault of the first block with one; nothing where there is none.
    Fault,
    /// The place of the first period on a loop of exclusions.
    Loop,
    /// The periods, a line each.
    Periods,
    /// The places of the first doubled block and of the first that names something that isn't there.
    Names,
    /// What is asked of the services.
    OfServices(Asked),
}

/// A text, and what is shown of it.
pub(crate) type Case = (&'static str, &'static str);

/// A text, or `?` where it isn't UTF-8.
pub(crate) fn text_or_mark(bytes: &[u8]) -> &str
    ensures { IsUtf8 bytes.now → result.now ≡ bytes.now }
{
    str::from_utf8(bytes).unwrap_or("?")
}

/// A place, or `-`.
pub(crate) fn show_place(out: &mut String, place: Option<usize>) -> Result<(), AllocError> {
    match place {
        None => out.push_str("-"),
        Some(place) => write!(out, "{place}"),
    }
}

/// Adds each number and a dot.
pub(crate) fn push_numbers(out: &mut String, numbers: &[usize]) -> Result<(), AllocError> {
    for number in numbers {
        write!(out, "{number}.")?;
    }
    Ok(())
}

/// A group's members by their names.
fn show_members(
    out: &mut String,
    groups: &Groups,
    group: usize,
    members: &[u32],
) -> Result<(), AllocError> {
    out.push_str(text_or_mark(groups.groups().names().name(group)))?;
    out.push_str(":")?;
    for object in members {
        out.push_str(text_or_mark(groups.objects().names().name(*object as usize)))?;
        out.push_str(".")?;
    }
    out.push_str("\n")
}

fn show_group(
    alloc: Global,
    out: &mut String,
    groups: &mut Groups,
    group: usize,
) -> Result<(), AllocError> {
    let members = groups.members(alloc, group)?;
    show_members(out, groups, group, members.as_slice())
}

fn show_each_group(alloc: Global, out: &mut String, groups: &mut Groups) -> Result<(), AllocError> {
    for group in 0..groups.groups().names().len() {
        show_group(alloc, out, groups, group)?;
    }
    Ok(())
}

fn show_groups(
    alloc: Global,
    out: &mut String,
    templates: &Templates,
    kind: GroupKind,
) -> Result<(), AllocError> {
    let mut groups = Groups::new(alloc, templates, kind)?;
    show_each_group(alloc, out, &mut groups)
}

fn show_first_group(
    alloc: Global,
    out: &mut String,
    templates: &Templates,
) -> Result<(), AllocError> {
    let mut groups = Groups::new(alloc, templates, GroupKind::HostGroups)?;
    show_group(alloc, out, &mut groups, 0)
}

fn show_object(
    out: &mut String,
    objects: &Objects,
    number: usize,
    place: usize,
) -> Result<(), AllocError> {
    let name = objects.names().name(number);
    let found = objects.names().find(name).unwrap_or(99);
    let doubled = objects.names().is_doubled(number);
    let shown = text_or_mark(name);
    write!(out, "{place} {shown} {found} {doubled}\n")
}

fn show_each_object(out: &mut String, objects: &Objects) -> Result<(), AllocError> {
    for (number, place) in objects.places().iter().enumerate() {
        show_object(out, objects, number, *place)?;
    }
    Ok(())
}

fn show_objects(
    alloc: Global,
    out: &mut String,
    templates: &Templates,
    kind: BlockKind,
) -> Result<(), AllocError> {
    let objects = Objects::new(alloc, templates, kind)?;
    show_each_object(out, &objects)
}

/// Entries, each with a point after it; or that there are none.
fn show_entries(out: &mut String, entries: Option<&[&[u8]]>) -> Result<(), AllocError> {
    let Some(entries) = entries else {
        return out.push_str("none");
    };
    for entry in entries {
        out.push_str(text_or_mark(entry))?;
        out.push_str(".")?;
    }
    Ok(())
}

/// What a block has for a directive: the value as it is written, the name, and the entries.
fn show_block(
    alloc: Global,
    out: &mut String,
    values: &Values,
    place: usize,
) -> Result<(), AllocError> {
    let value = text_or_mark(values.value(place).unwrap_or(&[]));
    let name = text_or_mark(values.name(place).unwrap_or(&[]));
    write!(out, "{value}|{name}|")?;
    let entries = values.list(alloc, place)?;
    show_entries(out, entries.as_deref())?;
    out.push_str("\n")
}

/// What each of so many blocks has for a directive, a line each.
fn show_values(
    alloc: Global,
    out: &mut String,
    templates: &Templates,
    blocks: usize,
    directive: &str,
) -> Result<(), AllocError> {
    let values = Values::new(alloc, templates, directive.as_bytes())?;
    for place in 0..blocks {
        show_block(alloc, out, &values, place)?;
    }
    Ok(())
}

fn show_fault(alloc: Global, out: &mut String, templates: &Templates) -> Result<(), AllocError> {
    match check(alloc, templates) {
        Ok(()) => Ok(()),
        Err(PassFault::NoMemory) => out.push_str("memory"),
        Err(PassFault::AtLine { line, fault }) => write!(out, "{line} {fault:?}"),
    }
}

/// The ranges of a weekday, where it has any: its number, a colon, and the ranges in seconds.
fn show_day(out: &mut String, weekday: usize, ranges: &[Range]) -> Result<(), AllocError> {
    if ranges.is_empty() {
        return Ok(());
    }
    write!(out, " {weekday}:")?;
    for range in ranges {
        write!(out, "{}-{},", range.start, range.end)?;
    }
    Ok(())
}

/// The rule of a dated line and its ranges.
fn show_line(out: &mut String, line: &Dated) -> Result<(), AllocError> {
    let rule = line.day;
    write!(out, " {rule:?}:")?;
    for range in line.ranges.as_slice() {
        write!(out, "{}-{},", range.start, range.end)?;
    }
    Ok(())
}

/// A period in one line: its name, its days, its dated lines, and `!` with the number of each period that it excludes.
fn show_period(out: &mut String, period: &Period) -> Result<(), AllocError> {
    out.push_str(text_or_mark(period.name.as_slice()))?;
    for weekday in 0..7 {
        show_day(out, weekday, period.days[weekday].as_slice())?;
    }
    for line in period.dated.as_slice() {
        show_line(out, line)?;
    }
    for excluded in period.excludes.as_slice() {
        write!(out, " !{}", excluded.0)?;
    }
    out.push_str("\n")
}

fn show_each_period(out: &mut String, periods: &[Period]) -> Result<(), AllocError> {
    for period in periods {
        show_period(out, period)?;
    }
    Ok(())
}

fn show_periods(
    alloc: Global,
    out: &mut String,
    templates: &Templates,
    looped: bool,
) -> Result<(), AllocError> {
    let objects = Objects::new(alloc, templates, BlockKind::TimePeriod)?;
    if looped {
        return show_place(out, loop_of(alloc, templates, &objects)?);
    }
    let periods = periods_of(alloc, templates, &objects)?;
    show_each_period(out, periods.as_slice())
}

/// The places of the first doubled block and of the first that names something that isn't there.
fn show_both<'a>(
    alloc: Global,
    out: &mut String,
    templates: &Templates<'a>,
    objects: &NamedObjects<'a>,
) -> Result<(), AllocError>
    requires { objects.now ≡ templates.now }
{
    show_place(out, first_doubled(objects))?;
    out.push_str(" ")?;
    show_place(out, first_unknown(alloc, templates, objects)?)
}

fn show_names<'a>(
    alloc: Global,
    out: &mut String,
    templates: &Templates<'a>,
) -> Result<(), AllocError> {
    let objects = NamedObjects::new(alloc, templates)?;
    show_both(alloc, out, templates, &objects)
}

fn show_what(
    alloc: Global,
    out: &mut String,
    templates: &Templates,
    what: What,
) -> Result<(), AllocError> {
    match what {
        What::Blocks => Ok(()),
        What::Values(directive, blocks) => show_values(alloc, out, templates, blocks, directive),
        What::Groups(kind) => show_groups(alloc, out, templates, kind),
        What::FirstGroup => show_first_group(alloc, out, templates),
        What::Objects(kind) => show_objects(alloc, out, templates, kind),
        What::Fault => show_fault(alloc, out, templates),
        What::Loop => show_periods(alloc, out, templates, true),
        What::Periods => show_periods(alloc, out, templates, false),
        What::Names => show_names(alloc, out, templates),
        What::OfServices(asked) => show_service_blocks(alloc, out, templates, asked),
    }
}

/// The block as one line: its kind, its line, and each directive in brackets.
fn show_directives(out: &mut String, block: &Block) -> Result<(), AllocError> {
    let kind = block.kind;
    let line = block.line;
    write!(out, "{kind:?} {line}")?;
    for directive in block.directives.as_slice() {
        let name = text_or_mark(directive.name.as_slice());
        let value = text_or_mark(directive.value.as_slice());
        write!(out, "[{name}={value}]")?;
    }
    out.push_str("\n")
}

/// Each block, a line each.
fn show_each_block(out: &mut String, blocks: &[Block]) -> Result<(), AllocError> {
    for block in blocks {
        show_directives(out, block)?;
    }
    Ok(())
}

fn show_blocks(
    alloc: Global,
    out: &mut String,
    blocks: &[Block],
    what: What,
) -> Result<(), AllocError> {
    let what = match what {
        What::Values(directive, most) => What::Values(directive, most.min(blocks.len())),
        what => what,
    };
    match Templates::new(alloc, blocks) {
        Ok(templates) => show_what(alloc, out, &templates, what),
        Err(InheritanceFault::NoMemory) => out.push_str("memory"),
        Err(InheritanceFault::AtLine { line, fault }) => write!(out, "{line} {fault:?}"),
    }
}

/// What is shown of bytes, or the fault with which they are read.
pub(crate) fn show_text(
    alloc: Global,
    out: &mut String,
    bytes: &[u8],
    what: What,
) -> Result<(), AllocError> {
    match (read(alloc, bytes), what) {
        (Ok(blocks), What::Blocks) => show_each_block(out, blocks.as_slice()),
        (Ok(blocks), _) => show_blocks(alloc, out, blocks.as_slice(), what),
        (Err(fault), _) => write!(out, "{fault}"),
    }
}

/// Compares what is shown of bytes.
pub(crate) fn shows(
    rt: &impl Abort,
    alloc: Global,
    bytes: &[u8],
    what: What,
    wanted: &str,
) -> Result<(), AllocError> {
    let mut out = String::new(alloc);
    show_text(alloc, &mut out, bytes, what)?;
    assert_eq!(rt; out.as_str(), wanted, "{}", text_or_mark(bytes));
    Ok(())
}

/// The same of each case after a text.
pub(crate) fn all_show(
    rt: &impl Abort,
    alloc: Global,
    before: &str,
    cases: &[Case],
    what: What,
) -> Result<(), AllocError> {
    for case in cases {
        let mut text = String::from_str(alloc, before)?;
        text.push_str(case.0)?;
        shows(rt, alloc, text.as_bytes(), what, case.1)?;
    }
    Ok(())
}
