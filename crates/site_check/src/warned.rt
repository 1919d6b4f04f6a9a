//! The warnings of blocks, as they are told.

ghost use Rattle.std.specs.Prelude.{◌≡◌, ◌+◌, length, map, IfOk, OnOk};
ghost use Rattle.site_check.specs.Warnings.{is_left_out, line_name};
ghost use Rattle.site_check.specs.Warnings.{of_blocks, of_overridden, of_passed_over};
ghost use Rattle.site_check.specs.Warnings.{of_templates, of_unknown};

use crate::options::Form;
use faults_told::near::nearest;
use object_groups::names::Names;
use object_inheritance::templates::Templates;
use object_reader::block::{Block, BlockKind, Directive};
use object_values::values::equals;
use object_warnings::criteria::without_criteria;
use object_warnings::directives::{firsts, lines_where};
use object_warnings::hours::Span;
use object_warnings::lines::{Line, Test};
use object_warnings::overridden::overridden;
use object_warnings::passed_over::passed_over;
use object_warnings::tables::read_here;
use object_warnings::warning::Warning;
use std::alloc::{AllocError, Global};

/// A warning as it is told.
#[derive(Clone, Copy)]
pub(crate) struct Warned<'a> {
    pub(crate) warning: Warning,
    /// The place of the block that it is about.
    pub(crate) place: usize,
    /// The directive; empty where it is about none.
    pub(crate) directive: &'a [u8],
    /// The value; empty where it is about none.
    pub(crate) value: &'a [u8],
    /// A name that is like that of the directive.
    pub(crate) near: Option<&'a [u8]>,
    /// How often the text has it.
    pub(crate) times: usize,
    /// The time of a week that it is about, if it is about one.
    pub(crate) span: Option<Span>,
}

/// At most so many warnings are told with a near name.
const MOST_NEAR: usize = 64;

/// Whether warnings of the name are left out.
pub(crate) fn is_left_out(form: Form<'_, '_>, warning: Warning) -> bool
    ensures { result ≡ is_left_out form.entry warning }
{
    form.allowed
        .iter()
        .any(|name| equals((*name).as_bytes(), warning.name()))
}

/// A warning about the block at the place.
pub(crate) fn about<'a>(warning: Warning, place: usize, directive: &'a str) -> Warned<'a> {
    Warned {
        warning,
        place,
        directive: directive.as_bytes(),
        value: &[],
        near: None,
        times: 1,
        span: None,
    }
}

/// The directive that a line is.
fn directive_of<'a>(blocks: &'a [Block], line: Line) -> Option<&'a Directive> {
    let block = blocks.get(line.place)?;
    block.directives.as_slice().get(line.number)
}

/// A warning about the directive that a line is.
fn about_line<'a>(warning: Warning, blocks: &'a [Block], line: Line) -> Warned<'a> {
    let mut one = about(warning, line.place, "");
    if let Some(directive) = directive_of(blocks, line) {
        one.directive = directive.name.as_slice();
        one.value = directive.value.as_slice();
    }
    one
}

/// Adds texts.
fn push_texts<'a>(names: &mut Vec<&'a [u8]>, texts: &[&'a str]) -> Result<(), AllocError> {
    for text in texts {
        names.push(text.as_bytes())?;
    }
    Ok(())
}

/// The directive of blocks of the type that is most like the name.
fn near_directive<'a>(
    alloc: Global,
    kind: BlockKind,
    name: &[u8],
) -> Result<Option<&'a [u8]>, AllocError> {
    let mut names = Vec::new(alloc);
    push_texts(&mut names, read_here(kind))?;
    push_texts(&mut names, passed_over(kind))?;
    nearest(alloc, name, names.as_slice())
}

/// What is told of a directive that no type of Nagios has, with a near name where one is asked for.
fn unknown_line<'a>(
    alloc: Global,
    blocks: &'a [Block],
    line: Line,
    asked: bool,
) -> Result<Warned<'a>, AllocError> {
    let mut one = about_line(Warning::UnknownDirective, blocks, line);
    if asked {
        if let Some(block) = blocks.get(line.place) {
            one.near = near_directive(alloc, block.kind, one.directive)?;
        }
    }
    Ok(one)
}

/// Adds what is told of the lines, of directives that no type of Nagios has.
fn add_unknown_lines<'a>(
    alloc: Global,
    blocks: &'a [Block],
    lines: &[Line],
    warned: &mut Vec<Warned<'a>>,
) -> Result<(), AllocError>
    ensures { OnOk result (length warned.new.items ≡ length warned.old.items + length lines.now) }
{
    for number in 0..lines.len() {
        let line = lines[number];
        warned.push(unknown_line(alloc, blocks, line, number < MOST_NEAR)?)?;
    }
    Ok(())
}

/// Adds what is told of directives that no type of Nagios has.
fn add_unknown<'a>(
    alloc: Global,
    form: Form<'_, '_>,
    blocks: &'a [Block],
    warned: &mut Vec<Warned<'a>>,
) -> Result<(), AllocError>
    ensures { OnOk result (length warned.new.items ≡ length warned.old.items + of_unknown form.entry blocks.now) }
{
    if is_left_out(form, Warning::UnknownDirective) {
        return Ok(());
    }
    let lines = lines_where(alloc, Test::Unknown, blocks)?;
    add_unknown_lines(alloc, blocks, lines.as_slice(), warned)?;
    Ok(())
}

/// How often the names have the name.
fn count_of(names: &Names<'_>, name: &[u8]) -> usize {
    let mut count: usize = 0;
    for number in 0..names.len() {
        if names.name(number) == name {
            count = count.saturating_add(1);
        }
    }
    count
}

/// The name of the directive that a line is; empty where there is none.
fn line_name<'a>(blocks: &'a [Block], line: Line) -> &'a [u8]
    ensures { result.now ≡ line_name blocks.now line }
{
    match blocks.get(line.place) {
        None => &[],
        Some(block) => match block.directives.as_slice().get(line.number) {
            None => &[],
            Some(directive) => directive.name.as_slice(),
        },
    }
}

/// The names of the directives that the lines are.
fn names_of<'a>(alloc: Global, blocks: &'a [Block], lines: &[Line]) -> Result<Names<'a>, AllocError>
    ensures { IfOk result (λ names. names ≡ map (line_name blocks.now) lines.now) }
{
    let mut names: Vec<&'a [u8]> = Vec::with_capacity(alloc, lines.len())?;
    for line in lines {
        names.push(line_name(blocks, *line))?;
    }
    Names::new(alloc, names)
}

/// What is told of the directive of that number among those that have no effect here.
fn passed_over_line<'a>(names: &Names<'a>, lines: &[Line], number: usize) -> Warned<'a> {
    let name = names.name(number);
    let place = match lines.get(number) {
        Some(line) => line.place,
        None => 0,
    };
    let mut one = about(Warning::WithoutEffect, place, "");
    one.directive = name;
    one.times = count_of(names, name);
    one
}

/// Adds what is told of the directives of these numbers among those that have no effect here.
fn add_numbered<'a>(
    names: &Names<'a>,
    lines: &[Line],
    numbers: &[usize],
    warned: &mut Vec<Warned<'a>>,
) -> Result<(), AllocError>
    ensures { OnOk result (length warned.new.items ≡ length warned.old.items + length numbers.now) }
{
    for number in numbers {
        warned.push(passed_over_line(names, lines, *number))?;
    }
    Ok(())
}

/// Adds what is told of directives that have no effect here: of each the first, and how many there are.
fn add_passed_over<'a>(
    alloc: Global,
    form: Form<'_, '_>,
    blocks: &'a [Block],
    warned: &mut Vec<Warned<'a>>,
) -> Result<(), AllocError>
    ensures { OnOk result (length warned.new.items
        ≡ length warned.old.items + of_passed_over form.entry blocks.now) }
{
    if is_left_out(form, Warning::WithoutEffect) {
        return Ok(());
    }
    let lines = lines_where(alloc, Test::PassedOver, blocks)?;
    let names = names_of(alloc, blocks, lines.as_slice())?;
    let numbers = firsts(alloc, &names)?;
    add_numbered(&names, lines.as_slice(), numbers.as_slice(), warned)?;
    Ok(())
}

/// Adds what is told of the lines, of directives that are given twice.
fn add_overridden_lines<'a>(
    blocks: &'a [Block],
    lines: &[Line],
    warned: &mut Vec<Warned<'a>>,
) -> Result<(), AllocError>
    ensures { OnOk result (length warned.new.items ≡ length warned.old.items + length lines.now) }
{
    for line in lines {
        warned.push(about_line(Warning::Overridden, blocks, *line))?;
    }
    Ok(())
}

/// Adds what is told of directives that are given twice.
fn add_overridden<'a>(
    alloc: Global,
    form: Form<'_, '_>,
    blocks: &'a [Block],
    warned: &mut Vec<Warned<'a>>,
) -> Result<(), AllocError>
    ensures { OnOk result (length warned.new.items ≡ length warned.old.items + of_overridden form.entry blocks.now) }
{
    if is_left_out(form, Warning::Overridden) {
        return Ok(());
    }
    let lines = overridden(alloc, blocks)?;
    add_overridden_lines(blocks, lines.as_slice(), warned)?;
    Ok(())
}

/// Adds a warning about each of the blocks at the places.
pub(crate) fn add_places<'a>(
    warning: Warning,
    directive: &'a str,
    places: &[usize],
    warned: &mut Vec<Warned<'a>>,
) -> Result<(), AllocError>
    ensures { OnOk result (length warned.new.items ≡ length warned.old.items + length places.now) }
{
    for place in places {
        warned.push(about(warning, *place, directive))?;
    }
    Ok(())
}

/// Adds what is told of blocks.
pub(crate) fn add_of_blocks<'a>(
    alloc: Global,
    form: Form<'_, '_>,
    blocks: &'a [Block],
    warned: &mut Vec<Warned<'a>>,
) -> Result<(), AllocError>
    ensures { OnOk result (length warned.new.items ≡ length warned.old.items + of_blocks form.entry blocks.now) }
{
    add_unknown(alloc, form, blocks, warned)?;
    add_passed_over(alloc, form, blocks, warned)?;
    add_overridden(alloc, form, blocks, warned)?;
    Ok(())
}

/// Adds what is told of blocks whose templates have no fault.
#[tactic(auto, unfolding(crate::specs::Warnings::of_templates))]
pub(crate) fn add_of_templates<'a>(
    alloc: Global,
    form: Form<'_, '_>,
    templates: &Templates<'_>,
    warned: &mut Vec<Warned<'a>>,
) -> Result<(), AllocError>
    ensures { OnOk result (length warned.new.items
        ≡ length warned.old.items + of_templates form.entry templates.now) }
{
    if is_left_out(form, Warning::NoCriteria) {
        return Ok(());
    }
    let places = without_criteria(alloc, templates)?;
    let directive = "notification_failure_criteria";
    add_places(Warning::NoCriteria, directive, places.as_slice(), warned)?;
    Ok(())
}
