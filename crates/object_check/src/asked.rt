//! Whether what a block has for a directive isn't what it must be.

ghost use Rattle.std.specs.Prelude.{◌≡◌, None, false, map, slice_index_or, true, IfOk, OnOk};
ghost use Rattle.std.specs.List.{list_any};
ghost use Rattle.std.specs.Option.{option_copied, option_map_or};
ghost use Rattle.object_check.specs.Marks.{AreFound, breaks, is_of_value};
ghost use Rattle.object_faults.specs.claims.Faults as faults;
ghost use Rattle.object_groups.specs.claims.Names.{is_exclusion, lacks_any};
ghost use Rattle.object_groups.specs.claims.Objects.{list_at};
ghost use Rattle.object_inheritance.specs.claims.Inherited.{value};
ghost use Rattle.object_names.specs.claims.Unknown.{is_unknown, lacks_period};
ghost use Rattle.object_reader.specs.declared.block.BlockKind.{BlockKind};
ghost use Rattle.object_values.specs.claims.Values.{command_name};
ghost use Rattle.object_values.specs.Values.{texts};

use crate::rows::Must;
use object_faults::column::Check;
use object_groups::names::{Names, has_exclusion};
use object_groups::objects::list_at;
use object_inheritance::inherited::Values;
use object_names::named::NamedObjects;
use object_names::references::Reading;
use object_values::options::{criteria_in, options_in};
use object_values::ranges::are_ranges;
use object_values::values::{command_name, number_in};
use std::alloc::{AllocError, Global};

/// Whether a text isn't what a directive must be.
fn is_wrong(check: Check, text: &[u8]) -> bool
    ensures { result ≡ faults.breaks check text.now }
{
    match check {
        Check::Number => number_in(text).is_none(),
        Check::Options(kind) => options_in(kind, text).is_none(),
        Check::Criteria(kind) => criteria_in(kind, text).is_none(),
        Check::Ranges => !are_ranges(text),
        Check::Zero => match number_in(text) {
            None => false,
            Some(number) => number != 0,
        },
        Check::Given => false,
        Check::Names => false,
    }
}

/// Whether what the block at the place has for the directive of the values is given, and isn't what it must be.
fn is_wrong_at(values: &Values, check: Check, place: usize) -> bool
    ensures { result ≡ option_map_or (faults.breaks check)
        (value values.now.blocks values.now.directive place) false }
{
    match values.value(place) {
        None => false,
        Some(text) => is_wrong(check, text),
    }
}

/// Whether the block at the place has an exclusion in its list for the directive of the values.
fn excludes_at(alloc: Global, values: &Values, place: usize) -> Result<bool, AllocError>
    ensures { IfOk result (λ excludes. excludes
        ≡ list_any is_exclusion (list_at values.now.blocks values.now.directive place)) }
{
    let entries = list_at(alloc, values, place)?;
    Ok(has_exclusion(entries.as_slice()))
}

/// Whether what the block at the place has for the directive of the values isn't what it must be.
fn is_broken(alloc: Global, values: &Values, check: Check, place: usize) -> Result<bool, AllocError>
    ensures { IfOk result (λ broken. broken
        ≡ faults.is_broken values.now.blocks place check values.now.directive) }
{
    match check {
        Check::Given => Ok(values.value(place).is_none()),
        Check::Names => excludes_at(alloc, values, place),
        Check::Number => Ok(is_wrong_at(values, Check::Number, place)),
        Check::Options(kind) => Ok(is_wrong_at(values, Check::Options(kind), place)),
        Check::Criteria(kind) => Ok(is_wrong_at(values, Check::Criteria(kind), place)),
        Check::Ranges => Ok(is_wrong_at(values, Check::Ranges, place)),
        Check::Zero => Ok(is_wrong_at(values, Check::Zero, place)),
    }
}

/// Whether a list of commands has one that none of the names is.
fn lacks_command<'a>(names: &Names<'a>, entries: &[&'a [u8]]) -> bool
    ensures { result ≡ lacks_any names.now (map command_name (texts entries.now)) }
{
    for entry in entries {
        if names.lacks(command_name(*entry)) {
            return true;
        }
    }
    false
}

/// Whether what is given as the name of a period is one, and none of the names is it.
fn lacks_period<'a>(names: &Names<'a>, given: Option<&'a [u8]>) -> bool
    ensures { result ≡ lacks_period names.now (option_copied given.entry) }
{
    match given {
        None => false,
        Some(name) => !name.is_empty() && names.lacks(name),
    }
}

/// Whether what the block at the place has for the directive of the values names something that none of the names is.
fn is_unknown<'a>(
    alloc: Global,
    values: &Values<'a>,
    reading: Reading,
    names: &Names<'a>,
    place: usize,
) -> Result<bool, AllocError>
    ensures { IfOk result (λ unknown. unknown
        ≡ is_unknown reading names.now values.now.blocks values.now.directive place) }
{
    if matches!(reading, Reading::Period) {
        return Ok(lacks_period(names, values.name(place)));
    }
    let entries = list_at(alloc, values, place)?;
    Ok(match reading {
        Reading::NamesOrAll => names.has_unknown(entries.as_slice()),
        Reading::Commands => lacks_command(names, entries.as_slice()),
        Reading::Names | Reading::Period => names.lacks_any(entries.as_slice()),
    })
}

/// Whether what the block at the place has for the directive of the values isn't what it must be. `objects` are those of
/// the same blocks.
fn is_unfit<'a>(
    alloc: Global,
    values: &Values<'a>,
    objects: &NamedObjects<'a>,
    must: Must,
    place: usize,
) -> Result<bool, AllocError>
    requires of_value { is_of_value must ≡ true }
    requires objects { objects.now ≡ values.now.blocks }
    ensures { IfOk result (λ unfit. (kind : BlockKind)
        → unfit ≡ breaks values.now.blocks place kind must values.now.directive) }
{
    match must {
        Must::Be(check) => is_broken(alloc, values, check, place),
        Must::Name(named, reading) => {
            is_unknown(
                alloc,
                values,
                reading,
                objects.objects(named).names(),
                place,
            )
        }
        Must::List(_) | Must::HaveWholeLines | Must::HaveDayLines => Ok(false),
    }
}

/// What was found of the block at the place; none where it wasn't looked at.
fn found_at(found: &[Option<bool>], place: usize) -> Option<bool>
    ensures { result ≡ slice_index_or found.now place None }
{
    if place < found.len() {
        found[place]
    } else {
        None
    }
}

/// The same as `is_unfit`, looked at once for all blocks that take from one block what they have. `found` is what was
/// found so far, by the places of the blocks that give it.
pub(crate) fn is_unfit_once<'a>(
    alloc: Global,
    values: &Values<'a>,
    objects: &NamedObjects<'a>,
    must: Must,
    found: &mut Vec<Option<bool>>,
    place: usize,
) -> Result<bool, AllocError>
    requires of_value { is_of_value must ≡ true }
    requires objects { objects.now ≡ values.now.blocks }
    requires found { AreFound must values.now found.old.items }
    ensures found { OnOk result (AreFound must values.now found.new.items) }
    ensures unfit { IfOk result (λ unfit. (kind : BlockKind)
        → unfit ≡ breaks values.now.blocks place kind must values.now.directive) }
{
    let origin = values.origin(place);
    if let Some(unfit) = found_at(found.as_slice(), origin) {
        return Ok(unfit);
    }
    let unfit = is_unfit(alloc, values, objects, must, place)?;
    if origin < found.len() {
        found[origin] = Some(unfit);
    }
    Ok(unfit)
}
