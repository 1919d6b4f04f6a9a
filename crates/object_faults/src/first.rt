//! The first block with a fault, directive by directive.

ghost use Rattle.std.specs.Prelude.{◌≡◌, false, length, map, slice_index_or, IfOk, IfSome, List};
ghost use Rattle.std.specs.List.{list_any};
ghost use Rattle.std.specs.Option.{option_map_or};
ghost use Rattle.object_faults.specs.Columns.{column_fault, directive_of, earlier};
ghost use Rattle.object_faults.specs.Columns.{fault_at, first_at, IsFirst, lower, rank};
ghost use Rattle.object_faults.specs.Columns.{registered_fault, side_at, side_fault};
ghost use Rattle.object_faults.specs.claims.Faults.{breaks, is_broken, is_registered};
ghost use Rattle.object_faults.specs.Known.{AreKnown};
ghost use Rattle.object_groups.specs.claims.Names.{is_exclusion};
ghost use Rattle.object_groups.specs.claims.Objects.{list_at};
ghost use Rattle.object_inheritance.specs.claims.Inherited.{value};

use crate::column::{Check, Column, breaks, check_of, directive_of, fault_name};
use crate::fault::ValueFault;
use crate::needs::{Needs, Side};
use object_groups::names::has_exclusion;
use object_groups::objects::list_at;
use object_inheritance::inherited::Values;
use object_inheritance::kinds::{kind_number, means_nothing};
use object_inheritance::registered::registers;
use object_inheritance::templates::Templates;
use object_reader::block::{Block, BlockKind};
use object_values::values::value_in;
use std::alloc::{AllocError, Global};

/// A block with a fault, by its place.
#[derive(Clone, Copy)]
pub(crate) struct Found {
    pub(crate) place: usize,
    pub(crate) fault: ValueFault,
}

/// Whether a block is an object: its type means something, and it isn't a template alone.
pub(crate) fn is_registered(block: &Block) -> bool
    ensures { result ≡ is_registered block.now }
{
    !means_nothing(block.kind)
        && registers(value_in(block.directives.as_slice(), "register".as_bytes()))
}

/// Of each block whether it is registered.
pub(crate) fn registered_blocks(alloc: Global, blocks: &[Block]) -> Result<Vec<bool>, AllocError>
    ensures { IfOk result (λ registered. registered.items ≡ map is_registered blocks.now) }
{
    let mut registered = Vec::with_capacity(alloc, blocks.len())?;
    for block in blocks {
        registered.push(is_registered(block))?;
    }
    Ok(registered)
}

/// Whether the block at the place is registered, as was found of each before.
fn is_marked(registered: &[bool], place: usize) -> bool
    ensures { result ≡ slice_index_or registered.now place false }
{
    if place < registered.len() {
        registered[place]
    } else {
        false
    }
}

/// Whether what the block at the place has for the directive of the values is given, and isn't what it must be.
fn breaks_at(values: &Values, check: Check, place: usize) -> bool
    ensures { result ≡ option_map_or (breaks check)
        (value values.now.blocks values.now.directive place) false }
{
    match values.value(place) {
        None => false,
        Some(text) => breaks(check, text),
    }
}

/// Whether the block at the place has an exclusion in its list for the directive of the values.
fn excludes_at(alloc: Global, values: &Values, place: usize) -> Result<bool, AllocError>
    ensures { IfOk result (λ excludes. excludes
        ≡ list_any is_exclusion (list_at values.now.blocks values.now.directive place)) }
{
    let entries = list_at(alloc, values, place)?;
    Ok(has_exclusion(entries.as_slice()))
}

/// Whether what the block at the place has for the directive of the values isn't what it must be.
fn is_broken(alloc: Global, values: &Values, check: Check, place: usize) -> Result<bool, AllocError>
    ensures { IfOk result (λ broken. broken
        ≡ is_broken values.now.blocks place check values.now.directive) }
{
    match check {
        Check::Given => Ok(values.value(place).is_none()),
        Check::Names => excludes_at(alloc, values, place),
        Check::Number => Ok(breaks_at(values, Check::Number, place)),
        Check::Options(kind) => Ok(breaks_at(values, Check::Options(kind), place)),
        Check::Criteria(kind) => Ok(breaks_at(values, Check::Criteria(kind), place)),
        Check::Ranges => Ok(breaks_at(values, Check::Ranges, place)),
        Check::Zero => Ok(breaks_at(values, Check::Zero, place)),
    }
}

/// The fault of what a block of the type has for the directive of the values.
fn column_fault(
    alloc: Global,
    values: &Values,
    column: Column,
    kind: BlockKind,
    place: usize,
) -> Result<Option<ValueFault>, AllocError>
    requires { values.now.directive ≡ directive_of column }
    ensures { IfOk result (λ fault. fault ≡ column_fault values.now.blocks place kind column) }
{
    let Some(check) = check_of(column, kind) else {
        return Ok(None);
    };
    if is_broken(alloc, values, check, place)? {
        Ok(Some(fault_name(check)))
    } else {
        Ok(None)
    }
}

/// The fault of what the block at a place has for a directive, as one of that type.
#[derive(Clone, Copy)]
pub(crate) struct Judged {
    kind: BlockKind,
    fault: Option<ValueFault>,
}

/// What was found of the block at the place, as one of the type.
fn known_at(known: &[Option<Judged>], kind: BlockKind, place: usize) -> Option<Judged>
    ensures { (blocks : List Block) (column : Column) → AreKnown blocks column known.now
        → IfSome result (λ one. one.fault ≡ column_fault blocks place kind column) }
{
    if place >= known.len() {
        return None;
    }
    let one = known[place]?;
    if kind_number(one.kind) == kind_number(kind) {
        Some(one)
    } else {
        None
    }
}

/// Keeps what was found of the block at the place, if there is one.
fn keep(known: &mut [Option<Judged>], place: usize, one: Judged)
    ensures { (blocks : List Block) (column : Column) → AreKnown blocks column known.old
        → one.fault ≡ column_fault blocks place one.kind column
        → AreKnown blocks column known.new }
{
    if place < known.len() {
        known[place] = Some(one);
    }
}

/// The fault of what a block of the type has for the directive of the values. What it has from a template is
/// looked at where the template gives it, once for all blocks of the type that have it from there.
fn known_fault(
    alloc: Global,
    values: &Values,
    known: &mut [Option<Judged>],
    column: Column,
    kind: BlockKind,
    place: usize,
) -> Result<Option<ValueFault>, AllocError>
    requires directive { values.now.directive ≡ directive_of column }
    requires known { AreKnown values.now.blocks column known.old }
    ensures fault { IfOk result (λ fault. fault
        ≡ column_fault values.now.blocks place kind column) }
    ensures known { AreKnown values.now.blocks column known.new }
{
    let origin = values.origin(place);
    if let Some(one) = known_at(known, kind, origin) {
        return Ok(one.fault);
    }
    let fault = column_fault(alloc, values, column, kind, origin)?;
    keep(known, origin, Judged { kind, fault });
    Ok(fault)
}

/// The same, if the block is registered. Nothing is looked at of a template alone.
fn registered_fault(
    alloc: Global,
    values: &Values,
    registered: &[bool],
    known: &mut [Option<Judged>],
    column: Column,
    block: &Block,
    place: usize,
) -> Result<Option<ValueFault>, AllocError>
    requires directive { values.now.directive ≡ directive_of column }
    requires registered { slice_index_or registered.now place false ≡ is_registered block.now }
    requires known { AreKnown values.now.blocks column known.old }
    ensures fault { IfOk result (λ fault. fault
        ≡ registered_fault values.now.blocks place column block.now) }
    ensures known { AreKnown values.now.blocks column known.new }
{
    if check_of(column, block.kind).is_none() {
        return Ok(None);
    }
    if !is_marked(registered, place) {
        return Ok(None);
    }
    known_fault(alloc, values, known, column, block.kind, place)
}

/// The first block with a fault of one directive.
fn first_of_column(
    alloc: Global,
    templates: &Templates,
    registered: &[bool],
    column: Column,
) -> Result<Option<Found>, AllocError>
    requires { registered.now ≡ map is_registered templates.now }
    ensures { IfOk result (IsFirst (length templates.now) (fault_at templates.now column)) }
{
    let values = Values::new(alloc, templates, directive_of(column).as_bytes())?;
    let blocks = templates.blocks();
    let mut kept = vec![in alloc; None; blocks.len()]?;
    let known = kept.as_mut_slice();
    for (place, block) in blocks.iter().enumerate() {
        match registered_fault(alloc, &values, registered, known, column, block, place)? {
            None => {}
            Some(fault) => return Ok(Some(Found { place, fault })),
        }
    }
    Ok(None)
}

/// The fault of a block that lacks what it must list on the side of the needs, if it is registered.
fn side_fault(needs: &Needs, registered: &[bool], block: &Block, place: usize) -> Option<ValueFault>
    requires { slice_index_or registered.now place false ≡ is_registered block.now }
    ensures { result ≡ side_fault needs.now.blocks place needs.now.side block.now }
{
    if is_marked(registered, place) && needs.lacks(block.kind, place) {
        Some(ValueFault::MissingDirective)
    } else {
        None
    }
}

/// The first block that lacks what it must list on the side.
pub(crate) fn first_of_side(
    alloc: Global,
    templates: &Templates,
    registered: &[bool],
    side: Side,
) -> Result<Option<Found>, AllocError>
    requires { registered.now ≡ map is_registered templates.now }
    ensures { IfOk result (IsFirst (length templates.now) (side_at templates.now side)) }
{
    let needs = Needs::new(alloc, templates, side)?;
    for (place, block) in templates.blocks().iter().enumerate() {
        match side_fault(&needs, registered, block, place) {
            None => {}
            Some(fault) => return Ok(Some(Found { place, fault })),
        }
    }
    Ok(None)
}

/// Of two blocks with a fault the earlier, and the first of them where they are the same.
pub(crate) fn earlier(first: Option<Found>, second: Option<Found>) -> Option<Found>
    ensures { result ≡ earlier first second }
{
    let Some(one) = first else {
        return second;
    };
    let Some(other) = second else {
        return first;
    };
    if one.place <= other.place {
        first
    } else {
        second
    }
}

/// Where a fault stands in the order of the faults of a block.
fn rank(fault: ValueFault) -> u8
    ensures { result ≡ rank fault }
{
    match fault {
        ValueFault::MissingDirective => 0,
        ValueFault::BadNumber => 1,
        ValueFault::BadOption => 2,
        ValueFault::BadRange => 3,
        ValueFault::Volatile => 4,
        ValueFault::Exclusion => 5,
        ValueFault::DatedException => 6,
    }
}

/// Of two blocks with a fault the earlier; where they are the same the one whose fault counts.
pub(crate) fn lower(first: Option<Found>, second: Option<Found>) -> Option<Found>
    ensures { result ≡ lower first second }
{
    let Some(one) = first else {
        return second;
    };
    let Some(other) = second else {
        return first;
    };
    if one.place < other.place {
        return first;
    }
    if other.place < one.place {
        return second;
    }
    if rank(one.fault) <= rank(other.fault) {
        first
    } else {
        second
    }
}

/// The first block with a fault of one of the directives, of several faults the one of the first directive.
pub(crate) fn first_of_columns(
    alloc: Global,
    templates: &Templates,
    registered: &[bool],
    columns: &[Column],
) -> Result<Option<Found>, AllocError>
    requires { registered.now ≡ map is_registered templates.now }
    ensures { IfOk result (IsFirst (length templates.now) (first_at templates.now columns.now)) }
{
    let mut first = None;
    for column in columns {
        let found = first_of_column(alloc, templates, registered, *column)?;
        first = earlier(first, found);
    }
    Ok(first)
}
