//! Faults of blocks, as they are found.

ghost use Rattle.std.specs.Prelude.{◌≡◌, map, Some, slice_get, true, false, IfOk};
ghost use Rattle.object_check.specs.Answered.{fault_by};
ghost use Rattle.object_faults.specs.claims.LoadFaults.{of_value};
ghost use Rattle.site_check.specs.Faults.{IsBegun, line_at, load_fault, name_found};
ghost use Rattle.site_check.specs.Faults.{value_fault, value_found};

use faults_told::telling::row_fault;
use object_check::misfits::Misfit;
use object_check::rows::{Must, value_rows};
use object_faults::load_fault::{BlockFault, LoadFault};
use object_reader::block::Block;
use std::alloc::{AllocError, Global};

/// A fault of a block.
#[derive(Clone, Copy)]
pub(crate) struct Found {
    /// The place of the block, in file order, from 0.
    pub(crate) place: usize,
    pub(crate) fault: BlockFault,
}

/// The fault of values of a block that isn't what it must be.
fn fault_by(must: Must) -> BlockFault
    ensures { result ≡ of_value (fault_by must) }
{
    match must {
        Must::Be(check) => row_fault(Must::Be(check)),
        Must::Name(_, _) | Must::List(_) => BlockFault::MissingDirective,
        Must::HaveWholeLines => BlockFault::BadRange,
        Must::HaveDayLines => BlockFault::DatedException,
    }
}

/// The fault of values that a row of the table asks for.
fn value_fault(row: usize) -> BlockFault
    ensures { result ≡ value_fault row }
{
    let rows = value_rows();
    if row < rows.len() {
        let (_, must, _) = rows[row];
        fault_by(must)
    } else {
        BlockFault::MissingDirective
    }
}

/// The faults of values. A refused growth leaves nothing.
pub(crate) fn values_found(alloc: Global, misfits: &[Misfit]) -> Result<Vec<Found>, AllocError>
    ensures { IfOk result (λ found. found.items ≡ map value_found misfits.now) }
{
    let mut found = Vec::with_capacity(alloc, misfits.len())?;
    for misfit in misfits {
        found.push(Found {
            place: misfit.place,
            fault: value_fault(misfit.row),
        })?;
    }
    Ok(found)
}

/// The faults of names that nothing has. A refused growth leaves nothing.
pub(crate) fn unknown_found(alloc: Global, misfits: &[Misfit]) -> Result<Vec<Found>, AllocError>
    ensures { IfOk result (λ found. found.items ≡ map name_found misfits.now) }
{
    let mut found = Vec::with_capacity(alloc, misfits.len())?;
    for misfit in misfits {
        found.push(Found {
            place: misfit.place,
            fault: BlockFault::UnknownName,
        })?;
    }
    Ok(found)
}

/// The line of the block at the place.
fn line_at(blocks: &[Block], place: usize) -> u64
    ensures { result ≡ line_at blocks.now place }
{
    match blocks.get(place) {
        None => 0,
        Some(block) => block.line,
    }
}

/// The faults with their lines. A refused growth leaves nothing.
pub(crate) fn load_faults(
    alloc: Global,
    blocks: &[Block],
    found: &[Found],
) -> Result<Vec<LoadFault>, AllocError>
    ensures { IfOk result (λ faults. faults.items ≡ map (load_fault blocks.now) found.now) }
{
    let mut faults = Vec::with_capacity(alloc, found.len())?;
    for one in found {
        faults.push(LoadFault::Block {
            line: line_at(blocks, one.place),
            fault: one.fault,
        })?;
    }
    Ok(faults)
}

/// Whether two faults are one.
fn is_same(one: LoadFault, other: LoadFault) -> bool
    ensures same { result ≡ true → one ≡ other }
    ensures other { result ≡ false → one ≡ other → ⊥ }
{
    one == other
}

/// Whether the faults begin with this one.
fn begins(all: &[LoadFault], first: LoadFault) -> bool
    ensures same { result ≡ true → slice_get all.now 0 ≡ Some first }
    ensures other { result ≡ false → slice_get all.now 0 ≡ Some first → ⊥ }
{
    if all.is_empty() {
        false
    } else {
        is_same(all[0], first)
    }
}

/// The faults, and this one before them where they don't begin with it. A refused growth leaves nothing.
pub(crate) fn begun(
    alloc: Global,
    all: Vec<LoadFault>,
    first: LoadFault,
) -> Result<Vec<LoadFault>, AllocError>
    ensures begins { IfOk result (λ told. slice_get told.items 0 ≡ Some first) }
    ensures begun { IfOk result (λ told. IsBegun first all.items told.items) }
{
    if begins(all.as_slice(), first) {
        return Ok(all);
    }
    let mut told = Vec::new(alloc);
    told.push(first)?;
    told.extend_from_slice(all.as_slice())?;
    Ok(told)
}
