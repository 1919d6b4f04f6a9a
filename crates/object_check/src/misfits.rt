//! Which blocks have which faults of a table, in file order.

ghost use Rattle.std.specs.Prelude.{◌≡◌, ◌++◌, ◌∷◌, [], List, flat_map, length, map, slice_index_or, IfOk, OnOk};
ghost use Rattle.std.specs.Prelude.{false, if◌then◌else◌};
ghost use Rattle.std.specs.List.{range_with_len};
ghost use Rattle.object_check.specs.Misfits.{is_marked, is_marked_in, misfits_at, misfits_in};

use std::alloc::{AllocError, Global};

/// A fault of a block: the row of the table that says what the block must be, and isn't.
#[derive(Clone, Copy, Debug, PartialEq, Eq)]
pub struct Misfit {
    /// The place of the block, in file order, from 0.
    pub place: usize,
    /// The number of the row, from 0.
    pub row: usize,
}

/// Whether a column has a mark at the place.
pub(crate) fn is_marked(column: &[bool], place: usize) -> bool
    ensures { result ≡ is_marked column.now place }
{
    if place < column.len() {
        column[place]
    } else {
        false
    }
}

/// Adds a row, where the block has that fault.
fn push_row(found: &mut Vec<Misfit>, has: bool, place: usize, row: usize) -> Result<(), AllocError>
    ensures { OnOk result (found.new.items ≡ found.old.items
        ++ (if has then record { place = place; row = row } ∷ [] else [])) }
{
    if has {
        found.push(Misfit { place, row })?;
    }
    Ok(())
}

/// Adds the faults of the block at the place, where the columns mark the blocks that have each.
fn push_misfits(
    found: &mut Vec<Misfit>,
    columns: &[Vec<bool>],
    place: usize,
) -> Result<(), AllocError>
    ensures { OnOk result (found.new.items ≡ found.old.items
        ++ misfits_at (λ row at. is_marked_in (map (λ column. column.items) columns.now) row at)
        (length columns.now) place) }
{
    for row in 0..columns.len() {
        push_row(found, is_marked(columns[row].as_slice(), place), place, row)?;
    }
    Ok(())
}

/// The faults of so many blocks, in file order, and of each in the order of the rows, where the columns mark the blocks
/// that have each. A refused growth leaves nothing.
pub(crate) fn misfits_in(
    alloc: Global,
    columns: &[Vec<bool>],
    count: usize,
) -> Result<Vec<Misfit>, AllocError>
    ensures { IfOk result (λ found. found.items
        ≡ misfits_in (λ row at. is_marked_in (map (λ column. column.items) columns.now) row at)
        (length columns.now) count) }
{
    let mut found = Vec::new(alloc);
    for place in 0..count {
        push_misfits(&mut found, columns, place)?;
    }
    Ok(found)
}
