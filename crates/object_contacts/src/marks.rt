//! Marks, one for each number below a count, and the numbers that are marked.

ghost use Rattle.std.specs.Prelude.{◌≡◌, ◌<◌, ◌≤◌, ◌++◌, ◌∷◌, [], length, map};
ghost use Rattle.std.specs.Prelude.{false, slice_index_or, Some};
ghost use Rattle.std.specs.Prelude.{All, IfOk, IfSome, OnOk, if◌then◌else◌};
ghost use Rattle.due_model.specs.claims.Limits.{max_lanes};
ghost use Rattle.object_contacts.specs.Marks.{marked, Marks};

use due_model::config::LaneId;
use std::alloc::{AllocError, Global};

/// Whether the number is marked.
pub(crate) fn is_marked(marks: &[bool], number: usize) -> bool
    ensures { result ≡ slice_index_or marks.now number false }
{
    if number < marks.len() {
        marks[number]
    } else {
        false
    }
}

/// Marks the number that is found.
pub(crate) fn mark(marks: &mut [bool], found: Option<usize>)
    requires { IfSome found (λ number. number < length marks.old) }
    ensures long { length marks.new ≡ length marks.old }
    ensures marked { Marks (λ number. found ≡ Some number) marks.old marks.new }
{
    let Some(number) = found else {
        return;
    };
    marks[number] = true;
}

/// Adds a number, where it is marked.
fn push_number(numbers: &mut Vec<usize>, number: usize, marked: bool) -> Result<(), AllocError>
    ensures { OnOk result (numbers.new.items
        ≡ numbers.old.items ++ (if marked then number ∷ [] else [])) }
{
    if marked {
        numbers.push(number)?;
    }
    Ok(())
}

/// The numbers that are marked, in order.
pub(crate) fn marked_numbers(alloc: Global, marks: &[bool]) -> Result<Vec<usize>, AllocError>
    ensures { IfOk result (λ numbers. numbers.items ≡ marked marks.now) }
{
    let mut numbers = Vec::new(alloc);
    for (number, marked) in marks.iter().enumerate() {
        push_number(&mut numbers, number, *marked)?;
    }
    Ok(numbers)
}

/// The lanes of these numbers.
pub(crate) fn lane_ids(alloc: Global, numbers: &[usize]) -> Result<Vec<LaneId>, AllocError>
    requires { All (λ number. number < max_lanes) numbers.now }
    ensures { IfOk result (λ ids. map (λ id. id.0) ids.items ≡ numbers.now) }
{
    let mut ids = Vec::new(alloc);
    for number in numbers {
        ids.push(LaneId(*number as u8))?;
    }
    Ok(ids)
}
