//! The numbers of the objects that lists of objects and of groups reach.

ghost use Rattle.std.specs.Prelude.{◌≡◌, ℕ, ◌++◌, ◌↔◌, true, false, nat_lt};
ghost use Rattle.std.specs.Prelude.{Contains, IfOk, OnErr, OnOk};
ghost use Rattle.std.specs.List.{range_with_len};
ghost use Rattle.std.specs.List.Sorted.{IsPermutation, IsStrictlyIncreasing};
ghost use Rattle.object_groups.specs.claims.Groups.{grouping};
ghost use Rattle.object_groups.specs.claims.Members.{IsMember};
ghost use Rattle.object_groups.specs.claims.Names.{Lists};
ghost use Rattle.object_listing.specs.Listing.{Adds};
ghost use Rattle.object_values.specs.Values.{texts};

use object_groups::groups::Groups;
use object_groups::names::{Names, is_all, numbers_of};
use std::alloc::{AllocError, Global};

/// The numbers below a count.
fn numbers_below(alloc: Global, count: usize) -> Result<Vec<usize>, AllocError>
    ensures { IfOk result (λ numbers. numbers.items ≡ range_with_len 0 count) }
{
    let mut numbers = Vec::with_capacity(alloc, count)?;
    for number in 0..count {
        numbers.push(number)?;
    }
    Ok(numbers)
}

/// The numbers of what a list names: all, where it is `*` alone.
pub(crate) fn listed<'a>(
    alloc: Global,
    names: &Names<'a>,
    entries: &[&'a [u8]],
) -> Result<Vec<usize>, AllocError>
    ensures { IfOk result (λ numbers. (k : ℕ)
        → Contains numbers.items k ↔ Lists names.now (texts entries.now) k) }
{
    if is_all(entries) {
        return numbers_below(alloc, names.len());
    }
    numbers_of(alloc, names, entries)
}

/// Adds these numbers.
fn push_members(numbers: &mut Vec<usize>, members: &[u32]) -> Result<(), AllocError>
    ensures { OnOk result (numbers.new.items ≡ numbers.old.items ++ members.now) }
{
    numbers.reserve(members.len())?;
    for member in members {
        numbers.push(*member as usize)?;
    }
    Ok(())
}

/// Whether each of the numbers is below the next.
fn rises(numbers: &[usize]) -> bool
    ensures { (result ≡ true) ↔ IsStrictlyIncreasing numbers.now }
{
    numbers.is_sorted_by(
        |one: &usize, next: &usize| -> bool
            ensures { result ≡ nat_lt one.now next.now }
        { *one < *next },
    )
}

/// Puts the numbers in order, each once. Want of memory is the only error; it leaves the same numbers, in any order.
pub fn put_in_order(numbers: &mut Vec<usize>) -> Result<(), AllocError>
    ensures rising { OnOk result (IsStrictlyIncreasing numbers.new.items) }
    ensures same { OnOk result ((k : ℕ)
        → Contains numbers.new.items k ↔ Contains numbers.old.items k) }
    ensures left { OnErr result (IsPermutation numbers.old.items numbers.new.items) }
{
    if rises(numbers.as_slice()) {
        return Ok(());
    }
    numbers.sort()?;
    numbers.dedup();
    Ok(())
}

/// Puts the numbers in order, each once, where there are so many. Want of memory is the only error; it leaves the
/// same numbers, in any order.
pub fn shorten(numbers: &mut Vec<usize>, many: bool) -> Result<(), AllocError>
    ensures rising { many ≡ true → OnOk result (IsStrictlyIncreasing numbers.new.items) }
    ensures kept { many ≡ false → numbers.new ≡ numbers.old }
    ensures same { OnOk result ((k : ℕ)
        → Contains numbers.new.items k ↔ Contains numbers.old.items k) }
    ensures left { OnErr result (IsPermutation numbers.old.items numbers.new.items) }
{
    if many {
        put_in_order(numbers)?;
    }
    Ok(())
}

/// Adds the members of a group. Where there are more than twice as many numbers as objects they are put in
/// order, each once, so that what is kept grows with the objects and not with the groups.
fn push_group(
    alloc: Global,
    numbers: &mut Vec<usize>,
    groups: &mut Groups,
    group: usize,
) -> Result<(), AllocError>
    ensures same { groups.new ≡ groups.old }
    ensures added { OnOk result (Adds
        (IsMember (grouping groups.old.blocks groups.old.kind) group)
        numbers.old.items numbers.new.items) }
{
    let members = groups.members(alloc, group)?;
    push_members(numbers, members.as_slice())?;
    let many = numbers.len() / 2 > groups.objects().names().len();
    shorten(numbers, many)?;
    Ok(())
}

/// Adds the members of groups.
pub(crate) fn push_groups(
    alloc: Global,
    numbers: &mut Vec<usize>,
    groups: &mut Groups,
    listed: &[usize],
) -> Result<(), AllocError>
    ensures same { groups.new ≡ groups.old }
    ensures added { OnOk result (Adds
        (λ object. (group : ℕ) × Contains listed.now group
        × IsMember (grouping groups.old.blocks groups.old.kind) group object)
        numbers.old.items numbers.new.items) }
{
    for group in listed {
        push_group(alloc, numbers, groups, *group)?;
    }
    Ok(())
}
