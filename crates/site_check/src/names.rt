//! The faults of names, as they are found.

ghost use Rattle.std.specs.Prelude.{◌≡◌, ◌<◌, ◌++◌, ◌∷◌, [], length, map};
ghost use Rattle.std.specs.Prelude.{IfOk, OnOk, if◌then◌else◌};
ghost use Rattle.object_groups.specs.claims.Objects.{objects_in};
ghost use Rattle.object_names.specs.Named.{all_kinds};
ghost use Rattle.site_check.specs.Faults.{AreInOrder, doubled_among, doubled_at, doubled_in};
ghost use Rattle.site_check.specs.Faults.{name_found};

use crate::found::{Found, unknown_found};
use object_check::misfits::Misfit;
use object_faults::load_fault::BlockFault;
use object_groups::objects::Objects;
use object_names::named::{NamedKind, NamedObjects};
use std::alloc::{AllocError, Global};

/// Adds the object of that number, where it has the name of one before it.
fn push_doubled_at(
    found: &mut Vec<Found>,
    objects: &Objects<'_>,
    number: usize,
    doubled: bool,
) -> Result<(), AllocError>
    requires { number < length (objects_in objects.now.blocks objects.now.kind) }
    ensures { OnOk result (found.new.items ≡ found.old.items
        ++ (if doubled then doubled_at objects.now.blocks objects.now.kind number ∷ [] else [])) }
{
    if doubled {
        let places = objects.places();
        found.push(Found {
            place: places[number],
            fault: BlockFault::Doubled,
        })?;
    }
    Ok(())
}

/// Adds the objects that have the name of one before them.
fn push_doubled_in(found: &mut Vec<Found>, objects: &Objects<'_>) -> Result<(), AllocError>
    ensures { OnOk result (found.new.items
        ≡ found.old.items ++ doubled_in objects.now.blocks objects.now.kind) }
{
    for number in 0..objects.places().len() {
        push_doubled_at(found, objects, number, objects.names().is_doubled(number))?;
    }
    Ok(())
}

/// Adds those of each of the types.
fn push_doubled_among(
    found: &mut Vec<Found>,
    objects: &NamedObjects<'_>,
    kinds: &[NamedKind],
) -> Result<(), AllocError>
    ensures { OnOk result (found.new.items ≡ found.old.items ++ doubled_among objects.now kinds.now) }
{
    for kind in kinds {
        push_doubled_in(found, objects.objects(*kind))?;
    }
    Ok(())
}

/// Adds those of all types that have a name of their own.
fn push_doubled(found: &mut Vec<Found>, objects: &NamedObjects<'_>) -> Result<(), AllocError>
    ensures { OnOk result (found.new.items ≡ found.old.items ++ doubled_among objects.now all_kinds) }
{
    let kinds = [
        NamedKind::Host,
        NamedKind::HostGroup,
        NamedKind::ServiceGroup,
        NamedKind::Contact,
        NamedKind::ContactGroup,
        NamedKind::TimePeriod,
        NamedKind::Command,
    ];
    push_doubled_among(found, objects, &kinds)
}

/// Brings faults into file order.
fn sort(found: &mut Vec<Found>) -> Result<(), AllocError>
    ensures { OnOk result (AreInOrder found.old.items found.new.items) }
{
    found.sort_by_key(|one| one.place)?;
    Ok(())
}

/// All faults of names by which objects are named alone, in file order, where these are those that nothing has. A refused
/// growth leaves nothing.
pub(crate) fn names_found(
    alloc: Global,
    objects: &NamedObjects<'_>,
    misfits: &[Misfit],
) -> Result<Vec<Found>, AllocError>
    ensures { IfOk result (λ found. AreInOrder
        (map name_found misfits.now ++ doubled_among objects.now all_kinds) found.items) }
{
    let mut found = unknown_found(alloc, misfits)?;
    push_doubled(&mut found, objects)?;
    sort(&mut found)?;
    Ok(found)
}
