//! Names that are given twice, and names that nothing has.

ghost use Rattle.std.specs.Prelude.{◌≡◌, IfErr, IfOk, OnOk};
ghost use Rattle.object_groups.specs.claims.First.{IsFirst};
ghost use Rattle.object_resolve.specs.Fault.{IsAmong};
ghost use Rattle.object_resolve.specs.claims.First.{IsNowhere};
ghost use Rattle.object_resolve.specs.claims.Names.{GivesDoubledService, IsDoubledAt, IsFirstMisnamed};
ghost use Rattle.object_resolve.specs.claims.Names.{IsMisnamed};
ghost use Rattle.object_resolve.specs.claims.Names.{HasUnknownPair, IsUnknownAt};
ghost use Rattle.object_resolve.specs.Tables.{AreTables};

use crate::fault::of_place;
use crate::tables::{Tables, place_of};
use object_faults::load_fault::{BlockFault, LoadFault};
use object_groups::first::lower;
use object_inheritance::templates::Templates;
use object_names::doubled::first_doubled as first_doubled_object;
use object_names::unknown::first_unknown as first_unknown_name;
use object_pairs::unknown::first_unknown_member;
use object_services::doubled::first_doubled as first_doubled_number;
use object_unknown_services::unknown::first_unknown_service;
use std::alloc::{AllocError, Global};

/// The place of the first service block that gives a service which one before it gives.
fn first_doubled_service(alloc: Global, tables: &mut Tables) -> Result<Option<usize>, AllocError>
    requires { AreTables tables.old.objects.now tables.old }
    ensures same { tables.new ≡ tables.old }
    ensures first { IfOk result (IsFirst (GivesDoubledService tables.old.objects.now)) }
{
    let number = first_doubled_number(alloc, tables.services, &mut tables.hosts)?;
    let Some(number) = number else {
        return Ok(None);
    };
    Ok(place_of(tables.services.objects(), number))
}

/// The place of the first block that gives an object which one before it gives.
fn first_doubled(alloc: Global, tables: &mut Tables) -> Result<Option<usize>, AllocError>
    requires { AreTables tables.old.objects.now tables.old }
    ensures same { tables.new ≡ tables.old }
    ensures first { IfOk result (IsFirst (IsDoubledAt tables.old.objects.now)) }
{
    let service = first_doubled_service(alloc, tables)?;
    Ok(lower(first_doubled_object(tables.objects), service))
}

/// The place of the first block that names a host and a service that isn't there.
fn first_unknown_pair<'a>(
    alloc: Global,
    templates: &Templates<'a>,
    tables: &mut Tables<'a, '_>,
) -> Result<Option<usize>, AllocError>
    requires { AreTables templates.now tables.old }
    ensures same { tables.new ≡ tables.old }
    ensures first { IfOk result (IsFirst (HasUnknownPair templates.now)) }
{
    let member = first_unknown_member(alloc, templates, tables.services, &mut tables.hosts)?;
    let named = first_unknown_service(alloc, templates, tables.services, &mut tables.hosts)?;
    Ok(lower(member, named))
}

/// The place of the first block that names something that isn't there.
fn first_unknown<'a>(
    alloc: Global,
    templates: &Templates<'a>,
    tables: &mut Tables<'a, '_>,
) -> Result<Option<usize>, AllocError>
    requires { AreTables templates.now tables.old }
    ensures same { tables.new ≡ tables.old }
    ensures first { IfOk result (IsFirst (IsUnknownAt templates.now)) }
{
    let name = first_unknown_name(alloc, templates, tables.objects)?;
    let pair = first_unknown_pair(alloc, templates, tables)?;
    Ok(lower(name, pair))
}

/// Finds the first block with a fault of names. Of one block's two, that it names something unknown counts.
pub(crate) fn check_names<'a>(
    alloc: Global,
    templates: &Templates<'a>,
    tables: &mut Tables<'a, '_>,
) -> Result<(), LoadFault>
    requires { AreTables templates.now tables.old }
    ensures same { tables.new ≡ tables.old }
    ensures named { OnOk result (IsNowhere (IsMisnamed templates.now)) }
    ensures fault { IfErr result (IsAmong (IsFirstMisnamed templates.now)) }
{
    let doubled = first_doubled(alloc, tables)?;
    let unknown = first_unknown(alloc, templates, tables)?;
    let Some(place) = lower(doubled, unknown) else {
        return Ok(());
    };
    let blocks = templates.blocks();
    if unknown == Some(place) {
        return Err(of_place(blocks, place, BlockFault::UnknownName));
    }
    Err(of_place(blocks, place, BlockFault::Doubled))
}
