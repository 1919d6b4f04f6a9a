//! The first fault of registered blocks by themselves.

ghost use Rattle.std.specs.Prelude.{◌≡◌, length, map, IfErr, IfOk, OnOk, Some};
ghost use Rattle.object_faults.specs.Columns.{any_at, first_at, IsFirst, lacking_at};
ghost use Rattle.object_faults.specs.Columns.{name_columns, value_columns, whole_at};
ghost use Rattle.object_faults.specs.claims.Faults.{AreFree, is_registered};
ghost use Rattle.object_faults.specs.Faults.{IsRefusal};

use crate::column::Column;
use crate::dates::first_dated;
use crate::fault::PassFault;
use crate::first::{Found, earlier, first_of_columns, first_of_side, lower, registered_blocks};
use crate::lists::NameList;
use crate::needs::Side;
use object_inheritance::templates::Templates;
use object_reader::block::BlockKind;
use std::alloc::{AllocError, Global};

/// The first block that lacks its name.
fn first_unnamed(
    alloc: Global,
    templates: &Templates,
    registered: &[bool],
) -> Result<Option<Found>, AllocError>
    requires { registered.now ≡ map is_registered templates.now }
    ensures { IfOk result (IsFirst (length templates.now) (first_at templates.now name_columns)) }
{
    let columns = [
        Column::Name(BlockKind::Host),
        Column::Name(BlockKind::HostGroup),
        Column::Name(BlockKind::Service),
        Column::Name(BlockKind::ServiceGroup),
        Column::Name(BlockKind::Contact),
        Column::Name(BlockKind::ContactGroup),
        Column::Name(BlockKind::TimePeriod),
        Column::Name(BlockKind::Command),
    ];
    first_of_columns(alloc, templates, registered, &columns)
}

/// The directives and lists of which each block is asked whether what it has is what it must be.
const VALUES: [Column; 43] = [
    Column::Register,
    Column::Interval,
    Column::Enabled,
    Column::Delay,
    Column::IsVolatile,
    Column::HostEnabled,
    Column::ServiceEnabled,
    Column::First,
    Column::Last,
    Column::Inherits,
    Column::NotificationOptions,
    Column::HostOptions,
    Column::ServiceOptions,
    Column::EscalationOptions,
    Column::FailureCriteria,
    Column::Sunday,
    Column::Monday,
    Column::Tuesday,
    Column::Wednesday,
    Column::Thursday,
    Column::Friday,
    Column::Saturday,
    Column::VolatileZero,
    Column::Listed(NameList::HostGroups),
    Column::Listed(NameList::ServiceGroups),
    Column::Listed(NameList::ContactGroups),
    Column::Listed(NameList::HostNames),
    Column::Listed(NameList::HostGroupNames),
    Column::Listed(NameList::Descriptions),
    Column::Listed(NameList::ServiceGroupNames),
    Column::Listed(NameList::DependentHostNames),
    Column::Listed(NameList::DependentHostGroupNames),
    Column::Listed(NameList::DependentDescriptions),
    Column::Listed(NameList::DependentServiceGroupNames),
    Column::Listed(NameList::Contacts),
    Column::Listed(NameList::GroupsOfContacts),
    Column::Listed(NameList::HostCommands),
    Column::Listed(NameList::ServiceCommands),
    Column::Listed(NameList::Members),
    Column::Listed(NameList::HostGroupMembers),
    Column::Listed(NameList::ServiceGroupMembers),
    Column::Listed(NameList::ContactGroupMembers),
    Column::Listed(NameList::Excludes),
];

/// The first block with something that isn't what it must be.
fn first_broken(
    alloc: Global,
    templates: &Templates,
    registered: &[bool],
) -> Result<Option<Found>, AllocError>
    requires { registered.now ≡ map is_registered templates.now }
    ensures { IfOk result (IsFirst (length templates.now) (first_at templates.now value_columns)) }
{
    first_of_columns(alloc, templates, registered, &VALUES)
}

/// The first block that lacks what it must have.
fn first_lacking(
    alloc: Global,
    templates: &Templates,
    registered: &[bool],
) -> Result<Option<Found>, AllocError>
    requires { registered.now ≡ map is_registered templates.now }
    ensures { IfOk result (IsFirst (length templates.now) (lacking_at templates.now)) }
{
    let unnamed = first_unnamed(alloc, templates, registered)?;
    let masters = first_of_side(alloc, templates, registered, Side::Masters)?;
    let dependents = first_of_side(alloc, templates, registered, Side::Dependents)?;
    Ok(earlier(unnamed, earlier(masters, dependents)))
}

/// The first block with a fault of its directives.
fn first_plain(alloc: Global, templates: &Templates) -> Result<Option<Found>, AllocError>
    ensures { IfOk result (IsFirst (length templates.now) (any_at templates.now)) }
{
    let marks = registered_blocks(alloc, templates.blocks())?;
    let registered = marks.as_slice();
    let lacking = first_lacking(alloc, templates, registered)?;
    let broken = first_broken(alloc, templates, registered)?;
    Ok(earlier(lacking, broken))
}

/// The first block with a fault.
fn first_fault(alloc: Global, templates: &Templates) -> Result<Option<Found>, AllocError>
    ensures { IfOk result (IsFirst (length templates.now) (whole_at templates.now)) }
{
    let plain = first_plain(alloc, templates)?;
    let dated = first_dated(alloc, templates)?;
    Ok(lower(plain, dated))
}

/// Refuses the block that was found.
fn refused(templates: &Templates, found: Found) -> PassFault
    requires { IsFirst (length templates.now) (whole_at templates.now) (Some found) }
    ensures { IsRefusal templates.now result }
{
    let blocks = templates.blocks();
    let place = found.place;
    let block = &blocks[place];
    PassFault::AtLine {
        line: block.line,
        fault: found.fault,
    }
}

/// Finds the first block, in file order, that has a fault by itself, if there is one. Of the faults of one block the
/// lowest counts: it lacks its name, or the hosts or services that it must list; a number, an option list,
/// failure criteria or a weekday's ranges aren't, or a line of dates has no word with a colon; a service is volatile; a
/// list of names has an exclusion; a time period has a line of dates. A directive that a template gives counts, line
/// by line. Blocks of which `register` is 0 aren't looked at, but what they give is
/// where another block takes it. The time grows with the blocks, the bytes of their directives, the templates that they
/// use, and the entries of the lists that registered blocks have: a list that blocks take from a template as it is counts
/// once, and one that begins with `+` with all that it is added to. Of lists of hosts and services the bytes before the
/// first entry count for each block. It takes some 128 bytes a block.
pub fn check(alloc: Global, templates: &Templates) -> Result<(), PassFault>
    ensures free { OnOk result (AreFree templates.now) }
    ensures fault { IfErr result (IsRefusal templates.now) }
{
    match first_fault(alloc, templates)? {
        None => Ok(()),
        Some(found) => Err(refused(templates, found)),
    }
}
