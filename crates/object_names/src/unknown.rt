//! Names that blocks mention and that nothing has.

ghost use Rattle.std.specs.Prelude.{◌≡◌, map, false, true, None, slice_index_or, IfOk, OnOk};
ghost use Rattle.std.specs.Option.{option_copied};
ghost use Rattle.object_inheritance.specs.claims.Inherited.{name};
ghost use Rattle.object_groups.specs.claims.First.{IsFirst};
ghost use Rattle.object_names.specs.claims.Named.{block_kind};
ghost use Rattle.object_names.specs.claims.References.{directive_of, named_of, reading_of};
ghost use Rattle.object_names.specs.Unknown.{AreFound};
ghost use Rattle.object_names.specs.claims.Unknown.{HasUnknown};
ghost use Rattle.object_names.specs.Unknown.{HasUnknownAmong, has_unknown_by};
ghost use Rattle.object_names.specs.claims.Unknown.{is_registered};
ghost use Rattle.object_groups.specs.claims.Names.{lacks_any};
ghost use Rattle.object_names.specs.claims.Unknown.{is_unknown, lacks_period};
ghost use Rattle.object_names.specs.Unknown.{names_unknown_by};
ghost use Rattle.object_groups.specs.claims.Objects.{names_in};
ghost use Rattle.object_values.specs.claims.Values.{command_name};
ghost use Rattle.object_values.specs.Values.{texts};

use crate::named::NamedObjects;
use crate::references::{Reading, Reference, directive_of, is_reference_of, named_of, reading_of};
use object_groups::first::lower;
use object_groups::names::Names;
use object_groups::objects::list_at;
use object_inheritance::inherited::Values;
use object_inheritance::registered::registers;
use object_inheritance::templates::Templates;
use object_reader::block::Block;
use object_values::values::{command_name, value_in};
use std::alloc::{AllocError, Global};

/// Whether a list of commands has one that none of the names is.
fn lacks_command<'a>(names: &Names<'a>, entries: &[&'a [u8]]) -> bool
    ensures { result ≡ lacks_any names.now (map command_name (texts entries.now)) }
{
    for entry in entries {
        if names.lacks(command_name(*entry)) {
            return true;
        }
    }
    false
}

/// Whether what is given as the name of a period is one, and none of the names is it.
fn lacks_period<'a>(names: &Names<'a>, given: Option<&'a [u8]>) -> bool
    ensures { result ≡ lacks_period names.now (option_copied given.entry) }
{
    match given {
        None => false,
        Some(name) => !name.is_empty() && names.lacks(name),
    }
}

/// Whether what the block at the place has for the directive of the values names something that none of the
/// names is.
fn is_unknown<'a>(
    alloc: Global,
    values: &Values<'a>,
    reading: Reading,
    names: &Names<'a>,
    place: usize,
) -> Result<bool, AllocError>
    ensures { IfOk result (λ unknown. unknown
        ≡ is_unknown reading names.now values.now.blocks values.now.directive place) }
{
    if matches!(reading, Reading::Period) {
        return Ok(lacks_period(names, values.name(place)));
    }
    let entries = list_at(alloc, values, place)?;
    Ok(match reading {
        Reading::NamesOrAll => names.has_unknown(entries.as_slice()),
        Reading::Commands => lacks_command(names, entries.as_slice()),
        Reading::Names | Reading::Period => names.lacks_any(entries.as_slice()),
    })
}

/// What was found of the block at the place; none where it wasn't looked at.
fn found_at(found: &[Option<bool>], place: usize) -> Option<bool>
    ensures { result ≡ slice_index_or found.now place None }
{
    if place < found.len() {
        found[place]
    } else {
        None
    }
}

/// The same as `is_unknown`, looked at once for all blocks that take from one block what they have. `found` is what
/// was found so far, by the places of the blocks that give it.
fn is_unknown_once<'a>(
    alloc: Global,
    values: &Values<'a>,
    reading: Reading,
    names: &Names<'a>,
    found: &mut Vec<Option<bool>>,
    place: usize,
) -> Result<bool, AllocError>
    requires { AreFound reading names.now values.now found.old.items }
    ensures found { OnOk result (AreFound reading names.now values.now found.new.items) }
    ensures unknown { IfOk result (λ unknown. unknown
        ≡ is_unknown reading names.now values.now.blocks values.now.directive place) }
{
    let origin = values.origin(place);
    if let Some(unknown) = found_at(found.as_slice(), origin) {
        return Ok(unknown);
    }
    let unknown = is_unknown(alloc, values, reading, names, place)?;
    if origin < found.len() {
        found[origin] = Some(unknown);
    }
    Ok(unknown)
}

/// Whether a block is an object, and not a template alone.
fn is_registered(block: &Block) -> bool
    ensures { result ≡ is_registered block.now }
{
    registers(value_in(block.directives.as_slice(), "register".as_bytes()))
}

/// Of each block whether it is an object.
fn registered_blocks(alloc: Global, blocks: &[Block]) -> Result<Vec<bool>, AllocError>
    ensures { IfOk result (λ registered. registered.items ≡ map is_registered blocks.now) }
{
    let mut registered = Vec::with_capacity(alloc, blocks.len())?;
    for block in blocks {
        registered.push(is_registered(block))?;
    }
    Ok(registered)
}

/// Whether the block at the place is an object, as was found of each before.
fn is_marked(registered: &[bool], place: usize) -> bool
    ensures { result ≡ slice_index_or registered.now place false }
{
    if place < registered.len() {
        registered[place]
    } else {
        false
    }
}

/// Whether the block, which stands at the place, is registered and names by the reference something that
/// none of the names is. Nothing is looked at of a template alone.
fn names_unknown<'a>(
    alloc: Global,
    values: &Values<'a>,
    reference: Reference,
    names: &Names<'a>,
    registered: &[bool],
    found: &mut Vec<Option<bool>>,
    block: &Block,
    place: usize,
) -> Result<bool, AllocError>
    requires directive { values.now.directive ≡ directive_of reference }
    requires names { names.now ≡ names_in values.now.blocks (block_kind (named_of reference)) }
    requires registered { slice_index_or registered.now place false ≡ is_registered block.now }
    requires found { AreFound (reading_of reference) names.now values.now found.old.items }
    ensures found { OnOk result (AreFound (reading_of reference) names.now values.now
        found.new.items) }
    ensures unknown { IfOk result (λ unknown. unknown
        ≡ names_unknown_by values.now.blocks place reference block.now) }
{
    if !is_reference_of(reference, block.kind) {
        return Ok(false);
    }
    if !is_marked(registered, place) {
        return Ok(false);
    }
    is_unknown_once(alloc, values, reading_of(reference), names, found, place)
}

/// The place of the first block that names something which none of the names is, by the reference of which these are
/// the values.
fn first_in<'a>(
    alloc: Global,
    blocks: &[Block],
    values: &Values<'a>,
    reference: Reference,
    names: &Names<'a>,
    registered: &[bool],
) -> Result<Option<usize>, AllocError>
    requires blocks { blocks.now ≡ values.now.blocks }
    requires directive { values.now.directive ≡ directive_of reference }
    requires names { names.now ≡ names_in values.now.blocks (block_kind (named_of reference)) }
    requires registered { registered.now ≡ map is_registered values.now.blocks }
    ensures { IfOk result (IsFirst (λ place.
        has_unknown_by values.now.blocks place reference ≡ true)) }
{
    let mut found = vec![in alloc; None; blocks.len()]?;
    for (place, block) in blocks.iter().enumerate() {
        if names_unknown(
            alloc, values, reference, names, registered, &mut found, block, place,
        )? {
            return Ok(Some(place));
        }
    }
    Ok(None)
}

/// The place of the first block that names by the reference something that isn't there.
fn first_by<'a>(
    alloc: Global,
    templates: &Templates<'a>,
    objects: &NamedObjects<'a>,
    registered: &[bool],
    reference: Reference,
) -> Result<Option<usize>, AllocError>
    requires objects { objects.now ≡ templates.now }
    requires registered { registered.now ≡ map is_registered templates.now }
    ensures { IfOk result (IsFirst (λ place.
        has_unknown_by templates.now place reference ≡ true)) }
{
    let values = Values::new(alloc, templates, directive_of(reference).as_bytes())?;
    let named = objects.objects(named_of(reference));
    first_in(
        alloc,
        templates.blocks(),
        &values,
        reference,
        named.names(),
        registered,
    )
}

/// The place of the first block that names by one of the references something that isn't there.
fn first_among<'a>(
    alloc: Global,
    templates: &Templates<'a>,
    objects: &NamedObjects<'a>,
    references: &[Reference],
) -> Result<Option<usize>, AllocError>
    requires { objects.now ≡ templates.now }
    ensures { IfOk result (IsFirst (HasUnknownAmong templates.now references.now)) }
{
    let marks = registered_blocks(alloc, templates.blocks())?;
    let registered = marks.as_slice();
    let mut first = None;
    for reference in references {
        let found = first_by(alloc, templates, objects, registered, *reference)?;
        first = lower(first, found);
    }
    Ok(first)
}

/// The place of the first registered block, in file order, that names something which no registered block
/// of that type has as its name, if there is one: by a list of hosts, host groups, service groups,
/// contacts or contact groups, by the `exclude` of a time period, as the period of notifications, of an
/// escalation or of a dependency, or as a command for notifications. `*` alone is all hosts, host groups, contacts or
/// contact groups, and otherwise a name; an empty period is always; a list that begins with `+` is what
/// is inherited and its own; `null` is empty. The `members` of service groups and the descriptions of services
/// aren't looked at here. `objects` are those of the same blocks. The time grows with the blocks, their directives,
/// the templates that they use and the entries of the lists that registered blocks have: those that several blocks take
/// from one are looked up once. It takes some 24 bytes a block. A refused growth leaves nothing.
pub fn first_unknown<'a>(
    alloc: Global,
    templates: &Templates<'a>,
    objects: &NamedObjects<'a>,
) -> Result<Option<usize>, AllocError>
    requires { objects.now ≡ templates.now }
    ensures { IfOk result (IsFirst (HasUnknown templates.now)) }
{
    let references = [
        Reference::HostMembers,
        Reference::HostNames,
        Reference::HostGroupNames,
        Reference::HostGroups,
        Reference::HostGroupMembers,
        Reference::ServiceGroupNames,
        Reference::ServiceGroups,
        Reference::ServiceGroupMembers,
        Reference::DependentHostNames,
        Reference::DependentHostGroupNames,
        Reference::DependentServiceGroupNames,
        Reference::Contacts,
        Reference::GroupsOfContacts,
        Reference::ContactGroups,
        Reference::ContactMembers,
        Reference::ContactGroupMembers,
        Reference::Excludes,
        Reference::NotificationPeriod,
        Reference::HostPeriod,
        Reference::ServicePeriod,
        Reference::EscalationPeriod,
        Reference::DependencyPeriod,
        Reference::HostCommands,
        Reference::ServiceCommands,
    ];
    first_among(alloc, templates, objects, &references)
}
