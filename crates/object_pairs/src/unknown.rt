//! Service groups whose members aren't hosts and services by turns.

ghost use Rattle.std.specs.Prelude.{◌≡◌, false, IfOk, OnOk};
ghost use Rattle.std.specs.List.{list_all};
ghost use Rattle.object_groups.specs.declared.groups.GroupKind.TheVariants.{HostGroups};
ghost use Rattle.object_groups.specs.claims.First.{IsFirst};
ghost use Rattle.object_pairs.specs.claims.Members.{HasUnknownMember};
ghost use Rattle.object_pairs.specs.Pairs.{pairs_in};
ghost use Rattle.object_pairs.specs.Wanted.{AreMarked, is_found, lacks_at, LacksPair};
ghost use Rattle.object_reader.specs.declared.block.BlockKind.TheVariants.{ServiceGroup};

use crate::marks::is_marked;
use crate::pairs::by_two;
use crate::wanted::{found_among, wanted_in};
use indexmap::IndexSet;
use object_groups::groups::Groups;
use object_groups::names::Names;
use object_groups::objects::{Objects, list_at};
use object_inheritance::inherited::Values;
use object_inheritance::templates::Templates;
use object_reader::block::BlockKind;
use object_services::blocks::ServiceBlocks;
use std::alloc::{AllocError, Global};

/// Whether a pair is found.
fn is_found<'a>(
    hosts: &Names<'a>,
    found: &IndexSet<(usize, &'a [u8])>,
    pair: (&'a [u8], &'a [u8]),
) -> bool
    ensures { result ≡ is_found hosts.now found.now.keys (pair.entry.0.now, pair.entry.1.now) }
{
    match hosts.find(pair.0) {
        None => false,
        Some(host) => found.contains(&(host, pair.1)),
    }
}

/// Whether all pairs are found.
fn are_found<'a>(
    hosts: &Names<'a>,
    found: &IndexSet<(usize, &'a [u8])>,
    pairs: &[(&'a [u8], &'a [u8])],
) -> bool
    ensures { result ≡ list_all (is_found hosts.now found.now.keys) (pairs_in pairs.now) }
{
    for pair in pairs {
        if !is_found(hosts, found, *pair) {
            return false;
        }
    }
    true
}

/// Whether the entries aren't pairs, or a pair isn't found, in the list that the block at the place has for the
/// directive of the values.
fn lacks_pair<'a>(
    alloc: Global,
    hosts: &Names<'a>,
    found: &IndexSet<(usize, &'a [u8])>,
    values: &Values<'a>,
    place: usize,
) -> Result<bool, AllocError>
    ensures { IfOk result (λ lacks. lacks ≡ lacks_at hosts.now found.now.keys values.now place) }
{
    let entries = list_at(alloc, values, place)?;
    match by_two(alloc, entries.as_slice())? {
        None => Ok(true),
        Some(pairs) => Ok(!are_found(hosts, found, pairs.as_slice())),
    }
}

/// The same, judged once for all blocks that take from one block what they have. `whole` marks the blocks that give a
/// list of which that isn't so.
fn lacks_pair_once<'a>(
    alloc: Global,
    hosts: &Names<'a>,
    found: &IndexSet<(usize, &'a [u8])>,
    values: &Values<'a>,
    whole: &mut Vec<bool>,
    place: usize,
) -> Result<bool, AllocError>
    requires { AreMarked (λ place. lacks_at hosts.now found.now.keys values.now place ≡ false)
        whole.old.items }
    ensures whole { OnOk result
        (AreMarked (λ place. lacks_at hosts.now found.now.keys values.now place ≡ false)
        whole.new.items) }
    ensures lacks { IfOk result (λ lacks.
        lacks ≡ lacks_at hosts.now found.now.keys values.now place) }
{
    let origin = values.origin(place);
    if is_marked(whole.as_slice(), origin) {
        return Ok(false);
    }
    if lacks_pair(alloc, hosts, found, values, place)? {
        return Ok(true);
    }
    if origin < whole.len() {
        whole[origin] = true;
    }
    Ok(false)
}

/// The place of the first of the service groups of which that is so, where `count` is how many blocks there are.
fn first_lacking<'a>(
    alloc: Global,
    groups: &Objects<'a>,
    hosts: &Names<'a>,
    found: &IndexSet<(usize, &'a [u8])>,
    values: &Values<'a>,
    count: usize,
) -> Result<Option<usize>, AllocError>
    requires { groups.now.kind ≡ ServiceGroup }
    ensures { IfOk result (IsFirst
        (LacksPair groups.now.blocks hosts.now found.now.keys values.now)) }
{
    let mut whole = vec![in alloc; false; count]?;
    for place in groups.places() {
        if lacks_pair_once(alloc, hosts, found, values, &mut whole, *place)? {
            return Ok(Some(*place));
        }
    }
    Ok(None)
}

/// The place of the first registered service group, in file order, whose `members` aren't hosts and services by turns,
/// if there is one: an entry is left over, a first isn't the name of a host, or no service block with the
/// second as its description has that host. `services` are the service blocks and `hosts` the host groups
/// of the same blocks. The time grows with the blocks and the entries of the `members`, where those that several groups
/// take from one block are read once, and, where any members are named, with that of `hosts_at` for each service block;
/// the memory grows with the blocks and the entries of the `members`, however many services there are. A refused growth
/// leaves the groups as they were.
pub fn first_unknown_member<'a>(
    alloc: Global,
    templates: &Templates<'a>,
    services: &ServiceBlocks<'a>,
    hosts: &mut Groups<'a>,
) -> Result<Option<usize>, AllocError>
    requires services { services.now ≡ templates.now }
    requires hosts { hosts.old ≡ record { blocks = services.now; kind = HostGroups } }
    ensures same { hosts.new ≡ hosts.old }
    ensures first { IfOk result (IsFirst (HasUnknownMember templates.now)) }
{
    let groups = Objects::new(alloc, templates, BlockKind::ServiceGroup)?;
    let values = Values::new(alloc, templates, "members".as_bytes())?;
    let count = templates.blocks().len();
    let wanted = wanted_in(
        alloc,
        hosts.objects().names(),
        &values,
        groups.places(),
        count,
    )?;
    let found = found_among(alloc, services, hosts, &wanted)?;
    first_lacking(
        alloc,
        &groups,
        hosts.objects().names(),
        &found,
        &values,
        count,
    )
}
