//! The first block that names a service which no service block gives.

ghost use Rattle.std.specs.Prelude.{◌≡◌, ◌↔◌, ◌+◌, ◌<◌, ◌^◌};
ghost use Rattle.std.specs.Prelude.{length, true, All, IfOk};
ghost use Rattle.object_groups.specs.declared.groups.GroupKind.TheVariants.{HostGroups};
ghost use Rattle.object_groups.specs.claims.First.{IsFirst};
ghost use Rattle.object_groups.specs.claims.Objects.{names_in};
ghost use Rattle.object_reader.specs.declared.block.BlockKind.TheVariants.{Host, Service};
ghost use Rattle.object_unknown_services.specs.Distinct.{AreNamers};
ghost use Rattle.object_unknown_services.specs.Keys.{AreByKey, GivesKey};
ghost use Rattle.object_unknown_services.specs.Stamps.{AreBelow};
ghost use Rattle.object_unknown_services.specs.Unknown.{HasUnknownIn, HasUnknownOf};
ghost use Rattle.object_unknown_services.specs.claims.Unknown.{HasUnknownService};
ghost use Rattle.object_unknown_services.specs.Unknown.{is_before};
ghost use Rattle.object_unknown_services.specs.Unknown.{LacksAmong, LacksAt, LacksIn, ListsUnstamped};

use crate::keys::{Namers, givers, namers_of};
use crate::named::Naming;
use crate::stamps::{lacks_any, stamp_all};
use graph::lists::Lists;
use object_groups::first::lower;
use object_groups::groups::Groups;
use object_inheritance::templates::Templates;
use object_listing::laws::listed_are_objects;
use object_reached::roles::Role;
use object_services::blocks::ServiceBlocks;
use std::alloc::{AllocError, Global};

/// Whether the block at the place lists a host without the stamp.
fn lacks_at<'a>(
    alloc: Global,
    naming: &Naming<'a>,
    hosts: &mut Groups<'a>,
    stamps: &[usize],
    stamp: usize,
    place: usize,
) -> Result<bool, AllocError>
    requires hosts { hosts.old ≡ record { blocks = naming.now.blocks; kind = HostGroups } }
    requires stamp { 0 < stamp }
    ensures same { hosts.new ≡ hosts.old }
    ensures lacks { IfOk result (λ lacks. (lacks ≡ true)
        ↔ ListsUnstamped naming.now.blocks naming.now.role stamps.now stamp place) }
{
    let found = naming.hosts_at(alloc, hosts, place)?;
    Ok(lacks_any(stamps, stamp, found.as_slice()))
}

/// Whether the place stands before the first that was found, if any was.
fn is_before(first: Option<usize>, place: usize) -> bool
    ensures { result ≡ is_before first place }
{
    match first {
        Some(found) => place < found,
        None => true,
    }
}

/// The place, if it stands before the first that was found and the block there lists a host without the stamp.
fn if_lacks<'a>(
    alloc: Global,
    naming: &Naming<'a>,
    hosts: &mut Groups<'a>,
    stamps: &[usize],
    stamp: usize,
    first: Option<usize>,
    place: usize,
) -> Result<Option<usize>, AllocError>
    requires hosts { hosts.old ≡ record { blocks = naming.now.blocks; kind = HostGroups } }
    requires stamp { 0 < stamp }
    ensures same { hosts.new ≡ hosts.old }
    ensures first { IfOk result (IsFirst (λ at. (is_before first at ≡ true)
        × LacksAt naming.now.blocks naming.now.role stamps.now stamp place at)) }
{
    if !is_before(first, place) {
        return Ok(None);
    }
    if lacks_at(alloc, naming, hosts, stamps, stamp, place)? {
        return Ok(Some(place));
    }
    Ok(None)
}

/// The lowest of the places before the first that was found at which a block lists a host without the stamp. After one
/// that does no later one is looked at.
fn first_lacking<'a>(
    alloc: Global,
    naming: &Naming<'a>,
    hosts: &mut Groups<'a>,
    stamps: &[usize],
    stamp: usize,
    first: Option<usize>,
    places: &[usize],
) -> Result<Option<usize>, AllocError>
    requires hosts { hosts.old ≡ record { blocks = naming.now.blocks; kind = HostGroups } }
    requires stamp { 0 < stamp }
    ensures same { hosts.new ≡ hosts.old }
    ensures first { IfOk result (IsFirst (λ at. (is_before first at ≡ true)
        × LacksAmong naming.now.blocks naming.now.role stamps.now stamp places.now at)) }
{
    let mut lowest = None;
    for place in places {
        let before = lower(first, lowest);
        let lacking = if_lacks(alloc, naming, hosts, stamps, stamp, before, *place)?;
        lowest = lower(lowest, lacking);
    }
    Ok(lowest)
}

/// The same of all places that stand in lists of these numbers.
fn first_listed<'a>(
    alloc: Global,
    naming: &Naming<'a>,
    hosts: &mut Groups<'a>,
    stamps: &[usize],
    stamp: usize,
    first: Option<usize>,
    numbers: &[usize],
    lists: &Lists<usize>,
) -> Result<Option<usize>, AllocError>
    requires hosts { hosts.old ≡ record { blocks = naming.now.blocks; kind = HostGroups } }
    requires stamp { 0 < stamp }
    requires numbers { All (λ number. number < length lists.now) numbers.now }
    ensures same { hosts.new ≡ hosts.old }
    ensures first { IfOk result (IsFirst (λ at. (is_before first at ≡ true) × LacksIn naming.now.blocks
        naming.now.role stamps.now stamp lists.now numbers.now at)) }
{
    let mut lowest = None;
    for number in numbers {
        let before = lower(first, lowest);
        let places = lists.get(*number);
        let lacking = first_lacking(alloc, naming, hosts, stamps, stamp, before, places)?;
        lowest = lower(lowest, lacking);
    }
    Ok(lowest)
}

/// The first block, before the first that was found, that names an unknown service whose description has the key. The
/// stamps are below the stamp of this key. Where no block names such a description no service block is looked at.
fn first_of_key<'a>(
    alloc: Global,
    services: &ServiceBlocks<'a>,
    naming: &Naming<'a>,
    hosts: &mut Groups<'a>,
    stamps: &mut [usize],
    given: &Lists<usize>,
    namers: &Namers,
    first: Option<usize>,
    key: usize,
) -> Result<Option<usize>, AllocError>
    requires hosts { hosts.old ≡ record { blocks = services.now; kind = HostGroups } }
    requires naming { services.now ≡ naming.now.blocks }
    requires stamps { AreBelow (length (names_in services.now Host)) (key + 1) stamps.old }
    requires given { AreByKey (names_in services.now Service) (GivesKey services.now) given.now }
    requires namers { AreNamers services.now naming.now.role namers.now }
    requires key { key < length namers.now.described }
    requires fits { key + 1 < 2 ^ 64 }
    ensures same { hosts.new ≡ hosts.old }
    ensures stamps { IfOk result (λ found.
        AreBelow (length (names_in services.now Host)) (key + 1 + 1) stamps.new) }
    ensures first { IfOk result (IsFirst (λ place. (is_before first place ≡ true)
        × HasUnknownOf services.now naming.now.role key place)) }
{
    let numbers = namers.described.get(key);
    if numbers.is_empty() {
        return Ok(None);
    }
    listed_are_objects();
    stamp_all(alloc, services, hosts, given.get(key), stamps, key + 1)?;
    first_listed(
        alloc,
        naming,
        hosts,
        stamps,
        key + 1,
        first,
        numbers,
        &namers.by_list,
    )
}

/// The first block that names an unknown service in the role.
fn first_in<'a>(
    alloc: Global,
    services: &ServiceBlocks<'a>,
    naming: &Naming<'a>,
    hosts: &mut Groups<'a>,
    given: &Lists<usize>,
) -> Result<Option<usize>, AllocError>
    requires hosts { hosts.old ≡ record { blocks = services.now; kind = HostGroups } }
    requires naming { services.now ≡ naming.now.blocks }
    requires given { AreByKey (names_in services.now Service) (GivesKey services.now) given.now }
    ensures same { hosts.new ≡ hosts.old }
    ensures first { IfOk result (IsFirst (HasUnknownIn services.now naming.now.role)) }
{
    let namers = namers_of(alloc, services, naming)?;
    let mut room = vec![in alloc; 0; hosts.objects().names().len()]?;
    let stamps = room.as_mut_slice();
    let mut first = None;
    for key in 0..namers.described.len() {
        let found = first_of_key(
            alloc, services, naming, hosts, stamps, given, &namers, first, key,
        )?;
        first = lower(first, found);
    }
    Ok(first)
}

/// The same, from the templates.
fn first_of_role<'a>(
    alloc: Global,
    templates: &Templates<'a>,
    services: &ServiceBlocks<'a>,
    hosts: &mut Groups<'a>,
    given: &Lists<usize>,
    role: Role,
) -> Result<Option<usize>, AllocError>
    requires services { services.now ≡ templates.now }
    requires hosts { hosts.old ≡ record { blocks = services.now; kind = HostGroups } }
    requires given { AreByKey (names_in services.now Service) (GivesKey services.now) given.now }
    ensures same { hosts.new ≡ hosts.old }
    ensures first { IfOk result (IsFirst (HasUnknownIn services.now role)) }
{
    let naming = Naming::new(alloc, templates, role)?;
    first_in(alloc, services, &naming, hosts, given)
}

/// The place of the first registered service escalation or service dependency, in file order, that names a host with a
/// description which no service block gives, if there is one. A block names each host that it lists, by itself or by a
/// host group, with each description that it lists; with `*` alone as the list of descriptions, or without one, it
/// names none. Of a dependency both the masters and the dependents are looked at. `services` are the service
/// blocks and `hosts` the host groups of the same blocks. Blocks with the same lists of hosts, of host groups and of
/// descriptions count once. Role by role, one description is looked at after another: the time grows with that of
/// `hosts_at` for each service block whose description is named, and with that of finding a block's hosts for each
/// description that it names, where no block before it is found to lack one: so with the pairs of hosts and descriptions,
/// where no group reaches more groups than hosts. The memory grows with the blocks, the hosts and the entries of the
/// blocks' lists, where a list that many blocks take from one counts once, however many pairs there are. A refused growth
/// leaves the groups as they were.
pub fn first_unknown_service<'a>(
    alloc: Global,
    templates: &Templates<'a>,
    services: &ServiceBlocks<'a>,
    hosts: &mut Groups<'a>,
) -> Result<Option<usize>, AllocError>
    requires services { services.now ≡ templates.now }
    requires hosts { hosts.old ≡ record { blocks = services.now; kind = HostGroups } }
    ensures same { hosts.new ≡ hosts.old }
    ensures first { IfOk result (IsFirst (HasUnknownService templates.now)) }
{
    let given = givers(alloc, services)?;
    let escalated = first_of_role(alloc, templates, services, hosts, &given, Role::Escalated)?;
    let masters = first_of_role(alloc, templates, services, hosts, &given, Role::Master)?;
    let dependents = first_of_role(alloc, templates, services, hosts, &given, Role::Dependent)?;
    Ok(lower(escalated, lower(masters, dependents)))
}
