//! The pairs of hosts and services that members name, and those of them that service blocks give.

ghost use Rattle.std.specs.Prelude.{◌≡◌, ◌∷◌, [], ℕ, All, IfOk, OnOk, Some, true};
ghost use Rattle.object_groups.specs.declared.groups.GroupKind.TheVariants.{HostGroups};
ghost use Rattle.object_pairs.specs.Pairs.{pairs_in};
ghost use Rattle.object_pairs.specs.Wanted.{AddsFound, AreAllWanted, AreFound, AreMarked};
ghost use Rattle.object_pairs.specs.Wanted.{AreWantedAt, has, IsWanted, Keeps};

use crate::marks::is_marked;
use crate::pairs::by_two;
use indexmap::IndexSet;
use object_groups::groups::Groups;
use object_groups::names::Names;
use object_groups::objects::list_at;
use object_inheritance::inherited::Values;
use object_services::blocks::ServiceBlocks;
use std::alloc::{AllocError, Global};

/// Adds a host with a description, if there is a host.
fn want<'a>(
    wanted: &mut IndexSet<(usize, &'a [u8])>,
    host: Option<usize>,
    description: &'a [u8],
) -> Result<(), AllocError>
    ensures keeps { OnOk result (Keeps wanted.old.keys wanted.new.keys) }
    ensures added { OnOk result ((found : ℕ) → host ≡ Some found
        → has wanted.new.keys (found, description.now) ≡ true) }
{
    if let Some(host) = host {
        wanted.insert((host, description))?;
    }
    Ok(())
}

/// Adds the pairs whose first is the name of a host.
fn want_pairs<'a>(
    wanted: &mut IndexSet<(usize, &'a [u8])>,
    hosts: &Names<'a>,
    pairs: &[(&'a [u8], &'a [u8])],
) -> Result<(), AllocError>
    ensures keeps { OnOk result (Keeps wanted.old.keys wanted.new.keys) }
    ensures all { OnOk result (All (IsWanted hosts.now wanted.new.keys) (pairs_in pairs.now)) }
{
    for pair in pairs {
        want(wanted, hosts.find(pair.0), pair.1)?;
    }
    Ok(())
}

/// Adds the pairs of the list that the block at the place has for the directive of the values.
fn want_at<'a>(
    alloc: Global,
    wanted: &mut IndexSet<(usize, &'a [u8])>,
    hosts: &Names<'a>,
    values: &Values<'a>,
    place: usize,
) -> Result<(), AllocError>
    ensures keeps { OnOk result (Keeps wanted.old.keys wanted.new.keys) }
    ensures all { OnOk result (AreWantedAt hosts.now wanted.new.keys values.now place) }
{
    let entries = list_at(alloc, values, place)?;
    match by_two(alloc, entries.as_slice())? {
        None => Ok(()),
        Some(pairs) => want_pairs(wanted, hosts, pairs.as_slice()),
    }
}

/// The same, read once for all blocks that take from one block what they have. `read` marks the blocks that give what
/// was read.
fn want_once<'a>(
    alloc: Global,
    wanted: &mut IndexSet<(usize, &'a [u8])>,
    hosts: &Names<'a>,
    values: &Values<'a>,
    read: &mut Vec<bool>,
    place: usize,
) -> Result<(), AllocError>
    requires { AreMarked (AreWantedAt hosts.now wanted.old.keys values.now) read.old.items }
    ensures read { OnOk result
        (AreMarked (AreWantedAt hosts.now wanted.new.keys values.now) read.new.items) }
    ensures keeps { OnOk result (Keeps wanted.old.keys wanted.new.keys) }
    ensures all { OnOk result (AreWantedAt hosts.now wanted.new.keys values.now place) }
{
    let origin = values.origin(place);
    if is_marked(read.as_slice(), origin) {
        return Ok(());
    }
    want_at(alloc, wanted, hosts, values, place)?;
    if origin < read.len() {
        read[origin] = true;
    }
    Ok(())
}

/// The pairs of the lists that the blocks at the places have for the directive of the values, where `count` is how many
/// blocks there are.
pub(crate) fn wanted_in<'a>(
    alloc: Global,
    hosts: &Names<'a>,
    values: &Values<'a>,
    places: &[usize],
    count: usize,
) -> Result<IndexSet<(usize, &'a [u8])>, AllocError>
    ensures { IfOk result (λ wanted.
        AreAllWanted hosts.now wanted.keys values.now places.now) }
{
    let mut wanted = IndexSet::new(alloc);
    let mut read = vec![in alloc; false; count]?;
    for place in places {
        want_once(alloc, &mut wanted, hosts, values, &mut read, *place)?;
    }
    Ok(wanted)
}

/// Adds the host, with the description, if that is wanted.
fn add_if_wanted<'a>(
    found: &mut IndexSet<(usize, &'a [u8])>,
    wanted: &IndexSet<(usize, &'a [u8])>,
    description: &'a [u8],
    host: usize,
) -> Result<(), AllocError>
    ensures { OnOk result (AddsFound wanted.now.keys description.now (host ∷ [])
        found.old.keys found.new.keys) }
{
    let key = (host, description);
    if wanted.contains(&key) {
        found.insert(key)?;
    }
    Ok(())
}

/// Adds those of the hosts, with the description, that are wanted.
fn add_found<'a>(
    found: &mut IndexSet<(usize, &'a [u8])>,
    wanted: &IndexSet<(usize, &'a [u8])>,
    description: &'a [u8],
    hosts: &[usize],
) -> Result<(), AllocError>
    ensures { OnOk result (AddsFound wanted.now.keys description.now hosts.now
        found.old.keys found.new.keys) }
{
    for host in hosts {
        add_if_wanted(found, wanted, description, *host)?;
    }
    Ok(())
}

/// The services among the pairs that are wanted, each the number of a host and a description: those of which a
/// service block with the description has the host. `services` are the service blocks and `hosts` the host groups of
/// the same blocks. Where any pair is wanted the time grows with that of `hosts_at` for each service block; the memory
/// grows with what is wanted, however many services there are. A refused growth leaves the groups as they were.
pub(crate) fn found_among<'a>(
    alloc: Global,
    services: &ServiceBlocks<'a>,
    hosts: &mut Groups<'a>,
    wanted: &IndexSet<(usize, &'a [u8])>,
) -> Result<IndexSet<(usize, &'a [u8])>, AllocError>
    requires { hosts.old ≡ record { blocks = services.now; kind = HostGroups } }
    ensures same { hosts.new ≡ hosts.old }
    ensures found { IfOk result (λ found. AreFound services.now wanted.now.keys found.keys) }
{
    let mut found = IndexSet::new(alloc);
    if wanted.is_empty() {
        return Ok(found);
    }
    let names = services.objects().names();
    for (number, place) in services.objects().places().iter().enumerate() {
        let list = services.hosts_at(alloc, hosts, *place)?;
        add_found(&mut found, wanted, names.name(number), list.as_slice())?;
    }
    Ok(found)
}
