//! Services that two blocks give.

ghost use Rattle.std.specs.Prelude.{◌≡◌, ℕ, ◌<◌, ◌^◌, ◌++◌};
ghost use Rattle.std.specs.Prelude.{◌||◌, false, length, map, nat_eq};
ghost use Rattle.std.specs.Prelude.{All, AllPairs, IfOk, IfSome, OnOk};
ghost use Rattle.std.specs.List.{list_any};
ghost use Rattle.std.specs.List.Sorted.{IsStrictlyIncreasing};
ghost use Rattle.std.specs.Option.{option_to_list};
ghost use Rattle.graph.specs.Edges.{ends_of, IsWithin};
ghost use Rattle.object_groups.specs.declared.groups.GroupKind.TheVariants.{HostGroups};
ghost use Rattle.object_groups.specs.claims.Objects.{names_in, objects_in};
ghost use Rattle.object_groups.specs.claims.First.{IsFirst};
ghost use Rattle.object_reader.specs.declared.block.BlockKind.TheVariants.{Host, Service};
ghost use Rattle.object_services.specs.Alike.{alike, AreAlike, is_among, SharesAmong};
ghost use Rattle.object_services.specs.claims.Doubled.{IsDoubled};

use crate::blocks::ServiceBlocks;
use graph::edges::{Edge, Graph};
use graph::reach::Reach;
use object_groups::first::lower;
use object_groups::groups::Groups;
use object_groups::names::Names;
use object_listing::laws::listed_are_objects;
use std::alloc::{AllocError, Global};

/// Adds the edge to a number from the first of its name.
fn push_alike(edges: &mut Vec<Edge>, first: Option<usize>, number: usize) -> Result<(), AllocError>
    requires first { IfSome first (λ first. first < 2 ^ 32) }
    requires number { number < 2 ^ 32 }
    ensures { OnOk result (edges.new.items ≡ edges.old.items
        ++ map (λ first. record { from = first; to = number }) (option_to_list first)) }
{
    if let Some(first) = first {
        edges.push(Edge {
            from: first as u32,
            to: number as u32,
        })?;
    }
    Ok(())
}

/// The edges to all numbers of names from the first of each name.
fn alike_edges(alloc: Global, names: &Names) -> Result<Vec<Edge>, AllocError>
    requires { length names.now < 2 ^ 32 }
    ensures ends { IfOk result (λ edges. (first : ℕ)
        → ends_of edges.items first ≡ alike names.now first) }
    ensures within { IfOk result (λ edges. All (IsWithin (length names.now)) edges.items) }
{
    let mut edges = Vec::with_capacity(alloc, names.len())?;
    for number in 0..names.len() {
        push_alike(&mut edges, names.find(names.name(number)), number)?;
    }
    Ok(edges)
}

/// The numbers of each name, at the first of them.
fn alike_names(alloc: Global, names: &Names) -> Result<Graph, AllocError>
    requires { length names.now < 2 ^ 32 }
    ensures { IfOk result (AreAlike names.now) }
{
    let edges = alike_edges(alloc, names)?;
    Graph::new(alloc, names.len() as u32, edges.as_slice())
}

/// Finds a host, and says whether it was found before.
fn find_again(seen: &mut Reach, host: usize) -> bool
    requires few { seen.old.nodes < 2 ^ 32 }
    requires within { host < seen.old.nodes }
    ensures nodes { seen.new.nodes ≡ seen.old.nodes }
    ensures again { result ≡ is_among seen.old.found host }
    ensures found { (other : ℕ) → is_among seen.new.found other
        ≡ (is_among seen.old.found other || nat_eq other host) }
{
    let count = seen.found().len();
    seen.find(host as u32);
    seen.found().len() == count
}

/// Finds the hosts, up to the first that was found before, and says whether there is one.
fn find_all(seen: &mut Reach, hosts: &[usize]) -> bool
    requires few { seen.old.nodes < 2 ^ 32 }
    requires within { All (λ host. host < seen.old.nodes) hosts.now }
    requires rising { IsStrictlyIncreasing hosts.now }
    ensures nodes { seen.new.nodes ≡ seen.old.nodes }
    ensures again { result ≡ list_any (is_among seen.old.found) hosts.now }
    ensures found { result ≡ false → (host : ℕ) → is_among seen.new.found host
        ≡ (is_among seen.old.found host || is_among hosts.now host) }
{
    for host in hosts {
        if find_again(seen, *host) {
            return true;
        }
    }
    false
}

/// The first of the blocks that shares a host with one before it, where their numbers rise. A block alone isn't
/// looked at. The search is for as many nodes as there are hosts.
fn first_sharing<'a>(
    alloc: Global,
    services: &ServiceBlocks<'a>,
    hosts: &mut Groups<'a>,
    seen: &mut Reach,
    numbers: &[u32],
) -> Result<Option<usize>, AllocError>
    requires same { hosts.old ≡ record { blocks = services.now; kind = HostGroups } }
    requires few { length (names_in services.now Host) < 2 ^ 32 }
    requires nodes { seen.old.nodes ≡ length (names_in services.now Host) }
    requires within { All (λ n. n < length (objects_in services.now Service)) numbers.now }
    requires rising { AllPairs (λ m n. m < n) numbers.now }
    ensures same { hosts.new ≡ hosts.old }
    ensures nodes { seen.new.nodes ≡ seen.old.nodes }
    ensures first { IfOk result (IsFirst (SharesAmong services.now numbers.now)) }
{
    if numbers.len() < 2 {
        return Ok(None);
    }
    listed_are_objects();
    let places = services.objects().places();
    seen.begin();
    for member in numbers {
        let number = *member as usize;
        let found = services.hosts_at(alloc, hosts, places[number])?;
        if find_all(seen, found.as_slice()) {
            return Ok(Some(number));
        }
    }
    Ok(None)
}

/// The number of the first service block that gives a service which one before it gives, if there is one: they
/// have the same description and a host in common. `hosts` are the host groups of the same blocks. The blocks
/// of one description are looked at one after another, up to the first that is doubled: the time grows with that
/// of `hosts_at` for each of them, and the memory with the hosts and the service blocks, however many services
/// there are. A block whose description no other has isn't looked at. Over 4,294,967,295 hosts, or service
/// blocks, are want of memory. A refused growth changes nothing.
pub fn first_doubled<'a>(
    alloc: Global,
    services: &ServiceBlocks<'a>,
    hosts: &mut Groups<'a>,
) -> Result<Option<usize>, AllocError>
    requires { hosts.old ≡ record { blocks = services.now; kind = HostGroups } }
    ensures same { hosts.new ≡ hosts.old }
    ensures first { IfOk result (IsFirst (IsDoubled services.now)) }
{
    let names = services.objects().names();
    if names.len() > u32::MAX as usize {
        return Err(AllocError);
    }
    let count = hosts.objects().names().len();
    if count > u32::MAX as usize {
        return Err(AllocError);
    }
    let mut seen = Reach::new(alloc, count as u32)?;
    let groups = alike_names(alloc, names)?;
    let mut doubled = None;
    for first in 0..names.len() {
        let found = first_sharing(alloc, services, hosts, &mut seen, groups.ends(first as u32))?;
        doubled = lower(doubled, found);
    }
    Ok(doubled)
}
