//! Nodes for the services that blocks list by hosts and descriptions.

ghost use Rattle.std.specs.Prelude.{◌≡◌, ◌+◌, ◌<◌, ◌^◌, ◌++◌, ◌∷◌, []};
ghost use Rattle.std.specs.Prelude.{length, map, All, IfOk, OnOk};
ghost use Rattle.object_dependency_loops.specs.Base.{host_count, service_count};
ghost use Rattle.object_dependency_loops.specs.Described.{AreFound, Describes};
ghost use Rattle.object_reached.specs.Alike.{AreListsAlike};
ghost use Rattle.object_dependency_loops.specs.Speech.{AddsSpeech, AreLinked};
ghost use Rattle.object_groups.specs.declared.groups.GroupKind.TheVariants.{HostGroups};
ghost use Rattle.object_groups.specs.declared.lists.Direction.TheVariants.{ToNames};
ghost use Rattle.object_groups.specs.ListEdges.{between};

use graph::edges::Edge;
use indexmap::IndexMap;
use object_dependencies::blocks::DependencyBlocks;
use object_groups::groups::Groups;
use object_reached::alike::{Alikes, lists_like, none_found};
use object_reached::listing::ServiceListing;
use std::alloc::{AllocError, Global};

/// Adds edges from a node to the objects of these services, the first of which has the number.
fn push_services(
    edges: &mut Vec<Edge>,
    node: u32,
    first: u32,
    services: &[usize],
) -> Result<(), AllocError>
    requires { All (λ service. first + service < 2 ^ 32) services.now }
    ensures { OnOk result (edges.new.items ≡ edges.old.items
        ++ map (between ToNames node) (map (λ service. first + service) services.now)) }
{
    for service in services {
        edges.push(Edge {
            from: node,
            to: first + *service as u32,
        })?;
    }
    Ok(())
}

/// Adds the node of the services that the block at the place lists by hosts and descriptions, where it isn't found yet,
/// and a link to it from the block; and the next node, where this one is `node`.
fn push_block<'a>(
    alloc: Global,
    edges: &mut Vec<Edge>,
    links: &mut Vec<Edge>,
    alikes: &mut Alikes<'a>,
    nodes: &mut IndexMap<((usize, usize), usize), u32>,
    blocks: &DependencyBlocks<'a, '_>,
    listing: &ServiceListing<'a>,
    hosts: &mut Groups<'a>,
    place: usize,
    node: u32,
) -> Result<u32, AllocError>
    requires listing { listing.now.blocks ≡ blocks.now.blocks }
    requires hosts { hosts.old ≡ record { blocks = blocks.now.blocks; kind = HostGroups } }
    requires place { place < length blocks.now.blocks }
    requires few { length blocks.now.blocks < 2 ^ 32 }
    requires linked { AreLinked (length blocks.now.blocks)
        (host_count blocks.now + service_count blocks.now) node edges.old.items links.old.items }
    requires alike { AreListsAlike listing.now alikes.old }
    requires found { AreFound blocks.now listing.now.directives
        (host_count blocks.now + service_count blocks.now) node edges.old.items
        nodes.old.entries }
    ensures same { hosts.new ≡ hosts.old }
    ensures found { IfOk result (λ next. AreFound blocks.now listing.now.directives
        (host_count blocks.now + service_count blocks.now) next edges.new.items
        nodes.new.entries) }
    ensures alike { OnOk result (AreListsAlike listing.now alikes.new) }
    ensures added { IfOk result (λ next. AddsSpeech (length blocks.now.blocks)
        (host_count blocks.now + service_count blocks.now) node next edges.old.items
        edges.new.items links.old.items links.new.items (place ∷ [])
        (Describes blocks.now listing.now.directives)) }
{
    let others = lists_like(listing, alikes, place)?;
    if let Some(old) = nodes.get(&others) {
        links.push(Edge {
            from: place as u32,
            to: *old,
        })?;
        return Ok(node);
    }
    let services = listing.described_at(alloc, hosts, blocks.services(), place)?;
    if node == u32::MAX {
        return Err(AllocError);
    }
    let first = hosts.objects().names().len() as u32;
    push_services(edges, node, first, services.as_slice())?;
    nodes.insert(others, node)?;
    links.push(Edge {
        from: place as u32,
        to: node,
    })?;
    Ok(node + 1)
}

/// Adds nodes for the services that each of the blocks at the places lists by hosts and descriptions, and a link to it
/// from the block; and the next node, where the first of these is `node`. Blocks that have the same lists share one: the
/// time and the edges grow with the places, with the lists' texts, and with the services of each of these nodes.
pub(crate) fn push_described<'a>(
    alloc: Global,
    edges: &mut Vec<Edge>,
    links: &mut Vec<Edge>,
    blocks: &DependencyBlocks<'a, '_>,
    listing: &ServiceListing<'a>,
    hosts: &mut Groups<'a>,
    places: &[usize],
    node: u32,
) -> Result<u32, AllocError>
    requires listing { listing.now.blocks ≡ blocks.now.blocks }
    requires hosts { hosts.old ≡ record { blocks = blocks.now.blocks; kind = HostGroups } }
    requires places { All (λ place. place < length blocks.now.blocks) places.now }
    requires few { length blocks.now.blocks < 2 ^ 32 }
    requires linked { AreLinked (length blocks.now.blocks)
        (host_count blocks.now + service_count blocks.now) node edges.old.items links.old.items }
    ensures same { hosts.new ≡ hosts.old }
    ensures added { IfOk result (λ next. AddsSpeech (length blocks.now.blocks)
        (host_count blocks.now + service_count blocks.now) node next edges.old.items
        edges.new.items links.old.items links.new.items places.now
        (Describes blocks.now listing.now.directives)) }
{
    let mut alikes = none_found(alloc);
    let mut nodes = IndexMap::new(alloc);
    let mut next = node;
    for place in places {
        next = push_block(
            alloc,
            edges,
            links,
            &mut alikes,
            &mut nodes,
            blocks,
            listing,
            hosts,
            *place,
            next,
        )?;
    }
    Ok(next)
}
