//! The links from blocks to what stands for the objects of which they speak in a role.

ghost use Rattle.std.specs.Prelude.{◌≡◌, ◌<◌, ◌^◌, false, length, All, IfOk};
ghost use Rattle.graph.specs.Edges.{IsWithin};
ghost use Rattle.graph_rules.specs.Rules.{IsOfRule};
ghost use Rattle.object_dependency_loops.specs.Base.{host_count, IsBase, service_count};
ghost use Rattle.object_dependency_loops.specs.Described.{Gathers, ListsNoGroup};
ghost use Rattle.object_dependency_loops.specs.Places.{kept_in, SpeakAs};
ghost use Rattle.object_dependency_loops.specs.Speech.{AddsSpeech, AreLinked};
ghost use Rattle.object_groups.specs.declared.groups.GroupKind.TheVariants.{HostGroups};
ghost use Rattle.object_groups.specs.ListEdges.{LeadOver};
ghost use Rattle.object_listing.specs.claims.Listing.{IsListed};
ghost use Rattle.object_reached.specs.claims.Listed.{of_hosts};
ghost use Rattle.object_reached.specs.claims.Roles.{directives_of, host_kind, service_kind};

use crate::base::Firsts;
use crate::described::push_described;
use crate::lists::push_listed;
use graph::edges::Edge;
use object_dependencies::blocks::DependencyBlocks;
use object_groups::groups::Groups;
use object_listing::laws::listed_are_objects;
use object_reached::reached::Reached;
use object_service_groups::groups::ServiceGroups;
use object_service_groups::laws::members_are_services;
use std::alloc::{AllocError, Global};

/// Adds what stands for the hosts that the blocks at the places list.
fn push_hosts<'a>(
    alloc: Global,
    edges: &mut Vec<Edge>,
    links: &mut Vec<Edge>,
    blocks: &DependencyBlocks<'a, '_>,
    reached: &Reached<'a>,
    hosts: &Groups<'a>,
    firsts: Firsts,
    places: &[usize],
    node: u32,
) -> Result<u32, AllocError>
    requires reached { reached.now.blocks ≡ blocks.now.blocks }
    requires hosts { hosts.now ≡ record { blocks = blocks.now.blocks; kind = HostGroups } }
    requires places { All (λ place. place < length blocks.now.blocks) places.now }
    requires few { length blocks.now.blocks < 2 ^ 32 }
    requires base { IsBase blocks.now firsts node edges.old.items }
    requires linked { AreLinked (length blocks.now.blocks) firsts.objects node edges.old.items
        links.old.items }
    ensures { IfOk result (λ next. AddsSpeech (length blocks.now.blocks) firsts.objects node next
        edges.old.items edges.new.items links.old.items links.new.items places.now
        (IsListed blocks.now.blocks (of_hosts (directives_of reached.now.role)))) }
{
    listed_are_objects();
    let listing = reached.listing().hosts();
    let next = push_listed(
        alloc,
        edges,
        links,
        listing.objects(),
        places,
        hosts.objects().names(),
        firsts.hosts,
        Some(firsts.all_hosts),
        node,
    )?;
    push_listed(
        alloc,
        edges,
        links,
        listing.groups(),
        places,
        hosts.groups().names(),
        firsts.host_groups,
        Some(firsts.all_groups),
        next,
    )
}

/// Adds what stands for the services of the service groups that the blocks at the places list; nothing where there are no
/// nodes of service groups, since no block lists one.
fn push_grouped<'a>(
    alloc: Global,
    edges: &mut Vec<Edge>,
    links: &mut Vec<Edge>,
    blocks: &DependencyBlocks<'a, '_>,
    reached: &Reached<'a>,
    groups: &ServiceGroups<'a>,
    firsts: Firsts,
    places: &[usize],
    node: u32,
) -> Result<u32, AllocError>
    requires reached { reached.now.blocks ≡ blocks.now.blocks }
    requires groups { groups.now ≡ blocks.now.blocks }
    requires places { All (λ place. place < length blocks.now.blocks) places.now }
    requires few { length blocks.now.blocks < 2 ^ 32 }
    requires base { IsBase blocks.now firsts node edges.old.items }
    requires linked { AreLinked (length blocks.now.blocks) firsts.objects node edges.old.items
        links.old.items }
    requires none { firsts.has_groups ≡ false
        → All (ListsNoGroup blocks.now.blocks (directives_of reached.now.role)) places.now }
    ensures { IfOk result (λ next. AddsSpeech (length blocks.now.blocks) firsts.objects node next
        edges.old.items edges.new.items links.old.items links.new.items places.now
        (Gathers blocks.now (directives_of reached.now.role))) }
{
    if !firsts.has_groups {
        return Ok(node);
    }
    members_are_services();
    push_listed(
        alloc,
        edges,
        links,
        reached.listing().groups(),
        places,
        groups.groups().names(),
        firsts.service_groups,
        None,
        node,
    )
}

/// The links from blocks to nodes, and the next node.
#[derive(Drop)]
pub(crate) struct Links {
    pub links: Vec<Edge>,
    pub next: u32,
}

/// Adds what stands for the objects of which the notification dependencies speak in the role of what is reached: those of
/// hosts stand at some places and those of services at others.
pub(crate) fn push_role<'a>(
    alloc: Global,
    edges: &mut Vec<Edge>,
    blocks: &DependencyBlocks<'a, '_>,
    reached: &Reached<'a>,
    hosts: &mut Groups<'a>,
    groups: &ServiceGroups<'a>,
    firsts: Firsts,
    host_places: &[usize],
    service_places: &[usize],
    node: u32,
) -> Result<Links, AllocError>
    requires reached { reached.now.blocks ≡ blocks.now.blocks }
    requires hosts { hosts.old ≡ record { blocks = blocks.now.blocks; kind = HostGroups } }
    requires groups { groups.now ≡ blocks.now.blocks }
    requires host_places { host_places.now
        ≡ kept_in blocks.now.blocks (host_kind reached.now.role) (length blocks.now.blocks) }
    requires service_places { service_places.now
        ≡ kept_in blocks.now.blocks (service_kind reached.now.role) (length blocks.now.blocks) }
    requires few { length blocks.now.blocks < 2 ^ 32 }
    requires base { IsBase blocks.now firsts node edges.old.items }
    requires none { firsts.has_groups ≡ false
        → All (ListsNoGroup blocks.now.blocks (directives_of reached.now.role))
        service_places.now }
    ensures same { hosts.new ≡ hosts.old }
    ensures over { IfOk result (λ made.
        LeadOver node edges.old.items made.next edges.new.items) }
    ensures base { IfOk result (λ made. IsBase blocks.now firsts made.next edges.new.items) }
    ensures linked { IfOk result (λ made.
        All (IsOfRule (length blocks.now.blocks) made.next) made.links.items) }
    ensures speak { IfOk result (λ made. SpeakAs blocks.now reached.now.role firsts.objects
        made.links.items edges.new.items) }
{
    let mut links = Vec::new(alloc);
    let next = push_hosts(
        alloc,
        edges,
        &mut links,
        blocks,
        reached,
        hosts,
        firsts,
        host_places,
        node,
    )?;
    let next = push_grouped(
        alloc,
        edges,
        &mut links,
        blocks,
        reached,
        groups,
        firsts,
        service_places,
        next,
    )?;
    let listing = reached.listing();
    let next = push_described(
        alloc,
        edges,
        &mut links,
        blocks,
        listing,
        hosts,
        service_places,
        next,
    )?;
    Ok(Links { links, next })
}
