//! The graph with which all begins: objects, hosts and the graphs of host groups and of service groups.

ghost use Rattle.std.specs.Prelude.{◌≡◌, ◌+◌, ◌<◌, ◌≤◌, ◌^◌, ◌++◌};
ghost use Rattle.std.specs.Prelude.{length, map, All, IfOk, OnOk};
ghost use Rattle.object_dependency_loops.specs.Base.{AreServiceNodes, base_edges, graph_edges};
ghost use Rattle.object_dependency_loops.specs.Base.{IsBase, turn_edges};
ghost use Rattle.object_groups.specs.declared.groups.GroupKind.TheVariants.{HostGroups};
ghost use Rattle.object_groups.specs.declared.lists.Direction.TheVariants.{ToNames};
ghost use Rattle.object_groups.specs.ListEdges.{between};

use graph::edges::{Edge, Graph};
use object_dependencies::blocks::DependencyBlocks;
use object_groups::groups::Groups;
use object_service_groups::groups::ServiceGroups;
use std::alloc::{AllocError, Global};

/// Where nodes stand in the graph with which all begins.
#[derive(Clone, Copy)]
pub(crate) struct Firsts {
    /// How many objects there are, whose nodes are their numbers.
    pub objects: u32,
    /// The node of the first host.
    pub hosts: u32,
    /// The node of all hosts.
    pub all_hosts: u32,
    /// The node of the first host group.
    pub host_groups: u32,
    /// The node of all host groups.
    pub all_groups: u32,
    /// Whether there are nodes of service groups.
    pub has_groups: bool,
    /// The node of the first service group.
    pub service_groups: u32,
}

/// The graph with which all begins.
#[derive(Drop)]
pub(crate) struct Base {
    pub firsts: Firsts,
    /// How many nodes there are.
    pub count: u32,
    pub edges: Vec<Edge>,
}

/// Adds edges from a node to those whose numbers are so many more.
fn push_ends(edges: &mut Vec<Edge>, node: u32, ends: &[u32], by: u32) -> Result<(), AllocError>
    requires { All (λ end. by + end < 2 ^ 32) ends.now }
    ensures { OnOk result (edges.new.items ≡ edges.old.items
        ++ map (between ToNames node) (map (λ end. by + end) ends.now)) }
{
    for end in ends {
        edges.push(Edge {
            from: node,
            to: by + *end,
        })?;
    }
    Ok(())
}

/// Adds the edges of a graph, whose nodes have numbers that are so many more.
fn push_graph(edges: &mut Vec<Edge>, graph: &Graph, by: u32) -> Result<(), AllocError>
    requires { by + length graph.now < 2 ^ 32 }
    ensures { OnOk result (edges.new.items ≡ edges.old.items ++ graph_edges by graph.now) }
{
    for node in 0..graph.node_count() {
        push_ends(edges, by + node, graph.ends(node), by)?;
    }
    Ok(())
}

/// Adds an edge from each of so many nodes to one.
fn push_turns(edges: &mut Vec<Edge>, from: u32, to: u32, count: u32) -> Result<(), AllocError>
    requires from { from + count < 2 ^ 32 }
    requires to { to + count < 2 ^ 32 }
    ensures { OnOk result (edges.new.items ≡ edges.old.items ++ turn_edges from to count) }
{
    for number in 0..count {
        edges.push(Edge {
            from: from + number,
            to: to + number,
        })?;
    }
    Ok(())
}

/// The edges of hosts, host groups and, where so many services have a node in the graph of service groups, of these.
fn edges_of(
    alloc: Global,
    hosts: u32,
    services: u32,
    grouped: u32,
    host_graph: &Graph,
    service_graph: &Graph,
) -> Result<Vec<Edge>, AllocError>
    requires few { hosts + services + length host_graph.now + length service_graph.now < 2 ^ 32 }
    requires hosts { hosts ≤ length host_graph.now }
    requires services { grouped ≤ length service_graph.now }
    ensures { IfOk result (λ edges. edges.items
        ≡ base_edges hosts services grouped host_graph.now service_graph.now) }
{
    let first = hosts + services;
    let second = first + host_graph.node_count();
    let mut edges = Vec::new(alloc);
    push_graph(&mut edges, host_graph, first)?;
    push_turns(&mut edges, first, 0, hosts)?;
    push_graph(&mut edges, service_graph, second)?;
    push_turns(&mut edges, second, hosts, grouped)?;
    Ok(edges)
}

/// The graph with which all begins, with the nodes of `service_graph` after those of the host groups: so many services
/// have a node there, and the first service group has the node `first_group`.
fn base_with<'a>(
    alloc: Global,
    blocks: &DependencyBlocks<'a, '_>,
    hosts: &Groups<'a>,
    has_groups: bool,
    service_graph: &Graph,
    grouped: usize,
    first_group: usize,
) -> Result<Base, AllocError>
    requires hosts { hosts.now ≡ record { blocks = blocks.now.blocks; kind = HostGroups } }
    requires services { AreServiceNodes blocks.now has_groups service_graph.now grouped first_group }
    ensures base { IfOk result (λ base.
        IsBase blocks.now base.firsts base.count base.edges.items) }
    ensures has_groups { IfOk result (λ base. base.firsts.has_groups ≡ has_groups) }
{
    let host_count = hosts.objects().names().len();
    let group_count = hosts.groups().names().len();
    let services = blocks.services().len();
    let host_graph = hosts.graph();
    let first = host_count.saturating_add(services);
    let second = first.saturating_add(host_graph.node_count() as usize);
    let count = second.saturating_add(service_graph.node_count() as usize);
    if count > u32::MAX as usize {
        return Err(AllocError);
    }
    let edges = edges_of(
        alloc,
        host_count as u32,
        services as u32,
        grouped as u32,
        host_graph,
        service_graph,
    )?;
    let all_hosts = first + host_count + group_count;
    Ok(Base {
        firsts: Firsts {
            objects: first as u32,
            hosts: first as u32,
            all_hosts: all_hosts as u32,
            host_groups: (first + host_count) as u32,
            all_groups: (all_hosts + 1) as u32,
            has_groups,
            service_groups: (second + first_group) as u32,
        },
        count: count as u32,
        edges,
    })
}

/// The graph with which all begins, with nodes of the service groups where these are asked for; `hosts` are the host groups
/// and `groups` the service groups of the same blocks. It takes what theirs take, and an edge for each host and, where there
/// are nodes of service groups, for each service. Over 4,294,967,295 nodes are want of memory.
pub(crate) fn base_of<'a>(
    alloc: Global,
    blocks: &DependencyBlocks<'a, '_>,
    hosts: &Groups<'a>,
    groups: &ServiceGroups<'a>,
    has_groups: bool,
) -> Result<Base, AllocError>
    requires hosts { hosts.now ≡ record { blocks = blocks.now.blocks; kind = HostGroups } }
    requires groups { groups.now ≡ blocks.now.blocks }
    ensures base { IfOk result (λ base.
        IsBase blocks.now base.firsts base.count base.edges.items) }
    ensures has_groups { IfOk result (λ base. base.firsts.has_groups ≡ has_groups) }
{
    if has_groups {
        let services = blocks.services().len();
        let first = groups.first_node();
        base_with(alloc, blocks, hosts, true, groups.graph(), services, first)
    } else {
        let none = Graph::new(alloc, 0, &[])?;
        base_with(alloc, blocks, hosts, false, &none, 0, 0)
    }
}
