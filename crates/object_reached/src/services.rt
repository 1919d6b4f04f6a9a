//! The services of each host.

ghost use Rattle.std.specs.Prelude.{◌≡◌, ◌+◌, ◌<◌, ◌^◌, ◌↔◌, ℕ, [], length, All};
ghost use Rattle.std.specs.Prelude.{Contains};
ghost use Rattle.std.specs.Prelude.{IfOk, OnOk, slice_index_or};
ghost use Rattle.object_reached.specs.Services.{host_edges, hosts_in, IsByHost, services_on};
ghost use Rattle.object_services.specs.claims.Numbers.{pairs_of};
ghost use Rattle.object_services.specs.Numbers.{pairs_in};

use graph::edges::{Edge, Graph};
use object_groups::names::Names;
use object_services::numbers::pairs_of;
use object_services::services::ServiceHosts;
use std::alloc::{AllocError, Global};
use std::marker::Model;

/// An edge to each service from its host.
fn edges_of(alloc: Global, pairs: &[(usize, &[u8])]) -> Result<Vec<Edge>, AllocError>
    requires hosts { All (λ pair. pair.0 < 2 ^ 32) pairs.now }
    requires few { length pairs.now < 2 ^ 32 }
    ensures { IfOk result (λ edges. edges.items
        ≡ host_edges (hosts_in (pairs_in pairs.now)) (length pairs.now)) }
{
    let mut edges = Vec::with_capacity(alloc, pairs.len())?;
    for (service, pair) in pairs.iter().enumerate() {
        edges.push(Edge {
            from: pair.0 as u32,
            to: service as u32,
        })?;
    }
    Ok(edges)
}

/// The graph in which each of so many hosts leads to its services.
fn graph_of(alloc: Global, hosts: usize, pairs: &[(usize, &[u8])]) -> Result<Graph, AllocError>
    requires hosts { All (λ pair. pair.0 < hosts) pairs.now }
    ensures by_host { IfOk result (IsByHost (pairs_in pairs.now)) }
    ensures few { OnOk result (hosts + length pairs.now < 2 ^ 32) }
{
    let nodes = hosts.saturating_add(pairs.len());
    if nodes > u32::MAX as usize {
        return Err(AllocError);
    }
    let edges = edges_of(alloc, pairs)?;
    let graph = Graph::new(alloc, nodes as u32, edges.as_slice())?;
    Ok(graph)
}

/// The services of blocks, and those of each host. They take some 28 bytes each. Contracts see the list of them: each
/// by the number of its host, and its description.
#[derive(Drop)]
pub struct HostServices<'a> {
    pairs: Vec<(usize, &'a [u8])>,
    graph: Graph,
}

impl<'a> Model for HostServices<'a> {
    ghost use Rattle.std.specs.Prelude.{List};
    ghost use Rattle.object_reached.specs.Services.{IsByHost};
    ghost use Rattle.object_services.specs.claims.Numbers.{Pair};
    ghost use Rattle.object_services.specs.Numbers.{pairs_in};

    ghost Value = { List Pair };

    ghost view = { λ s. pairs_in s.pairs.items };

    ghost invariant = { λ s. IsByHost (pairs_in s.pairs.items) s.graph };
}

impl<'a> HostServices<'a> {
    /// The services of the blocks with these descriptions and lists of hosts, in their order: block by block, and
    /// within a block host by host. There are so many hosts. Over 4,294,967,295 hosts and services are want of
    /// memory. A refused growth leaves nothing.
    pub fn new(
        alloc: Global,
        descriptions: &Names<'a>,
        hosts: usize,
        lists: &ServiceHosts,
    ) -> Result<HostServices<'a>, AllocError>
        requires { All (All (λ host. host < hosts)) lists.now }
        ensures services { IfOk result (λ made. made ≡ pairs_of descriptions.now lists.now) }
        ensures few { IfOk result (λ made. hosts + length made < 2 ^ 32) }
    {
        let pairs = pairs_of(alloc, descriptions, lists)?;
        let graph = graph_of(alloc, hosts, pairs.as_slice())?;
        Ok(HostServices { pairs, graph })
    }

    /// How many services there are.
    pub fn len(&self) -> usize
        ensures { result ≡ length self.now }
    {
        self.pairs.len()
    }

    /// The description of the service at that place; empty where there are fewer.
    pub fn description(&self, service: usize) -> &'a [u8]
        ensures { result.now ≡ (slice_index_or self.now service (0, [])).1 }
    {
        if service < self.pairs.len() {
            self.pairs[service].1
        } else {
            &[]
        }
    }

    /// The services of a host, by their places, in order; none where no service has the host.
    pub fn of_host(&self, host: usize) -> &[u32]
        ensures are { result.now ≡ services_on self.now host }
        ensures exactly { (service : ℕ) → Contains result.now service
            ↔ ((service < length (hosts_in self.now))
            × (slice_index_or (hosts_in self.now) service 0 ≡ host)) }
    {
        if host < self.graph.node_count() as usize {
            self.graph.ends(host as u32)
        } else {
            &[]
        }
    }
}
