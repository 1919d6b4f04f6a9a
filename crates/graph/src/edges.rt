//! A graph from a list of its edges.

ghost use Rattle.std.specs.Prelude.{◌≡◌, ℕ, ◌<◌, ◌↔◌, [], length, All, Contains};
ghost use Rattle.std.specs.Prelude.{slice_index_or, IfOk};
ghost use Rattle.graph.specs.claims.Edges.{Leads};
ghost use Rattle.graph.specs.Edges.{HasEdges, IsWithin};

use crate::lists::{Lists, ListsBuilder};
use std::alloc::{AllocError, Global};
use std::marker::Model;

/// An edge between two nodes.
#[derive(Clone, Copy)]
pub struct Edge {
    pub from: u32,
    pub to: u32,
}

/// A directed graph of at most 4,294,967,295 nodes, numbered from 0. It takes 8 bytes a node and 4 an edge, and while
/// it is made 16 more an edge. Contracts see the list of each node's ends.
#[derive(Drop)]
pub struct Graph {
    ends: Lists<u32>,
}

impl Model for Graph {
    ghost use Rattle.std.specs.Prelude.{List, ℕ};
    ghost use Rattle.graph.specs.Edges.{IsGraph};

    ghost Value = { List (List ℕ) };

    ghost view = { λ s. s.ends };

    ghost invariant = { λ s. IsGraph s.ends };
}

impl Graph {
    /// The graph of these nodes and edges. Each node's ends stand in the order of the edges, as often as
    /// there are edges. A refused growth leaves nothing.
    pub fn new(alloc: Global, nodes: u32, edges: &[Edge]) -> Result<Self, AllocError>
        requires { All (IsWithin nodes) edges.now }
        ensures ends { IfOk result (λ graph. HasEdges nodes edges.now graph) }
        ensures leads { IfOk result (λ graph. (p q : ℕ)
            → (Leads graph p q) ↔ Contains edges.now (record { from = p; to = q })) }
    {
        let ends = ends_of(alloc, nodes as usize, edges)?.build(alloc)?;
        Ok(Graph { ends })
    }

    /// How many nodes there are.
    pub fn node_count(&self) -> u32
        ensures count { result ≡ length self.now }
        ensures closed { (p q : ℕ) → Leads self.now p q → q < length self.now }
    {
        self.ends.len() as u32
    }

    /// The nodes that the edges from this node lead to, in the order of the edges.
    pub fn ends(&self, node: u32) -> &[u32]
        requires { node < length self.now }
        ensures value { result.now ≡ slice_index_or self.now node [] }
        ensures within { All (λ q. q < length self.now) result.now }
    {
        self.ends.get(node as usize)
    }
}

/// Each node's ends.
fn ends_of(alloc: Global, nodes: usize, edges: &[Edge]) -> Result<ListsBuilder<u32>, AllocError>
    requires { All (IsWithin nodes) edges.now }
    ensures { IfOk result (HasEdges nodes edges.now) }
{
    let mut lists = ListsBuilder::with_room(alloc, nodes, edges.len())?;
    for edge in edges {
        lists.push(edge.from as usize, edge.to)?;
    }
    Ok(lists)
}
