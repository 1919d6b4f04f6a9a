//! Rules over the nodes of a graph.

ghost use Rattle.std.specs.Prelude.{IfNone, IfOk, IfSome};
ghost use Rattle.graph_rules.specs.Rules.{AreWithin, HasNoLoop, IsFirstLooped};

use crate::edges::edges_of;
use graph::edges::{Edge, Graph};
use graph_order::loops::first_on_loop_below;
use std::alloc::{AllocError, Global};

/// Rules over the nodes of a graph. A node stands for the objects to whose nodes chains of edges lead from it, an object's
/// own node for that object too. By a rule each object for which one of its dependents stands depends on each for which
/// one of its masters does. So what is kept grows with the edges, and not with the objects for which nodes stand.
#[derive(Drop)]
pub struct Rules {
    /// How many rules there are, numbered from 0.
    pub count: u32,
    /// How many nodes there are, numbered from 0.
    pub nodes: u32,
    /// The node of each object, by the objects' numbers.
    pub objects: Vec<u32>,
    /// The edges between nodes, each to a node for whose objects the other stands too.
    pub members: Vec<Edge>,
    /// The dependents of each rule: an edge for each, from the number of the rule to that of the node.
    pub dependents: Vec<Edge>,
    /// The masters of each rule, in the same way.
    pub masters: Vec<Edge>,
}

impl Rules {
    /// The first rule that lies on a loop, if there is one: by it one object depends on another, from which a chain of
    /// dependencies leads back to the first, or on itself. The time and the memory grow with the rules, nodes and edges.
    /// More than 4,294,967,295 rules and nodes, each node counted twice, are want of memory.
    pub fn first_looped(&self, alloc: Global) -> Result<Option<u32>, AllocError>
        requires { AreWithin self.now }
        ensures first { IfOk result (λ found. IfSome found (IsFirstLooped self.now)) }
        ensures no_loop { IfOk result (λ found. IfNone found (HasNoLoop self.now)) }
    {
        let nodes = self.count as usize + self.nodes as usize + self.nodes as usize;
        if nodes > u32::MAX as usize {
            return Err(AllocError);
        }
        let edges = edges_of(alloc, self)?;
        let graph = Graph::new(alloc, nodes as u32, edges.as_slice())?;
        first_on_loop_below(alloc, &graph, self.count)
    }
}
