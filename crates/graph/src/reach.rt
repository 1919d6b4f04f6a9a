//! What a node reaches.

ghost use Rattle.std.specs.Prelude.{◌≡◌, ◌^◌, ◌<◌, ◌≢◌, [], ◌∷◌, length, All};
ghost use Rattle.std.specs.Prelude.{AllPairs, Contains, IfOk};
ghost use Rattle.graph.specs.Reach.{Found, Gains, IsReached};

use crate::edges::Graph;
use std::alloc::{AllocError, Global};
use std::marker::Model;

/// A search that can be made again and again, in time of what it reaches. It takes 8 bytes a node, all of
/// them when it is made. Contracts see for how many nodes it is and what it found last.
#[derive(Drop)]
pub struct Reach {
    /// The stamp of the last search that found each node, or 0.
    marks: Vec<u32>,
    /// The stamp of this search. Stamps go up; after the greatest one all marks are set to 0 and the next is 1.
    stamp: u32,
    /// What was found stands in the first `count` places.
    queue: Vec<u32>,
    count: usize,
}

impl Model for Reach {
    ghost use Rattle.std.specs.Prelude.{length, take};
    ghost use Rattle.graph.specs.Reach.{Found, IsSearch};

    ghost Value = { Found };

    ghost view = { λ s. record {
      nodes = length s.marks.items;
      found = take s.count s.queue.items;
    } };

    ghost invariant = { λ s. IsSearch s.marks.items s.stamp s.queue.items s.count };
}

impl Reach {
    /// A search for graphs of so many nodes, which has found nothing yet. A refused growth leaves nothing.
    pub fn new(alloc: Global, nodes: u32) -> Result<Self, AllocError>
        ensures { IfOk result (λ reach. reach ≡ record { nodes = nodes; found = [] }) }
    {
        Reach::with_stamp(alloc, nodes, 1)
    }

    /// The same, whose first search has the stamp after this one: 4,294,967,295 minus the stamp are left before
    /// all marks are set to 0. For tests of that; `new` begins at 1.
    pub fn with_stamp(alloc: Global, nodes: u32, stamp: u32) -> Result<Self, AllocError>
        requires { 0 < stamp }
        ensures { IfOk result (λ reach. reach ≡ record { nodes = nodes; found = [] }) }
    {
        Ok(Reach {
            marks: vec![in alloc; 0; nodes as usize]?,
            stamp,
            queue: vec![in alloc; 0; nodes as usize]?,
            count: 0,
        })
    }

    /// Finds what the node reaches, itself included, in place of what was found before.
    pub fn reach(&mut self, graph: &Graph, from: u32)
        requires same { length graph.now ≡ self.old.nodes }
        requires within { from < length graph.now }
        ensures nodes { self.new.nodes ≡ self.old.nodes }
        ensures found { IsReached graph.now from self.new.found }
    {
        self.begin();
        self.find(from);
        let mut turn = 0;
        while turn < self.count {
            let node = self.queue[turn];
            self.find_each(graph.ends(node));
            turn += 1;
        }
    }

    /// What was found last, each node once. Only tests say that it stands breadth first.
    pub fn found(&self) -> &[u32]
        ensures value { result.now ≡ self.now.found }
        ensures within { All (λ q. q < self.now.nodes) result.now }
        ensures once { AllPairs (λ p q. p ≢ q) result.now }
    {
        &self.queue[..self.count]
    }

    /// Begins a search: nothing is found. With `find` a walk of one's own is made, whose queue is `found`.
    pub fn begin(&mut self)
        ensures { self.new ≡ record { nodes = self.old.nodes; found = [] } }
    {
        if self.stamp == u32::MAX {
            self.marks.as_mut_slice().fill(0);
            self.stamp = 0;
        }
        self.stamp += 1;
        self.count = 0;
    }

    /// Finds a node, if it isn't found yet.
    pub fn find(&mut self, node: u32)
        requires { node < self.old.nodes }
        ensures nodes { self.new.nodes ≡ self.old.nodes }
        ensures gains { Gains self.old.found (node ∷ []) self.new.found }
    {
        if self.marks[node as usize] != self.stamp {
            self.marks[node as usize] = self.stamp;
            self.queue[self.count] = node;
            self.count += 1;
        }
    }

    /// Finds those of the nodes that aren't found yet.
    fn find_each(&mut self, nodes: &[u32])
        requires { All (λ q. q < self.old.nodes) nodes.now }
        ensures nodes { self.new.nodes ≡ self.old.nodes }
        ensures gains { Gains self.old.found nodes.now self.new.found }
    {
        for node in nodes {
            self.find(*node);
        }
    }
}
