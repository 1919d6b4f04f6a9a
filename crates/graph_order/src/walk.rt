//! A walk along every edge that is reached from the nodes below a number, depth first: what lies on a loop, and else
//! an order.
//!
//! A node is live from when it is entered until all that it reaches is done. The live nodes stand in the order
//! in which they were entered, and some of their places are roots: nodes from one root up to the next reach one
//! another. An edge back to a live node takes the roots after it away. When the path leaves a root, the nodes
//! from there on lead to no other live node, and are done.

ghost use Rattle.std.specs.Prelude.{◌≡◌, ◌-◌, ◌^◌, ◌<◌, ◌≤◌, [], length, slice_get};
ghost use Rattle.std.specs.Prelude.{slice_index, All, Some, IfOk, OnOk};
ghost use Rattle.graph_order.specs.Walk.{Closes, Enters, Fits, Goes, IsMarkedDone, IsOver, Leaves, MatchStep};
ghost use Rattle.graph_order.specs.Walk.{Merges, Passes, least_of};

use graph::edges::Graph;
use std::alloc::{AllocError, Global};

/// How far a node's turn has come. No more nodes are live than there are, so a place is a `u32`, and a mark takes 8 bytes.
#[derive(Clone, Copy)]
pub(crate) enum Mark {
    Unseen,
    /// It is live, at this place.
    Live(u32),
    /// All that it reaches is done.
    Done,
}

/// What a step came to.
pub(crate) enum Step {
    /// Another step is to come.
    On,
    /// All that is to be reached is done.
    Over,
}

#[derive(Drop)]
pub(crate) struct Walk {
    marks: Vec<Mark>,
    /// How many of each node's ends are done or were live.
    turns: Vec<usize>,
    /// The live nodes, in the order in which they were entered.
    live: Vec<u32>,
    /// Places of live nodes. Each of them has some of its ends before it, and the others have none.
    path: Vec<usize>,
    /// Those places of the path that are roots.
    roots: Vec<usize>,
    /// The nodes that are done. One that leads to a later one lies on a loop.
    done: Vec<u32>,
    /// The paths began at nodes below this one.
    next: u32,
    /// The least node so far that lies on a loop.
    least: Option<u32>,
}

/// What a whole walk found.
#[derive(Drop)]
pub(crate) struct Walked {
    /// The nodes that were reached, in the order in which they were done.
    pub(crate) done: Vec<u32>,
    /// The least node that lies on a loop.
    pub(crate) least: Option<u32>,
}

impl Walk {
    /// The whole walk, from the nodes below this number. The time grows with them, and with the nodes and edges that
    /// they reach; all nodes are gone over once, to make the marks.
    pub(crate) fn along(alloc: Global, graph: &Graph, count: u32) -> Result<Walked, AllocError>
        ensures { IfOk result (λ walked. IsOver graph.now count walked.done.items walked.least) }
    {
        let starts = count.min(graph.node_count());
        let mut walk = Walk::new(alloc, graph)?;
        loop {
            match walk.step(graph, starts)? {
                Step::On => {}
                Step::Over => break,
            }
        }
        Ok(Walked {
            done: walk.done,
            least: walk.least,
        })
    }

    fn new(alloc: Global, graph: &Graph) -> Result<Self, AllocError>
        ensures { IfOk result (Fits graph.now) }
    {
        let nodes = graph.node_count() as usize;
        Ok(Walk {
            marks: vec![in alloc; Mark::Unseen; nodes]?,
            turns: vec![in alloc; 0; nodes]?,
            live: Vec::new(alloc),
            path: Vec::new(alloc),
            roots: Vec::new(alloc),
            done: Vec::new(alloc),
            next: 0,
            least: None,
        })
    }

    /// One step. Paths begin at the nodes below this number.
    fn step(&mut self, graph: &Graph, starts: u32) -> Result<Step, AllocError>
        requires within { starts ≤ length graph.now }
        requires fits { Fits graph.now self.old }
        ensures { IfOk result (MatchStep graph.now starts self.old self.new) }
    {
        match self.path.last().copied() {
            None => self.begin(graph, starts),
            Some(place) => {
                self.go_on(graph, place)?;
                Ok(Step::On)
            }
        }
    }

    /// A step where the path is empty: the next node is entered or, if it is done, passed over.
    fn begin(&mut self, graph: &Graph, starts: u32) -> Result<Step, AllocError>
        requires within { starts ≤ length graph.now }
        requires fits { Fits graph.now self.old }
        requires empty { self.old.path.items ≡ [] }
        ensures { IfOk result (MatchStep graph.now starts self.old self.new) }
    {
        if self.next >= starts {
            return Ok(Step::Over);
        }
        match self.marks[self.next as usize] {
            Mark::Unseen => self.enter(self.next)?,
            _ => self.next += 1,
        }
        Ok(Step::On)
    }

    /// A step at the path's last node.
    fn go_on(&mut self, graph: &Graph, place: usize) -> Result<(), AllocError>
        requires fits { Fits graph.now self.old }
        requires last { slice_get self.old.path.items (length self.old.path.items - 1)
            ≡ Some place }
        ensures { OnOk result (Goes graph.now self.old self.new) }
    {
        let node = self.live[place];
        let ends = graph.ends(node);
        let turn = self.turns[node as usize];
        let root = self.roots.last().copied().unwrap_or(0);
        if turn == ends.len() {
            if root == place {
                return self.close(place);
            }
            self.leave(place);
            return Ok(());
        }
        let end = ends[turn];
        match self.marks[end as usize] {
            Mark::Unseen => self.enter(end)?,
            Mark::Live(to) => {
                if (to as usize) < root {
                    self.merge(root)
                } else {
                    self.pass(node, Some(least_with(self.least, node)))
                }
            }
            Mark::Done => self.pass(node, self.least),
        }
        Ok(())
    }

    /// Puts a node at the end of the live nodes, the path and the roots.
    fn enter(&mut self, node: u32) -> Result<(), AllocError>
        requires within { node < length self.old.marks.items }
        requires room { length self.old.live.items < 2 ^ 32 }
        ensures { OnOk result (Enters node self.old self.new) }
    {
        let place = self.live.len();
        self.live.push(node)?;
        self.path.push(place)?;
        self.roots.push(place)?;
        self.marks[node as usize] = Mark::Live(place as u32);
        Ok(())
    }

    /// Takes the last place off the path.
    fn leave(&mut self, place: usize)
        requires { slice_get self.old.path.items (length self.old.path.items - 1) ≡ Some place }
        ensures { Leaves place self.old self.new }
    {
        let _ = self.path.pop();
    }

    /// Takes the last place off the path and the roots: the live nodes from there on are done.
    fn close(&mut self, place: usize) -> Result<(), AllocError>
        requires within { place ≤ length self.old.live.items }
        requires nodes { All (λ node. node < length self.old.marks.items) self.old.live.items }
        requires path { slice_get self.old.path.items (length self.old.path.items - 1)
            ≡ Some place }
        requires root { slice_get self.old.roots.items (length self.old.roots.items - 1)
            ≡ Some place }
        ensures { OnOk result (Closes place self.old self.new) }
    {
        let nodes = &self.live[place..];
        self.done.extend_from_slice(nodes)?;
        mark_done(&mut self.marks, nodes);
        self.live.truncate(place);
        let _ = self.path.pop();
        let _ = self.roots.pop();
        Ok(())
    }

    /// Takes the last root away.
    fn merge(&mut self, root: usize)
        requires { slice_get self.old.roots.items (length self.old.roots.items - 1) ≡ Some root }
        ensures { Merges root self.old self.new }
    {
        let _ = self.roots.pop();
    }

    /// Passes one of the node's ends. The least node on a loop is now this one.
    fn pass(&mut self, node: u32, least: Option<u32>)
        requires within { node < length self.old.turns.items }
        requires room { slice_index self.old.turns.items node < 2 ^ 63 }
        ensures { Passes node least self.old self.new }
    {
        self.turns[node as usize] += 1;
        self.least = least;
    }
}

/// The lesser one of this node and the least one so far.
fn least_with(least: Option<u32>, node: u32) -> u32
    ensures { result ≡ least_of least node }
{
    match least {
        None => node,
        Some(least) => least.min(node),
    }
}

/// Marks these nodes as done.
fn mark_done(marks: &mut Vec<Mark>, nodes: &[u32])
    requires { All (λ node. node < length marks.old.items) nodes.now }
    ensures { IsMarkedDone marks.old.items nodes.now marks.new.items }
{
    for node in nodes {
        marks[*node as usize] = Mark::Done;
    }
}
