//! Whether no object is both a dependent and a master of rules, so that no rule lies on a loop.

ghost use Rattle.std.specs.Prelude.{◌≡◌, ◌+◌, ◌<◌, ◌^◌, ◌++◌};
ghost use Rattle.std.specs.Prelude.{false, true, length, All, IfOk, OnOk};
ghost use Rattle.object_dependency_loops.specs.Apart.{AreMarked, ends_from, HasSides};
ghost use Rattle.object_dependency_loops.specs.Apart.{NoneIsMarked, side_edges};
ghost use Rattle.graph_rules.specs.Rules.{AreWithin, HasNoLoop};

use graph::edges::{Edge, Graph};
use graph::reach::Reach;
use graph_rules::rules::Rules;
use std::alloc::{AllocError, Global};

/// Adds an edge from the node to the end of each of these.
fn push_ends(edges: &mut Vec<Edge>, node: u32, sides: &[Edge]) -> Result<(), AllocError>
    ensures { OnOk result (edges.new.items ≡ edges.old.items ++ ends_from node sides.now) }
{
    for side in sides {
        edges.push(Edge {
            from: node,
            to: side.to,
        })?;
    }
    Ok(())
}

/// The edges of the rules, those of a node after theirs to all dependents, and those of the next to all masters.
fn edges_of(alloc: Global, rules: &Rules) -> Result<Vec<Edge>, AllocError>
    requires { rules.now.nodes + 1 < 2 ^ 32 }
    ensures { IfOk result (λ edges. edges.items ≡ side_edges rules.now) }
{
    let room = rules
        .members
        .len()
        .saturating_add(rules.dependents.len())
        .saturating_add(rules.masters.len());
    let mut edges = Vec::with_capacity(alloc, room)?;
    edges.extend_from_slice(rules.members.as_slice())?;
    push_ends(&mut edges, rules.nodes, rules.dependents.as_slice())?;
    push_ends(&mut edges, rules.nodes + 1, rules.masters.as_slice())?;
    Ok(edges)
}

/// The graph of the rules' nodes, with two more: one that leads to all dependents, and after it one that leads to all
/// masters.
fn graph_of(alloc: Global, rules: &Rules) -> Result<Graph, AllocError>
    requires within { AreWithin rules.now }
    requires few { rules.now.nodes + 2 < 2 ^ 32 }
    ensures { IfOk result (HasSides rules.now) }
{
    let edges = edges_of(alloc, rules)?;
    let graph = Graph::new(alloc, rules.nodes + 2, edges.as_slice())?;
    Ok(graph)
}

/// Marks of these nodes, where there are so many.
fn marks_of(alloc: Global, nodes: &[u32], count: u32) -> Result<Vec<bool>, AllocError>
    requires { All (λ node. node < count) nodes.now }
    ensures long { IfOk result (λ marks. length marks.items ≡ count) }
    ensures marked { IfOk result (λ marks. AreMarked marks.items nodes.now) }
{
    let mut marks = vec![in alloc; false; count as usize]?;
    for node in nodes {
        marks[*node as usize] = true;
    }
    Ok(marks)
}

/// Whether one of the nodes is marked.
fn any_marked(marks: &[bool], nodes: &[u32]) -> bool
    requires { All (λ node. node < length marks.now) nodes.now }
    ensures { result ≡ false → NoneIsMarked marks.now nodes.now }
{
    for node in nodes {
        if marks[*node as usize] {
            return true;
        }
    }
    false
}

/// Whether no node is reached both from a dependent and from a master of the rules: then no object is both, and no rule
/// lies on a loop. The time grows with the nodes and edges. Of over 4,294,967,293 nodes the answer is no.
pub(crate) fn are_apart(alloc: Global, rules: &Rules) -> Result<bool, AllocError>
    requires { AreWithin rules.now }
    ensures { IfOk result (λ apart. apart ≡ true → HasNoLoop rules.now) }
{
    if rules.nodes > u32::MAX - 2 {
        return Ok(false);
    }
    let count = rules.nodes + 2;
    let graph = graph_of(alloc, rules)?;
    let mut search = Reach::new(alloc, count)?;
    search.reach(&graph, rules.nodes + 1);
    let marks = marks_of(alloc, search.found(), count)?;
    search.reach(&graph, rules.nodes);
    Ok(!any_marked(marks.as_slice(), search.found()))
}
