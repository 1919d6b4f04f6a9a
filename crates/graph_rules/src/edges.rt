//! The edges of the graph in which loops of rules are found.

ghost use Rattle.std.specs.Prelude.{◌≡◌, ◌+◌, ◌<◌, ◌^◌, ◌++◌, map, All, IfOk, OnOk};
ghost use Rattle.graph_rules.specs.Loops.{edges_in};
ghost use Rattle.graph_rules.specs.Rules.{AreWithin, edge};

use crate::rules::Rules;
use graph::edges::Edge;
use std::alloc::{AllocError, Global};

/// Adds edges whose starts and ends have these numbers more.
fn push_moved(edges: &mut Vec<Edge>, more: &[Edge], from: u32, to: u32) -> Result<(), AllocError>
    requires { All (λ one. (from + one.from < 2 ^ 32) × (to + one.to < 2 ^ 32)) more.now }
    ensures { OnOk result (edges.new.items ≡ edges.old.items
        ++ map (λ one. edge (from + one.from) (to + one.to)) more.now) }
{
    for one in more {
        edges.push(Edge {
            from: from + one.from,
            to: to + one.to,
        })?;
    }
    Ok(())
}

/// Adds edges the other way round, whose starts and ends have these numbers more.
fn push_back(edges: &mut Vec<Edge>, more: &[Edge], from: u32, to: u32) -> Result<(), AllocError>
    requires { All (λ one. (from + one.to < 2 ^ 32) × (to + one.from < 2 ^ 32)) more.now }
    ensures { OnOk result (edges.new.items ≡ edges.old.items
        ++ map (λ one. edge (from + one.to) (to + one.from)) more.now) }
{
    for one in more {
        edges.push(Edge {
            from: from + one.to,
            to: to + one.from,
        })?;
    }
    Ok(())
}

/// Adds an edge for each of these nodes, between the two nodes that have these numbers more.
fn push_turns(edges: &mut Vec<Edge>, nodes: &[u32], from: u32, to: u32) -> Result<(), AllocError>
    requires { All (λ own. (from + own < 2 ^ 32) × (to + own < 2 ^ 32)) nodes.now }
    ensures { OnOk result (edges.new.items ≡ edges.old.items
        ++ map (λ own. edge (from + own) (to + own)) nodes.now) }
{
    for own in nodes {
        edges.push(Edge {
            from: from + *own,
            to: to + *own,
        })?;
    }
    Ok(())
}

/// All edges of the graph in which loops of rules are found. Room for them is taken at once.
pub(crate) fn edges_of(alloc: Global, rules: &Rules) -> Result<Vec<Edge>, AllocError>
    requires within { AreWithin rules.now }
    requires few { rules.now.count + rules.now.nodes + rules.now.nodes < 2 ^ 32 }
    ensures { IfOk result (λ edges. edges.items ≡ edges_in rules.now) }
{
    let down = rules.count;
    let up = down + rules.nodes;
    let room = rules
        .masters
        .len()
        .saturating_add(rules.members.len().saturating_mul(2))
        .saturating_add(rules.objects.len())
        .saturating_add(rules.dependents.len());
    let mut edges = Vec::with_capacity(alloc, room)?;
    push_moved(&mut edges, rules.masters.as_slice(), 0, down)?;
    push_moved(&mut edges, rules.members.as_slice(), down, down)?;
    push_turns(&mut edges, rules.objects.as_slice(), down, up)?;
    push_back(&mut edges, rules.members.as_slice(), up, up)?;
    push_back(&mut edges, rules.dependents.as_slice(), up, 0)?;
    Ok(edges)
}
