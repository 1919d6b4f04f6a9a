//! The first node that lies on a loop.

ghost use Rattle.std.specs.Prelude.{◌<◌, IfNone, IfOk, IfSome};
ghost use Rattle.graph.specs.claims.Chains.{HasNoLoop};
ghost use Rattle.graph.specs.claims.Edges.{Leads};
ghost use Rattle.graph_order.specs.Loops.{HasNoLoopBelow, IsFirstOnLoop};

use crate::walk::Walk;
use graph::edges::Graph;
use std::alloc::{AllocError, Global};

/// The least node that lies on a loop, if there is a loop. The time grows with the nodes and edges.
pub fn first_on_loop(alloc: Global, graph: &Graph) -> Result<Option<u32>, AllocError>
    ensures first { IfOk result (λ found. IfSome found (IsFirstOnLoop graph.now)) }
    ensures no_loop { IfOk result (λ found. IfNone found (HasNoLoop (Leads graph.now))) }
{
    first_on_loop_below(alloc, graph, graph.node_count())
}

/// The least node that lies on a loop, if it is below this number. The time grows with the nodes below the number, and
/// with the nodes and edges that they reach; all nodes are gone over once, to make a mark for each.
pub fn first_on_loop_below(
    alloc: Global,
    graph: &Graph,
    count: u32,
) -> Result<Option<u32>, AllocError>
    ensures first { IfOk result (λ found. IfSome found (IsFirstOnLoop graph.now)) }
    ensures below { IfOk result (λ found. IfSome found (λ node. node < count)) }
    ensures no_loop { IfOk result (λ found. IfNone found (HasNoLoopBelow graph.now count)) }
{
    match Walk::along(alloc, graph, count)?.least {
        Some(node) if node < count => Ok(Some(node)),
        _ => Ok(None),
    }
}
