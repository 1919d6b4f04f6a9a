//! An order of a graph's nodes in which every edge leads forward.

ghost use Rattle.std.specs.Prelude.{IfNone, IfOk, IfSome};
ghost use Rattle.graph.specs.claims.Chains.{HasNoLoop};
ghost use Rattle.graph.specs.claims.Edges.{Leads};
ghost use Rattle.graph_order.specs.Order.{HasLoop, IsOrder};

use crate::walk::Walk;
use graph::edges::Graph;
use std::alloc::{AllocError, Global};

/// Each node once, and every edge leads forward; or none exactly where some node lies on a loop. The time
/// grows with the nodes and edges.
pub fn order(alloc: Global, graph: &Graph) -> Result<Option<Vec<u32>>, AllocError>
    ensures order { IfOk result (λ found. IfSome found (λ order. IsOrder graph.now order.items)) }

    // An order rules out every chain that comes back.
    ensures no_loop { IfOk result (λ found. IfSome found (λ _. HasNoLoop (Leads graph.now))) }
    ensures a_loop { IfOk result (λ found. IfNone found (HasLoop graph.now)) }
{
    let mut walked = Walk::along(alloc, graph, graph.node_count())?;
    if walked.least.is_some() {
        return Ok(None);
    }
    walked.done.as_mut_slice().reverse();
    Ok(Some(walked.done))
}
