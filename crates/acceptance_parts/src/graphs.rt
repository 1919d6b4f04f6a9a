//! Graphs: what is reached, in what order, and the first node on a loop.

ghost use Rattle.std.specs.Prelude.{◌≡◌, length, IfOk};

use graph::edges::{Edge, Graph};
use graph::reach::Reach;
use graph_order::loops::{first_on_loop, first_on_loop_below};
use graph_order::order::order;
use std::alloc::{AllocError, Global};
use std::process::Abort;
use std::test::Fail;

/// How many nodes the long chain has.
const LONG: u32 = 100_000;

/// Edges between five nodes, a number, and the first node on a loop, if it is below that number: node 0 leads to a loop of others; of two
/// loops the one of 1, though 0 leads to the other; the number itself is not below it, and the one before is; more than there are nodes.
const BELOW: [(&[(u32, u32)], u32, Option<u32>); 5] = [
    (&[(0, 3), (3, 4), (4, 3)], 3, None),
    (&[(0, 2), (2, 2), (1, 4), (4, 1)], 3, Some(1)),
    (&[(2, 2)], 2, None),
    (&[(2, 2)], 3, Some(2)),
    (&[(4, 4)], u32::MAX, Some(4)),
];

/// The graph of these edges.
fn graph_of(
    rt: &impl Abort,
    alloc: Global,
    nodes: u32,
    pairs: &[(u32, u32)],
) -> Result<Graph, AllocError>
    ensures { IfOk result (λ graph. length graph ≡ nodes) }
{
    let mut edges = Vec::new(alloc);
    for pair in pairs {
        let (from, to) = *pair;
        assert!(rt; from < nodes);
        assert!(rt; to < nodes);
        edges.push(Edge { from, to })?;
    }
    Graph::new(alloc, nodes, edges.as_slice())
}

/// Compares the order of a graph and its first node on a loop.
fn gives(
    rt: &impl Abort,
    alloc: Global,
    graph: &Graph,
    nodes: Option<&[u32]>,
    on_loop: Option<u32>,
) -> Result<(), Fail> {
    let found = order(alloc, graph)?;
    assert_eq!(rt; found.as_deref(), nodes);
    assert_eq!(rt; first_on_loop(alloc, graph)?, on_loop);
    Ok(())
}

/// Compares what a node reaches, beside what was found before.
fn reaches(rt: &impl Abort, reach: &mut Reach, graph: &Graph, from: u32, nodes: &[u32])
    requires same { length graph.now ≡ reach.old.nodes }
    ensures { reach.new.nodes ≡ reach.old.nodes }
{
    assert!(rt; from < graph.node_count());
    reach.reach(graph, from);
    assert_eq!(rt; reach.found(), nodes, "from {from}");
}

/// The chain of all nodes in order, and an edge from the last one to this one.
fn long_chain(alloc: Global, back: Option<u32>) -> Result<Graph, AllocError>
    ensures { IfOk result (λ graph. length graph ≡ LONG) }
{
    let mut edges = Vec::new(alloc);
    for to in 1..LONG {
        edges.push(Edge { from: to - 1, to })?;
    }
    if let Some(to) = back
        && to < LONG
    {
        edges.push(Edge { from: LONG - 1, to })?;
    }
    Graph::new(alloc, LONG, edges.as_slice())
}

/// Node 0 only leads to a loop; 1 is the first that lies on one.
#[test]
fn two_loops_with_a_path_between(rt: HostRuntime) -> Result<(), Fail> {
    let edges = [(0, 4), (4, 5), (5, 4), (5, 3), (3, 1), (1, 2), (2, 1)];
    let graph = graph_of(&rt, rt.alloc(), 6, &edges)?;
    gives(&rt, rt.alloc(), &graph, None, Some(1))?;
    let mut reach = Reach::new(rt.alloc(), 6)?;
    reaches(&rt, &mut reach, &graph, 3, &[3, 1, 2]);
    reaches(&rt, &mut reach, &graph, 0, &[0, 4, 5, 3, 1, 2]);
    reaches(&rt, &mut reach, &graph, 2, &[2, 1]);
    Ok(())
}

#[test]
fn doubled_edges(rt: HostRuntime) -> Result<(), Fail> {
    let graph = graph_of(&rt, rt.alloc(), 3, &[(2, 0), (2, 0), (0, 1), (2, 1)])?;
    gives(&rt, rt.alloc(), &graph, Some(&[2, 0, 1]), None)?;
    let mut reach = Reach::new(rt.alloc(), 3)?;
    reaches(&rt, &mut reach, &graph, 2, &[2, 0, 1]);
    Ok(())
}

#[test]
fn long_chain_in_order(rt: HostRuntime) -> Result<(), Fail> {
    let nodes: Vec<u32> = (0..LONG).collect(rt.alloc())?;
    let graph = long_chain(rt.alloc(), None)?;
    gives(&rt, rt.alloc(), &graph, Some(nodes.as_slice()), None)?;
    let mut reach = Reach::new(rt.alloc(), LONG)?;
    reaches(&rt, &mut reach, &graph, 0, nodes.as_slice());
    reaches(&rt, &mut reach, &graph, LONG - 1, &[LONG - 1]);
    Ok(())
}

#[test]
fn first_on_a_loop_below_a_number(rt: HostRuntime) -> Result<(), Fail> {
    for (edges, count, first) in BELOW {
        let graph = graph_of(&rt, rt.alloc(), 5, edges)?;
        assert_eq!(rt; first_on_loop_below(rt.alloc(), &graph, count)?, first);
    }
    Ok(())
}

#[test]
fn long_loop(rt: HostRuntime) -> Result<(), Fail> {
    let graph = long_chain(rt.alloc(), Some(2))?;
    gives(&rt, rt.alloc(), &graph, None, Some(2))
}

/// Marks are stamps that go up; after the greatest one all marks are cleared.
#[test]
fn stamps_wrap(rt: HostRuntime) -> Result<(), Fail> {
    let graph = graph_of(&rt, rt.alloc(), 2, &[(0, 1)])?;
    let mut reach = Reach::with_stamp(rt.alloc(), 2, u32::MAX - 1)?;
    reaches(&rt, &mut reach, &graph, 0, &[0, 1]);
    reaches(&rt, &mut reach, &graph, 1, &[1]);
    reaches(&rt, &mut reach, &graph, 0, &[0, 1]);
    Ok(())
}
