//! Rules whose dependents and masters are nodes: the first that lies on a loop.

ghost use Rattle.std.specs.Prelude.{◌<◌, All, IfOk};
ghost use Rattle.graph.specs.Edges.{IsWithin};
ghost use Rattle.graph_rules.specs.Rules.{AreWithin, IsOfRule};

use graph::edges::Edge;
use graph_rules::rules::Rules;
use std::alloc::{AllocError, Global};
use std::process::Abort;
use std::test::Fail;

/// How many rules the long chain has.
const LONG: u32 = 100_000;

/// Rules, and the first one on a loop. Nodes 0 to 2 are those of objects 0 to 2, and the others are groups.
struct Row {
    count: u32,
    members: &'static [(u32, u32)],
    dependents: &'static [(u32, u32)],
    masters: &'static [(u32, u32)],
    first: Option<u32>,
}

/// How many nodes each row has.
const NODES: u32 = 7;

const ROWS: [Row; 5] = [
    // rule 0 only leads to the loop of 1 and 2
    Row {
        count: 3,
        members: &[],
        dependents: &[(0, 0), (1, 1), (2, 2)],
        masters: &[(0, 1), (1, 2), (2, 1)],
        first: Some(1),
    },
    // group 3 has objects 0 and 1, which don't depend on one another
    Row {
        count: 2,
        members: &[(3, 0), (3, 1)],
        dependents: &[(0, 0), (1, 2)],
        masters: &[(0, 2), (1, 1)],
        first: None,
    },
    // through groups of groups
    Row {
        count: 3,
        members: &[(4, 0), (4, 1), (5, 4), (6, 2)],
        dependents: &[(0, 5), (1, 1), (2, 2)],
        masters: &[(0, 3), (1, 6), (2, 5)],
        first: Some(1),
    },
    // groups 3 and 4 list each other, and no object
    Row {
        count: 1,
        members: &[(3, 4), (4, 3)],
        dependents: &[(0, 3)],
        masters: &[(0, 4)],
        first: None,
    },
    // the node of object 0 stands for object 1 too
    Row {
        count: 2,
        members: &[(0, 1)],
        dependents: &[(0, 1), (1, 2)],
        masters: &[(0, 2), (1, 0)],
        first: Some(0),
    },
];

/// Edges between nodes.
fn members_of(
    rt: &impl Abort,
    alloc: Global,
    nodes: u32,
    pairs: &[(u32, u32)],
) -> Result<Vec<Edge>, AllocError>
    ensures { IfOk result (λ edges. All (IsWithin nodes) edges.items) }
{
    let mut edges = Vec::new(alloc);
    for pair in pairs {
        let (from, to) = *pair;
        assert!(rt; from < nodes);
        assert!(rt; to < nodes);
        edges.push(Edge { from, to })?;
    }
    Ok(edges)
}

/// Edges from rules to nodes.
fn sides_of(
    rt: &impl Abort,
    alloc: Global,
    count: u32,
    nodes: u32,
    pairs: &[(u32, u32)],
) -> Result<Vec<Edge>, AllocError>
    ensures { IfOk result (λ edges. All (IsOfRule count nodes) edges.items) }
{
    let mut edges = Vec::new(alloc);
    for pair in pairs {
        let (rule, node) = *pair;
        assert!(rt; rule < count);
        assert!(rt; node < nodes);
        edges.push(Edge {
            from: rule,
            to: node,
        })?;
    }
    Ok(edges)
}

/// So many objects, each with the node of its number.
fn objects_of(alloc: Global, count: u32) -> Result<Vec<u32>, AllocError>
    ensures { IfOk result (λ objects. All (λ node. node < count) objects.items) }
{
    let mut objects = Vec::new(alloc);
    for node in 0..count {
        objects.push(node)?;
    }
    Ok(objects)
}

fn gives(rt: &impl Abort, alloc: Global, row: &Row) -> Result<(), Fail> {
    let rules = Rules {
        count: row.count,
        nodes: NODES,
        objects: vec![in alloc; 0, 1, 2]?,
        members: members_of(rt, alloc, NODES, row.members)?,
        dependents: sides_of(rt, alloc, row.count, NODES, row.dependents)?,
        masters: sides_of(rt, alloc, row.count, NODES, row.masters)?,
    };
    assert_eq!(rt; rules.first_looped(alloc)?, row.first);
    Ok(())
}

#[test]
fn first_rule_on_a_loop(rt: HostRuntime) -> Result<(), Fail> {
    for row in &ROWS {
        gives(&rt, rt.alloc(), row)?;
    }
    Ok(())
}

/// Each object depends on the next by a rule of its own, and the last one's node leads to this one.
fn long_chain(rt: &impl Abort, alloc: Global, back: u32) -> Result<Rules, AllocError>
    ensures { IfOk result AreWithin }
{
    let mut dependents = Vec::new(alloc);
    let mut masters = Vec::new(alloc);
    for rule in 0..LONG {
        dependents.push((rule, rule))?;
        masters.push((rule, rule + 1))?;
    }
    Ok(Rules {
        count: LONG,
        nodes: LONG + 1,
        objects: objects_of(alloc, LONG + 1)?,
        members: members_of(rt, alloc, LONG + 1, &[(LONG, back)])?,
        dependents: sides_of(rt, alloc, LONG, LONG + 1, dependents.as_slice())?,
        masters: sides_of(rt, alloc, LONG, LONG + 1, masters.as_slice())?,
    })
}

#[test]
fn long_chain_and_loop_of_rules(rt: HostRuntime) -> Result<(), Fail> {
    for (back, first) in [(2, Some(2)), (LONG, None)] {
        let rules = long_chain(&rt, rt.alloc(), back)?;
        assert_eq!(&rt; rules.first_looped(rt.alloc())?, first);
    }
    Ok(())
}
