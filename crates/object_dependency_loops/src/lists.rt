//! A node for the list of each of some blocks, and a link from the block to it.

ghost use Rattle.std.specs.Prelude.{◌≡◌, ◌+◌, ◌<◌, ◌≤◌, ◌^◌, ◌++◌};
ghost use Rattle.std.specs.Prelude.{ℕ, length, All, IfOk, IfSome, OnOk};
ghost use Rattle.graph.specs.Edges.{IsWithin};
ghost use Rattle.object_dependency_loops.specs.Speech.{AddsSpeech, AreLinked, ByList, links_to};

use graph::edges::Edge;
use object_groups::lists::{Direction, ListNodes, push_lists};
use object_groups::names::Names;
use object_inheritance::inherited::Values;
use std::alloc::{AllocError, Global};

/// Adds a link from each of the blocks to a node of its own, the first of which is `node`.
fn push_links(links: &mut Vec<Edge>, places: &[usize], node: u32) -> Result<(), AllocError>
    requires few { node + length places.now < 2 ^ 32 }
    requires places { All (λ place. place < 2 ^ 32) places.now }
    ensures { OnOk result (links.new.items ≡ links.old.items ++ links_to places.now node) }
{
    for (number, place) in places.iter().enumerate() {
        links.push(Edge {
            from: *place as u32,
            to: node + number as u32,
        })?;
    }
    Ok(())
}

/// Adds a node for the list that each of the blocks at the places has, which leads to those of what the list names, and a
/// link to it from the block; and the next node, where the first of these is `node`. The time and the edges grow with the
/// places, and with the entries of lists, where a list that many of them have counts once.
pub(crate) fn push_listed<'a>(
    alloc: Global,
    edges: &mut Vec<Edge>,
    links: &mut Vec<Edge>,
    values: &Values<'a>,
    places: &[usize],
    names: &Names<'a>,
    first: u32,
    all: Option<u32>,
    node: u32,
) -> Result<u32, AllocError>
    requires within { All (IsWithin node) edges.old.items }
    requires names { first + length names.now ≤ node }
    requires all { IfSome all (λ other. other < node) }
    requires places { All (λ place. place < 2 ^ 32) places.now }
    ensures { IfOk result (λ next. (blocks objects : ℕ)
        → AreLinked blocks objects node edges.old.items links.old.items
        → All (λ place. place < blocks) places.now
        → AddsSpeech blocks objects node next edges.old.items edges.new.items links.old.items
        links.new.items places.now
        (ByList names.now values.now.blocks values.now.directive first all edges.old.items)) }
{
    let count = (node as usize).saturating_add(places.len());
    if count > u32::MAX as usize {
        return Err(AllocError);
    }
    let nodes = ListNodes {
        direction: Direction::ToNames,
        node,
        first,
        all,
        count: count as u32,
    };
    let next = push_lists(alloc, edges, values, places, names, nodes)?;
    push_links(links, places, node)?;
    Ok(next)
}
