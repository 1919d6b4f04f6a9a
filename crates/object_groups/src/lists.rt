//! The edges of lists of names in a graph: a list that many blocks have has its edges once.

ghost use Rattle.std.specs.Prelude.{◌≡◌, ◌+◌, ◌<◌, ◌≤◌, ◌^◌, ◌++◌};
ghost use Rattle.std.specs.Prelude.{ℕ, List, length, map};
ghost use Rattle.std.specs.Prelude.{None, All, IfOk, IfSome, OnErr, OnOk};
ghost use Rattle.std.specs.List.{flat_map, range_with_len};
ghost use Rattle.std.specs.Option.{option_to_list};
ghost use Rattle.graph.specs.Edges.{IsWithin};
ghost use Rattle.object_groups.specs.ListEdges.{Begins, between, edges_at, inner_nodes, kind_of};
ghost use Rattle.object_groups.specs.ListEdges.{LeadOver, list_edges, node_of_all, nodes_by, part_nodes};
ghost use Rattle.object_groups.specs.ListEdges.{shared_nodes, top_nodes};
ghost use Rattle.object_groups.specs.claims.Names.{numbers_of};
ghost use Rattle.object_groups.specs.claims.Objects.{list_at};
ghost use Rattle.object_groups.specs.Shared.{AreShared, AreSharedLists, HasParts, list_before};
ghost use Rattle.object_groups.specs.Shared.{wholes_of};
ghost use Rattle.object_values.specs.Values.{texts};

use crate::names::{Names, is_all};
use crate::shared::{Parts, SharedList, SharedLists, own_part, shared_lists};
use graph::edges::Edge;
use object_inheritance::inherited::Values;
use std::alloc::{AllocError, Global};

/// Which way the edges lead between the node of a list and those of what it names.
#[derive(Clone, Copy)]
pub enum Direction {
    /// To what it names.
    ToNames,
    /// From what it names.
    FromNames,
}

/// The nodes of lists, and of what they name.
#[derive(Clone, Copy)]
pub struct ListNodes {
    /// Which way the edges lead.
    pub direction: Direction,
    /// The node of the first list.
    pub node: u32,
    /// The node of the first name.
    pub first: u32,
    /// The node that stands for all names, which a list that is `*` alone means; none where `*` is a name.
    pub all: Option<u32>,
    /// How many nodes there are: the next is that of a shared list.
    pub count: u32,
}

/// What a list names.
#[derive(Clone, Copy)]
pub enum ListKind {
    /// It has no entries.
    Nothing,
    /// It is `*` alone.
    All,
    /// Anything else.
    Names,
}

/// The edge between a list's node and that of something that it names.
fn between(direction: Direction, node: u32, other: u32) -> Edge
    ensures { result ≡ between direction node other }
{
    match direction {
        Direction::ToNames => Edge {
            from: node,
            to: other,
        },
        Direction::FromNames => Edge {
            from: other,
            to: node,
        },
    }
}

/// Adds the edge between a list's node and that of a number that is found, where the node of the first number is
/// `first`.
fn push_found(
    edges: &mut Vec<Edge>,
    direction: Direction,
    node: u32,
    first: u32,
    found: Option<usize>,
) -> Result<(), AllocError>
    requires { IfSome found (λ number. first + number < 2 ^ 32) }
    ensures edges { OnOk result (edges.new.items ≡ edges.old.items
        ++ map (between direction node) (map (λ number. first + number) (option_to_list found))) }
    ensures left { OnErr result (Begins edges.old.items edges.new.items) }
{
    if let Some(number) = found {
        edges.push(between(direction, node, first + number as u32))?;
    }
    Ok(())
}

/// Adds the edges between a list's node and those of the names that entries have.
fn push_names<'a>(
    edges: &mut Vec<Edge>,
    direction: Direction,
    node: u32,
    names: &Names<'a>,
    entries: &[&'a [u8]],
    first: u32,
) -> Result<(), AllocError>
    requires { first + length names.now < 2 ^ 32 }
    ensures edges { OnOk result (edges.new.items ≡ edges.old.items ++ map (between direction node)
        (map (λ number. first + number) (numbers_of names.now (texts entries.now)))) }
    ensures left { OnErr result (Begins edges.old.items edges.new.items) }
{
    for entry in entries {
        push_found(edges, direction, node, first, names.find(*entry))?;
    }
    Ok(())
}

/// Adds the edges of a list with these parts.
fn push_parts<'a>(
    edges: &mut Vec<Edge>,
    names: &Names<'a>,
    entries: &[&'a [u8]],
    all: Option<u32>,
    before: Option<usize>,
    node: u32,
    nodes: ListNodes,
) -> Result<(), AllocError>
    requires names { nodes.first + length names.now < 2 ^ 32 }
    requires before { IfSome before (λ number. nodes.count + number < 2 ^ 32) }
    ensures edges { OnOk result (edges.new.items ≡ edges.old.items ++ map (between nodes.direction node)
        (part_nodes names.now (texts entries.now) all before nodes.first nodes.count)) }
    ensures left { OnErr result (Begins edges.old.items edges.new.items) }
{
    let direction = nodes.direction;
    if let Some(other) = all {
        edges.push(between(direction, node, other))?;
        return Ok(());
    }
    push_names(edges, direction, node, names, entries, nodes.first)?;
    push_found(edges, direction, node, nodes.count, before)
}

/// What a list is that has these entries.
fn kind_of(entries: &[&[u8]]) -> ListKind
    ensures { result ≡ kind_of (texts entries.now) }
{
    if entries.is_empty() {
        ListKind::Nothing
    } else if is_all(entries) {
        ListKind::All
    } else {
        ListKind::Names
    }
}

/// What the shared list of that number is, where these are the kinds of the shared lists; nothing, where there is no
/// number.
fn kind_before(kinds: &[ListKind], before: Option<usize>) -> ListKind
    requires { IfSome before (λ number. number < length kinds.now) }
    ensures { (wholes : List (List (List ℕ))) → kinds.now ≡ map kind_of wholes
        → result ≡ kind_of (list_before wholes before) }
{
    match before {
        Some(number) => kinds[number],
        None => ListKind::Nothing,
    }
}

/// What a list is that has these entries after those of a list of the kind.
fn joined_kind(before: ListKind, entries: &[&[u8]]) -> ListKind
    ensures { (front : List (List ℕ)) → before ≡ kind_of front
        → result ≡ kind_of (front ++ texts entries.now) }
{
    match before {
        ListKind::Nothing => kind_of(entries),
        ListKind::All => {
            if entries.is_empty() {
                ListKind::All
            } else {
                ListKind::Names
            }
        }
        ListKind::Names => ListKind::Names,
    }
}

/// The node that stands for all names, where a list of the kind names all.
fn node_of_all(all: Option<u32>, kind: ListKind) -> Option<u32>
    ensures { (entries : List (List ℕ)) → kind ≡ kind_of entries
        → result ≡ node_of_all all entries }
{
    match kind {
        ListKind::All => all,
        _ => None,
    }
}

/// What each of the shared lists is.
fn kinds_of<'a>(
    alloc: Global,
    values: &Values<'a>,
    lists: &[SharedList],
) -> Result<Vec<ListKind>, AllocError>
    requires { AreSharedLists values.now.blocks values.now.directive lists.now }
    ensures { IfOk result (λ kinds. kinds.items
        ≡ map kind_of (wholes_of values.now.blocks values.now.directive lists.now)) }
{
    let mut kinds = Vec::with_capacity(alloc, lists.len())?;
    for list in lists {
        let entries = values.nearest_list(alloc, list.place)?;
        let before = kind_before(kinds.as_slice(), list.before);
        kinds.push(joined_kind(before, entries.as_slice()))?;
    }
    Ok(kinds)
}

/// Adds the edges of the list of a block that has these parts, where these are the kinds of the shared lists.
fn push_list<'a>(
    alloc: Global,
    edges: &mut Vec<Edge>,
    values: &Values<'a>,
    names: &Names<'a>,
    kinds: &[ListKind],
    place: usize,
    parts: Parts,
    node: u32,
    nodes: ListNodes,
) -> Result<(), AllocError>
    requires names { nodes.first + length names.now < 2 ^ 32 }
    requires few { nodes.count + length kinds.now < 2 ^ 32 }
    requires before { IfSome parts.before (λ number. number < length kinds.now) }
    ensures edges { OnOk result ((wholes : List (List (List ℕ))) → kinds.now ≡ map kind_of wholes
        → HasParts values.now.blocks values.now.directive wholes place parts
        → edges.new.items ≡ edges.old.items ++ map (between nodes.direction node)
        (nodes_by names.now values.now.blocks values.now.directive nodes place parts)) }
    ensures left { OnErr result (Begins edges.old.items edges.new.items) }
{
    let entries = own_part(alloc, values, place, parts.own)?;
    let kind = joined_kind(kind_before(kinds, parts.before), entries.as_slice());
    let all = node_of_all(nodes.all, kind);
    push_parts(
        edges,
        names,
        entries.as_slice(),
        all,
        parts.before,
        node,
        nodes,
    )
}

/// Adds the edges of the lists of the blocks at the places.
fn push_tops<'a>(
    alloc: Global,
    edges: &mut Vec<Edge>,
    values: &Values<'a>,
    places: &[usize],
    names: &Names<'a>,
    shared: &SharedLists,
    kinds: &[ListKind],
    nodes: ListNodes,
) -> Result<(), AllocError>
    requires shared { AreShared values.now.blocks values.now.directive places.now
        shared.now.parts.items shared.now.lists.items }
    requires kinds { kinds.now ≡ map kind_of
        (wholes_of values.now.blocks values.now.directive shared.now.lists.items) }
    requires names { nodes.first + length names.now < 2 ^ 32 }
    requires few { nodes.count + length kinds.now < 2 ^ 32 }
    requires lists { nodes.node + length places.now < 2 ^ 32 }
    ensures edges { OnOk result (edges.new.items ≡ edges.old.items
        ++ list_edges nodes.direction nodes.node (length places.now) (top_nodes names.now
        values.now.blocks values.now.directive nodes places.now shared.now.parts.items)) }
    ensures left { OnErr result (Begins edges.old.items edges.new.items) }
{
    for (number, place) in places.iter().enumerate() {
        let parts = shared.parts[number];
        let node = nodes.node + number as u32;
        push_list(
            alloc, edges, values, names, kinds, *place, parts, node, nodes,
        )?;
    }
    Ok(())
}

/// Adds the edges of a shared list.
fn push_shared<'a>(
    alloc: Global,
    edges: &mut Vec<Edge>,
    values: &Values<'a>,
    names: &Names<'a>,
    list: SharedList,
    node: u32,
    nodes: ListNodes,
) -> Result<(), AllocError>
    requires names { nodes.first + length names.now < 2 ^ 32 }
    requires before { IfSome list.before (λ number. nodes.count + number < 2 ^ 32) }
    ensures edges { OnOk result (edges.new.items ≡ edges.old.items ++ map (between nodes.direction node)
        (shared_nodes names.now values.now.blocks values.now.directive nodes list)) }
    ensures left { OnErr result (Begins edges.old.items edges.new.items) }
{
    let entries = values.nearest_list(alloc, list.place)?;
    push_parts(
        edges,
        names,
        entries.as_slice(),
        None,
        list.before,
        node,
        nodes,
    )
}

/// Adds the edges of all shared lists.
fn push_inner<'a>(
    alloc: Global,
    edges: &mut Vec<Edge>,
    values: &Values<'a>,
    names: &Names<'a>,
    lists: &[SharedList],
    nodes: ListNodes,
) -> Result<(), AllocError>
    requires shared { AreSharedLists values.now.blocks values.now.directive lists.now }
    requires names { nodes.first + length names.now < 2 ^ 32 }
    requires few { nodes.count + length lists.now < 2 ^ 32 }
    ensures edges { OnOk result (edges.new.items ≡ edges.old.items
        ++ list_edges nodes.direction nodes.count (length lists.now) (inner_nodes names.now
        values.now.blocks values.now.directive nodes lists.now)) }
    ensures left { OnErr result (Begins edges.old.items edges.new.items) }
{
    for (number, list) in lists.iter().enumerate() {
        let node = nodes.count + number as u32;
        push_shared(alloc, edges, values, names, *list, node, nodes)?;
    }
    Ok(())
}

/// Adds the edges between the nodes of blocks and those of what their lists name, and the next node after those of the
/// lists that they share: among the nodes that there were, each leads to what it would with an edge for each name of
/// each list. A name that nothing has adds nothing. The time and the edges grow with the places, and with the entries
/// of the shared lists and of those that are a block's own, each once. Over 4,294,967,295 nodes are want of memory. A
/// refused growth leaves what was there, and some of the edges after it.
pub fn push_lists<'a>(
    alloc: Global,
    edges: &mut Vec<Edge>,
    values: &Values<'a>,
    places: &[usize],
    names: &Names<'a>,
    nodes: ListNodes,
) -> Result<u32, AllocError>
    requires within { All (IsWithin nodes.count) edges.old.items }
    requires lists { nodes.node + length places.now ≤ nodes.count }
    requires names { nodes.first + length names.now ≤ nodes.count }
    requires all { IfSome nodes.all (λ all. all < nodes.count) }
    ensures edges { IfOk result (λ next. LeadOver nodes.count (edges.old.items
        ++ edges_at names.now values.now.blocks values.now.directive places.now nodes)
        next edges.new.items) }
    ensures left { OnErr result (Begins edges.old.items edges.new.items) }
{
    let shared = shared_lists(alloc, values, places)?;
    let lists = shared.lists.as_slice();
    let next = (nodes.count as usize).saturating_add(lists.len());
    if next > u32::MAX as usize {
        return Err(AllocError);
    }
    let kinds = kinds_of(alloc, values, lists)?;
    push_tops(
        alloc,
        edges,
        values,
        places,
        names,
        &shared,
        kinds.as_slice(),
        nodes,
    )?;
    push_inner(alloc, edges, values, names, lists, nodes)?;
    Ok(next as u32)
}
