//! The edges from service groups to the services that their lists of members name: a list that many groups have has
//! its edges once. Members are hosts and services by turns, so a list that is added to another goes on from the entry
//! that is left over of that one.

ghost use Rattle.std.specs.Prelude.{◌≡◌, ◌+◌, ◌<◌, ◌≤◌, ◌^◌, ◌++◌, []};
ghost use Rattle.std.specs.Prelude.{List, ℕ, length, map};
ghost use Rattle.std.specs.Prelude.{All, IfOk, IfSome, OnOk};
ghost use Rattle.std.specs.Option.{option_map, option_to_list};
ghost use Rattle.graph.specs.Edges.{IsWithin};
ghost use Rattle.object_groups.specs.declared.lists.Direction.TheVariants.{ToNames};
ghost use Rattle.object_groups.specs.ListEdges.{edge, LeadOver, list_edges};
ghost use Rattle.object_groups.specs.Shared.{AreShared, AreSharedLists, HasParts, IsSharedList};
ghost use Rattle.object_groups.specs.Shared.{list_before, wholes_of};
ghost use Rattle.object_service_groups.specs.Pairs.{inner_nodes, left_over, lefts_in, named_by};
ghost use Rattle.object_service_groups.specs.Pairs.{nodes_by, pair_nodes, services_at};
ghost use Rattle.object_service_groups.specs.Pairs.{shared_nodes, top_nodes};
ghost use Rattle.object_values.specs.Values.{texts};

use graph::edges::Edge;
use object_groups::names::Names;
use object_groups::shared::{Parts, SharedList, SharedLists, own_part, shared_lists};
use object_inheritance::inherited::Values;
use object_pairs::members::services_named;
use object_services::numbers::ServiceNumbers;
use std::alloc::{AllocError, Global};

/// The entry that is left over of entries two by two.
fn left_over<'a>(entries: &[&'a [u8]]) -> Option<&'a [u8]>
    ensures { option_map (λ entry. entry.now) result ≡ left_over (texts entries.now) }
{
    let even = entries.len() / 2 * 2;
    if even < entries.len() {
        Some(entries[even])
    } else {
        None
    }
}

/// The places of the services that the entries name two by two, without one that is left over.
fn named_by<'a>(
    alloc: Global,
    hosts: &Names<'a>,
    services: &ServiceNumbers<'a>,
    entries: &[&'a [u8]],
) -> Result<Vec<usize>, AllocError>
    ensures named { IfOk result (λ named. named.items
        ≡ named_by hosts.now services.now (texts entries.now)) }
    ensures within { IfOk result (λ named.
        All (λ service. service < length services.now) named.items) }
{
    let even = entries.len() / 2 * 2;
    let named = services_named(alloc, hosts, services, &entries[..even])?;
    Ok(named)
}

/// The entries, after one that is left over.
fn going_on<'a>(
    alloc: Global,
    left: Option<&'a [u8]>,
    entries: Vec<&'a [u8]>,
) -> Result<Vec<&'a [u8]>, AllocError>
    ensures { IfOk result (λ all. texts all.items
        ≡ option_to_list (option_map (λ entry. entry.now) left.entry) ++ texts entries.entry.items) }
{
    let Some(entry) = left else {
        return Ok(entries);
    };
    let mut all = Vec::with_capacity(alloc, 1)?;
    all.push(entry)?;
    all.extend_from_slice(entries.as_slice())?;
    Ok(all)
}

/// What is left over of the shared list of that number, where this is left over of each.
fn left_before<'a>(lefts: &[Option<&'a [u8]>], before: Option<usize>) -> Option<&'a [u8]>
    requires { IfSome before (λ number. number < length lefts.now) }
    ensures { (wholes : List (List (List ℕ))) → lefts_in lefts.now ≡ map left_over wholes
        → option_map (λ entry. entry.now) result ≡ left_over (list_before wholes before) }
{
    lefts[before?]
}

/// What is left over of each of the shared lists.
fn lefts_of<'a>(
    alloc: Global,
    values: &Values<'a>,
    lists: &[SharedList],
) -> Result<Vec<Option<&'a [u8]>>, AllocError>
    requires { AreSharedLists values.now.blocks values.now.directive lists.now }
    ensures { IfOk result (λ lefts. lefts_in lefts.items
        ≡ map left_over (wholes_of values.now.blocks values.now.directive lists.now)) }
{
    let mut lefts = Vec::with_capacity(alloc, lists.len())?;
    for list in lists {
        let own = values.nearest_list(alloc, list.place)?;
        let before = left_before(lefts.as_slice(), list.before);
        let entries = going_on(alloc, before, own)?;
        lefts.push(left_over(entries.as_slice()))?;
    }
    Ok(lefts)
}

/// Adds edges from a node to services.
fn push_services(edges: &mut Vec<Edge>, from: u32, services: &[usize]) -> Result<(), AllocError>
    requires { All (λ service. service < 2 ^ 32) services.now }
    ensures { OnOk result (edges.new.items ≡ edges.old.items ++ map (edge from) services.now) }
{
    for service in services {
        edges.push(Edge {
            from,
            to: *service as u32,
        })?;
    }
    Ok(())
}

/// Adds the edges of a list: to the services that the entries name, and to the list of the number.
fn push_pairs<'a>(
    alloc: Global,
    edges: &mut Vec<Edge>,
    hosts: &Names<'a>,
    services: &ServiceNumbers<'a>,
    entries: &[&'a [u8]],
    before: Option<usize>,
    node: u32,
    count: u32,
) -> Result<(), AllocError>
    requires services { length services.now ≤ count }
    requires before { IfSome before (λ number. count + number < 2 ^ 32) }
    ensures { OnOk result (edges.new.items ≡ edges.old.items ++ map (edge node)
        (pair_nodes hosts.now services.now (texts entries.now) before count)) }
{
    let named = named_by(alloc, hosts, services, entries)?;
    push_services(edges, node, named.as_slice())?;
    if let Some(number) = before {
        edges.push(Edge {
            from: node,
            to: count + number as u32,
        })?;
    }
    Ok(())
}

/// Adds the edges of the list of a group that has these parts, where these entries are left over of the shared lists.
/// A list of which an entry is left over has none.
fn push_list<'a>(
    alloc: Global,
    edges: &mut Vec<Edge>,
    values: &Values<'a>,
    hosts: &Names<'a>,
    services: &ServiceNumbers<'a>,
    lefts: &[Option<&'a [u8]>],
    place: usize,
    parts: Parts,
    node: u32,
    count: u32,
) -> Result<(), AllocError>
    requires services { length services.now ≤ count }
    requires few { count + length lefts.now < 2 ^ 32 }
    requires before { IfSome parts.before (λ number. number < length lefts.now) }
    ensures { OnOk result ((wholes : List (List (List ℕ))) → lefts_in lefts.now ≡ map left_over wholes
        → edges.new.items ≡ edges.old.items ++ map (edge node) (nodes_by hosts.now services.now
        values.now.blocks values.now.directive wholes count place parts)) }
{
    let own = own_part(alloc, values, place, parts.own)?;
    let entries = going_on(alloc, left_before(lefts, parts.before), own)?;
    if left_over(entries.as_slice()).is_some() {
        return Ok(());
    }
    push_pairs(
        alloc,
        edges,
        hosts,
        services,
        entries.as_slice(),
        parts.before,
        node,
        count,
    )
}

/// Adds the edges of the lists of all groups, which stand at the places.
fn push_tops<'a>(
    alloc: Global,
    edges: &mut Vec<Edge>,
    values: &Values<'a>,
    places: &[usize],
    hosts: &Names<'a>,
    services: &ServiceNumbers<'a>,
    shared: &SharedLists,
    lefts: &[Option<&'a [u8]>],
    first: u32,
    count: u32,
) -> Result<(), AllocError>
    requires shared { AreShared values.now.blocks values.now.directive places.now
        shared.now.parts.items shared.now.lists.items }
    requires lefts { lefts_in lefts.now ≡ map left_over
        (wholes_of values.now.blocks values.now.directive shared.now.lists.items) }
    requires services { length services.now ≤ count }
    requires few { count + length lefts.now < 2 ^ 32 }
    requires groups { first + length places.now ≤ count }
    ensures { OnOk result (edges.new.items ≡ edges.old.items ++ list_edges ToNames first
        (length places.now) (top_nodes hosts.now services.now values.now.blocks
        values.now.directive
        (wholes_of values.now.blocks values.now.directive shared.now.lists.items) count
        places.now shared.now.parts.items)) }
{
    for (group, place) in places.iter().enumerate() {
        let parts = shared.parts[group];
        let node = first + group as u32;
        push_list(
            alloc, edges, values, hosts, services, lefts, *place, parts, node, count,
        )?;
    }
    Ok(())
}

/// Adds the edges of a shared list.
fn push_shared<'a>(
    alloc: Global,
    edges: &mut Vec<Edge>,
    values: &Values<'a>,
    hosts: &Names<'a>,
    services: &ServiceNumbers<'a>,
    lefts: &[Option<&'a [u8]>],
    list: SharedList,
    node: u32,
    count: u32,
) -> Result<(), AllocError>
    requires services { length services.now ≤ count }
    requires few { count + length lefts.now < 2 ^ 32 }
    requires before { IfSome list.before (λ number. number < length lefts.now) }
    ensures { OnOk result ((wholes : List (List (List ℕ))) → lefts_in lefts.now ≡ map left_over wholes
        → edges.new.items ≡ edges.old.items ++ map (edge node) (shared_nodes hosts.now
        services.now values.now.blocks values.now.directive wholes count list)) }
{
    let own = values.nearest_list(alloc, list.place)?;
    let entries = going_on(alloc, left_before(lefts, list.before), own)?;
    push_pairs(
        alloc,
        edges,
        hosts,
        services,
        entries.as_slice(),
        list.before,
        node,
        count,
    )
}

/// Adds the edges of all shared lists.
fn push_inner<'a>(
    alloc: Global,
    edges: &mut Vec<Edge>,
    values: &Values<'a>,
    hosts: &Names<'a>,
    services: &ServiceNumbers<'a>,
    lists: &[SharedList],
    lefts: &[Option<&'a [u8]>],
    count: u32,
) -> Result<(), AllocError>
    requires shared { AreSharedLists values.now.blocks values.now.directive lists.now }
    requires lefts { lefts_in lefts.now ≡ map left_over
        (wholes_of values.now.blocks values.now.directive lists.now) }
    requires services { length services.now ≤ count }
    requires few { count + length lists.now < 2 ^ 32 }
    ensures { OnOk result (edges.new.items ≡ edges.old.items ++ list_edges ToNames count
        (length lists.now) (inner_nodes hosts.now services.now values.now.blocks
        values.now.directive (wholes_of values.now.blocks values.now.directive lists.now) count
        lists.now)) }
{
    for (number, list) in lists.iter().enumerate() {
        let node = count + number as u32;
        push_shared(
            alloc, edges, values, hosts, services, lefts, *list, node, count,
        )?;
    }
    Ok(())
}

/// Adds the edges from the groups at the places to the services that their lists of members name, and the next node
/// after those of the lists that they share. `first` is the node of the first group, and `count` is how many nodes there
/// are.
pub(crate) fn push_members<'a>(
    alloc: Global,
    edges: &mut Vec<Edge>,
    values: &Values<'a>,
    places: &[usize],
    hosts: &Names<'a>,
    services: &ServiceNumbers<'a>,
    first: u32,
    count: u32,
) -> Result<u32, AllocError>
    requires within { All (IsWithin count) edges.old.items }
    requires services { length services.now ≤ count }
    requires groups { first + length places.now ≤ count }
    ensures { IfOk result (λ next. LeadOver count (edges.old.items ++ list_edges ToNames first
        (length places.now) (services_at hosts.now services.now values.now.blocks
        values.now.directive places.now)) next edges.new.items) }
{
    let shared = shared_lists(alloc, values, places)?;
    let lists = shared.lists.as_slice();
    let next = (count as usize).saturating_add(lists.len());
    if next > u32::MAX as usize {
        return Err(AllocError);
    }
    let lefts = lefts_of(alloc, values, lists)?;
    push_tops(
        alloc,
        edges,
        values,
        places,
        hosts,
        services,
        &shared,
        lefts.as_slice(),
        first,
        count,
    )?;
    push_inner(
        alloc,
        edges,
        values,
        hosts,
        services,
        lists,
        lefts.as_slice(),
        count,
    )?;
    Ok(next as u32)
}
