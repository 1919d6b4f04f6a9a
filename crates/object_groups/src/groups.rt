//! The groups of hosts and of contacts, and their members (chapter "Object Definitions").

ghost use Rattle.std.specs.Prelude.{◌≡◌, ◌+◌, ◌<◌, ◌≤◌, ◌++◌, ◌^◌, ◌↔◌, []};
ghost use Rattle.std.specs.Prelude.{true, length, map};
ghost use Rattle.std.specs.Prelude.{nat_lt, All, IfOk, OnOk};
ghost use Rattle.std.specs.List.{flat_map, range_with_len};
ghost use Rattle.std.specs.List.Sorted.{IsStrictlyIncreasing};
ghost use Rattle.graph.specs.Edges.{IsWithin};
ghost use Rattle.object_groups.specs.claims.Groups.{group_kind, grouping};
ghost use Rattle.object_groups.specs.Groups.{AreNumbered, AreTables};
ghost use Rattle.object_groups.specs.claims.Groups.{object_kind};
ghost use Rattle.object_groups.specs.Groups.{IsSearchOf};
ghost use Rattle.object_groups.specs.claims.Groups.{own_groups_directive, subgroups_directive};
ghost use Rattle.object_groups.specs.ListEdges.{edge, LeadOver};
ghost use Rattle.object_groups.specs.Members.{AreMembers};
ghost use Rattle.object_groups.specs.Nodes.{all_objects, AreBelow, edges_in, group_ends};
ghost use Rattle.object_groups.specs.Nodes.{IsGraphOf, LeadsToMembers, member_edges, node_count};
ghost use Rattle.object_groups.specs.Nodes.{own_edges, subgroup_edges};
ghost use Rattle.object_groups.specs.claims.Objects.{names_in};

use crate::lists::{Direction, ListNodes, push_lists};
use crate::names::Names;
use crate::objects::Objects;
use graph::edges::{Edge, Graph};
use graph::reach::Reach;
use object_inheritance::inherited::{Values, values_of};
use object_inheritance::templates::Templates;
use object_reader::block::{Block, BlockKind};
use std::alloc::{AllocError, Global};
use std::marker::Model;

/// The types of groups whose members are blocks.
#[derive(Clone, Copy)]
pub enum GroupKind {
    /// Groups of hosts.
    HostGroups,
    /// Groups of contacts.
    ContactGroups,
}

impl GroupKind {
    /// The type of the objects.
    pub(crate) fn object_kind(self) -> BlockKind
        ensures { result ≡ object_kind self }
    {
        match self {
            GroupKind::HostGroups => BlockKind::Host,
            GroupKind::ContactGroups => BlockKind::Contact,
        }
    }

    /// The type of the groups.
    pub(crate) fn group_kind(self) -> BlockKind
        ensures { result ≡ group_kind self }
    {
        match self {
            GroupKind::HostGroups => BlockKind::HostGroup,
            GroupKind::ContactGroups => BlockKind::ContactGroup,
        }
    }
}

/// What the blocks have for the directive by which a group lists groups.
fn subgroups_of<'a>(
    alloc: Global,
    templates: &Templates<'a>,
    kind: GroupKind,
) -> Result<Values<'a>, AllocError>
    ensures { IfOk result (λ values. values
        ≡ record { blocks = templates.now; directive = subgroups_directive kind }) }
{
    match kind {
        GroupKind::HostGroups => values_of(alloc, templates, "hostgroup_members"),
        GroupKind::ContactGroups => values_of(alloc, templates, "contactgroup_members"),
    }
}

/// What the blocks have for the directive by which an object names groups.
fn own_groups_of<'a>(
    alloc: Global,
    templates: &Templates<'a>,
    kind: GroupKind,
) -> Result<Values<'a>, AllocError>
    ensures { IfOk result (λ values. values
        ≡ record { blocks = templates.now; directive = own_groups_directive kind }) }
{
    match kind {
        GroupKind::HostGroups => values_of(alloc, templates, "hostgroups"),
        GroupKind::ContactGroups => values_of(alloc, templates, "contactgroups"),
    }
}

/// Adds the edges between all groups and the nodes of all groups.
fn push_group_ends<'a>(
    edges: &mut Vec<Edge>,
    objects: &Names<'a>,
    groups: &Names<'a>,
) -> Result<(), AllocError>
    requires { node_count objects.now groups.now < 2 ^ 32 }
    ensures { OnOk result (edges.new.items ≡ edges.old.items
        ++ flat_map (group_ends objects.now groups.now) (range_with_len 0 (length groups.now))) }
{
    let first = objects.len() as u32;
    let count = first + groups.len() as u32;
    for group in 0..groups.len() {
        let node = first + group as u32;
        edges.push(Edge {
            from: node,
            to: count + 2,
        })?;
        edges.push(Edge {
            from: count + 1,
            to: node,
        })?;
    }
    Ok(())
}

/// Adds the edges from the node of all objects.
fn push_object_ends<'a>(
    edges: &mut Vec<Edge>,
    objects: &Names<'a>,
    groups: &Names<'a>,
) -> Result<(), AllocError>
    requires { node_count objects.now groups.now < 2 ^ 32 }
    ensures { OnOk result (edges.new.items ≡ edges.old.items
        ++ map (edge (all_objects objects.now groups.now))
        (range_with_len 0 (length objects.now))) }
{
    let count = objects.len() as u32 + groups.len() as u32;
    for object in 0..objects.len() {
        edges.push(Edge {
            from: count,
            to: object as u32,
        })?;
    }
    Ok(())
}

/// Adds the edges to the objects from the groups that they name, and the next node, where there are so many nodes.
fn push_own<'a>(
    alloc: Global,
    edges: &mut Vec<Edge>,
    templates: &Templates<'a>,
    kind: GroupKind,
    objects: &Objects<'a>,
    groups: &Objects<'a>,
    count: u32,
) -> Result<u32, AllocError>
    requires tables { AreNumbered templates.now kind objects.now groups.now }
    requires within { All (IsWithin count) edges.old.items }
    requires count { node_count (names_in templates.now (object_kind kind))
        (names_in templates.now (group_kind kind)) ≤ count }
    ensures { IfOk result (λ next. LeadOver count
        (edges.old.items ++ own_edges (grouping templates.now kind)) next edges.new.items) }
{
    let own = own_groups_of(alloc, templates, kind)?;
    let first = objects.names().len() as u32;
    let nodes = ListNodes {
        direction: Direction::FromNames,
        node: 0,
        first,
        all: Some(first + groups.names().len() as u32 + 2),
        count,
    };
    push_lists(alloc, edges, &own, objects.places(), groups.names(), nodes)
}

/// Adds the edges from the groups to the objects that they list. As `push_own`.
fn push_members<'a>(
    alloc: Global,
    edges: &mut Vec<Edge>,
    templates: &Templates<'a>,
    kind: GroupKind,
    objects: &Objects<'a>,
    groups: &Objects<'a>,
    count: u32,
) -> Result<u32, AllocError>
    requires tables { AreNumbered templates.now kind objects.now groups.now }
    requires within { All (IsWithin count) edges.old.items }
    requires count { node_count (names_in templates.now (object_kind kind))
        (names_in templates.now (group_kind kind)) ≤ count }
    ensures { IfOk result (λ next. LeadOver count
        (edges.old.items ++ member_edges (grouping templates.now kind)) next edges.new.items) }
{
    let members = values_of(alloc, templates, "members")?;
    let first = objects.names().len() as u32;
    let nodes = ListNodes {
        direction: Direction::ToNames,
        node: first,
        first: 0,
        all: Some(first + groups.names().len() as u32),
        count,
    };
    push_lists(
        alloc,
        edges,
        &members,
        groups.places(),
        objects.names(),
        nodes,
    )
}

/// Adds the edges from the groups to the groups that they list. As `push_own`.
fn push_subgroups<'a>(
    alloc: Global,
    edges: &mut Vec<Edge>,
    templates: &Templates<'a>,
    kind: GroupKind,
    objects: &Objects<'a>,
    groups: &Objects<'a>,
    count: u32,
) -> Result<u32, AllocError>
    requires tables { AreNumbered templates.now kind objects.now groups.now }
    requires within { All (IsWithin count) edges.old.items }
    requires count { node_count (names_in templates.now (object_kind kind))
        (names_in templates.now (group_kind kind)) ≤ count }
    ensures { IfOk result (λ next. LeadOver count
        (edges.old.items ++ subgroup_edges (grouping templates.now kind)) next edges.new.items) }
{
    let subgroups = subgroups_of(alloc, templates, kind)?;
    let first = objects.names().len() as u32;
    let nodes = ListNodes {
        direction: Direction::ToNames,
        node: first,
        first,
        all: Some(first + groups.names().len() as u32 + 1),
        count,
    };
    push_lists(
        alloc,
        edges,
        &subgroups,
        groups.places(),
        groups.names(),
        nodes,
    )
}

/// Adds all edges to none, where there are so many nodes, and the next node.
fn push_all<'a>(
    alloc: Global,
    edges: &mut Vec<Edge>,
    templates: &Templates<'a>,
    kind: GroupKind,
    objects: &Objects<'a>,
    groups: &Objects<'a>,
    count: u32,
) -> Result<u32, AllocError>
    requires tables { AreNumbered templates.now kind objects.now groups.now }
    requires none { edges.old.items ≡ [] }
    requires count { count ≡ node_count (names_in templates.now (object_kind kind))
        (names_in templates.now (group_kind kind)) }
    ensures { IfOk result (λ next.
        LeadOver count (edges_in (grouping templates.now kind)) next edges.new.items) }
{
    push_group_ends(edges, objects.names(), groups.names())?;
    push_object_ends(edges, objects.names(), groups.names())?;
    let next = push_own(alloc, edges, templates, kind, objects, groups, count)?;
    let next = push_members(alloc, edges, templates, kind, objects, groups, next)?;
    push_subgroups(alloc, edges, templates, kind, objects, groups, next)
}

/// The graph in which the members are found.
fn graph_of<'a>(
    alloc: Global,
    templates: &Templates<'a>,
    kind: GroupKind,
    objects: &Objects<'a>,
    groups: &Objects<'a>,
) -> Result<Graph, AllocError>
    requires { AreNumbered templates.now kind objects.now groups.now }
    ensures { IfOk result (IsGraphOf (grouping templates.now kind)) }
{
    let count = objects.names().len() + groups.names().len() + 3;
    let mut edges = Vec::with_capacity(alloc, count)?;
    let next = push_all(
        alloc,
        &mut edges,
        templates,
        kind,
        objects,
        groups,
        count as u32,
    )?;
    let graph = Graph::new(alloc, next, edges.as_slice())?;
    Ok(graph)
}

/// Whether each of the numbers is below the next.
fn rises(numbers: &[u32]) -> bool
    ensures { (result ≡ true) ↔ IsStrictlyIncreasing numbers.now }
{
    numbers.is_sorted_by(
        |one: &u32, next: &u32| -> bool
            ensures { result ≡ nat_lt one.now next.now }
        { *one < *next },
    )
}

/// Those of the nodes that are objects, each once and in order.
fn objects_among(alloc: Global, nodes: &[u32], objects: usize) -> Result<Vec<u32>, AllocError>
    ensures { IfOk result (λ found. AreBelow objects nodes.now found.items) }
{
    let mut found = Vec::with_capacity(alloc, nodes.len())?;
    for node in nodes {
        if (*node as usize) < objects {
            found.push(*node)?;
        }
    }
    if rises(found.as_slice()) {
        return Ok(found);
    }
    found.sort()?;
    found.dedup();
    Ok(found)
}

/// The objects of one type, and its groups.
#[derive(Drop)]
struct Tables<'a> {
    objects: Objects<'a>,
    groups: Objects<'a>,
}

/// The objects of the type, and its groups.
fn tables_of<'a>(
    alloc: Global,
    templates: &Templates<'a>,
    kind: GroupKind,
) -> Result<Tables<'a>, AllocError>
    ensures { IfOk result (AreTables templates.now kind) }
{
    let objects = Objects::new(alloc, templates, kind.object_kind())?;
    let groups = Objects::new(alloc, templates, kind.group_kind())?;
    Ok(Tables { objects, groups })
}

/// The graph in which the members are found, and a search in it.
#[derive(Drop)]
struct Search {
    graph: Graph,
    reach: Reach,
}

/// The graph of these objects and groups, and a search in it. More of them than a graph has nodes are want of memory.
fn search_of<'a>(
    alloc: Global,
    templates: &Templates<'a>,
    kind: GroupKind,
    tables: &Tables<'a>,
) -> Result<Search, AllocError>
    requires { AreTables templates.now kind tables.now }
    ensures { IfOk result (IsSearchOf (grouping templates.now kind)) }
{
    let objects = &tables.objects;
    let groups = &tables.groups;
    if objects.names().len().saturating_add(groups.names().len()) > (u32::MAX - 3) as usize {
        return Err(AllocError);
    }
    let graph = graph_of(alloc, templates, kind, objects, groups)?;
    let reach = Reach::new(alloc, graph.node_count())?;
    Ok(Search { graph, reach })
}

/// The objects and groups of one type, and which objects are members of which group. Contracts see the blocks and
/// the type.
#[derive(Drop)]
pub struct Groups<'a> {
    blocks: &'a [Block],
    kind: GroupKind,
    tables: Tables<'a>,
    search: Search,
}

impl<'a> Model for Groups<'a> {
    ghost use Rattle.object_groups.specs.Groups.{AreGroups, GroupsOf};

    ghost Value = { GroupsOf };

    ghost view = { λ s. record {
      blocks = s.blocks.now;
      kind = s.kind;
    } };

    ghost invariant = { λ s. AreGroups s.blocks.now s.kind s.tables s.search };
}

impl<'a> Groups<'a> {
    /// The groups of the type. A name that no object has, and no group, adds nothing; of two of one name the
    /// first is meant. The time and the memory grow with the blocks, the templates that they use and the entries
    /// that these give themselves: a list that many blocks have is followed once. Over 4,294,967,292 objects, groups
    /// and lists that others take are want of memory. A refusal leaves nothing.
    pub fn new(
        alloc: Global,
        templates: &Templates<'a>,
        kind: GroupKind,
    ) -> Result<Groups<'a>, AllocError>
        ensures { IfOk result (λ groups. groups
            ≡ record { blocks = templates.now; kind = kind }) }
    {
        let tables = tables_of(alloc, templates, kind)?;
        let search = search_of(alloc, templates, kind, &tables)?;
        Ok(Groups {
            blocks: templates.blocks(),
            kind,
            tables,
            search,
        })
    }

    /// The objects.
    pub fn objects(&self) -> &Objects<'a>
        ensures { result.now
            ≡ record { blocks = self.now.blocks; kind = object_kind self.now.kind } }
    {
        &self.tables.objects
    }

    /// The groups.
    pub fn groups(&self) -> &Objects<'a>
        ensures { result.now
            ≡ record { blocks = self.now.blocks; kind = group_kind self.now.kind } }
    {
        &self.tables.groups
    }

    /// The graph in which members are found: its nodes are the objects, then the groups, then one for all objects, one for
    /// all groups, and others.
    pub fn graph(&self) -> &Graph
        ensures { LeadsToMembers (grouping self.now.blocks self.now.kind) result.now }
    {
        &self.search.graph
    }

    /// The members of the group of that number, by their numbers, each once and in order: the objects to which
    /// a chain of groups leads. A number that no group has has none. The time grows with what the group
    /// reaches, each group once. A refused growth changes nothing.
    pub fn members(&mut self, alloc: Global, group: usize) -> Result<Vec<u32>, AllocError>
        ensures same { self.new ≡ self.old }
        ensures members { IfOk result (λ members.
            AreMembers (grouping self.old.blocks self.old.kind) group members.items) }
    {
        let objects = self.tables.objects.names().len();
        if group >= self.tables.groups.names().len() {
            return Ok(Vec::new(alloc));
        }
        let search = &mut self.search;
        search.reach.reach(&search.graph, (objects + group) as u32);
        objects_among(alloc, search.reach.found(), objects)
    }
}
