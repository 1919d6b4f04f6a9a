//! The service groups of blocks, and their members.

ghost use Rattle.std.specs.Prelude.{◌≡◌, ◌+◌, ◌<◌, ◌≤◌, ◌^◌, ◌++◌, []};
ghost use Rattle.std.specs.Prelude.{ℕ, List, codes, length};
ghost use Rattle.std.specs.Prelude.{slice_index_or, All, IfOk};
ghost use Rattle.graph.specs.Edges.{IsWithin};
ghost use Rattle.object_groups.specs.declared.lists.Direction.TheVariants.{FromNames, ToNames};
ghost use Rattle.object_groups.specs.ListEdges.{LeadOver, list_edges};
ghost use Rattle.object_groups.specs.claims.Objects.{names_in, objects_in};
ghost use Rattle.object_reader.specs.declared.block.BlockKind.TheVariants.{Host, Service};
ghost use Rattle.object_reader.specs.declared.block.BlockKind.TheVariants.{ServiceGroup};
ghost use Rattle.object_service_groups.specs.claims.Groups.{grouping};
ghost use Rattle.object_service_groups.specs.Groups.{AreMembersOf, AreTables, listed_in};
ghost use Rattle.object_service_groups.specs.claims.Groups.{named_in};
ghost use Rattle.object_service_groups.specs.Groups.{LeadsToMembers};
ghost use Rattle.object_service_groups.specs.Nodes.{AreBelow, edges_in, first_group, IsKeptOf};
ghost use Rattle.object_services.specs.claims.Limits.{AreHostLists};
ghost use Rattle.object_services.specs.claims.Numbers.{pairs_of};

use crate::members::push_members;
use crate::nodes::push_owners;
use crate::owners::owners_of;
use graph::edges::{Edge, Graph};
use graph::reach::Reach;
use object_groups::lists::{Direction, ListNodes, push_lists};
use object_groups::names::Names;
use object_groups::objects::Objects;
use object_inheritance::inherited::values_of;
use object_inheritance::templates::Templates;
use object_reader::block::{Block, BlockKind};
use object_services::blocks::ServiceBlocks;
use object_services::numbers::ServiceNumbers;
use object_services::services::ServiceHosts;
use std::alloc::{AllocError, Global};
use std::marker::Model;

/// Adds the edges to the service blocks from the groups that they name, and the next node, where there are so many
/// nodes: the first service block's is `middle`, and the first group's is `first`.
fn push_own<'a>(
    alloc: Global,
    edges: &mut Vec<Edge>,
    templates: &Templates<'a>,
    blocks: &Objects<'a>,
    groups: &Objects<'a>,
    middle: u32,
    first: u32,
    count: u32,
) -> Result<u32, AllocError>
    requires blocks { blocks.now ≡ record { blocks = templates.now; kind = Service } }
    requires groups { groups.now ≡ record { blocks = templates.now; kind = ServiceGroup } }
    requires within { All (IsWithin count) edges.old.items }
    requires first { middle + length (objects_in templates.now Service) ≤ first }
    requires count { first + length (objects_in templates.now ServiceGroup) ≤ count }
    ensures { IfOk result (λ next. LeadOver count (edges.old.items
        ++ list_edges FromNames middle (length (objects_in templates.now Service))
        (listed_in templates.now Service (codes "servicegroups") first)) next edges.new.items) }
{
    let own = values_of(alloc, templates, "servicegroups")?;
    let nodes = ListNodes {
        direction: Direction::FromNames,
        node: middle,
        first,
        all: None,
        count,
    };
    push_lists(alloc, edges, &own, blocks.places(), groups.names(), nodes)
}

/// Adds the edges from the groups to the groups that they list. As `push_own`.
fn push_subgroups<'a>(
    alloc: Global,
    edges: &mut Vec<Edge>,
    templates: &Templates<'a>,
    groups: &Objects<'a>,
    first: u32,
    count: u32,
) -> Result<u32, AllocError>
    requires groups { groups.now ≡ record { blocks = templates.now; kind = ServiceGroup } }
    requires within { All (IsWithin count) edges.old.items }
    requires count { first + length (objects_in templates.now ServiceGroup) ≤ count }
    ensures { IfOk result (λ next. LeadOver count (edges.old.items
        ++ list_edges ToNames first (length (objects_in templates.now ServiceGroup))
        (listed_in templates.now ServiceGroup (codes "servicegroup_members") first))
        next edges.new.items) }
{
    let subgroups = values_of(alloc, templates, "servicegroup_members")?;
    let nodes = ListNodes {
        direction: Direction::ToNames,
        node: first,
        first,
        all: None,
        count,
    };
    push_lists(
        alloc,
        edges,
        &subgroups,
        groups.places(),
        groups.names(),
        nodes,
    )
}

/// Adds the edges from the groups to the services that they name. The services are numbered only where there is a
/// group. As `push_own`.
fn push_named<'a>(
    alloc: Global,
    edges: &mut Vec<Edge>,
    templates: &Templates<'a>,
    hosts: &Names<'a>,
    descriptions: &Names<'a>,
    lists: &ServiceHosts,
    groups: &Objects<'a>,
    first: u32,
    count: u32,
) -> Result<u32, AllocError>
    requires hosts { hosts.now ≡ names_in templates.now Host }
    requires groups { groups.now ≡ record { blocks = templates.now; kind = ServiceGroup } }
    requires within { All (IsWithin count) edges.old.items }
    requires services { length (pairs_of descriptions.now lists.now) ≤ count }
    requires count { first + length (objects_in templates.now ServiceGroup) ≤ count }
    ensures { IfOk result (λ next. LeadOver count (edges.old.items
        ++ list_edges ToNames first (length (objects_in templates.now ServiceGroup))
        (λ group. slice_index_or (named_in templates.now (pairs_of descriptions.now lists.now))
        group [])) next edges.new.items) }
{
    if groups.places().is_empty() {
        return Ok(count);
    }
    let services = ServiceNumbers::new(alloc, descriptions, lists)?;
    let members = values_of(alloc, templates, "members")?;
    push_members(
        alloc,
        edges,
        &members,
        groups.places(),
        hosts,
        &services,
        first,
        count,
    )
}

/// Adds all edges of the graph in which the members are found to none, and the next node, where there are so many:
/// `owners` are the blocks of the services, `middle` is the node of the first service block, and `first` that of the
/// first group.
fn push_all<'a>(
    alloc: Global,
    edges: &mut Vec<Edge>,
    templates: &Templates<'a>,
    blocks: &Objects<'a>,
    lists: &ServiceHosts,
    owners: &[usize],
    hosts: &Names<'a>,
    groups: &Objects<'a>,
    middle: u32,
    first: u32,
    count: u32,
) -> Result<u32, AllocError>
    requires tables { AreTables templates.now blocks.now lists.now owners.now hosts.now
        groups.now }
    requires none { edges.old.items ≡ [] }
    requires middle { middle ≡ length owners.now }
    requires first { first ≡ length owners.now + length (objects_in templates.now Service) }
    requires count { count ≡ first + length (objects_in templates.now ServiceGroup) }
    ensures { IfOk result (λ next. LeadOver count (edges_in (grouping templates.now lists.now))
        next edges.new.items) }
{
    push_owners(edges, middle, owners)?;
    let next = push_own(
        alloc, edges, templates, blocks, groups, middle, first, count,
    )?;
    let next = push_subgroups(alloc, edges, templates, groups, first, next)?;
    let descriptions = blocks.names();
    push_named(
        alloc,
        edges,
        templates,
        hosts,
        descriptions,
        lists,
        groups,
        first,
        next,
    )
}

/// The graph in which the members are found, where `owners` are the blocks of the services; its nodes alone where there is
/// no group.
fn graph_of<'a>(
    alloc: Global,
    templates: &Templates<'a>,
    blocks: &Objects<'a>,
    lists: &ServiceHosts,
    owners: &[usize],
    hosts: &Names<'a>,
    groups: &Objects<'a>,
) -> Result<Graph, AllocError>
    requires tables { AreTables templates.now blocks.now lists.now owners.now hosts.now
        groups.now }
    requires few { length owners.now + length (objects_in templates.now Service)
        + length (objects_in templates.now ServiceGroup) < 2 ^ 32 }
    ensures { IfOk result (IsKeptOf (grouping templates.now lists.now)) }
{
    let middle = owners.len() as u32;
    let first = middle + blocks.places().len() as u32;
    let count = first + groups.places().len() as u32;
    if groups.places().is_empty() {
        return Graph::new(alloc, count, &[]);
    }
    let mut edges = Vec::new(alloc);
    let next = push_all(
        alloc, &mut edges, templates, blocks, lists, owners, hosts, groups, middle, first, count,
    )?;
    let graph = Graph::new(alloc, next, edges.as_slice())?;
    Ok(graph)
}

/// Those of the nodes that are services, each once and in order.
fn services_among(alloc: Global, nodes: &[u32], services: usize) -> Result<Vec<usize>, AllocError>
    ensures { IfOk result (λ found. AreBelow services nodes.now found.items) }
{
    let mut found = Vec::new(alloc);
    for node in nodes {
        if (*node as usize) < services {
            found.push(*node as usize)?;
        }
    }
    found.sort()?;
    found.dedup();
    Ok(found)
}

/// The service groups of blocks, and which services are members of which group. Contracts see the blocks.
#[derive(Drop)]
pub struct ServiceGroups<'a> {
    blocks: &'a [Block],
    groups: Objects<'a>,
    /// How many services there are.
    services: usize,
    /// The node of the first group.
    first: usize,
    graph: Graph,
    search: Reach,
}

impl<'a> Model for ServiceGroups<'a> {
    ghost use Rattle.std.specs.Prelude.{List};
    ghost use Rattle.object_reader.specs.declared.block.Block.{Block};
    ghost use Rattle.object_service_groups.specs.Groups.{AreServiceGroups};

    ghost Value = { List Block };

    ghost view = { λ s. s.blocks.now };

    ghost invariant = { λ s.
        AreServiceGroups s.blocks.now s.groups s.services s.first s.graph s.search.nodes };
}

impl<'a> ServiceGroups<'a> {
    /// The service groups. `services` are the service blocks, `lists` their hosts, and `hosts` the names of the
    /// hosts, all of the same blocks. A name that no service has, and no group, adds nothing; of two of one name
    /// the first is meant; `*` is a name. Of a list of members of which an entry is left over, no service is a
    /// member by it. The memory grows with the services, with the blocks and with the entries of lists that they and
    /// the templates that they use give themselves, where a list that many have counts once; the time with these and
    /// with the templates. The services are sought by host and description only where there is a group; that takes
    /// some 80 bytes a service, given back at the end. Over 4,294,967,295 services, service blocks, groups and lists
    /// that others take are want of memory. A refused growth leaves nothing.
    pub fn new(
        alloc: Global,
        templates: &Templates<'a>,
        services: &ServiceBlocks<'a>,
        lists: &ServiceHosts,
        hosts: &Names<'a>,
    ) -> Result<ServiceGroups<'a>, AllocError>
        requires services { services.now ≡ templates.now }
        requires lists { AreHostLists templates.now (objects_in templates.now Service)
            lists.now }
        requires hosts { hosts.now ≡ names_in templates.now Host }
        ensures { IfOk result (λ made. made ≡ templates.now) }
    {
        let blocks = services.objects();
        let groups = Objects::new(alloc, templates, BlockKind::ServiceGroup)?;
        let owners = owners_of(alloc, lists)?;
        let first = owners.len().saturating_add(blocks.places().len());
        if first.saturating_add(groups.places().len()) > u32::MAX as usize {
            return Err(AllocError);
        }
        let graph = graph_of(
            alloc,
            templates,
            blocks,
            lists,
            owners.as_slice(),
            hosts,
            &groups,
        )?;
        let search = Reach::new(alloc, graph.node_count())?;
        Ok(ServiceGroups {
            blocks: templates.blocks(),
            groups,
            services: owners.len(),
            first,
            graph,
            search,
        })
    }

    /// The groups.
    pub fn groups(&self) -> &Objects<'a>
        ensures { result.now ≡ record { blocks = self.now; kind = ServiceGroup } }
    {
        &self.groups
    }

    /// The graph in which members are found: its nodes are the services, the service blocks, the groups, and others. Where
    /// there is no group, none leads to another.
    pub fn graph(&self) -> &Graph
        ensures { (lists : List (List ℕ))
            → AreHostLists self.now (objects_in self.now Service) lists
            → LeadsToMembers self.now lists result.now }
    {
        &self.graph
    }

    /// The node of the first group in that graph.
    pub fn first_node(&self) -> usize
        ensures { (lists : List (List ℕ))
            → AreHostLists self.now (objects_in self.now Service) lists
            → result ≡ first_group (grouping self.now lists) }
    {
        self.first
    }

    /// The members of the group of that number, by their places among the services, each once and in order: the
    /// services that a group to which a chain of groups leads lists, and those of the blocks that name such a
    /// group. A number that no group has has none. The time grows with what the group reaches, each group,
    /// block and service once. A refused growth changes nothing.
    pub fn members(&mut self, alloc: Global, group: usize) -> Result<Vec<usize>, AllocError>
        ensures same { self.new ≡ self.old }
        ensures members { IfOk result (λ members. AreMembersOf self.old group members.items) }
    {
        if group >= self.groups.names().len() {
            return Ok(Vec::new(alloc));
        }
        self.search.reach(&self.graph, (self.first + group) as u32);
        let found = services_among(alloc, self.search.found(), self.services)?;
        Ok(found)
    }
}
