//! The lists of which a block must have an entry: of hosts, or of services.

ghost use Rattle.std.specs.Prelude.{◌≡◌, IfOk};
ghost use Rattle.object_faults.specs.claims.Faults.{has_hosts, has_services, is_listed, lacks};
ghost use Rattle.object_faults.specs.claims.Tables.{description_directive, group_directive};
ghost use Rattle.object_faults.specs.claims.Tables.{host_directive};
ghost use Rattle.object_faults.specs.claims.Tables.{masters_alone, needed, service_group_directive};

use object_inheritance::inherited::{Values, values_of};
use object_inheritance::templates::Templates;
use object_reader::block::{Block, BlockKind};
use std::alloc::{AllocError, Global};
use std::marker::Model;

/// The sides of a dependency. Services and escalations name their hosts and services as the masters of one.
#[derive(Clone, Copy)]
pub enum Side {
    /// What something depends on.
    Masters,
    /// What depends on it.
    Dependents,
}

/// What a block must list on a side.
#[derive(Clone, Copy)]
pub enum Need {
    /// Nothing.
    Nothing,
    /// A host or a host group.
    Hosts,
    /// A host or a host group and a description of services, or a service group.
    Services,
}

/// A need on the side of the masters alone.
fn masters_alone(side: Side, need: Need) -> Need
    ensures { result ≡ masters_alone side need }
{
    match side {
        Side::Masters => need,
        Side::Dependents => Need::Nothing,
    }
}

/// What blocks of the type must list on a side.
fn needed(kind: BlockKind, side: Side) -> Need
    ensures { result ≡ needed kind side }
{
    match kind {
        BlockKind::Service => masters_alone(side, Need::Hosts),
        BlockKind::HostEscalation => masters_alone(side, Need::Hosts),
        BlockKind::ServiceEscalation => masters_alone(side, Need::Services),
        BlockKind::HostDependency => Need::Hosts,
        BlockKind::ServiceDependency => Need::Services,
        _ => Need::Nothing,
    }
}

/// What the blocks have for the lists of hosts on a side.
fn hosts_of<'a>(
    alloc: Global,
    templates: &Templates<'a>,
    side: Side,
) -> Result<Values<'a>, AllocError>
    ensures { IfOk result (λ values. values
        ≡ record { blocks = templates.now; directive = host_directive side }) }
{
    match side {
        Side::Masters => values_of(alloc, templates, "host_name"),
        Side::Dependents => values_of(alloc, templates, "dependent_host_name"),
    }
}

/// What the blocks have for the lists of host groups on a side.
fn groups_of<'a>(
    alloc: Global,
    templates: &Templates<'a>,
    side: Side,
) -> Result<Values<'a>, AllocError>
    ensures { IfOk result (λ values. values
        ≡ record { blocks = templates.now; directive = group_directive side }) }
{
    match side {
        Side::Masters => values_of(alloc, templates, "hostgroup_name"),
        Side::Dependents => values_of(alloc, templates, "dependent_hostgroup_name"),
    }
}

/// What the blocks have for the lists of descriptions of services on a side.
fn descriptions_of<'a>(
    alloc: Global,
    templates: &Templates<'a>,
    side: Side,
) -> Result<Values<'a>, AllocError>
    ensures { IfOk result (λ values. values
        ≡ record { blocks = templates.now; directive = description_directive side }) }
{
    match side {
        Side::Masters => values_of(alloc, templates, "service_description"),
        Side::Dependents => values_of(alloc, templates, "dependent_service_description"),
    }
}

/// What the blocks have for the lists of service groups on a side.
fn service_groups_of<'a>(
    alloc: Global,
    templates: &Templates<'a>,
    side: Side,
) -> Result<Values<'a>, AllocError>
    ensures { IfOk result (λ values. values
        ≡ record { blocks = templates.now; directive = service_group_directive side }) }
{
    match side {
        Side::Masters => values_of(alloc, templates, "servicegroup_name"),
        Side::Dependents => values_of(alloc, templates, "dependent_servicegroup_name"),
    }
}

/// Whether the block at the place has an entry in its list for the directive of the values.
fn is_listed(values: &Values, place: usize) -> bool
    ensures { result ≡ is_listed values.now.blocks place values.now.directive }
{
    values.has_entries(place)
}

/// What all blocks have for the four lists of a side. Contracts see the blocks and the side.
#[derive(Drop)]
pub(crate) struct Needs<'a> {
    blocks: &'a [Block],
    side: Side,
    hosts: Values<'a>,
    groups: Values<'a>,
    descriptions: Values<'a>,
    service_groups: Values<'a>,
}

impl<'a> Model for Needs<'a> {
    ghost use Rattle.object_faults.specs.Needs.{AreNeeds, NeedsOf};

    ghost Value = { NeedsOf };

    ghost view = { λ s. record {
      blocks = s.blocks.now;
      side = s.side;
    } };

    ghost invariant = { λ s.
        AreNeeds s.blocks.now s.side s.hosts s.groups s.descriptions s.service_groups };
}

impl<'a> Needs<'a> {
    /// What the blocks have for the lists of the side.
    pub(crate) fn new(
        alloc: Global,
        templates: &Templates<'a>,
        side: Side,
    ) -> Result<Needs<'a>, AllocError>
        ensures { IfOk result (λ needs. needs
            ≡ record { blocks = templates.now; side = side }) }
    {
        let hosts = hosts_of(alloc, templates, side)?;
        let groups = groups_of(alloc, templates, side)?;
        let descriptions = descriptions_of(alloc, templates, side)?;
        let service_groups = service_groups_of(alloc, templates, side)?;
        Ok(Needs {
            blocks: templates.blocks(),
            side,
            hosts,
            groups,
            descriptions,
            service_groups,
        })
    }

    /// Whether the block at the place lists a host or a host group.
    fn has_hosts(&self, place: usize) -> bool
        ensures { result ≡ has_hosts self.now.blocks place self.now.side }
    {
        is_listed(&self.hosts, place) || is_listed(&self.groups, place)
    }

    /// Whether the block at the place lists a host or a host group, and a description; or a service group.
    fn has_services(&self, place: usize) -> bool
        ensures { result ≡ has_services self.now.blocks place self.now.side }
    {
        let described = self.has_hosts(place) && is_listed(&self.descriptions, place);
        described || is_listed(&self.service_groups, place)
    }

    /// Whether the block at the place, of the type, lacks what it must list on the side. It takes no memory.
    pub(crate) fn lacks(&self, kind: BlockKind, place: usize) -> bool
        ensures { result ≡ lacks self.now.blocks place kind self.now.side }
    {
        match needed(kind, self.side) {
            Need::Nothing => false,
            Need::Hosts => !self.has_hosts(place),
            Need::Services => !self.has_services(place),
        }
    }
}
