//! The objects of which blocks speak, by their numbers.

ghost use Rattle.std.specs.Prelude.{◌≡◌, ◌+◌, ◌<◌, ◌^◌, length, slice_get, IfOk, Some};
ghost use Rattle.object_groups.specs.declared.groups.GroupKind.TheVariants.{HostGroups};
ghost use Rattle.object_groups.specs.claims.Objects.{names_in, objects_in};
ghost use Rattle.object_reached.specs.Reached.{AreAfter, AreServicesOf, AreSpokenOf};
ghost use Rattle.object_reached.specs.claims.Roles.{dependent_directives, directives_of, plain_directives};
ghost use Rattle.object_reader.specs.declared.block.BlockKind.TheVariants.{Host, Service};
ghost use Rattle.object_services.specs.claims.Limits.{AreHostLists};
ghost use Rattle.object_services.specs.claims.Numbers.{pairs_of};

use crate::listing::ServiceListing;
use crate::roles::Role;
use crate::services::HostServices;
use object_groups::groups::Groups;
use object_groups::objects::is_object;
use object_inheritance::templates::Templates;
use object_listing::laws::listed_are_objects;
use object_reader::block::Block;
use object_service_groups::groups::ServiceGroups;
use object_service_groups::laws::members_are_services;
use object_services::blocks::ServiceBlocks;
use object_services::services::ServiceHosts;
use std::alloc::{AllocError, Global};
use std::marker::Model;

/// The services of the blocks, where `lists` are the hosts of the service blocks and `hosts` the host groups of the
/// same blocks. Over 4,294,967,295 hosts and services are want of memory. A refused growth leaves nothing.
pub fn services_of<'a>(
    alloc: Global,
    services: &ServiceBlocks<'a>,
    lists: &ServiceHosts,
    hosts: &Groups<'a>,
) -> Result<HostServices<'a>, AllocError>
    requires hosts { hosts.now ≡ record { blocks = services.now; kind = HostGroups } }
    requires lists { AreHostLists services.now (objects_in services.now Service) lists.now }
    ensures services { IfOk result (λ made. made
        ≡ pairs_of (names_in services.now Service) lists.now) }
    ensures few { IfOk result (λ made.
        length (names_in services.now Host) + length made < 2 ^ 32) }
{
    listed_are_objects();
    let names = services.objects().names();
    let made = HostServices::new(alloc, names, hosts.objects().names().len(), lists)?;
    Ok(made)
}

/// Writes over the places of services their numbers, after so many hosts. There are few enough of both.
fn number_after(hosts: usize, services: &mut [usize])
    ensures long { length services.new ≡ length services.old }
    ensures numbers { AreAfter hosts services.old services.new }
{
    for service in services.iter_mut() {
        *service = hosts.saturating_add(*service);
    }
}

/// The services that the block at the place lists, by their numbers among all objects.
fn services_at<'a>(
    alloc: Global,
    listing: &ServiceListing<'a>,
    hosts: &mut Groups<'a>,
    groups: &mut ServiceGroups<'a>,
    services: &HostServices<'a>,
    place: usize,
) -> Result<Vec<usize>, AllocError>
    requires hosts { hosts.old ≡ record { blocks = listing.now.blocks; kind = HostGroups } }
    requires groups { groups.old ≡ listing.now.blocks }
    requires few { length (names_in listing.now.blocks Host) + length services.now < 2 ^ 32 }
    ensures same_hosts { hosts.new ≡ hosts.old }
    ensures same_groups { groups.new ≡ groups.old }
    ensures objects { IfOk result (λ found. AreServicesOf listing.now.blocks services.now
        listing.now.directives place found.items) }
{
    members_are_services();
    let mut found = listing.services_at(alloc, hosts, groups, services, place)?;
    number_after(hosts.objects().names().len(), found.as_mut_slice());
    Ok(found)
}

/// What the blocks list by the directives of escalations, and of the masters of dependencies.
fn plain_listing<'a>(
    alloc: Global,
    templates: &Templates<'a>,
) -> Result<ServiceListing<'a>, AllocError>
    ensures { IfOk result (λ listing. listing
        ≡ record { blocks = templates.now; directives = plain_directives }) }
{
    let listing = ServiceListing::new(
        alloc,
        templates,
        "host_name",
        "hostgroup_name",
        "service_description",
        "servicegroup_name",
    )?;
    Ok(listing)
}

/// And by those of the dependents.
fn dependent_listing<'a>(
    alloc: Global,
    templates: &Templates<'a>,
) -> Result<ServiceListing<'a>, AllocError>
    ensures { IfOk result (λ listing. listing
        ≡ record { blocks = templates.now; directives = dependent_directives }) }
{
    let listing = ServiceListing::new(
        alloc,
        templates,
        "dependent_host_name",
        "dependent_hostgroup_name",
        "dependent_service_description",
        "dependent_servicegroup_name",
    )?;
    Ok(listing)
}

/// What the blocks list by the directives of a role, as `ServiceListing::new` reads them. A refused growth leaves nothing.
pub fn listing_of<'a>(
    alloc: Global,
    templates: &Templates<'a>,
    role: Role,
) -> Result<ServiceListing<'a>, AllocError>
    ensures { IfOk result (λ listing. listing
        ≡ record { blocks = templates.now; directives = directives_of role }) }
{
    match role {
        Role::Escalated => plain_listing(alloc, templates),
        Role::Master => plain_listing(alloc, templates),
        Role::Dependent => dependent_listing(alloc, templates),
    }
}

/// The objects of which blocks speak in one role. It takes some 80 bytes a block. Contracts see the blocks and the
/// role.
#[derive(Drop)]
pub struct Reached<'a> {
    blocks: &'a [Block],
    role: Role,
    listing: ServiceListing<'a>,
}

impl<'a> Model for Reached<'a> {
    ghost use Rattle.object_reached.specs.Reached.{IsReached, ReachedOf};

    ghost Value = { ReachedOf };

    ghost view = { λ s. record { blocks = s.blocks.now; role = s.role } };

    ghost invariant = { λ s. IsReached s.blocks.now s.role s.listing };
}

impl<'a> Reached<'a> {
    /// What the blocks have for the directives of the role. The time grows with the blocks, their directives and the
    /// templates that they use. A refused growth leaves nothing.
    pub fn new(
        alloc: Global,
        templates: &Templates<'a>,
        role: Role,
    ) -> Result<Reached<'a>, AllocError>
        ensures { IfOk result (λ made. made ≡ record { blocks = templates.now; role = role }) }
    {
        Ok(Reached {
            blocks: templates.blocks(),
            role,
            listing: listing_of(alloc, templates, role)?,
        })
    }

    /// What they have.
    pub fn listing(&self) -> &ServiceListing<'a>
        ensures { result.now
            ≡ record { blocks = self.now.blocks; directives = directives_of self.now.role } }
    {
        &self.listing
    }

    /// The blocks.
    fn blocks(&self) -> &'a [Block]
        ensures { result.now ≡ self.now.blocks }
    {
        self.blocks
    }

    /// The objects of which the block at the place speaks in the role, by their numbers, each once and in order: of a
    /// registered block of the type for hosts the hosts that it lists, by themselves or by host groups, and of one
    /// of the type for services the services, by hosts and descriptions or by service groups; of another block
    /// none. `services` are the services of the blocks, `hosts` the host groups and `groups` the service groups,
    /// all of the same blocks. The time grows with the entries of the lists, with what each of the groups
    /// reaches, and with the services of the hosts. A refused growth changes nothing.
    pub fn objects_at(
        &self,
        alloc: Global,
        hosts: &mut Groups<'a>,
        groups: &mut ServiceGroups<'a>,
        services: &HostServices<'a>,
        place: usize,
    ) -> Result<Vec<usize>, AllocError>
        requires within { place < length self.now.blocks }
        requires hosts { hosts.old ≡ record { blocks = self.now.blocks; kind = HostGroups } }
        requires groups { groups.old ≡ self.now.blocks }
        requires few { length (names_in self.now.blocks Host) + length services.now < 2 ^ 32 }
        ensures same_hosts { hosts.new ≡ hosts.old }
        ensures same_groups { groups.new ≡ groups.old }
        ensures objects { IfOk result (λ found.
            AreSpokenOf self.now.blocks services.now self.now.role place found.items) }
    {
        let blocks = self.blocks();
        let block = &blocks[place];
        if is_object(self.role.host_kind(), block) {
            let found = self.listing.hosts_at(alloc, hosts, place)?;
            return Ok(found);
        }
        if is_object(self.role.service_kind(), block) {
            let found = services_at(alloc, &self.listing, hosts, groups, services, place)?;
            return Ok(found);
        }
        Ok(Vec::new(alloc))
    }
}
