//! The services that blocks list by four directives.

ghost use Rattle.std.specs.Prelude.{◌≡◌, [], IfOk};
ghost use Rattle.object_reached.specs.claims.Listed.{IsDescribed, of_hosts};
ghost use Rattle.object_reached.specs.Listed.{AreServicesListed};
ghost use Rattle.object_groups.specs.declared.groups.GroupKind.TheVariants.{HostGroups};
ghost use Rattle.object_listing.specs.claims.Listing.{AreThose, IsListed};
ghost use Rattle.object_listing.specs.Listing.{Adds};

use crate::numbers::{Descriptions, push_groups, push_hosts};
use crate::services::HostServices;
use object_groups::groups::{GroupKind, Groups};
use object_groups::names::numbers_of;
use object_groups::objects::list_at;
use object_inheritance::inherited::Values;
use object_inheritance::templates::Templates;
use object_listing::listing::Listing;
use object_listing::numbers::put_in_order;
use object_reader::block::Block;
use object_service_groups::groups::ServiceGroups;
use std::alloc::{AllocError, Global};
use std::marker::Model;

/// What blocks list by four directives: hosts and host groups, descriptions of services on these hosts, and service
/// groups, as a service escalation does. It takes some 80 bytes a block. Contracts see the blocks and the
/// directives.
#[derive(Drop)]
pub struct ServiceListing<'a> {
    blocks: &'a [Block],
    hosts: Listing<'a>,
    descriptions: Values<'a>,
    groups: Values<'a>,
}

impl<'a> Model for ServiceListing<'a> {
    ghost use Rattle.object_reached.specs.Listed.{AreServiceLists, ServiceListingOf};

    ghost Value = { ServiceListingOf };

    ghost view = { λ s. record {
      blocks = s.blocks.now;
      directives = record {
        hosts = s.hosts.directives.objects;
        host_groups = s.hosts.directives.groups;
        descriptions = s.descriptions.directive;
        groups = s.groups.directive;
      };
    } };

    ghost invariant = { λ s. AreServiceLists s.blocks.now s.hosts s.descriptions s.groups (record {
      hosts = s.hosts.directives.objects;
      host_groups = s.hosts.directives.groups;
      descriptions = s.descriptions.directive;
      groups = s.groups.directive;
    }) };
}

impl<'a> ServiceListing<'a> {
    /// What the blocks list by the four directives. The time grows with the blocks, their directives and the templates
    /// that they use. A refused growth leaves nothing.
    pub fn new(
        alloc: Global,
        templates: &Templates<'a>,
        hosts: &'a str,
        host_groups: &'a str,
        descriptions: &'a str,
        groups: &'a str,
    ) -> Result<ServiceListing<'a>, AllocError>
        ensures { IfOk result (λ made. made ≡ record {
          blocks = templates.now;
          directives = record {
            hosts = hosts.now;
            host_groups = host_groups.now;
            descriptions = descriptions.now;
            groups = groups.now;
          };
        }) }
    {
        let kind = GroupKind::HostGroups;
        Ok(ServiceListing {
            blocks: templates.blocks(),
            hosts: Listing::new(alloc, templates, kind, hosts, host_groups)?,
            descriptions: Values::new(alloc, templates, descriptions.as_bytes())?,
            groups: Values::new(alloc, templates, groups.as_bytes())?,
        })
    }

    /// The hosts that the block at the place lists, by their numbers, each once and in order. `hosts` are the host
    /// groups of the same blocks. A refused growth changes nothing.
    pub fn hosts_at(
        &self,
        alloc: Global,
        hosts: &mut Groups<'a>,
        place: usize,
    ) -> Result<Vec<usize>, AllocError>
        requires { hosts.old ≡ record { blocks = self.now.blocks; kind = HostGroups } }
        ensures same { hosts.new ≡ hosts.old }
        ensures hosts { IfOk result (λ found.
            AreThose (IsListed self.now.blocks (of_hosts self.now.directives) place) found.items) }
    {
        let found = self.hosts.objects_at(alloc, hosts, place)?;
        Ok(found)
    }

    /// What the blocks list by the directives of hosts and host groups.
    pub fn hosts(&self) -> &Listing<'a>
        ensures { result.now ≡ record {
          blocks = self.now.blocks;
          directives = of_hosts self.now.directives;
        } }
    {
        &self.hosts
    }

    /// What they have for the directive of descriptions.
    pub fn descriptions(&self) -> &Values<'a>
        ensures { result.now ≡ record {
          blocks = self.now.blocks;
          directive = self.now.directives.descriptions;
        } }
    {
        &self.descriptions
    }

    /// What they have for the directive of service groups.
    pub fn groups(&self) -> &Values<'a>
        ensures { result.now ≡ record {
          blocks = self.now.blocks;
          directive = self.now.directives.groups;
        } }
    {
        &self.groups
    }

    /// Those of the services that the block at the place lists by their hosts and descriptions, by their places among the
    /// services, in no order. `hosts` are the host groups of the same blocks. The time grows with the entries of the three
    /// lists, with what each of the host groups reaches, and with the services of the hosts. A refused growth changes
    /// nothing.
    pub fn described_at(
        &self,
        alloc: Global,
        hosts: &mut Groups<'a>,
        services: &HostServices<'a>,
        place: usize,
    ) -> Result<Vec<usize>, AllocError>
        requires { hosts.old ≡ record { blocks = self.now.blocks; kind = HostGroups } }
        ensures same { hosts.new ≡ hosts.old }
        ensures described { IfOk result (λ found. Adds (IsDescribed self.now.blocks services.now
            self.now.directives place) [] found.items) }
    {
        let listed = self.hosts.objects_at(alloc, hosts, place)?;
        let entries = list_at(alloc, &self.descriptions, place)?;
        let descriptions = Descriptions::new(alloc, entries)?;
        let mut found = Vec::new(alloc);
        push_hosts(&mut found, services, &descriptions, listed.as_slice())?;
        Ok(found)
    }

    /// The services that the block at the place lists, by their places among the services, each once and in order: those
    /// on a host that it lists, by itself or by a group, whose description it lists too; and the members of the
    /// service groups that it lists. `*` alone as the list of descriptions is every service of these hosts;
    /// as a list of service groups it is a name. A name that nothing has adds nothing. `hosts` and `groups`
    /// are the host groups and service groups of the same blocks. The time grows with the entries of the four
    /// lists, with what each of the groups reaches, and with the services of the hosts. A refused growth
    /// changes nothing.
    pub fn services_at(
        &self,
        alloc: Global,
        hosts: &mut Groups<'a>,
        groups: &mut ServiceGroups<'a>,
        services: &HostServices<'a>,
        place: usize,
    ) -> Result<Vec<usize>, AllocError>
        requires hosts { hosts.old ≡ record { blocks = self.now.blocks; kind = HostGroups } }
        requires groups { groups.old ≡ self.now.blocks }
        ensures same_hosts { hosts.new ≡ hosts.old }
        ensures same_groups { groups.new ≡ groups.old }
        ensures services { IfOk result (λ found. AreServicesListed self.now.blocks services.now
            self.now.directives place found.items) }
    {
        let mut found = self.described_at(alloc, hosts, services, place)?;
        let named = list_at(alloc, &self.groups, place)?;
        let grouped = numbers_of(alloc, groups.groups().names(), named.as_slice())?;
        push_groups(
            alloc,
            &mut found,
            groups,
            services.len(),
            grouped.as_slice(),
        )?;
        put_in_order(&mut found)?;
        Ok(found)
    }
}
