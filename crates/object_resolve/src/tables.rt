//! What is made of blocks once, for the passes after the first two.

ghost use Rattle.std.specs.Prelude.{◌≡◌, slice_get, IfOk};
ghost use Rattle.object_groups.specs.claims.Objects.{objects_in};
ghost use Rattle.object_reader.specs.declared.block.BlockKind.TheVariants.{Service};
ghost use Rattle.object_resolve.specs.Tables.{AreTables};
ghost use Rattle.object_services.specs.claims.Limits.{AreHostLists};

use object_groups::groups::{GroupKind, Groups};
use object_groups::objects::Objects;
use object_inheritance::templates::Templates;
use object_names::named::{NamedKind, NamedObjects};
use object_service_groups::groups::ServiceGroups;
use object_services::blocks::ServiceBlocks;
use object_services::services::ServiceHosts;
use std::alloc::{AllocError, Global};

/// The objects of all types: those with a name of their own, and the service blocks; and the groups of hosts.
#[derive(Drop)]
pub(crate) struct Tables<'a, 'b> {
    pub(crate) objects: &'b NamedObjects<'a>,
    pub(crate) services: &'b ServiceBlocks<'a>,
    pub(crate) hosts: Groups<'a>,
}

impl<'a, 'b> Tables<'a, 'b> {
    /// Those of the blocks, where the objects and the service blocks are theirs. A refused growth leaves nothing.
    pub(crate) fn new(
        alloc: Global,
        templates: &Templates<'a>,
        objects: &'b NamedObjects<'a>,
        services: &'b ServiceBlocks<'a>,
    ) -> Result<Tables<'a, 'b>, AllocError>
        requires objects { objects.now ≡ templates.now }
        requires services { services.now ≡ templates.now }
        ensures { IfOk result (AreTables templates.now) }
    {
        let hosts = Groups::new(alloc, templates, GroupKind::HostGroups)?;
        Ok(Tables {
            objects,
            services,
            hosts,
        })
    }
}

/// The place of the object of that number; none where there are fewer.
pub(crate) fn place_of(objects: &Objects, number: usize) -> Option<usize>
    ensures { result ≡ slice_get (objects_in objects.now.blocks objects.now.kind) number }
{
    match objects.places().get(number) {
        Some(place) => Some(*place),
        None => None,
    }
}

/// The service groups, where `hosts` are the hosts of each service block.
pub(crate) fn groups_in<'a>(
    alloc: Global,
    templates: &Templates<'a>,
    tables: &Tables<'a, '_>,
    hosts: &ServiceHosts,
) -> Result<ServiceGroups<'a>, AllocError>
    requires tables { AreTables templates.now tables.now }
    requires hosts { AreHostLists templates.now (objects_in templates.now Service) hosts.now }
    ensures { IfOk result (λ made. made ≡ templates.now) }
{
    let services = tables.services;
    let names = tables.objects.objects(NamedKind::Host).names();
    ServiceGroups::new(alloc, templates, services, hosts, names)
}
