//! The hosts and descriptions by which blocks name services.

ghost use Rattle.std.specs.Prelude.{◌≡◌, ◌<◌, length, IfOk};
ghost use Rattle.object_groups.specs.declared.groups.GroupKind.TheVariants.{HostGroups};
ghost use Rattle.object_groups.specs.claims.Objects.{is_object_at, list_at};
ghost use Rattle.object_listing.specs.claims.Listing.{AreThose, IsListed};
ghost use Rattle.object_reached.specs.claims.Listed.{of_hosts};
ghost use Rattle.object_reached.specs.claims.Roles.{directives_of, service_kind};
ghost use Rattle.object_unknown_services.specs.claims.Named.{descriptions_in};
ghost use Rattle.object_unknown_services.specs.Named.{descriptions_at};
ghost use Rattle.object_values.specs.Values.{texts};

use object_groups::groups::Groups;
use object_groups::names::is_all;
use object_groups::objects::{is_object, list_at};
use object_inheritance::inherited::Values;
use object_inheritance::templates::Templates;
use object_reached::listing::ServiceListing;
use object_reached::reached::listing_of;
use object_reached::roles::Role;
use object_reader::block::Block;
use std::alloc::{AllocError, Global};
use std::marker::Model;

/// The descriptions that the list of the block at the place names.
fn descriptions_of<'a>(
    alloc: Global,
    values: &Values<'a>,
    place: usize,
) -> Result<Vec<&'a [u8]>, AllocError>
    ensures { IfOk result (λ found. texts found.items
        ≡ descriptions_in (list_at values.now.blocks values.now.directive place)) }
{
    let entries = list_at(alloc, values, place)?;
    if is_all(entries.as_slice()) {
        return Ok(Vec::new(alloc));
    }
    Ok(entries)
}

/// What blocks name as services in one role: by hosts and host groups, and by descriptions. It takes some 80 bytes a
/// block. Contracts see the blocks and the role.
#[derive(Drop)]
pub(crate) struct Naming<'a> {
    blocks: &'a [Block],
    role: Role,
    listing: ServiceListing<'a>,
}

impl<'a> Model for Naming<'a> {
    ghost use Rattle.object_reached.specs.Reached.{ReachedOf};
    ghost use Rattle.object_unknown_services.specs.Named.{IsNaming};

    ghost Value = { ReachedOf };

    ghost view = { λ s. record { blocks = s.blocks.now; role = s.role } };

    ghost invariant = { λ s. IsNaming s.blocks.now s.role s.listing };
}

impl<'a> Naming<'a> {
    /// What the blocks name in the role. A refused growth leaves nothing.
    pub(crate) fn new(
        alloc: Global,
        templates: &Templates<'a>,
        role: Role,
    ) -> Result<Naming<'a>, AllocError>
        ensures { IfOk result (λ made. made ≡ record { blocks = templates.now; role = role }) }
    {
        Ok(Naming {
            blocks: templates.blocks(),
            role,
            listing: listing_of(alloc, templates, role)?,
        })
    }

    /// The blocks.
    pub(crate) fn blocks(&self) -> &'a [Block]
        ensures { result.now ≡ self.now.blocks }
    {
        self.blocks
    }

    /// What the blocks list by the directives of the role.
    pub(crate) fn listing(&self) -> &ServiceListing<'a>
        ensures { result.now ≡ record {
          blocks = self.now.blocks;
          directives = directives_of self.now.role;
        } }
    {
        &self.listing
    }

    /// Whether the block at the place is registered and of the type that speaks of services in the role.
    pub(crate) fn speaks_at(&self, place: usize) -> bool
        requires { place < length self.now.blocks }
        ensures { result ≡ is_object_at self.now.blocks (service_kind self.now.role) place }
    {
        let blocks = self.blocks();
        is_object(self.role.service_kind(), &blocks[place])
    }

    /// The descriptions that the block at the place names; none where it doesn't speak of services in the role.
    pub(crate) fn descriptions_at(
        &self,
        alloc: Global,
        place: usize,
    ) -> Result<Vec<&'a [u8]>, AllocError>
        requires { place < length self.now.blocks }
        ensures { IfOk result (λ found. texts found.items
            ≡ descriptions_at self.now.blocks self.now.role place) }
    {
        if self.speaks_at(place) {
            let found = descriptions_of(alloc, self.listing.descriptions(), place)?;
            return Ok(found);
        }
        Ok(Vec::new(alloc))
    }

    /// The hosts that the block at the place lists. `hosts` are the host groups of the same blocks.
    pub(crate) fn hosts_at(
        &self,
        alloc: Global,
        hosts: &mut Groups<'a>,
        place: usize,
    ) -> Result<Vec<usize>, AllocError>
        requires { hosts.old ≡ record { blocks = self.now.blocks; kind = HostGroups } }
        ensures same { hosts.new ≡ hosts.old }
        ensures hosts { IfOk result (λ found. AreThose
            (IsListed self.now.blocks (of_hosts (directives_of self.now.role)) place) found.items) }
    {
        let found = self.listing.hosts_at(alloc, hosts, place)?;
        Ok(found)
    }
}
