//! The service blocks, and their hosts.

ghost use Rattle.std.specs.Prelude.{◌≡◌, ◌<◌, length, IfOk, slice_index_or};
ghost use Rattle.object_groups.specs.declared.groups.GroupKind.TheVariants.{HostGroups};
ghost use Rattle.object_groups.specs.claims.Objects.{objects_in};
ghost use Rattle.object_reader.specs.declared.block.BlockKind.TheVariants.{Service};
ghost use Rattle.object_services.specs.claims.Hosts.{AreHosts};

use object_groups::groups::{GroupKind, Groups};
use object_groups::objects::Objects;
use object_inheritance::templates::Templates;
use object_listing::listing::Listing;
use object_reader::block::{Block, BlockKind};
use std::alloc::{AllocError, Global};
use std::marker::Model;

/// The registered `service` blocks, numbered from 0 in file order, and what they say of hosts. Contracts see
/// the blocks.
#[derive(Drop)]
pub struct ServiceBlocks<'a> {
    blocks: &'a [Block],
    objects: Objects<'a>,
    hosts: Listing<'a>,
}

impl<'a> Model for ServiceBlocks<'a> {
    ghost use Rattle.std.specs.Prelude.{List};
    ghost use Rattle.object_reader.specs.declared.block.Block.{Block};
    ghost use Rattle.object_services.specs.Blocks.{AreServiceBlocks};

    ghost Value = { List Block };

    ghost view = { λ s. s.blocks.now };

    ghost invariant = { λ s. AreServiceBlocks s.blocks.now s.objects s.hosts };
}

impl<'a> ServiceBlocks<'a> {
    /// The service blocks. The time grows with the blocks, their directives and the templates that they use;
    /// they take some 128 bytes a block. A refused growth leaves nothing.
    pub fn new(alloc: Global, templates: &Templates<'a>) -> Result<ServiceBlocks<'a>, AllocError>
        ensures { IfOk result (λ made. made ≡ templates.now) }
    {
        let objects = Objects::new(alloc, templates, BlockKind::Service)?;
        let kind = GroupKind::HostGroups;
        let hosts = Listing::new(alloc, templates, kind, "host_name", "hostgroup_name")?;
        Ok(ServiceBlocks {
            blocks: templates.blocks(),
            objects,
            hosts,
        })
    }

    /// All blocks.
    pub fn blocks(&self) -> &'a [Block]
        ensures { result.now ≡ self.now }
    {
        self.blocks
    }

    /// The service blocks by their numbers: where each stands, and the description of its services, which is empty
    /// where a block has none.
    pub fn objects(&self) -> &Objects<'a>
        ensures { result.now ≡ record { blocks = self.now; kind = Service } }
    {
        &self.objects
    }

    /// The hosts of the block at the place, by their numbers, each once and in order: those that its list of
    /// hosts names, and the members of the groups that its list of host groups names. `hosts` are the host
    /// groups of the same blocks. A name that nothing has adds nothing. The time grows with the entries of
    /// the two lists and with what each of these groups reaches. A refused growth changes nothing.
    pub fn hosts_at(
        &self,
        alloc: Global,
        hosts: &mut Groups<'a>,
        place: usize,
    ) -> Result<Vec<usize>, AllocError>
        requires { hosts.old ≡ record { blocks = self.now; kind = HostGroups } }
        ensures same { hosts.new ≡ hosts.old }
        ensures hosts { IfOk result (λ found. AreHosts self.now place found.items) }
    {
        self.hosts.objects_at(alloc, hosts, place)
    }
}
