//! The objects that have a name of their own, type by type.

ghost use Rattle.std.specs.Prelude.{◌≡◌, map, IfOk};
ghost use Rattle.object_names.specs.claims.Named.{block_kind};
ghost use Rattle.object_names.specs.Named.{number_of_kind, objects_of};

use object_groups::objects::Objects;
use object_inheritance::templates::Templates;
use object_reader::block::{Block, BlockKind};
use std::alloc::{AllocError, Global};
use std::marker::Model;

/// The types of object that have a name of their own. A service has none: it is named by a host and a
/// description.
#[derive(Clone, Copy)]
pub enum NamedKind {
    /// Hosts.
    Host,
    /// Groups of hosts.
    HostGroup,
    /// Groups of services.
    ServiceGroup,
    /// Contacts.
    Contact,
    /// Groups of contacts.
    ContactGroup,
    /// Time periods.
    TimePeriod,
    /// Commands.
    Command,
}

impl NamedKind {
    /// The type of block that defines them.
    pub fn block_kind(self) -> BlockKind
        ensures { result ≡ block_kind self }
    {
        match self {
            NamedKind::Host => BlockKind::Host,
            NamedKind::HostGroup => BlockKind::HostGroup,
            NamedKind::ServiceGroup => BlockKind::ServiceGroup,
            NamedKind::Contact => BlockKind::Contact,
            NamedKind::ContactGroup => BlockKind::ContactGroup,
            NamedKind::TimePeriod => BlockKind::TimePeriod,
            NamedKind::Command => BlockKind::Command,
        }
    }

    /// Where the type stands among them.
    fn number(self) -> usize
        ensures { result ≡ number_of_kind self }
    {
        match self {
            NamedKind::Host => 0,
            NamedKind::HostGroup => 1,
            NamedKind::ServiceGroup => 2,
            NamedKind::Contact => 3,
            NamedKind::ContactGroup => 4,
            NamedKind::TimePeriod => 5,
            NamedKind::Command => 6,
        }
    }
}

/// The objects of each of the types.
fn objects_of<'a>(
    alloc: Global,
    templates: &Templates<'a>,
    kinds: &[NamedKind],
) -> Result<Vec<Objects<'a>>, AllocError>
    ensures { IfOk result (λ objects. objects.items ≡ map (objects_of templates.now) kinds.now) }
{
    let mut objects = Vec::new(alloc);
    for kind in kinds {
        objects.push(Objects::new(alloc, templates, kind.block_kind())?)?;
    }
    Ok(objects)
}

/// The objects of all types that have a name of their own. They take some 56 bytes each. Contracts see the
/// blocks.
#[derive(Drop)]
pub struct NamedObjects<'a> {
    blocks: &'a [Block],
    objects: Vec<Objects<'a>>,
}

impl<'a> Model for NamedObjects<'a> {
    ghost use Rattle.std.specs.Prelude.{◌≡◌, List, map};
    ghost use Rattle.object_reader.specs.declared.block.Block.{Block};
    ghost use Rattle.object_names.specs.Named.{all_kinds, objects_of};

    ghost Value = { List Block };

    ghost view = { λ s. s.blocks.now };

    ghost invariant = { λ s. s.objects.items ≡ map (objects_of s.blocks.now) all_kinds };
}

impl<'a> NamedObjects<'a> {
    /// The objects. The time grows with the blocks, their directives and the templates that they use. A refused
    /// growth leaves nothing.
    pub fn new(alloc: Global, templates: &Templates<'a>) -> Result<NamedObjects<'a>, AllocError>
        ensures { IfOk result (λ objects. objects ≡ templates.now) }
    {
        let kinds = [
            NamedKind::Host,
            NamedKind::HostGroup,
            NamedKind::ServiceGroup,
            NamedKind::Contact,
            NamedKind::ContactGroup,
            NamedKind::TimePeriod,
            NamedKind::Command,
        ];
        let objects = objects_of(alloc, templates, &kinds)?;
        Ok(NamedObjects {
            blocks: templates.blocks(),
            objects,
        })
    }

    /// The objects of the type.
    pub fn objects(&self, kind: NamedKind) -> &Objects<'a>
        ensures { result.now ≡ record { blocks = self.now; kind = block_kind kind } }
    {
        &self.objects[kind.number()]
    }
}
