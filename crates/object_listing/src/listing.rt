//! What blocks list by two directives.

ghost use Rattle.std.specs.Prelude.{◌≡◌, ◌<◌, length, All, IfOk};
ghost use Rattle.object_groups.specs.claims.Groups.{object_kind};
ghost use Rattle.object_groups.specs.claims.Objects.{names_in};
ghost use Rattle.object_listing.specs.claims.Listing.{AreThose, gives_neither};
ghost use Rattle.object_listing.specs.Listing.{AreGivers, AreOrigins};
ghost use Rattle.object_listing.specs.claims.Listing.{IsListed};

use crate::numbers::{listed, push_groups, put_in_order};
use object_groups::groups::{GroupKind, Groups};
use object_groups::objects::list_at;
use object_inheritance::inherited::Values;
use object_inheritance::templates::Templates;
use object_reader::block::Block;
use std::alloc::{AllocError, Global};
use std::marker::Model;

/// What blocks list by two directives: by one objects, by the other groups of them, as `contacts` and
/// `contact_groups`. It takes some 40 bytes a block. Contracts see the blocks and the directives.
#[derive(Drop)]
pub struct Listing<'a> {
    blocks: &'a [Block],
    kind: GroupKind,
    object_directive: &'a [u8],
    group_directive: &'a [u8],
    objects: Values<'a>,
    groups: Values<'a>,
}

impl<'a> Model for Listing<'a> {
    ghost use Rattle.object_listing.specs.Listing.{AreLists, ListingOf};

    ghost Value = { ListingOf };

    ghost view = { λ s. record {
      blocks = s.blocks.now;
      directives = record {
        kind = s.kind;
        objects = s.object_directive.now;
        groups = s.group_directive.now;
      };
    } };

    ghost invariant = { λ s. AreLists s.blocks.now s.objects s.groups (record {
      kind = s.kind;
      objects = s.object_directive.now;
      groups = s.group_directive.now;
    }) };
}

impl<'a> Listing<'a> {
    /// What the blocks list by the two directives: the first lists objects of the type, the second groups of them.
    /// The time grows with the blocks, their directives and the templates that they use. A refused
    /// growth leaves nothing.
    pub fn new(
        alloc: Global,
        templates: &Templates<'a>,
        kind: GroupKind,
        objects: &'a str,
        groups: &'a str,
    ) -> Result<Listing<'a>, AllocError>
        ensures { IfOk result (λ made. made ≡ record {
          blocks = templates.now;
          directives = record { kind = kind; objects = objects.now; groups = groups.now };
        }) }
    {
        let object_directive = objects.as_bytes();
        let group_directive = groups.as_bytes();
        Ok(Listing {
            blocks: templates.blocks(),
            kind,
            object_directive,
            group_directive,
            objects: Values::new(alloc, templates, object_directive)?,
            groups: Values::new(alloc, templates, group_directive)?,
        })
    }

    /// What the blocks have for the directive of objects.
    pub fn objects(&self) -> &Values<'a>
        ensures { result.now
            ≡ record { blocks = self.now.blocks; directive = self.now.directives.objects } }
    {
        &self.objects
    }

    /// What they have for the directive of groups.
    pub fn groups(&self) -> &Values<'a>
        ensures { result.now
            ≡ record { blocks = self.now.blocks; directive = self.now.directives.groups } }
    {
        &self.groups
    }

    /// Whether the block at the place has neither directive, by itself or by its templates: it lists nothing, and
    /// an empty list isn't nothing.
    pub fn gives_neither(&self, place: usize) -> bool
        ensures { result ≡ gives_neither self.now.blocks self.now.directives place }
    {
        self.objects.value(place).is_none() && self.groups.value(place).is_none()
    }

    /// The places of the blocks from which the block at the place has its list of objects, and its list of groups: its
    /// own, or those of templates. Blocks with the same origins list the same.
    pub fn origins(&self, place: usize) -> (usize, usize)
        ensures same { AreOrigins self.now.blocks self.now.directives place result }
        ensures own { AreGivers self.now.blocks self.now.directives place result }
    {
        (self.objects.origin(place), self.groups.origin(place))
    }

    /// The objects that the block at the place lists, by their numbers, each once and in order: those that its list
    /// of objects names, and the members of the groups that its list of groups names. `groups` are those of the
    /// same blocks and type. A name that nothing has adds nothing; `*` alone is all. The time grows with the
    /// entries of the two lists and with what each of these groups reaches. A refused growth changes
    /// nothing.
    pub fn objects_at(
        &self,
        alloc: Global,
        groups: &mut Groups<'a>,
        place: usize,
    ) -> Result<Vec<usize>, AllocError>
        requires { groups.old ≡ record {
          blocks = self.now.blocks;
          kind = self.now.directives.kind;
        } }
        ensures same { groups.new ≡ groups.old }
        ensures objects { IfOk result (λ found.
            AreThose (IsListed self.now.blocks self.now.directives place) found.items) }
        ensures within { IfOk result (λ found. All (λ object. object < length
            (names_in self.now.blocks (object_kind self.now.directives.kind))) found.items) }
    {
        let named = list_at(alloc, &self.objects, place)?;
        let mut found = listed(alloc, groups.objects().names(), named.as_slice())?;
        let grouped = list_at(alloc, &self.groups, place)?;
        let reached = listed(alloc, groups.groups().names(), grouped.as_slice())?;
        push_groups(alloc, &mut found, groups, reached.as_slice())?;
        put_in_order(&mut found)?;
        Ok(found)
    }
}
