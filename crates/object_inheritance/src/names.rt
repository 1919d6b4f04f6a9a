//! The templates of each type by their names.

ghost use Rattle.std.specs.Prelude.{◌≡◌, ◌^◌, ◌<◌, ◌++◌, ◌∷◌, List, [], length};
ghost use Rattle.std.specs.Prelude.{IfOk, IfSome, OnOk};
ghost use Rattle.std.specs.Option.{option_copied};
ghost use Rattle.object_reader.specs.declared.block.Block.{Block};
ghost use Rattle.object_inheritance.specs.Names.{HasFirsts};
ghost use Rattle.object_inheritance.specs.claims.Templates.{template_name, template_place, used_names};
ghost use Rattle.object_values.specs.Values.{texts};

use crate::kinds::{kind_number, means_nothing};
use indexmap::IndexMap;
use object_reader::block::{Block, BlockKind};
use object_values::values::{entries_in, value_in};
use std::alloc::{AllocError, Global};
use std::marker::Model;

/// The name that a block has as a template.
pub(crate) fn template_name(block: &Block) -> Option<&[u8]>
    ensures { option_copied result ≡ template_name block.now }
{
    if means_nothing(block.kind) {
        return None;
    }
    value_in(block.directives.as_slice(), "name".as_bytes())
}

/// The names of the templates that a block uses, in the order of its `use`.
pub(crate) fn used_names(alloc: Global, block: &Block) -> Result<Vec<&[u8]>, AllocError>
    ensures { IfOk result (λ names. texts names.items ≡ used_names block.now) }
{
    if means_nothing(block.kind) {
        return Ok(Vec::new(alloc));
    }
    entries_in(alloc, block.directives.as_slice(), "use")
}

/// Notes where a template stands, unless an earlier one of its type and name is there.
fn note<'a>(
    firsts: &mut IndexMap<(u8, &'a [u8]), u32>,
    block: &'a Block,
    place: u32,
) -> Result<(), AllocError>
    ensures { OnOk result ((blocks : List Block) → length blocks ≡ place
        → HasFirsts blocks firsts.old.entries
        → HasFirsts (blocks ++ block.now ∷ []) firsts.new.entries) }
{
    let Some(name) = template_name(block) else {
        return Ok(());
    };
    let key = (kind_number(block.kind), name);
    if !firsts.contains_key(&key) {
        firsts.insert(key, place)?;
    }
    Ok(())
}

/// Where the templates of some blocks stand. Contracts see the blocks.
#[derive(Drop)]
pub(crate) struct TemplateNames<'a> {
    blocks: &'a [Block],
    firsts: IndexMap<(u8, &'a [u8]), u32>,
}

impl<'a> Model for TemplateNames<'a> {
    ghost use Rattle.std.specs.Prelude.{List};
    ghost use Rattle.object_reader.specs.declared.block.Block.{Block};
    ghost use Rattle.object_inheritance.specs.Names.{IsTable};

    ghost Value = { List Block };

    ghost view = { λ s. s.blocks.now };

    ghost invariant = { λ s. IsTable s.blocks.now s.firsts.entries };
}

impl<'a> TemplateNames<'a> {
    /// The templates of the blocks. A refused growth leaves nothing.
    pub(crate) fn new(alloc: Global, blocks: &'a [Block]) -> Result<TemplateNames<'a>, AllocError>
        requires { length blocks.now < 2 ^ 32 }
        ensures { IfOk result (λ names. names ≡ blocks.now) }
    {
        let mut firsts = IndexMap::new(alloc);
        for (place, block) in blocks.iter().enumerate() {
            note(&mut firsts, block, place as u32)?;
        }
        Ok(TemplateNames { blocks, firsts })
    }

    /// The blocks.
    pub(crate) fn blocks(&self) -> &'a [Block]
        ensures value { result.now ≡ self.now }
        ensures few { length self.now < 2 ^ 32 }
    {
        self.blocks
    }

    /// The place of the first template of that type and name.
    pub(crate) fn find(&self, kind: BlockKind, name: &'a [u8]) -> Option<u32>
        ensures place { result ≡ template_place self.now kind name.now }
        ensures within { IfSome result (λ place. place < length self.now) }
    {
        self.firsts.get(&(kind_number(kind), name)).copied()
    }
}
