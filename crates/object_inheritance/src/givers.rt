//! What each block gives for a directive itself, by the directive's name.

ghost use Rattle.std.specs.Prelude.{◌≡◌, ℕ, ◌&&◌, ◌<◌, ◌==◌, ◌^◌, List, length, None};
ghost use Rattle.std.specs.Prelude.{Some, All, IfOk, OnOk};
ghost use Rattle.std.specs.Prelude.{if◌then◌else◌, slice_get, IfNone, IfSome};
ghost use Rattle.std.specs.Option.{option_or};
ghost use Rattle.std.specs.Str.{bytes_eq};
ghost use Rattle.object_inheritance.specs.Givers.{last_at, own_in, text_at};
ghost use Rattle.object_inheritance.specs.claims.Inherited.{own};
ghost use Rattle.object_values.specs.claims.Values.{value_in};

use indexmap::IndexMap;
use object_reader::block::Block;
use std::alloc::{AllocError, Global};
use std::marker::Model;

/// Where a text stands that a block gives for a directive itself.
#[derive(Clone, Copy)]
pub(crate) struct OwnText {
    /// The place of the block.
    pub place: u32,
    /// The number of the directive in the block, from 0.
    pub number: u32,
}

/// Adds a text of the directive of that name.
fn add_text<'a>(
    alloc: Global,
    by_name: &mut IndexMap<&'a [u8], Vec<OwnText>>,
    name: &'a [u8],
    own: OwnText,
) -> Result<(), AllocError>
    ensures { OnOk result ((blocks : List Block) (other : List ℕ) (q : ℕ)
        → own_in blocks by_name.new.entries other q
        ≡ (if bytes_eq name.now other && own.place == q then Some (text_at blocks own.place own.number)
        else own_in blocks by_name.old.entries other q)) }
{
    match by_name.get_mut(&name) {
        Some(texts) => {
            texts.push(own)?;
        }
        None => {
            let mut texts = Vec::new(alloc);
            texts.push(own)?;
            by_name.insert(name, texts)?;
        }
    }
    Ok(())
}

/// Adds what the block at the place gives by all its directives.
fn add_block<'a>(
    alloc: Global,
    by_name: &mut IndexMap<&'a [u8], Vec<OwnText>>,
    place: u32,
    block: &'a Block,
) -> Result<(), AllocError>
    ensures { OnOk result ((blocks : List Block) → slice_get blocks place ≡ Some block.now
        → (name : List ℕ) (q : ℕ) → own_in blocks by_name.new.entries name q
        ≡ option_or (if place == q then value_in block.now.directives name else None)
        (own_in blocks by_name.old.entries name q)) }
{
    let directives = block.directives.as_slice();
    if directives.len() > u32::MAX as usize {
        return Err(AllocError);
    }
    for (number, directive) in directives.iter().enumerate() {
        let own = OwnText {
            place,
            number: number as u32,
        };
        add_text(alloc, by_name, directive.name.as_slice(), own)?;
    }
    Ok(())
}

/// What the blocks give for each directive themselves. It takes some 8 to 16 bytes a directive. Contracts see
/// the blocks.
#[derive(Drop)]
pub(crate) struct Givers<'a> {
    blocks: &'a [Block],
    /// By the names of the directives, in the order of the blocks and of each block's directives.
    by_name: IndexMap<&'a [u8], Vec<OwnText>>,
}

impl<'a> Model for Givers<'a> {
    ghost use Rattle.std.specs.Prelude.{List};
    ghost use Rattle.object_reader.specs.declared.block.Block.{Block};
    ghost use Rattle.object_inheritance.specs.Givers.{HasOwnTexts};

    ghost Value = { List Block };

    ghost view = { λ s. s.blocks.now };

    ghost invariant = { λ s. HasOwnTexts s.blocks.now s.by_name.entries };
}

impl<'a> Givers<'a> {
    /// What the blocks give. The time grows with their directives. A refused growth leaves nothing.
    pub(crate) fn new(alloc: Global, blocks: &'a [Block]) -> Result<Givers<'a>, AllocError>
        requires { length blocks.now < 2 ^ 32 }
        ensures { IfOk result (λ givers. givers ≡ blocks.now) }
    {
        let mut by_name = IndexMap::new(alloc);
        for (place, block) in blocks.iter().enumerate() {
            add_block(alloc, &mut by_name, place as u32, block)?;
        }
        Ok(Givers { blocks, by_name })
    }

    /// What the blocks give for a directive; none where no block gives it. Of a block that gives it several times
    /// the last text counts.
    pub(crate) fn texts(&self, directive: &'a [u8]) -> Option<&[OwnText]>
        ensures last { IfSome result (λ texts. (place : ℕ)
            → last_at self.now texts.now place ≡ own self.now directive.now place) }
        ensures within { IfSome result (λ texts.
            All (λ one. one.place < length self.now) texts.now) }
        ensures none { IfNone result ((place : ℕ) → own self.now directive.now place ≡ None) }
    {
        match self.by_name.get(&directive) {
            Some(texts) => Some(texts.as_slice()),
            None => None,
        }
    }
}
