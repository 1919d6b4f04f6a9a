//! Blocks that name services, without those of which an earlier one has the same lists.

ghost use Rattle.std.specs.Prelude.{◌≡◌, ◌+◌, ◌<◌, length, IfOk, OnOk};
ghost use Rattle.object_unknown_services.specs.Distinct.{IsMet};

use crate::named::Naming;
use indexmap::IndexMap;
use object_reached::alike::{Alikes, lists_like, none_found};
use std::alloc::{AllocError, Global};

/// What was met, block by block. Its memory grows with the blocks that name services.
#[derive(Drop)]
pub(crate) struct Met<'a> {
    /// The lists of the blocks.
    pub alikes: Alikes<'a>,
    /// By three lists, the place of the first block that has these.
    pub by_lists: IndexMap<((usize, usize), usize), usize>,
    /// By a list of descriptions, the place of the first block that has it.
    pub by_descriptions: IndexMap<usize, usize>,
    /// The places of the blocks, each with that of the first that has the same list of descriptions.
    pub found: Vec<(usize, usize)>,
}

/// Notes the block at the place, if it names services and none with the same lists is noted.
fn note<'a>(naming: &Naming<'a>, met: &mut Met<'a>, place: usize) -> Result<(), AllocError>
    requires place { place < length naming.now.blocks }
    requires met { IsMet naming.now.blocks naming.now.role place met.old }
    ensures { OnOk result (IsMet naming.now.blocks naming.now.role (place + 1) met.new) }
{
    if !naming.speaks_at(place) {
        return Ok(());
    }
    let lists = lists_like(naming.listing(), &mut met.alikes, place)?;
    if let Some(_) = met.by_lists.get(&lists) {
        return Ok(());
    }
    met.by_lists.insert(lists, place)?;
    if let Some(first) = met.by_descriptions.get(&lists.1) {
        met.found.push((place, *first))?;
        return Ok(());
    }
    met.by_descriptions.insert(lists.1, place)?;
    met.found.push((place, place))?;
    Ok(())
}

/// What is met in all blocks.
pub(crate) fn met_in<'a>(alloc: Global, naming: &Naming<'a>) -> Result<Met<'a>, AllocError>
    ensures { IfOk result (IsMet naming.now.blocks naming.now.role (length naming.now.blocks)) }
{
    let mut met = Met {
        alikes: none_found(alloc),
        by_lists: IndexMap::new(alloc),
        by_descriptions: IndexMap::new(alloc),
        found: Vec::new(alloc),
    };
    for place in 0..naming.blocks().len() {
        note(naming, &mut met, place)?;
    }
    Ok(met)
}
