//! All faults of templates (chapter "Object Inheritance").

use crate::near::nearest;
use crate::telling::{Detail, Telling, is_same_kind};
use indexmap::IndexMap;
use object_faults::load_fault::BlockFault;
use object_inheritance::kinds::{kind_number, means_nothing};
use object_reader::block::Block;
use object_values::values::{entries_in, value_in};
use std::alloc::{AllocError, Global};

/// The first template of each type and name.
type TemplateNames<'a> = IndexMap<(u8, &'a [u8]), usize>;

/// The name that a block has as a template.
fn template_name(block: &Block) -> Option<&[u8]> {
    if means_nothing(block.kind) {
        None
    } else {
        value_in(block.directives.as_slice(), b"name")
    }
}

/// The first template of each type and name.
fn names_of<'a>(alloc: Global, blocks: &'a [Block]) -> Result<TemplateNames<'a>, AllocError> {
    let mut names = IndexMap::new(alloc);
    for (place, block) in blocks.iter().enumerate() {
        if let Some(name) = template_name(block) {
            let key = (kind_number(block.kind), name);
            if !names.contains_key(&key) {
                names.insert(key, place)?;
            }
        }
    }
    Ok(names)
}

/// The names of the templates that the block uses.
fn used<'a>(alloc: Global, block: &'a Block) -> Result<Vec<&'a [u8]>, AllocError> {
    if means_nothing(block.kind) {
        Ok(Vec::new(alloc))
    } else {
        entries_in(alloc, block.directives.as_slice(), "use")
    }
}

/// The template that a block uses by the name.
fn find<'a>(names: &TemplateNames<'a>, block: &'a Block, name: &'a [u8]) -> Option<usize> {
    names.get(&(kind_number(block.kind), name)).copied()
}

/// A fault of templates of the block at the place.
fn telling<'a>(
    place: usize,
    fault: BlockFault,
    directive: &'a str,
    value: &'a [u8],
    detail: Detail,
) -> Telling<'a> {
    Telling {
        holder: place,
        fault,
        directive: directive.as_bytes(),
        value,
        detail,
        near: None,
        user: place,
        others: 0,
    }
}

/// How many steps a search for loops takes in all.
const MOST_STEPS: u64 = 4_194_304;

/// Which blocks a search for a loop has met.
#[derive(Drop)]
struct Search {
    marks: Vec<u32>,
    mark: u32,
    left: u64,
}

/// The template, used by the block at the place, from which a chain leads back to the block; none where there is none, or where
/// the search has taken all its steps.
fn loop_through<'a>(
    alloc: Global,
    blocks: &'a [Block],
    names: &TemplateNames<'a>,
    search: &mut Search,
    place: usize,
) -> Result<Option<&'a [u8]>, AllocError> {
    let Some(block) = blocks.get(place) else {
        return Ok(None);
    };
    for name in used(alloc, block)?.as_slice() {
        if let Some(template) = find(names, block, *name) {
            if leads(alloc, blocks, names, search, template, place)? {
                return Ok(Some(*name));
            }
        }
    }
    Ok(None)
}

/// Whether a chain of templates leads from one block to the other.
fn leads<'a>(
    alloc: Global,
    blocks: &'a [Block],
    names: &TemplateNames<'a>,
    search: &mut Search,
    from: usize,
    to: usize,
) -> Result<bool, AllocError> {
    search.mark = search.mark.saturating_add(1);
    let mut ahead = Vec::new(alloc);
    ahead.push(from)?;
    for _step in 0..MOST_STEPS {
        let Some(place) = ahead.pop() else {
            return Ok(false);
        };
        if place == to {
            return Ok(true);
        }
        if search.left == 0 {
            return Ok(false);
        }
        search.left -= 1;
        if is_new(search, place) {
            if let Some(block) = blocks.get(place) {
                push_used(alloc, names, block, &mut ahead)?;
            }
        }
    }
    Ok(false)
}

/// Whether the search comes to the place for the first time.
fn is_new(search: &mut Search, place: usize) -> bool {
    let mark = search.mark;
    match search.marks.as_mut_slice().get_mut(place) {
        Some(met) => {
            let is_new = *met != mark;
            *met = mark;
            is_new
        }
        None => false,
    }
}

/// Adds the templates that the block uses.
fn push_used<'a>(
    alloc: Global,
    names: &TemplateNames<'a>,
    block: &'a Block,
    ahead: &mut Vec<usize>,
) -> Result<(), AllocError> {
    for name in used(alloc, block)?.as_slice() {
        if let Some(template) = find(names, block, *name) {
            ahead.push(template)?;
        }
    }
    Ok(())
}

/// Adds the faults of the block at the place, but for loops.
fn add_plain<'a>(
    alloc: Global,
    blocks: &'a [Block],
    names: &TemplateNames<'a>,
    place: usize,
    block: &'a Block,
    tellings: &mut Vec<Telling<'a>>,
) -> Result<(), AllocError> {
    for name in used(alloc, block)?.as_slice() {
        if find(names, block, *name).is_none() {
            let fault = BlockFault::UnknownTemplate;
            tellings.push(telling(place, fault, "use", *name, Detail::NoTemplate))?;
        }
    }
    if let Some(name) = template_name(block) {
        if let Some(first) = find(names, block, name) {
            if first < place {
                let line = match blocks.get(first) {
                    Some(earlier) => earlier.line,
                    None => 0,
                };
                let fault = BlockFault::Doubled;
                tellings.push(telling(place, fault, "name", name, Detail::Doubled(line)))?;
            }
        }
    }
    Ok(())
}

/// The faults of templates of all blocks, in file order: of each block the templates that aren't there, then a loop on which it
/// lies, then a name that an earlier template has. Loops are looked for in 4,194,304 steps at most.
pub fn tell_templates<'a>(
    alloc: Global,
    blocks: &'a [Block],
) -> Result<Vec<Telling<'a>>, AllocError> {
    let names = names_of(alloc, blocks)?;
    let marks = vec![in alloc; 0; blocks.len()]?;
    let mut search = Search {
        marks,
        mark: 0,
        left: MOST_STEPS,
    };
    let mut tellings = Vec::new(alloc);
    for (place, block) in blocks.iter().enumerate() {
        add_plain(alloc, blocks, &names, place, block, &mut tellings)?;
        if let Some(name) = loop_through(alloc, blocks, &names, &mut search, place)? {
            let fault = BlockFault::TemplateLoop;
            tellings.push(telling(place, fault, "use", name, Detail::LeadsBack))?;
        }
    }
    Ok(tellings)
}

/// The names of the templates of the block's type.
fn names_like<'a>(
    alloc: Global,
    blocks: &'a [Block],
    block: &Block,
) -> Result<Vec<&'a [u8]>, AllocError> {
    let mut names = Vec::new(alloc);
    for other in blocks {
        if is_same_kind(other.kind, block.kind) {
            if let Some(name) = template_name(other) {
                names.push(name)?;
            }
        }
    }
    Ok(names)
}

/// Adds to each of the first 64 that use an unknown template the name of one that is like it.
pub fn add_near_templates<'a>(
    alloc: Global,
    blocks: &'a [Block],
    tellings: &mut Vec<Telling<'a>>,
) -> Result<(), AllocError> {
    let mut left = 64;
    for telling in tellings.as_mut_slice() {
        if matches!(telling.detail, Detail::NoTemplate) && left > 0 {
            left -= 1;
            if let Some(block) = blocks.get(telling.holder) {
                let names = names_like(alloc, blocks, block)?;
                telling.near = nearest(alloc, telling.value, names.as_slice())?;
            }
        }
    }
    Ok(())
}
