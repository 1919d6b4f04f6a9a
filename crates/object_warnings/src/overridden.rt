//! Directives that are given twice in a block, by other values (chapter "Object Definitions").

ghost use Rattle.std.specs.Prelude.{◌≡◌, ◌++◌, IfOk, OnOk};
ghost use Rattle.object_warnings.specs.Directives.{lines_at, lines_where};
ghost use Rattle.object_warnings.specs.Overridden.{differs, directives_at, is_other, is_other_at, names_of};

use crate::lines::{Line, directive_count, push_line};
use object_groups::names::Names;
use object_reader::block::{Block, Directive};
use std::alloc::{AllocError, Global};

/// The names of the directives, in order.
fn names_of<'a>(alloc: Global, directives: &'a [Directive]) -> Result<Names<'a>, AllocError>
    ensures { IfOk result (λ names. names ≡ names_of directives.now) }
{
    let mut names = Vec::with_capacity(alloc, directives.len())?;
    for directive in directives {
        names.push(directive.name.as_slice())?;
    }
    Names::new(alloc, names)
}

/// Whether the directive has another value than the other.
fn differs(directive: &Directive, other: &Directive) -> bool
    ensures { result ≡ differs directive.now other.now }
{
    !(other.value.as_slice() == directive.value.as_slice())
}

/// Whether the first directive of the name has another value than this one. The names are those of the directives.
fn is_other<'a>(names: &Names<'a>, directives: &'a [Directive], directive: &'a Directive) -> bool
    requires { names.now ≡ names_of directives.now }
    ensures { result ≡ is_other directives.now directive.now }
{
    match names.find(directive.name.as_slice()) {
        None => false,
        Some(first) => match directives.get(first) {
            None => false,
            Some(other) => differs(directive, other),
        },
    }
}

/// The same of the directive of that number in the block at the place.
fn is_other_at<'a>(names: &Names<'a>, blocks: &'a [Block], place: usize, number: usize) -> bool
    requires { names.now ≡ names_of (directives_at blocks.now place) }
    ensures { result ≡ is_other_at blocks.now place number }
{
    match blocks.get(place) {
        None => false,
        Some(block) => match block.directives.as_slice().get(number) {
            None => false,
            Some(directive) => is_other(names, block.directives.as_slice(), directive),
        },
    }
}

/// The directives of the block at the place.
fn directives_at(blocks: &[Block], place: usize) -> &[Directive]
    ensures { result.now ≡ directives_at blocks.now place }
{
    match blocks.get(place) {
        None => &[],
        Some(block) => block.directives.as_slice(),
    }
}

/// Adds the lines of the block at the place whose names stand before with other values.
fn push_others(
    alloc: Global,
    found: &mut Vec<Line>,
    blocks: &[Block],
    place: usize,
) -> Result<(), AllocError>
    ensures { OnOk result (found.new.items
        ≡ found.old.items ++ lines_at (is_other_at blocks.now) blocks.now place) }
{
    let names = names_of(alloc, directives_at(blocks, place))?;
    for number in 0..directive_count(blocks, place) {
        push_line(
            found,
            place,
            number,
            is_other_at(&names, blocks, place, number),
        )?;
    }
    Ok(())
}

/// The lines whose names stand before them in their block with other values (Overridden), in file order. A refused growth
/// leaves nothing.
pub fn overridden(alloc: Global, blocks: &[Block]) -> Result<Vec<Line>, AllocError>
    ensures { IfOk result (λ found. found.items ≡ lines_where (is_other_at blocks.now) blocks.now) }
{
    let mut found = Vec::new(alloc);
    for place in 0..blocks.len() {
        push_others(alloc, &mut found, blocks, place)?;
    }
    Ok(found)
}
