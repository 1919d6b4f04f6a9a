//! Lines of blocks, by the places of the blocks and the numbers of the directives in them.

ghost use Rattle.std.specs.Prelude.{◌≡◌, ◌++◌, ◌∷◌, [], OnOk, if◌then◌else◌};
ghost use Rattle.object_warnings.specs.Directives.{directive_count};

use object_reader::block::Block;
use std::alloc::AllocError;

/// A line of a block.
#[derive(Clone, Copy, Debug, PartialEq, Eq)]
pub struct Line {
    /// The place of the block, in file order, from 0.
    pub place: usize,
    /// The number of the directive in it, from 0.
    pub number: usize,
}

/// What is asked of a directive.
#[derive(Clone, Copy, Debug, PartialEq, Eq)]
pub enum Test {
    /// No block of its type has it, in Nagios or here.
    Unknown,
    /// Nagios reads it, and this program doesn't.
    PassedOver,
}

/// How many directives the block at the place has.
pub(crate) fn directive_count(blocks: &[Block], place: usize) -> usize
    ensures { result ≡ directive_count blocks.now place }
{
    match blocks.get(place) {
        None => 0,
        Some(block) => block.directives.len(),
    }
}

/// Adds a line, where it passes.
pub(crate) fn push_line(
    found: &mut Vec<Line>,
    place: usize,
    number: usize,
    passes: bool,
) -> Result<(), AllocError>
    ensures { OnOk result (found.new.items ≡ found.old.items
        ++ (if passes then record { place = place; number = number } ∷ [] else [])) }
{
    if passes {
        found.push(Line { place, number })?;
    }
    Ok(())
}
