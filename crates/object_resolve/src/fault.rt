//! The fault of a block that stands at a place.

ghost use Rattle.std.specs.Prelude.{◌<◌, length};
ghost use Rattle.object_resolve.specs.Fault.{IsOfPlace};

use object_faults::load_fault::{BlockFault, LoadFault};
use object_reader::block::Block;

/// The fault of the block at the place.
pub(crate) fn of_place(blocks: &[Block], place: usize, fault: BlockFault) -> LoadFault
    requires { place < length blocks.now }
    ensures { IsOfPlace blocks.now place fault result }
{
    LoadFault::Block {
        line: blocks[place].line,
        fault,
    }
}
