//! The places of the blocks that are notification dependencies.

ghost use Rattle.std.specs.Prelude.{◌≡◌, ◌&&◌, ◌++◌, ◌∷◌, [], if◌then◌else◌};
ghost use Rattle.std.specs.Prelude.{length, IfOk, OnOk};
ghost use Rattle.object_dependency_loops.specs.Places.{kept_in};

use object_dependencies::blocks::DependencyBlocks;
use object_groups::objects::is_object;
use object_reader::block::BlockKind;
use std::alloc::{AllocError, Global};

/// Adds a place, where the block there is kept and is an object.
fn push_place(
    places: &mut Vec<usize>,
    place: usize,
    kept: bool,
    object: bool,
) -> Result<(), AllocError>
    ensures { OnOk result (places.new.items
        ≡ places.old.items ++ (if kept && object then place ∷ [] else [])) }
{
    if kept {
        if object {
            places.push(place)?;
        }
    }
    Ok(())
}

/// The places of those of the type.
pub(crate) fn kept_places<'a>(
    alloc: Global,
    blocks: &DependencyBlocks<'a, '_>,
    kind: BlockKind,
) -> Result<Vec<usize>, AllocError>
    ensures { IfOk result (λ places.
        places.items ≡ kept_in blocks.now.blocks kind (length blocks.now.blocks)) }
{
    let mut places = Vec::new(alloc);
    for (place, block) in blocks.blocks().iter().enumerate() {
        let object = is_object(kind, block);
        let kept = blocks.kept_states(place).is_some();
        push_place(&mut places, place, kept, object)?;
    }
    Ok(places)
}
