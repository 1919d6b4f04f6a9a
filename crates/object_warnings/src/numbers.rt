//! The numbers of what passes a test.

ghost use Rattle.std.specs.Prelude.{◌≡◌, ◌++◌, ◌∷◌, [], OnOk, if◌then◌else◌};

use std::alloc::AllocError;

/// Adds a number, where it passes.
pub(crate) fn push_where(
    found: &mut Vec<usize>,
    number: usize,
    passes: bool,
) -> Result<(), AllocError>
    ensures { OnOk result (found.new.items ≡ found.old.items
        ++ (if passes then number ∷ [] else [])) }
{
    if passes {
        found.push(number)?;
    }
    Ok(())
}
