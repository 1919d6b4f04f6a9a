//! Entries of a list, two by two.

ghost use Rattle.std.specs.Prelude.{◌≡◌, IfOk};
ghost use Rattle.std.specs.Option.{option_map};
ghost use Rattle.object_pairs.specs.claims.Pairs.{by_two};
ghost use Rattle.object_pairs.specs.Pairs.{pairs_in};
ghost use Rattle.object_values.specs.Values.{texts};

use std::alloc::{AllocError, Global};

/// The entries of a list two by two, in order: the first and the second, the third and the fourth, and so on; `None`
/// where one is left over. A refused growth leaves nothing.
pub fn by_two<'a>(
    alloc: Global,
    entries: &[&'a [u8]],
) -> Result<Option<Vec<(&'a [u8], &'a [u8])>>, AllocError>
    ensures { IfOk result (λ found. option_map (λ pairs. pairs_in pairs.items) found
        ≡ by_two (texts entries.now)) }
{
    let mut pairs = Vec::new(alloc);
    let mut rest = entries;
    while rest.len() > 1 {
        pairs.push((rest[0], rest[1]))?;
        rest = &rest[2..];
    }
    if rest.is_empty() {
        Ok(Some(pairs))
    } else {
        Ok(None)
    }
}
