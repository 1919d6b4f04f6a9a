//! The periods that periods exclude (chapter "Time Periods").

ghost use Rattle.std.specs.Prelude.{◌≡◌, IfOk};
ghost use Rattle.object_groups.specs.claims.Names.{numbers_of};
ghost use Rattle.object_groups.specs.claims.Objects.{list_at};

use object_groups::names::{Names, numbers_of};
use object_groups::objects::list_at;
use object_inheritance::inherited::Values;
use std::alloc::{AllocError, Global};

/// The numbers of the names that the block at the place has in its list for the directive of the values. A name
/// that isn't there has none.
pub(crate) fn listed_at<'a>(
    alloc: Global,
    names: &Names<'a>,
    values: &Values<'a>,
    place: usize,
) -> Result<Vec<usize>, AllocError>
    ensures { IfOk result (λ numbers. numbers.items
        ≡ numbers_of names.now (list_at values.now.blocks values.now.directive place)) }
{
    let entries = list_at(alloc, values, place)?;
    numbers_of(alloc, names, entries.as_slice())
}
