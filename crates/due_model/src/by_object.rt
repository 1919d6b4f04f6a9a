//! Entries of a configuration in lists, one for each object.

ghost use Rattle.std.specs.Prelude.{◌<◌, All, IfOk};
ghost use Rattle.due_model.specs.ByObject.{AreKept};

use crate::config::ObjectId;
use graph::lists::{Lists, ListsBuilder};
use std::alloc::{AllocError, Global};

/// An entry of a configuration that is found by an object, of which the object's list keeps a `T`.
pub(crate) trait ByObject<T> {
    ghost use Rattle.std.specs.Prelude.{◌≡◌, ℕ};

    // The number of the object by which it is found.
    ghost number: { Self → ℕ };

    // What is kept of it, from its place among the entries.
    ghost kept: { Self → ℕ → T };

    fn object(&self) -> ObjectId
        ensures { result.0 ≡ number self.now };

    fn kept(&self, place: usize) -> T
        ensures { result ≡ kept self.now place };
}

/// What is kept of each object's entries, in their order.
pub(crate) fn lists_by_object<T: Copy, E: ByObject<T>>(
    alloc: Global,
    entries: &[E],
) -> Result<Lists<T>, AllocError>
    ensures { IfOk result (AreKept E.number E.kept entries.now) }
{
    let objects = objects_of(entries);
    let mut lists = ListsBuilder::with_room(alloc, objects, entries.len())?;
    for (place, entry) in entries.iter().enumerate() {
        lists.push(usize::from(entry.object().0), entry.kept(place))?;
    }
    lists.build(alloc)
}

/// Among how many objects those of the entries are.
fn objects_of<T, E: ByObject<T>>(entries: &[E]) -> usize
    ensures { All (λ entry. E.number entry < result) entries.now }
{
    let mut objects = 0;
    for entry in entries {
        let number = usize::from(entry.object().0);
        if objects <= number {
            objects = number + 1;
        }
    }
    objects
}
