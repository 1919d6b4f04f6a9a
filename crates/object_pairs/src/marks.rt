//! Marks, one for each block, of those that were read.

ghost use Rattle.std.specs.Prelude.{◌≡◌, false, slice_index_or};

/// Whether the block at the place is marked.
pub(crate) fn is_marked(marks: &[bool], place: usize) -> bool
    ensures { result ≡ slice_index_or marks.now place false }
{
    if place < marks.len() {
        marks[place]
    } else {
        false
    }
}
