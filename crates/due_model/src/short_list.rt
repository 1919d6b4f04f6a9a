//! Short lists that contracts see as lists.

ghost use Rattle.std.specs.Prelude.{◌≡◌, length, IfOk};

use smallvec::SmallVec;
use std::alloc::{AllocError, Global};
use std::marker::Model;

/// A list of values, of which up to `N` take no memory beside it. Contracts see the list alone.
#[derive(Drop)]
pub struct ShortList<T, const N: usize> {
    items: SmallVec<T, N>,
}

/// A text: its bytes, which the readers of this workspace have found to be UTF-8. Most names and values are this short.
pub type Text = ShortList<u8, 24>;

impl<T, const N: usize> Model for ShortList<T, N> {
    ghost use Rattle.std.specs.Prelude.{List};

    ghost Value = { List T };

    ghost view = { λ s. s.items.items };
}

impl<T: Copy + Default, const N: usize> ShortList<T, N> {
    /// The list of these items. A refused growth leaves nothing.
    pub fn new(alloc: Global, items: &[T]) -> Result<Self, AllocError>
        ensures { IfOk result (λ list. list ≡ items.now) }
    {
        Ok(ShortList {
            items: SmallVec::from_slice(alloc, items)?,
        })
    }
}

impl<T, const N: usize> ShortList<T, N> {
    /// The items, in order.
    pub fn as_slice(&self) -> &[T]
        ensures { result.now ≡ self.now }
    {
        self.items.as_slice()
    }

    /// How many items there are.
    pub fn len(&self) -> usize
        ensures { result ≡ length self.now }
    {
        self.items.len()
    }
}
