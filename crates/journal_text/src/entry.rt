//! What is written down.

use due_model::notice::Notice;

/// What is written down of a letter.
#[derive(Clone, Copy, Debug, PartialEq, Eq)]
pub enum Entry {
    /// It is about to be handed over.
    Begun(Notice),
    /// It was taken.
    Taken(Notice),
    /// It was given up, and is no longer due.
    GivenUp(Notice),
}
