//! Bytes of object text, with the number of the line where they begin.

use std::borrow::CowSlice;

/// What a joined line says. The bytes are a part of the text itself, but where lines are joined or
/// have a semicolon.
#[derive(Drop)]
pub(crate) struct LineText<'a> {
    /// The number of the first physical line.
    pub(crate) line: u64,
    pub(crate) text: CowSlice<'a, u8>,
}
