//! A statement by its first word (chapter "Object Configuration Overview").

ghost use Rattle.std.specs.Prelude.{◌≡◌, nat_le};
ghost use Rattle.std.specs.List.{position};
ghost use Rattle.object_reader.specs.claims.Blanks.{is_blank};
ghost use Rattle.object_reader.specs.claims.Statements.{first_word};
ghost use Rattle.object_reader.specs.Statements.{after_word};

use crate::blanks::{is_blank, trim_start};
use std::marker::Model;

/// The place of the first byte up to a space, as most bytes of a text are not.
fn first_low(bytes: &[u8]) -> Option<usize>
    ensures { result ≡ position (λ b. nat_le b 32) bytes.now }
{
    bytes.iter().position(|b| *b <= b' ')
}

/// The place of the first blank.
fn first_blank(bytes: &[u8]) -> Option<usize>
    ensures { result ≡ position is_blank bytes.now }
{
    match first_low(bytes) {
        None => None,
        Some(at) if is_blank(bytes[at]) => Some(at),
        Some(_) => bytes.iter().position(|b| is_blank(*b)),
    }
}

/// A statement whose first word was found, so that it is looked for once.
#[derive(Drop)]
pub(crate) struct Words<'a> {
    statement: &'a [u8],
    /// How many bytes the first word has.
    end: usize,
}

impl<'a> Model for Words<'a> {
    ghost use Rattle.std.specs.Prelude.{◌≡◌, ◌≤◌, ℕ, List, length};
    ghost use Rattle.std.specs.List.{position_or_len};
    ghost use Rattle.object_reader.specs.claims.Blanks.{is_blank};

    ghost Value = { List ℕ };

    ghost view = { λ s. s.statement.now };

    ghost invariant = { λ s. (s.end ≤ length s.statement.now)
        × (s.end ≡ position_or_len is_blank s.statement.now) };
}

impl<'a> Words<'a> {
    /// The words of a statement.
    pub(crate) fn new(statement: &'a [u8]) -> Words<'a>
        ensures { result ≡ statement.now }
    {
        let end = first_blank(statement).unwrap_or(statement.len());
        Words { statement, end }
    }

    /// All of the statement.
    pub(crate) fn all(&self) -> &'a [u8]
        ensures { result.now ≡ self.now }
    {
        self.statement
    }

    /// The first word.
    pub(crate) fn first(&self) -> &'a [u8]
        ensures { result.now ≡ first_word self.now }
    {
        &self.statement[..self.end]
    }

    /// What stands after the first word and its blanks.
    pub(crate) fn after(&self) -> &'a [u8]
        ensures { result.now ≡ after_word self.now }
    {
        trim_start(&self.statement[self.end..])
    }
}
