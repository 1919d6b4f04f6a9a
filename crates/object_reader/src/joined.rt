//! The joined lines of a text: a line that ends in a backslash goes on in the next (chapter "Object
//! Configuration Overview").

ghost use Rattle.std.specs.Prelude.{◌≡◌, ◌∷◌, [], true, length, ◌≤◌, Ok, Err, IfOk};
ghost use Rattle.std.specs.Prelude.{IfSome, MatchResult, MatchOption};
ghost use Rattle.std.specs.Cow.{cow_slice_items};
ghost use Rattle.std.specs.Str.{is_utf8};
ghost use Rattle.due_model.specs.claims.Limits.{text_limit};
ghost use Rattle.object_reader.specs.Blocks.{BreaksFirst};
ghost use Rattle.object_reader.specs.claims.Joined.{JoinedLine, ends_in_backslash};
ghost use Rattle.object_reader.specs.Joined.{Piece, piece_of, line_piece};
ghost use Rattle.object_reader.specs.Joined.{onto_first, joined_from};
ghost use Rattle.object_reader.specs.claims.Lines.{Line};
ghost use Rattle.object_reader.specs.Lines.{lines_of, HasNoSemicolon};

use crate::blanks::trim_start;
use crate::fault::{LineFault, ReadFault};
use crate::line::{TextLine, content, split_line};
use due_model::limits::LINE_LIMIT;
use std::alloc::Global;
use std::borrow::CowSlice;
use std::marker::Model;

/// What a physical line gives to its joined line, and whether that goes on in the next line.
#[derive(Clone, Copy)]
struct LinePiece<'a> {
    bytes: &'a [u8],
    goes_on: bool,
}

/// Whether the last byte is a backslash.
fn ends_in_backslash(bytes: &[u8]) -> bool
    ensures { result ≡ ends_in_backslash bytes.now }
{
    let end = bytes.len();
    end > 0 && bytes[end - 1] == b'\\'
}

/// What the content of a physical line gives. Of two backslashes at its end the last goes.
#[tactic(auto, unfolding(crate::specs::Joined::piece_of))]
fn piece_of(content: &[u8]) -> LinePiece<'_>
    ensures { piece_of content.now
        ≡ (record { bytes = result.bytes.now; goes_on = result.goes_on }) }
{
    let end = content.len();
    if end == 0 || content[end - 1] != b'\\' {
        return LinePiece {
            bytes: content,
            goes_on: false,
        };
    }
    let bytes = &content[..end - 1];
    LinePiece {
        bytes,
        goes_on: !ends_in_backslash(bytes),
    }
}

/// Whether the bytes are UTF-8.
fn is_utf8(bytes: &[u8]) -> bool
    ensures { result ≡ is_utf8 bytes.now }
{
    str::from_utf8(bytes).is_ok()
}

/// What a physical line gives, or its fault as such. Only a line that isn't known to be UTF-8 is
/// looked through.
#[tactic(auto, unfolding(crate::specs::Joined::line_piece))]
fn line_piece(line: TextLine<'_>, known: bool) -> Result<LinePiece<'_>, LineFault>
    requires { known ≡ true → is_utf8 line.bytes.now ≡ true }
    ensures { let spelled = line_piece
        (record { bytes = line.entry.bytes.now; ended = line.entry.ended }) in
        MatchResult result
        (λ piece. spelled ≡ Ok (record { bytes = piece.bytes.now; goes_on = piece.goes_on }))
        (λ fault. spelled ≡ Err fault) }
{
    if line.bytes.len() > LINE_LIMIT {
        return Err(LineFault::LineTooLong);
    }
    if !(known || is_utf8(line.bytes)) {
        return Err(LineFault::NotUtf8);
    }
    Ok(piece_of(content(line)))
}

/// A joined line.
#[derive(Drop)]
pub(crate) struct Joined<'a> {
    /// The number of its first physical line.
    pub(crate) line: u64,
    /// Its bytes, which are a part of the text where it is one physical line.
    pub(crate) text: CowSlice<'a, u8>,
    /// Whether it was seen to have no `;`.
    pub(crate) plain: bool,
}

/// The joined lines of a text that are left.
#[derive(Drop)]
pub(crate) struct JoinedReader<'a> {
    /// The number of the next physical line.
    line: u64,
    /// The text from that line on.
    rest: &'a [u8],
    /// Whether all of the text was found to be UTF-8, so that no line has to be looked through.
    known: bool,
}

impl<'a> Model for JoinedReader<'a> {
    ghost use Rattle.std.specs.Prelude.{◌≡◌, true, List, ◌+◌, ◌<◌, ◌^◌, length};
    ghost use Rattle.std.specs.Str.{is_utf8};
    ghost use Rattle.object_reader.specs.Lines.{lines_of};
    ghost use Rattle.object_reader.specs.claims.Joined.{JoinedLine};
    ghost use Rattle.object_reader.specs.Joined.{joined_from};

    ghost Value = { List JoinedLine };

    ghost view = { λ s. joined_from s.line (lines_of s.rest.now) };

    ghost invariant = { λ s. (s.line + length s.rest.now < 2 ^ 64)
        × (s.known ≡ true → is_utf8 s.rest.now ≡ true) };
}

impl<'a> JoinedReader<'a> {
    /// All joined lines of a text.
    pub(crate) fn new(text: &'a [u8]) -> JoinedReader<'a>
        requires { length text.now ≤ text_limit }
        ensures { result ≡ joined_from 1 (lines_of text.now) }
    {
        JoinedReader {
            line: 1,
            rest: text,
            known: is_utf8(text),
        }
    }

    /// The joined line that begins with this piece, at the line of this number, and goes on in the
    /// next physical line. Each line's bytes are copied once.
    fn join(&mut self, alloc: Global, number: u64, first: &[u8]) -> Result<Vec<u8>, ReadFault>
        ensures { MatchResult result
            (λ joined. onto_first number first.now self.old
            ≡ (record { line = number; text = Ok joined.items }) ∷ self.new)
            (λ fault. BreaksFirst fault (onto_first number first.now self.old)) }
    {
        let mut joined = Vec::from_slice(alloc, first)?;
        let mut goes_on = true;
        while goes_on && !self.rest.is_empty() {
            let (line, rest) = split_line(self.rest);
            self.rest = rest;
            self.line += 1;
            match line_piece(line, self.known) {
                Err(fault) => {
                    return Err(ReadFault::AtLine {
                        line: number,
                        fault,
                    });
                }
                Ok(piece) => {
                    joined.extend_from_slice(trim_start(piece.bytes))?;
                    goes_on = piece.goes_on;
                }
            }
        }
        Ok(joined)
    }

    /// The next joined line.
    pub(crate) fn next(&mut self, alloc: Global) -> Result<Option<Joined<'a>>, ReadFault>
        ensures lines { MatchResult result
            (λ found. MatchOption found (self.old ≡ [])
            (λ j. self.old
            ≡ (record { line = j.line; text = Ok (cow_slice_items j.text) }) ∷ self.new))
            (λ fault. BreaksFirst fault self.old) }
        ensures plain { IfOk result (λ found. IfSome found
            (λ j. j.plain ≡ true → HasNoSemicolon (cow_slice_items j.text))) }
    {
        if self.rest.is_empty() {
            return Ok(None);
        }
        let number = self.line;
        let (line, rest) = split_line(self.rest);
        self.rest = rest;
        self.line += 1;
        match line_piece(line, self.known) {
            Err(fault) => Err(ReadFault::AtLine {
                line: number,
                fault,
            }),
            Ok(piece) if piece.goes_on => {
                let joined = self.join(alloc, number, piece.bytes)?;
                Ok(Some(Joined {
                    line: number,
                    text: CowSlice::Owned(joined),
                    plain: false,
                }))
            }
            Ok(piece) => Ok(Some(Joined {
                line: number,
                text: CowSlice::Borrowed(piece.bytes),
                plain: line.plain,
            })),
        }
    }
}
