//! The lines of a text.

ghost use Rattle.std.specs.Prelude.{◌≡◌, ◌<◌, ◌∷◌, true, length, take};
ghost use Rattle.std.specs.Option.{unwrap_or};
ghost use Rattle.std.specs.Str.{is_utf8};
ghost use Rattle.memchr.specs.Find.{IsFirstByte, is_byte};
ghost use Rattle.object_reader.specs.claims.Lines.{Line, content};
ghost use Rattle.object_reader.specs.Lines.{lines_of, HasNoSemicolon};

use memchr::{memchr, memchr2};

/// A line of a text: its bytes without the newline, and whether a newline ends it.
#[derive(Clone, Copy)]
pub(crate) struct TextLine<'a> {
    pub(crate) bytes: &'a [u8],
    pub(crate) ended: bool,
    /// Whether it was seen to have no `;`.
    pub(crate) plain: bool,
}

/// Where the first newline of a text stands, and whether no `;` stands before it. The two are looked
/// for at once, since most lines have no `;`.
#[inline(always)]
fn first_newline(text: &[u8]) -> (Option<usize>, bool)
    ensures place { IsFirstByte (is_byte 10) text.now result.0 }
    ensures plain { result.1 ≡ true
        → HasNoSemicolon (take (unwrap_or result.0 (length text.now)) text.now) }
{
    match memchr2(b'\n', b';', text) {
        None => (None, true),
        Some(at) if text[at] == b'\n' => (Some(at), true),
        Some(_) => (memchr(b'\n', text), false),
    }
}

/// The first line of a text that isn't empty, and the text after it.
#[inline(always)]
pub(crate) fn split_line(text: &[u8]) -> (TextLine<'_>, &[u8])
    requires { 0 < length text.now }
    ensures first { lines_of text.now
        ≡ (record { bytes = result.0.bytes.now; ended = result.0.ended }) ∷ lines_of result.1.now }
    ensures plain { result.0.plain ≡ true → HasNoSemicolon result.0.bytes.now }
    ensures shorter { length result.1.now < length text.now }
    ensures utf8 { is_utf8 text.now ≡ true
        → (is_utf8 result.0.bytes.now ≡ true) × (is_utf8 result.1.now ≡ true) }
{
    let (newline, plain) = first_newline(text);
    match newline {
        Some(at) => {
            let line = TextLine {
                bytes: &text[..at],
                ended: true,
                plain,
            };
            (line, &text[at + 1..])
        }
        None => {
            let line = TextLine {
                bytes: text,
                ended: false,
                plain,
            };
            (line, &text[text.len()..])
        }
    }
}

/// What a line holds: its bytes, without a carriage return before the newline.
#[tactic(auto, unfolding(crate::specs::claims::Lines::content))]
pub(crate) fn content(line: TextLine<'_>) -> &[u8]
    ensures { result.now
        ≡ content (record { bytes = line.entry.bytes.now; ended = line.entry.ended }) }
{
    let bytes = line.bytes;
    let end = bytes.len();
    if line.ended && end > 0 && bytes[end - 1] == b'\r' {
        &bytes[..end - 1]
    } else {
        bytes
    }
}
