//! Which line of object text gives a directive (chapter "Object Configuration Overview").

ghost use Rattle.std.specs.Prelude.{◌≡◌, IfOk};
ghost use Rattle.std.specs.List.{before_first, position};
ghost use Rattle.object_reader.specs.claims.Blanks.{is_blank};
ghost use Rattle.object_reader.specs.claims.Joined.{ends_in_backslash, without_last};
ghost use Rattle.object_values.specs.Values.{texts};
ghost use Rattle.value_places.specs.Lines.{begins_block, begins_with, ends_in_one, goes_on, IsLineOf};
ghost use Rattle.value_places.specs.Lines.{line_at, lines_in, names, without_return};

use object_reader::blanks::trim;
use std::alloc::{AllocError, Global};

/// The lines of a text, without their newlines.
pub(crate) fn lines_in(alloc: Global, text: &[u8]) -> Result<Vec<&[u8]>, AllocError>
    ensures { IfOk result (λ lines. texts lines.items ≡ lines_in text.now) }
{
    text.split(|byte| *byte == b'\n').collect(alloc)
}

/// Whether a byte is a space or a tab.
fn is_blank(byte: u8) -> bool
    ensures { result ≡ is_blank byte }
{
    byte == b' ' || byte == b'\t'
}

/// The place of the first blank.
fn first_blank(bytes: &[u8]) -> Option<usize>
    ensures { result ≡ position is_blank bytes.now }
{
    bytes.iter().position(|b| is_blank(*b))
}

/// The bytes up to the first blank.
fn first_word(bytes: &[u8]) -> &[u8]
    ensures { result.now ≡ before_first is_blank bytes.now }
{
    let end = first_blank(bytes).unwrap_or(bytes.len());
    &bytes[..end]
}

/// Whether the word is the first of the line.
fn begins_with(line: &[u8], word: &[u8]) -> bool
    ensures { result ≡ begins_with word.now line.now }
{
    first_word(trim(line)) == word
}

/// A line without the carriage return at its end.
fn without_return(line: &[u8]) -> &[u8]
    ensures { result.now ≡ without_return line.now }
{
    let end = line.len();
    if end > 0 && line[end - 1] == b'\r' {
        &line[..end - 1]
    } else {
        line
    }
}

/// Whether the last byte is a backslash.
fn ends_in_backslash(bytes: &[u8]) -> bool
    ensures { result ≡ ends_in_backslash bytes.now }
{
    let end = bytes.len();
    end > 0 && bytes[end - 1] == b'\\'
}

/// The bytes without the last.
fn without_last(bytes: &[u8]) -> &[u8]
    ensures { result.now ≡ without_last bytes.now }
{
    &bytes[..bytes.len().saturating_sub(1)]
}

/// Whether bytes end in one backslash, and not in two.
fn ends_in_one(bytes: &[u8]) -> bool
    ensures { result ≡ ends_in_one bytes.now }
{
    ends_in_backslash(bytes) && !ends_in_backslash(without_last(bytes))
}

/// Whether a line goes on in the next.
fn goes_on(line: &[u8]) -> bool
    ensures { result ≡ goes_on line.now }
{
    ends_in_one(without_return(line))
}

/// The line at the place, from 0; empty where there is none.
fn line_at<'a>(lines: &[&'a [u8]], at: usize) -> &'a [u8]
    ensures { result.now ≡ line_at (texts lines.now) at }
{
    if at < lines.len() { lines[at] } else { &[] }
}

/// Whether the line at the place begins a block.
fn begins_block(lines: &[&[u8]], at: usize) -> bool
    ensures { result ≡ begins_block (texts lines.now) at }
{
    begins_with(line_at(lines, at), b"define")
}

/// Whether the line at the place begins with the name of a directive, and isn't the rest of the line before it.
fn names(lines: &[&[u8]], name: &[u8], at: usize) -> bool
    ensures { result ≡ names (texts lines.now) name.now at }
{
    begins_with(line_at(lines, at), name) && !goes_on(line_at(lines, at.saturating_sub(1)))
}

/// The number of the line, from 1, that gives the directive in the block of the `define` at that line: the last that begins with its name. Where there is none, as
/// where the name itself goes on in another line, that of the `define`.
pub(crate) fn line_of(lines: &[&[u8]], define: u64, name: &[u8]) -> u64
    ensures { IsLineOf (texts lines.now) define name.now result }
{
    let mut number = define;
    for at in define as usize..lines.len() {
        if begins_block(lines, at) {
            return number;
        }
        if names(lines, name, at) {
            number = at as u64 + 1;
        }
    }
    number
}
