//! Directives that stand alone in their line, without a value: each is given a mark for one, as a line of object text has to have a value.

ghost use Rattle.std.specs.Prelude.{◌≡◌, ◌==◌, ◌++◌, IfOk, OnOk};
ghost use Rattle.std.specs.List.{before_first, list_all, position};
ghost use Rattle.object_reader.specs.claims.Joined.{ends_in_backslash, without_last};
ghost use Rattle.nagios_text.specs.claims.Lone.{bare, ends_in_one, goes_on, is_lone, is_name, is_of_name, line_said};
ghost use Rattle.nagios_text.specs.claims.Lone.{marked, said_of, without_return};

use crate::names::is_word;
use object_reader::blanks::trim;
use object_reader::day_line::begins_day;
use std::alloc::{AllocError, Global};

/// What stands for the value of a directive without one.
pub(crate) const MARK: &[u8] = b"\x01";

/// The place of the first such byte.
fn first_mark(bytes: &[u8], mark: u8) -> Option<usize>
    ensures { result ≡ position (λ b. b == mark) bytes.now }
{
    bytes.iter().position(|b| *b == mark)
}

/// The bytes before the first such byte; all where there is none.
pub(crate) fn before(bytes: &[u8], mark: u8) -> &[u8]
    ensures { result.now ≡ before_first (λ b. b == mark) bytes.now }
{
    let end = first_mark(bytes, mark).unwrap_or(bytes.len());
    &bytes[..end]
}

/// A line without the carriage return at its end.
fn without_return(line: &[u8]) -> &[u8]
    ensures { result.now ≡ without_return line.now }
{
    let end = line.len();
    if end > 0 && line[end - 1] == b'\r' {
        &line[..end - 1]
    } else {
        line
    }
}

/// Whether the last byte is a backslash.
fn ends_in_backslash(bytes: &[u8]) -> bool
    ensures { result ≡ ends_in_backslash bytes.now }
{
    let end = bytes.len();
    end > 0 && bytes[end - 1] == b'\\'
}

/// The bytes without the last.
fn without_last(bytes: &[u8]) -> &[u8]
    ensures { result.now ≡ without_last bytes.now }
{
    &bytes[..bytes.len().saturating_sub(1)]
}

/// Whether bytes end in one backslash, and not in two.
fn ends_in_one(bytes: &[u8]) -> bool
    ensures { result ≡ ends_in_one bytes.now }
{
    ends_in_backslash(bytes) && !ends_in_backslash(without_last(bytes))
}

/// Whether a line goes on in the next.
fn goes_on(line: &[u8]) -> bool
    ensures { result ≡ goes_on line.now }
{
    ends_in_one(without_return(line))
}

/// What a line has before its comment, without the blanks round it.
fn bare(line: &[u8]) -> &[u8]
    ensures { result.now ≡ bare line.now }
{
    trim(before(without_return(line), b';'))
}

/// Whether a byte may be one of a directive's name.
fn is_of_name(byte: u8) -> bool
    ensures { result ≡ is_of_name byte }
{
    byte.is_ascii_alphanumeric() || byte == b'_'
}

/// Whether each of the bytes may be.
fn are_of_name(bytes: &[u8]) -> bool
    ensures { result ≡ list_all is_of_name bytes.now }
{
    bytes.iter().all(|byte| is_of_name(*byte))
}

/// Whether bytes may be one.
fn is_name(bytes: &[u8]) -> bool
    ensures { result ≡ is_name bytes.now }
{
    !bytes.is_empty() && are_of_name(bytes)
}

/// Whether bytes are the name of a directive, and nothing more. A day line has to have times.
fn is_lone(bytes: &[u8]) -> bool
    ensures { result ≡ is_lone bytes.now }
{
    is_name(bytes) && !begins_day(bytes) && !is_word(bytes, "define")
}

/// Adds a line that isn't the rest of one before it, with the mark where it has a directive without a value.
fn push_said(made: &mut Vec<u8>, line: &[u8]) -> Result<(), AllocError>
    ensures { OnOk result (made.new.items ≡ made.old.items ++ said_of line.now) }
{
    let word = bare(line);
    if !is_lone(word) {
        return made.extend_from_slice(line);
    }
    made.extend_from_slice(word)?;
    made.extend_from_slice(b" ")?;
    made.extend_from_slice(MARK)
}

/// Adds a line, which is the rest of one before it or isn't.
fn push_line(made: &mut Vec<u8>, line: &[u8], is_rest: bool) -> Result<(), AllocError>
    ensures { OnOk result (made.new.items ≡ made.old.items ++ line_said is_rest line.now) }
{
    if is_rest {
        made.extend_from_slice(line)
    } else {
        push_said(made, line)
    }
}

/// The text with the mark as the value of each directive that stands alone in a line, where that isn't the rest of a line before it. Lines keep their numbers.
/// A refused growth leaves nothing.
pub fn marked(alloc: Global, text: &[u8]) -> Result<Vec<u8>, AllocError>
    ensures { IfOk result (λ made. made.items ≡ marked text.now) }
{
    let mut made = Vec::with_capacity(alloc, text.len())?;
    let mut is_rest = false;
    let mut rest = text;
    loop {
        let line = before(rest, b'\n');
        push_line(&mut made, line, is_rest)?;
        if line.len() == rest.len() {
            return Ok(made);
        }
        made.push(b'\n')?;
        is_rest = goes_on(line);
        rest = &rest[line.len() + 1..];
    }
}
