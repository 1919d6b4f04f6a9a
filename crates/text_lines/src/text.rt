//! The text of a reader up to the first line that is a mark.

ghost use Rattle.std.specs.Prelude.{◌≡◌, ◌<◌, ◌≤◌, ◌+◌, ℕ, List, [], ◌++◌, false};
ghost use Rattle.std.specs.Prelude.{length, IfErr, IfOk, IsErrOf, IfSome, IsTrue, take};
ghost use Rattle.std.specs.Option.{option_copied};
ghost use Rattle.due_model.specs.claims.Limits.{text_limit};
ghost use Rattle.text_lines.specs.LineReader.{to_come};
ghost use Rattle.text_lines.specs.claims.Lines.{Known};
ghost use Rattle.text_lines.specs.Text.{FindsMark, IsParting, IsSearched, MovesHeld, is_mark};
ghost use Rattle.text_lines.specs.Text.{rest_after};
ghost use Rattle.text_lines.specs.Text.{mark_length, split_text, text_before, text_call_limit};

use crate::bytes::find_byte;
use crate::input::Input;
use crate::line_reader::{Filled, LineReader};
use due_model::limits::TEXT_LIMIT;
use std::alloc::{AllocError, Global};

/// The most calls of a reader for one text.
pub const TEXT_CALL_LIMIT: u64 = 33_554_432;

/// Why a text could not be read.
#[derive(Clone, Copy, Debug, PartialEq, Eq)]
pub enum TextFault {
    /// The reader failed, or took 33,554,432 calls.
    Unreadable,
    /// The text has over 16,777,216 bytes.
    TooLarge,
    /// Memory ran out.
    NoMemory,
}

impl From<AllocError> for TextFault {
    ghost use Rattle.text_lines.specs.declared.text.TextFault.TheVariants.{NoMemory};

    ghost from_gives = { λ _ fault. fault ≡ NoMemory };

    fn from(_error: AllocError) -> TextFault {
        TextFault::NoMemory
    }
}

/// How far a search for the mark has come.
#[derive(Clone, Copy, Debug, PartialEq, Eq)]
struct Search {
    /// Where the line under way begins.
    line_start: usize,
    /// The bytes before this place were looked at.
    at: usize,
}

/// Where a text ends in bytes, and where what follows its mark begins.
#[derive(Clone, Copy, Debug, PartialEq, Eq)]
struct Parting {
    text_end: usize,
    rest_start: usize,
}

impl<R: Input + Drop> LineReader<R> {
    /// Reads the text up to the first line that is the mark, and that line with its newline, which it may lack at the end
    /// of the input; or up to the end of the input, where no line is the mark or there is none. Lines of any length are
    /// kept byte for byte. What follows the mark stays for `next_line`. The text has at most 16,777,216 bytes, and the
    /// reader is called at most 33,554,432 times; it is called no more once the text is sure to be too large. After a
    /// fault what was read of the text is lost.
    pub fn read_text(&mut self, alloc: Global, mark: Option<&[u8]>) -> Result<Vec<u8>, TextFault>
        ensures text { IfOk result (λ text.
            Known (to_come self.old) (to_come self.new) (λ bytes rest.
            (text.items ≡ text_before (option_copied mark.entry) bytes)
            × (rest ≡ rest_after (option_copied mark.entry) bytes))) }
        ensures limit { IfOk result (λ text. length text.items ≤ text_limit) }
        ensures large { IsErrOf result TextFault.TooLarge → IfSome (to_come self.old) (λ bytes.
            text_limit < length (text_before (option_copied mark.entry) bytes)) }
        ensures calls { self.new.calls ≤ self.old.calls + text_call_limit }
        ensures sure { R.can_fail ≡ false → mark_length (option_copied mark.entry) < text_limit
            → ¬ IsErrOf result TextFault.Unreadable }
    {
        let mut text = Vec::new(alloc);
        let mut search = Search {
            line_start: 0,
            at: 0,
        };
        if self.move_held(mark, &mut text, &mut search)? {
            return Ok(text);
        }
        for _call in 0..TEXT_CALL_LIMIT {
            match self.fill() {
                Filled::Empty => return end_text(mark, text, search),
                Filled::Failed => return Err(TextFault::Unreadable),
                Filled::More => {}
            }
            if self.move_held(mark, &mut text, &mut search)? {
                return Ok(text);
            }
        }
        Err(TextFault::Unreadable)
    }

    /// Moves what is held after the text. Where a line that ends in it is the mark, the text is cut before that line, and
    /// what follows the line stays held.
    fn move_held(
        &mut self,
        mark: Option<&[u8]>,
        text: &mut Vec<u8>,
        search: &mut Search,
    ) -> Result<bool, TextFault>
        requires searched { IsSearched (option_copied mark) text.old.items search.old }
        requires all { search.old.at ≡ length text.old.items }
        ensures found { IfOk result (λ found. IsTrue found →
            FindsMark (option_copied mark.entry) self.old self.new text.old.items text.new.items) }
        ensures moved { IfOk result (λ found. found ≡ false →
            MovesHeld (option_copied mark.entry) self.old self.new text.old.items text.new.items
            search.new) }
        ensures large { IsErrOf result TextFault.TooLarge → (more : List ℕ) →
            text_limit < length (text_before (option_copied mark.entry)
            ((text.old.items ++ self.old.held) ++ more)) }
        ensures fault { ¬ IsErrOf result TextFault.Unreadable }
        ensures calls { self.new.calls ≡ self.old.calls }
    {
        let before = text.len();
        text.extend_from_slice(self.held())?;
        match find_mark(mark, text, *search) {
            Ok(parting) => {
                if parting.text_end > TEXT_LIMIT {
                    return Err(TextFault::TooLarge);
                }
                self.drop_held(parting.rest_start - before);
                text.truncate(parting.text_end);
                Ok(true)
            }
            Err(further) => {
                if is_large(mark, text, further) {
                    return Err(TextFault::TooLarge);
                }
                self.drop_held(text.len() - before);
                *search = further;
                Ok(false)
            }
        }
    }
}

/// Ends a text at the end of the input, whose last line may be the mark.
fn end_text(mark: Option<&[u8]>, mut text: Vec<u8>, search: Search) -> Result<Vec<u8>, TextFault>
    requires searched { IsSearched (option_copied mark) text.items search }
    requires all { search.at ≡ length text.items }
    ensures text { IfOk result (λ ended.
        split_text (option_copied mark.entry) text.items ≡ (ended.items, [])) }
    ensures limit { IfOk result (λ ended. length ended.items ≤ text_limit) }
    ensures large { IfErr result (λ fault.
        text_limit < length (text_before (option_copied mark.entry) text.items)) }
    ensures fault { IfErr result (λ fault. fault ≡ TextFault.TooLarge) }
{
    let end = end_of_text(mark, &text, search);
    if end > TEXT_LIMIT {
        return Err(TextFault::TooLarge);
    }
    text.truncate(end);
    Ok(text)
}

/// Where the text ends in an input that ends here.
fn end_of_text(mark: Option<&[u8]>, bytes: &[u8], search: Search) -> usize
    requires searched { IsSearched (option_copied mark) bytes.now search }
    requires all { search.at ≡ length bytes.now }
    ensures within { result ≤ length bytes.now }
    ensures text { split_text (option_copied mark.entry) bytes.now ≡ (take result bytes.now, []) }
{
    if is_mark(mark, &bytes[search.line_start..]) {
        search.line_start
    } else {
        bytes.len()
    }
}

/// Whether the text is too large, whatever follows these bytes, of which none is the mark's: the lines before the one
/// under way are over the limit, or all bytes are, and the line under way is longer than the mark.
fn is_large(mark: Option<&[u8]>, bytes: &[u8], search: Search) -> bool
    requires searched { IsSearched (option_copied mark) bytes.now search }
    requires all { search.at ≡ length bytes.now }
    ensures large { IsTrue result → (more : List ℕ) →
        text_limit < length (text_before (option_copied mark.entry) (bytes.now ++ more)) }
    ensures few { result ≡ false →
        length bytes.now ≤ text_limit + mark_length (option_copied mark.entry) }
{
    let line_len = bytes.len() - search.line_start;
    search.line_start > TEXT_LIMIT || bytes.len() > TEXT_LIMIT && is_longer(mark, line_len)
}

/// Whether a length is more than the mark's.
fn is_longer(mark: Option<&[u8]>, line_len: usize) -> bool
    ensures longer { IsTrue result → (line : List ℕ) → line_len ≤ length line →
        is_mark (option_copied mark.entry) line ≡ false }
    ensures few { result ≡ false → line_len ≤ mark_length (option_copied mark.entry) }
{
    match mark {
        None => true,
        Some(mark) => line_len > mark.len(),
    }
}

/// The first line that is the mark, or how far the search came. A line that no newline ends is not looked at.
fn find_mark(mark: Option<&[u8]>, bytes: &[u8], from: Search) -> Result<Parting, Search>
    requires searched { IsSearched (option_copied mark) bytes.now from }
    ensures found { IfOk result (λ parting. IsParting (option_copied mark.entry) bytes.now parting
        × (from.at ≤ parting.rest_start)) }
    ensures searched { IfErr result (λ search.
        IsSearched (option_copied mark.entry) bytes.now search
        × (search.at ≡ length bytes.now)) }
{
    let mut search = from;
    while search.at < bytes.len() {
        let end = search.at + find_byte(b'\n', &bytes[search.at..]);
        if end == bytes.len() {
            return Err(Search {
                line_start: search.line_start,
                at: end,
            });
        }
        if is_mark(mark, &bytes[search.line_start..end]) {
            return Ok(Parting {
                text_end: search.line_start,
                rest_start: end + 1,
            });
        }
        search = Search {
            line_start: end + 1,
            at: end + 1,
        };
    }
    Err(search)
}

/// Whether a line is the mark, where one is given.
fn is_mark(mark: Option<&[u8]>, line: &[u8]) -> bool
    ensures { result ≡ is_mark (option_copied mark.entry) line.now }
{
    match mark {
        None => false,
        Some(mark) => line == mark,
    }
}
