//! Day lines of a time period (chapter "Object Definitions", "Time Period Definition"): a name of
//! several words, as `monday -1 may`, and a value with a colon in its first word.

ghost use Rattle.std.specs.Prelude.{◌≡◌, not, ◌==◌, codes, IfOk};
ghost use Rattle.std.specs.List.{position, list_any};
ghost use Rattle.std.specs.Str.{bytes_eq};
ghost use Rattle.object_reader.specs.claims.Blanks.{is_blank, without_end};
ghost use Rattle.object_reader.specs.claims.DayLines.{begins_day, begins_with_digit};
ghost use Rattle.object_reader.specs.DayLines.{before_times, day_front};
ghost use Rattle.object_reader.specs.claims.DayLines.{months, weekdays, without_blanks};
ghost use Rattle.object_reader.specs.DayLines.{spaced, starts_word};

use crate::blanks::is_blank;
use crate::statement::is_word;
use crate::words::Words;
use std::alloc::{AllocError, Global};

/// Whether a word is a weekday.
pub fn is_weekday(word: &[u8]) -> bool
    ensures { result ≡ list_any (bytes_eq word.now) weekdays }
{
    is_word(word, "sunday")
        || is_word(word, "monday")
        || is_word(word, "tuesday")
        || is_word(word, "wednesday")
        || is_word(word, "thursday")
        || is_word(word, "friday")
        || is_word(word, "saturday")
}

/// Whether a word is a month.
pub fn is_month(word: &[u8]) -> bool
    ensures { result ≡ list_any (bytes_eq word.now) months }
{
    is_word(word, "january")
        || is_word(word, "february")
        || is_word(word, "march")
        || is_word(word, "april")
        || is_word(word, "may")
        || is_word(word, "june")
        || is_word(word, "july")
        || is_word(word, "august")
        || is_word(word, "september")
        || is_word(word, "october")
        || is_word(word, "november")
        || is_word(word, "december")
}

/// Whether a name begins with a digit.
pub fn begins_with_digit(name: &[u8]) -> bool
    ensures { result ≡ begins_with_digit name.now }
{
    match name {
        [] => false,
        [first, ..] => first.is_ascii_digit(),
    }
}

/// Whether a day line begins with the word: a weekday, a month, `day`, or a word that begins with a digit.
#[tactic(auto, unfolding(crate::specs::claims::DayLines::begins_day))]
pub fn begins_day(word: &[u8]) -> bool
    ensures { result ≡ begins_day word.now }
{
    begins_with_digit(word) || is_word(word, "day") || is_month(word) || is_weekday(word)
}

/// Whether there is a colon.
fn has_colon(bytes: &[u8]) -> bool
    ensures { result ≡ list_any (λ b. b == 58) bytes.now }
{
    bytes.contains(&b':')
}

/// The place of the first colon.
fn first_colon(bytes: &[u8]) -> Option<usize>
    ensures { result ≡ position (λ b. b == 58) bytes.now }
{
    bytes.iter().position(|b| *b == b':')
}

/// The bytes up to the last blank.
fn up_to_blank(bytes: &[u8]) -> &[u8]
    ensures { result.now ≡ without_end (λ b. not (is_blank b)) bytes.now }
{
    let mut end = bytes.len();
    while end > 0 && !is_blank(bytes[end - 1]) {
        end -= 1;
    }
    &bytes[..end]
}

/// What stands before the first word with a colon; nothing where no word has one.
#[tactic(auto, unfolding(crate::specs::DayLines::before_times))]
fn before_times(statement: &[u8]) -> &[u8]
    ensures { result.now ≡ before_times statement.now }
{
    if !has_colon(statement) {
        return &statement[..0];
    }
    let end = first_colon(statement).unwrap_or(statement.len());
    up_to_blank(&statement[..end])
}

/// The words that are the name of a day line: those before the first with a colon, or all where none has one. Nothing
/// where the line is no day line, by its first word, or where it is that word alone.
#[tactic(auto, unfolding(crate::specs::DayLines::day_front))]
pub(crate) fn day_front<'a>(words: &Words<'a>) -> &'a [u8]
    ensures { result.now ≡ day_front words.now }
{
    let statement = words.all();
    if !begins_day(words.first()) {
        return &statement[..0];
    }
    if has_colon(statement) {
        return before_times(statement);
    }
    if words.after().is_empty() {
        return &statement[..0];
    }
    statement
}

/// Whether there is a first byte, and it is no blank.
fn starts_word(bytes: &[u8]) -> bool
    ensures { result ≡ starts_word bytes.now }
{
    match bytes {
        [] => false,
        [first, ..] => !is_blank(*first),
    }
}

/// The words, with one space between each two.
pub(crate) fn spaced(alloc: Global, words: &[u8]) -> Result<Vec<u8>, AllocError>
    ensures { IfOk result (λ name. name.items ≡ spaced words.now) }
{
    let mut name = Vec::new(alloc);
    let mut left = words;
    while let [byte, rest @ ..] = left {
        if !is_blank(*byte) {
            name.push(*byte)?;
        } else if starts_word(rest) {
            name.push(b' ')?;
        }
        left = rest;
    }
    Ok(name)
}

/// The bytes without their blanks.
pub(crate) fn without_blanks(alloc: Global, bytes: &[u8]) -> Result<Vec<u8>, AllocError>
    ensures { IfOk result (λ value. value.items ≡ without_blanks bytes.now) }
{
    bytes
        .iter()
        .copied()
        .filter(|b| !is_blank(*b))
        .collect(alloc)
}
