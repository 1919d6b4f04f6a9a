//! The day lines of a time period: which directives they are, and the ranges that they give (chapter "Time
//! Periods").

ghost use Rattle.std.specs.Prelude.{◌≡◌, ◌==◌, ◌++◌, length, codes, IfOk, nat_le, OnOk, Some};
ghost use Rattle.std.specs.Prelude.{if◌then◌else◌, None};
ghost use Rattle.std.specs.List.{after_first, before_first, list_any, position};
ghost use Rattle.std.specs.Option.{option_to_list};
ghost use Rattle.std.specs.Str.{bytes_eq};
ghost use Rattle.object_values.specs.claims.Ranges.{are_ranges, ends_before_it_begins, is_dated, month_of, range_in};
ghost use Rattle.object_values.specs.claims.Ranges.{ranges_among, ranges_in, time_in, time_of, weekday_of};
ghost use Rattle.object_values.specs.claims.Values.{number_in};

use crate::values::{equals, number_in};
use due_model::config::Range;
use due_model::sequence::Sequence;
use object_reader::day_line::{begins_with_digit, is_month, is_weekday};
use std::alloc::{AllocError, Global};

/// The place of the first such byte.
fn first_mark(bytes: &[u8], mark: u8) -> Option<usize>
    ensures { result ≡ position (λ b. b == mark) bytes.now }
{
    bytes.iter().position(|b| *b == mark)
}

/// The bytes before the first such byte; all where there is none.
pub(crate) fn before(bytes: &[u8], mark: u8) -> &[u8]
    ensures { result.now ≡ before_first (λ b. b == mark) bytes.now }
{
    let end = first_mark(bytes, mark).unwrap_or(bytes.len());
    &bytes[..end]
}

/// The bytes after the first such byte; none where there is none.
pub(crate) fn after(bytes: &[u8], mark: u8) -> &[u8]
    ensures { result.now ≡ after_first (λ b. b == mark) bytes.now }
{
    match first_mark(bytes, mark) {
        None => &[],
        Some(place) => &bytes[place + 1..],
    }
}

/// The hours of a time: a number of at most two digits.
fn hours_in(text: &[u8]) -> Option<u32>
    ensures { result ≡ (if nat_le (length text.now) 2 then number_in text.now else None) }
{
    if text.len() <= 2 {
        number_in(text)
    } else {
        None
    }
}

/// The minutes of a time: a number of two digits.
fn minutes_in(text: &[u8]) -> Option<u32>
    ensures { result ≡ (if length text.now == 2 then number_in text.now else None) }
{
    if text.len() == 2 {
        number_in(text)
    } else {
        None
    }
}

/// The seconds of these hours and minutes, of 00:00 to 24:00.
fn time_of(hours: u32, minutes: u32) -> Option<u32>
    ensures { result ≡ time_of (Some hours) (Some minutes) }
{
    if hours > 24 || minutes > 59 {
        return None;
    }
    if hours * 60 + minutes <= 1440 {
        Some(hours * 3600 + minutes * 60)
    } else {
        None
    }
}

/// The seconds from the start of the day that a time is: hours of one or two digits, a colon, and minutes of two.
fn time_in(text: &[u8]) -> Option<u32>
    ensures { result ≡ time_in text.now }
{
    let hours = hours_in(before(text, b':'))?;
    let minutes = minutes_in(after(text, b':'))?;
    time_of(hours, minutes)
}

/// The range that a text is: a time, a dash, and a time that isn't before it.
fn range_in(text: &[u8]) -> Option<Range>
    ensures { result ≡ range_in text.now }
{
    let start = time_in(before(text, b'-'))?;
    let end = time_in(after(text, b'-'))?;
    if start <= end {
        Some(Range { start, end })
    } else {
        None
    }
}

/// Whether a text is a time, a dash, and a time before the first: no range.
pub fn ends_before_it_begins(text: &[u8]) -> bool
    ensures { result ≡ ends_before_it_begins text.now }
{
    match (time_in(before(text, b'-')), time_in(after(text, b'-'))) {
        (Some(start), Some(end)) => end < start,
        _ => false,
    }
}

/// Whether a text is ranges of times with a comma between each two: `HH:MM-HH:MM`, hours of one or two digits,
/// minutes of two, 00:00 to 24:00, the start not after the end.
pub fn are_ranges(text: &[u8]) -> bool
    ensures { result ≡ are_ranges text.now }
{
    text.split(|byte| *byte == b',')
        .all(|part| range_in(part).is_some())
}

/// Adds the range that a part is.
fn push_range(ranges: &mut Vec<Range>, part: &[u8]) -> Result<(), AllocError>
    ensures { OnOk result (ranges.new.items
        ≡ ranges.old.items ++ option_to_list (range_in part.now)) }
{
    if let Some(range) = range_in(part) {
        ranges.push(range)?;
    }
    Ok(())
}

/// The ranges that the parts of a text are.
fn ranges_among(alloc: Global, text: &[u8]) -> Result<Vec<Range>, AllocError>
    ensures { IfOk result (λ ranges. ranges.items ≡ ranges_among text.now) }
{
    let mut ranges = Vec::new(alloc);
    let mut rest = text;
    loop {
        let part = before(rest, b',');
        push_range(&mut ranges, part)?;
        if part.len() == rest.len() {
            return Ok(ranges);
        }
        rest = &rest[part.len() + 1..];
    }
}

/// The ranges of a day line, in the order of its text. `None` where the text isn't ranges with a comma between
/// each two, as `are_ranges` says. A refused growth leaves nothing.
pub fn ranges_in(alloc: Global, text: &[u8]) -> Result<Option<Sequence<Range>>, AllocError>
    ensures { IfOk result (λ found. found ≡ ranges_in text.now) }
{
    if !are_ranges(text) {
        return Ok(None);
    }
    let ranges = ranges_among(alloc, text)?;
    Ok(Some(Sequence::new(ranges)))
}

/// The weekday that a name is: 0 is Sunday. `None` for other names.
pub fn weekday_of(name: &[u8]) -> Option<u8>
    ensures { result ≡ weekday_of name.now }
{
    if equals(name, "sunday") {
        return Some(0);
    }
    if equals(name, "monday") {
        return Some(1);
    }
    if equals(name, "tuesday") {
        return Some(2);
    }
    if equals(name, "wednesday") {
        return Some(3);
    }
    if equals(name, "thursday") {
        return Some(4);
    }
    if equals(name, "friday") {
        return Some(5);
    }
    if equals(name, "saturday") {
        return Some(6);
    }
    None
}

/// The month that a word is: 1 is January. `None` for other words.
pub fn month_of(name: &[u8]) -> Option<u8>
    ensures { result ≡ month_of name.now }
{
    if equals(name, "january") {
        return Some(1);
    }
    if equals(name, "february") {
        return Some(2);
    }
    if equals(name, "march") {
        return Some(3);
    }
    if equals(name, "april") {
        return Some(4);
    }
    if equals(name, "may") {
        return Some(5);
    }
    if equals(name, "june") {
        return Some(6);
    }
    if equals(name, "july") {
        return Some(7);
    }
    if equals(name, "august") {
        return Some(8);
    }
    if equals(name, "september") {
        return Some(9);
    }
    if equals(name, "october") {
        return Some(10);
    }
    if equals(name, "november") {
        return Some(11);
    }
    if equals(name, "december") {
        return Some(12);
    }
    None
}

/// Whether a directive of a time period is a line of dates: it begins with a digit, or its first word is `day`,
/// a month, or a weekday that isn't all of it. One that is neither this nor a weekday is no day line.
pub fn is_dated(name: &[u8]) -> bool
    ensures { result ≡ is_dated name.now }
{
    let word = before(name, b' ');
    begins_with_digit(name)
        || equals(word, "day")
        || is_month(word)
        || (is_weekday(word) && !is_weekday(name))
}
