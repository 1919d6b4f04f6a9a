//! What the directives of a block say (chapter "Object Definitions").

ghost use Rattle.std.specs.Prelude.{◌≡◌, ◌++◌, ◌+◌, ◌∷◌, [], OnOk, ◌≤◌, ◌==◌};
ghost use Rattle.std.specs.Prelude.{◌&&◌, not, min, length, map, take_while, IfOk, if◌then◌else◌};
ghost use Rattle.std.specs.Char.{is_ascii_digit};
ghost use Rattle.std.specs.List.{before_first, list_all, list_any, position};
ghost use Rattle.std.specs.Option.{option_copied};
ghost use Rattle.std.specs.Str.{bytes_eq};
ghost use Rattle.due_model.specs.claims.Limits.{max_number};
ghost use Rattle.object_values.specs.claims.Values.{command_name, entries, entries_of, is_comma, number_in};
ghost use Rattle.object_values.specs.Values.{texts};
ghost use Rattle.object_values.specs.claims.Values.{number_of, value_in};

use due_model::limits::MAX_NUMBER;
use object_reader::blanks::trim;
use object_reader::block::Directive;
use std::alloc::{AllocError, Global};

/// Whether the bytes are those of the text.
pub fn equals(bytes: &[u8], text: &str) -> bool
    ensures { result ≡ bytes_eq bytes.now text.now }
{
    bytes == text.as_bytes()
}

/// The value of the last directive of that name.
pub fn value_in<'a>(directives: &'a [Directive], name: &[u8]) -> Option<&'a [u8]>
    ensures { option_copied result ≡ value_in directives.now name.now }
{
    let found = directives
        .iter()
        .rev()
        .find(|directive| directive.name.as_slice() == name);
    match found {
        None => None,
        Some(directive) => Some(directive.value.as_slice()),
    }
}

/// The place of the first comma.
fn first_comma(bytes: &[u8]) -> Option<usize>
    ensures { result ≡ position is_comma bytes.now }
{
    bytes.iter().position(|b| *b == b',')
}

/// The bytes up to the first comma.
fn first_part(list: &[u8]) -> &[u8]
    ensures { result.now ≡ before_first is_comma list.now }
{
    let end = first_comma(list).unwrap_or(list.len());
    &list[..end]
}

/// Adds an entry to a list, where it isn't empty.
fn push_entry<'a>(list: &mut Vec<&'a [u8]>, entry: &'a [u8]) -> Result<(), AllocError>
    ensures { OnOk result (texts list.new.items
        ≡ texts list.old.items
        ++ (if length entry.entry.now == 0 then [] else entry.entry.now ∷ [])) }
{
    if !entry.is_empty() {
        list.push(entry)?;
    }
    Ok(())
}

/// The entries of a list: what stands between the commas, without the blanks round it, where anything does.
/// A refused growth leaves nothing.
pub fn entries<'a>(alloc: Global, value: &'a [u8]) -> Result<Vec<&'a [u8]>, AllocError>
    ensures { IfOk result (λ list. texts list.items ≡ entries value.now) }
{
    let mut list = Vec::new(alloc);
    let mut rest = value;
    loop {
        let part = first_part(rest);
        push_entry(&mut list, trim(part))?;
        if part.len() == rest.len() {
            return Ok(list);
        }
        rest = &rest[part.len() + 1..];
    }
}

/// The entries of the list that a directive gives; none where it isn't there. A refused growth leaves nothing.
pub fn entries_in<'a>(
    alloc: Global,
    directives: &'a [Directive],
    name: &str,
) -> Result<Vec<&'a [u8]>, AllocError>
    ensures { IfOk result (λ list.
        texts list.items ≡ entries_of (value_in directives.now name.now)) }
{
    match value_in(directives, name.as_bytes()) {
        None => Ok(Vec::new(alloc)),
        Some(value) => entries(alloc, value),
    }
}

/// The place of the first `!`.
fn first_exclamation(bytes: &[u8]) -> Option<usize>
    ensures { result ≡ position (λ b. b == 33) bytes.now }
{
    bytes.iter().position(|b| *b == b'!')
}

/// The command that an entry of a list of notification commands names: what stands before the first `!`.
pub fn command_name(entry: &[u8]) -> &[u8]
    ensures { result.now ≡ command_name entry.now }
{
    let end = first_exclamation(entry).unwrap_or(entry.len());
    &entry[..end]
}

/// Whether the bytes are decimal digits.
pub(crate) fn are_digits(bytes: &[u8]) -> bool
    ensures { result ≡ list_all is_ascii_digit bytes.now }
{
    bytes.iter().all(|byte| byte.is_ascii_digit())
}

/// The number that digits write, and past the greatest number of a directive the next after that.
fn number_of(digits: &[u8]) -> u32
    ensures { result ≡ min (number_of digits.now) (max_number + 1) }
{
    let mut number: u32 = 0;
    for digit in digits {
        let value = u32::from(digit.saturating_sub(b'0'));
        number = (number * 10 + value).min(MAX_NUMBER + 1);
    }
    number
}

/// The number that the value is: decimal digits of 0 to 1,000,000.
pub fn number_in(value: &[u8]) -> Option<u32>
    ensures { result ≡ number_in value.now }
{
    if value.is_empty() {
        return None;
    }
    if !are_digits(value) {
        return None;
    }
    let number = number_of(value);
    if number <= MAX_NUMBER {
        Some(number)
    } else {
        None
    }
}
