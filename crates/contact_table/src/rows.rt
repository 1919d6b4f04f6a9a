//! A line of the table.

ghost use Rattle.std.specs.Prelude.{◌≡◌, ◌++◌, decimal, OnOk};
ghost use Rattle.contact_table.specs.Rows.{json_numbers, json_row, pair_text, plain_numbers};
ghost use Rattle.contact_table.specs.Rows.{plain_row, pretty_numbers, pretty_row, row_text};

use changed_notices::ChangeForm;
use contact_tallies::Tally;
use itoa::Buffer;
use line_forms::push_string;
use pretty_lines::push_padded;
use std::alloc::AllocError;

/// Adds a number in decimal digits.
fn push_decimal(text: &mut Vec<u8>, number: u64) -> Result<(), AllocError>
    ensures { OnOk result (text.new.items ≡ text.old.items ++ decimal number) }
{
    let mut buffer = Buffer::new();
    text.extend_from_slice(buffer.format(number).as_bytes())
}

/// Adds a number before and one after, each with what stands in front of it.
#[tactic(auto, unfolding(crate::specs::Rows::pair_text))]
fn push_pair(
    text: &mut Vec<u8>,
    front: &[u8],
    before: u64,
    mid: &[u8],
    after: u64,
) -> Result<(), AllocError>
    ensures { OnOk result
        (text.new.items ≡ text.old.items ++ pair_text front.now before mid.now after) }
{
    text.extend_from_slice(front)?;
    push_decimal(text, before)?;
    text.extend_from_slice(mid)?;
    push_decimal(text, after)
}

/// Adds the numbers of a line of text.
#[tactic(auto, unfolding(crate::specs::Rows::plain_numbers))]
fn push_plain_numbers(text: &mut Vec<u8>, before: &Tally, after: &Tally) -> Result<(), AllocError>
    ensures { OnOk result (text.new.items ≡ text.old.items ++ plain_numbers before.now after.now) }
{
    push_pair(text, b";", before.pages, b";", after.pages)?;
    push_pair(text, b";", before.at_night, b";", after.at_night)?;
    push_pair(text, b";", before.silence, b";", after.silence)
}

/// Adds those of an object of JSON.
#[tactic(auto, unfolding(crate::specs::Rows::json_numbers))]
fn push_json_numbers(text: &mut Vec<u8>, before: &Tally, after: &Tally) -> Result<(), AllocError>
    ensures { OnOk result (text.new.items ≡ text.old.items ++ json_numbers before.now after.now) }
{
    push_pair(
        text,
        b",\"before\":",
        before.pages,
        b",\"after\":",
        after.pages,
    )?;
    push_pair(
        text,
        b",\"night_before\":",
        before.at_night,
        b",\"night_after\":",
        after.at_night,
    )?;
    push_pair(
        text,
        b",\"silence_before\":",
        before.silence,
        b",\"silence_after\":",
        after.silence,
    )
}

/// Adds a line of text.
#[tactic(auto, unfolding(crate::specs::Rows::plain_row))]
fn push_plain_row(
    text: &mut Vec<u8>,
    name: &[u8],
    before: &Tally,
    after: &Tally,
) -> Result<(), AllocError>
    ensures { OnOk result
        (text.new.items ≡ text.old.items ++ plain_row name.now before.now after.now) }
{
    text.extend_from_slice(b"P;")?;
    text.extend_from_slice(name)?;
    push_plain_numbers(text, before, after)?;
    text.extend_from_slice(b"\n")
}

/// Adds an object of JSON.
#[tactic(auto, unfolding(crate::specs::Rows::json_row))]
fn push_json_row(
    text: &mut Vec<u8>,
    name: &[u8],
    before: &Tally,
    after: &Tally,
) -> Result<(), AllocError>
    ensures { OnOk result
        (text.new.items ≡ text.old.items ++ json_row name.now before.now after.now) }
{
    text.extend_from_slice(b"{\"letter\":\"P\",\"contact\":")?;
    push_string(text, name)?;
    push_json_numbers(text, before, after)?;
    text.extend_from_slice(b"}\n")
}

/// Adds the numbers of a line for people, and its end.
#[tactic(auto, unfolding(crate::specs::Rows::pretty_numbers))]
fn push_pretty_numbers(text: &mut Vec<u8>, before: &Tally, after: &Tally) -> Result<(), AllocError>
    ensures { OnOk result (text.new.items ≡ text.old.items ++ pretty_numbers before.now after.now) }
{
    push_pair(text, b"  pages ", before.pages, b" to ", after.pages)?;
    push_pair(
        text,
        b", at night ",
        before.at_night,
        b" to ",
        after.at_night,
    )?;
    push_pair(
        text,
        b", longest silence ",
        before.silence,
        b" s to ",
        after.silence,
    )?;
    text.extend_from_slice(b" s\n")
}

/// Adds a line for people.
#[tactic(auto, unfolding(crate::specs::Rows::pretty_row))]
fn push_pretty_row(
    text: &mut Vec<u8>,
    name: &[u8],
    before: &Tally,
    after: &Tally,
) -> Result<(), AllocError>
    ensures { OnOk result
        (text.new.items ≡ text.old.items ++ pretty_row name.now before.now after.now) }
{
    push_padded(text, name, 12)?;
    push_pretty_numbers(text, before, after)
}

/// Adds a line of the table in a form.
pub(crate) fn push_row(
    form: ChangeForm,
    text: &mut Vec<u8>,
    name: &[u8],
    before: &Tally,
    after: &Tally,
) -> Result<(), AllocError>
    ensures { OnOk result
        (text.new.items ≡ text.old.items ++ row_text form name.now before.now after.now) }
{
    match form {
        ChangeForm::Plain => push_plain_row(text, name, before, after),
        ChangeForm::Pretty(_) => push_pretty_row(text, name, before, after),
        ChangeForm::Json => push_json_row(text, name, before, after),
    }
}
