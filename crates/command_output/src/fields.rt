//! The fields of a line.

ghost use Rattle.std.specs.Prelude.{◌≡◌, ◌+◌, ◌<◌, ◌≤◌, ◌++◌, decimal, drop};
ghost use Rattle.std.specs.Prelude.{flat_map, length, OnOk};
ghost use Rattle.command_output.specs.claims.Fields.{after_comma, field, notice_mark, notices_text};
ghost use Rattle.notice_text.specs.claims.Texts.{contact_text, lane_text, number_text, object_text};

use due_model::config::{Config, ContactId, LaneId, ObjectId};
use due_model::notice::Notice;
use itoa::{Buffer, write_digits};
use notice_text::texts;
use std::alloc::AllocError;

/// The bytes of the longest number that is a field.
const NUMBER: usize = 21;

/// Adds a field.
#[inline(always)]
pub(crate) fn push_field(line: &mut Vec<u8>, text: &[u8]) -> Result<(), AllocError>
    ensures { OnOk result (line.new.items ≡ line.old.items ++ field text.now) }
{
    line.push(b';')?;
    line.extend_from_slice(text)
}

/// Adds a number as a field.
pub(crate) fn push_number(line: &mut Vec<u8>, number: u64) -> Result<(), AllocError>
    ensures { OnOk result (line.new.items ≡ line.old.items ++ field (decimal number)) }
{
    let mut buffer = Buffer::new();
    push_field(line, buffer.format(number).as_bytes())
}

/// Adds two numbers as fields.
#[inline(always)]
pub(crate) fn push_numbers(line: &mut Vec<u8>, first: u64, second: u64) -> Result<(), AllocError>
    ensures { OnOk result
        (line.new.items ≡ line.old.items ++ field (decimal first) ++ field (decimal second)) }
{
    let mut text = [0; 2 * NUMBER];
    let between = put_number(second, &mut text, 2 * NUMBER);
    let start = put_number(first, &mut text, between);
    line.extend_from_slice(&text[start..])
}

/// Puts a number as a field into a text, before a place, and gives the place where it begins.
#[inline(always)]
fn put_number(number: u64, text: &mut [u8], end: usize) -> usize
    requires room { 21 ≤ end }
    requires within { end ≤ length text.old }
    ensures place { (end ≤ result + 21) × (result ≤ end) }
    ensures written { drop result text.new ≡ field (decimal number) ++ drop end text.old }
{
    let start = write_digits(number, text, end) - 1;
    text[start] = b';';
    start
}

/// Adds the number of a notice as a field, a dash where there is none.
pub(crate) fn push_notice_number(line: &mut Vec<u8>, number: u64) -> Result<(), AllocError>
    ensures { OnOk result (line.new.items ≡ line.old.items ++ field (number_text number)) }
{
    if 0 < number && number < 10 {
        return push_digit(line, number as u8);
    }
    line.push(b';')?;
    texts::push_notice_number(line, number)
}

/// Adds a number of one digit as a field.
#[tactic(auto, using(std::proofs::lemmas::Fmt::decimal_digit))]
fn push_digit(line: &mut Vec<u8>, number: u8) -> Result<(), AllocError>
    requires { number < 10 }
    ensures { OnOk result (line.new.items ≡ line.old.items ++ field (decimal number)) }
{
    line.extend_from_slice(&[b';', b'0' + number])
}

/// Adds an object as a field.
pub(crate) fn push_object(
    line: &mut Vec<u8>,
    config: &Config,
    object: ObjectId,
) -> Result<(), AllocError>
    ensures { OnOk result
        (line.new.items ≡ line.old.items ++ field (object_text config.now object.0)) }
{
    line.push(b';')?;
    texts::push_object(line, config, object)
}

/// Adds a contact as a field.
#[inline(always)]
pub(crate) fn push_contact(
    line: &mut Vec<u8>,
    config: &Config,
    contact: ContactId,
) -> Result<(), AllocError>
    ensures { OnOk result
        (line.new.items ≡ line.old.items ++ field (contact_text config.now contact.0)) }
{
    push_field(line, texts::contact_name(config, contact))
}

/// Adds a lane as a field.
#[inline(always)]
pub(crate) fn push_lane(line: &mut Vec<u8>, config: &Config, lane: LaneId) -> Result<(), AllocError>
    ensures { OnOk result (line.new.items ≡ line.old.items ++ field (lane_text config.now lane.0)) }
{
    push_field(line, texts::lane_name(config, lane))
}

/// Adds a notice of a list, by its event and its contact.
fn push_mark(line: &mut Vec<u8>, config: &Config, notice: &Notice) -> Result<(), AllocError>
    ensures { OnOk result (line.new.items ≡ line.old.items ++ notice_mark config.now notice.now) }
{
    let mut buffer = Buffer::new();
    line.extend_from_slice(buffer.format(notice.event).as_bytes())?;
    line.push(b':')?;
    line.extend_from_slice(texts::contact_name(config, notice.contact))
}

/// Adds a list of notices as a field, a dash where there is none.
pub(crate) fn push_notices(
    line: &mut Vec<u8>,
    config: &Config,
    notices: &[Notice],
) -> Result<(), AllocError>
    ensures { OnOk result
        (line.new.items ≡ line.old.items ++ field (notices_text config.now notices.now)) }
{
    line.push(b';')?;
    let Some((first, others)) = notices.split_first() else {
        return line.extend_from_slice(b"-");
    };
    push_mark(line, config, first)?;
    push_others(line, config, others)
}

/// Adds the notices of a list after the first.
fn push_others(line: &mut Vec<u8>, config: &Config, others: &[Notice]) -> Result<(), AllocError>
    ensures { OnOk result
        (line.new.items ≡ line.old.items ++ flat_map (after_comma config.now) others.now) }
{
    for notice in others {
        line.push(b',')?;
        push_mark(line, config, notice)?;
    }
    Ok(())
}
