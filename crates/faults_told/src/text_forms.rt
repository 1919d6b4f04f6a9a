//! The lines that tell a fault.

ghost use Rattle.std.specs.Prelude.{◌≡◌, ◌++◌, ◌≤◌, length, OnOk};
ghost use Rattle.std.specs.Fmt.{decimal};
ghost use Rattle.faults_told.specs.Forms.{Tells, head_text, line_at, place_text};

use crate::blocks_named::{NamedBlock, named};
use crate::located::{Source, located};
use crate::telling::{Detail, RangeFault, Telling, kind_word};
use itoa::Buffer;
use object_reader::block::Block;
use std::alloc::{AllocError, Global};

/// At most so many bytes of a value are shown.
const SHOWN: usize = 80;

/// Adds a text.
pub fn push(text: &mut Vec<u8>, more: &str) -> Result<(), AllocError>
    ensures { OnOk result (text.new.items ≡ text.old.items ++ more.now) }
{
    text.extend_from_slice(more.as_bytes())?;
    Ok(())
}

/// Adds a number, with a comma before each three digits.
pub fn push_number(text: &mut Vec<u8>, number: u64) -> Result<(), AllocError> {
    let mut buffer = Buffer::new();
    let digits = buffer.format(number).as_bytes();
    for (at, digit) in digits.iter().enumerate() {
        let left = digits.len() - at;
        if at > 0 && left % 3 == 0 {
            text.push(b',')?;
        }
        text.push(*digit)?;
    }
    Ok(())
}

/// Whether a character begins with the byte.
fn begins(byte: u8) -> bool {
    byte < 0x80 || byte >= 0xC0
}

/// The end of a front of the value, of 80 bytes at most, that ends with a whole character.
fn shown_end(value: &[u8]) -> usize
    ensures { result ≤ length value.now }
{
    if value.len() <= SHOWN {
        return value.len();
    }
    if begins(value[80]) {
        80
    } else if begins(value[79]) {
        79
    } else if begins(value[78]) {
        78
    } else {
        77
    }
}

/// Adds a value between quotes, of a long one a front.
pub fn push_value(text: &mut Vec<u8>, value: &[u8]) -> Result<(), AllocError> {
    let end = shown_end(value);
    text.push(b'"')?;
    text.extend_from_slice(&value[..end])?;
    if end < value.len() {
        push(text, "..")?;
    }
    text.push(b'"')?;
    Ok(())
}

/// Adds what is wrong with a range.
fn push_range(text: &mut Vec<u8>, fault: RangeFault) -> Result<(), AllocError> {
    match fault {
        RangeFault::NoRange => push(text, " isn't a range of times, as 08:00-17:00"),
        RangeFault::EndsLate => push(text, " ends after 24:00"),
        RangeFault::EndsEarly => push(text, " ends before it begins"),
    }
}

/// Adds what is wrong, where the value is this.
pub fn push_detail(
    text: &mut Vec<u8>,
    telling: &Telling<'_>,
    kind: &str,
) -> Result<(), AllocError> {
    match telling.detail {
        Detail::NotGiven => push(text, "not given"),
        Detail::NoHosts => push(text, "no host and no hostgroup is named"),
        Detail::NoServices => push(
            text,
            "no host or hostgroup with a service is named, and no servicegroup",
        ),
        Detail::NoNumber => {
            push_value(text, telling.value)?;
            push(text, " isn't a number of 0 to 1000000")
        }
        Detail::NoOption => {
            push(text, "no option ")?;
            push_value(text, telling.value)
        }
        Detail::NoState => {
            push(text, "no state ")?;
            push_value(text, telling.value)
        }
        Detail::Range(fault) => {
            push_value(text, telling.value)?;
            push_range(text, fault)
        }
        Detail::NoDay => {
            push_value(text, telling.value)?;
            push(text, " isn't ranges of times of a day")
        }
        Detail::NotZero => {
            push_value(text, telling.value)?;
            push(text, " isn't 0")
        }
        Detail::LeavesOut => {
            push_value(text, telling.value)?;
            push(text, " leaves a name out")
        }
        Detail::OtherDay => push(text, "isn't a day that is read here"),
        Detail::NoObject(named) => {
            push(text, "no ")?;
            push(text, kind_word(named.block_kind()))?;
            text.push(b' ')?;
            push_value(text, telling.value)
        }
        Detail::NoTemplate => {
            push(text, "no ")?;
            push(text, kind)?;
            push(text, " template ")?;
            push_value(text, telling.value)
        }
        Detail::LeadsBack => {
            push_value(text, telling.value)?;
            push(text, " leads back to it")
        }
        Detail::Doubled(_) => {
            push_value(text, telling.value)?;
            push(text, " is the name of an earlier one")
        }
        Detail::Unsaid => Ok(()),
    }
}

/// Adds a block by its type and name.
fn push_block(text: &mut Vec<u8>, block: NamedBlock<'_>) -> Result<(), AllocError> {
    push(text, block.kind)?;
    if block.is_template {
        push(text, " template")?;
    }
    if !block.name.is_empty() {
        text.push(b' ')?;
        push_value(text, block.name)?;
    }
    if !block.hosts.is_empty() {
        push(text, " of ")?;
        push_value(text, block.hosts)?;
    }
    Ok(())
}

/// Adds how many others there are.
fn push_others(text: &mut Vec<u8>, others: usize) -> Result<(), AllocError> {
    push_number(text, others as u64)?;
    push(text, if others == 1 { " other" } else { " others" })
}

/// Adds which block something stands in.
pub fn push_holder(text: &mut Vec<u8>, block: &Block) -> Result<(), AllocError> {
    push(text, "    in ")?;
    push_block(text, named(block))
}

/// Adds the name of a directive, of a long one a front.
pub fn push_name(text: &mut Vec<u8>, name: &[u8]) -> Result<(), AllocError> {
    text.extend_from_slice(&name[..shown_end(name)])
}

/// Adds the second line of a fault: the block that holds the value, and which blocks have it from there.
fn push_blocks(
    text: &mut Vec<u8>,
    blocks: &[Block],
    telling: &Telling<'_>,
) -> Result<(), AllocError> {
    let Some(holder) = blocks.get(telling.holder) else {
        return Ok(());
    };
    push_holder(text, holder)?;
    if telling.user != telling.holder {
        if let Some(user) = blocks.get(telling.user) {
            push(text, ", which ")?;
            push_block(text, named(user))?;
            if telling.others > 0 {
                push(text, " and ")?;
                push_others(text, telling.others)?;
                push(text, " use")?;
            } else {
                push(text, " uses")?;
            }
        }
    } else if telling.others > 0 {
        push(text, ", which ")?;
        push_others(text, telling.others)?;
        push(text, if telling.others == 1 { " uses" } else { " use" })?;
    }
    text.push(b'\n')?;
    Ok(())
}

/// Adds the digits of a number.
fn push_digits(text: &mut Vec<u8>, number: u64) -> Result<(), AllocError>
    ensures { OnOk result (text.new.items ≡ text.old.items ++ decimal number) }
{
    let mut buffer = Buffer::new();
    text.extend_from_slice(buffer.format(number).as_bytes())?;
    Ok(())
}

/// Adds the place of a line: `FILE:LINE: `.
pub fn push_place(text: &mut Vec<u8>, sources: &[Source<'_>], line: u64) -> Result<(), AllocError>
    ensures { OnOk result (text.new.items ≡ text.old.items ++ place_text sources.now line) }
{
    let (file, number) = located(sources, line);
    push(text, file)?;
    push(text, ":")?;
    push_digits(text, number)?;
    push(text, ": ")?;
    Ok(())
}

/// The line of the block at the place.
fn line_at(blocks: &[Block], place: usize) -> u64
    ensures { result ≡ line_at blocks.now place }
{
    match blocks.get(place) {
        None => 0,
        Some(block) => block.line,
    }
}

/// The word for the block at the place.
fn word_at(blocks: &[Block], place: usize) -> &'static str {
    match blocks.get(place) {
        None => "",
        Some(block) => kind_word(block.kind),
    }
}

/// Adds how the lines begin that tell the fault.
fn push_head(
    text: &mut Vec<u8>,
    sources: &[Source<'_>],
    blocks: &[Block],
    telling: &Telling<'_>,
) -> Result<(), AllocError>
    ensures { OnOk result (text.new.items
        ≡ text.old.items ++ head_text sources.now blocks.now telling.now) }
{
    push_place(text, sources, line_at(blocks, telling.holder))?;
    push(text, telling.fault.name())?;
    Ok(())
}

/// Adds what is wrong, and an earlier block of which this is the line.
fn push_what(
    text: &mut Vec<u8>,
    sources: &[Source<'_>],
    blocks: &[Block],
    telling: &Telling<'_>,
) -> Result<(), AllocError> {
    if !telling.directive.is_empty() {
        push(text, ": ")?;
        push_name(text, telling.directive)?;
    }
    if !matches!(telling.detail, Detail::Unsaid) {
        push(text, ": ")?;
        push_detail(text, telling, word_at(blocks, telling.holder))?;
    }
    if let Detail::Doubled(earlier) = telling.detail {
        push(text, ", at ")?;
        let (file, number) = located(sources, earlier);
        push(text, file)?;
        push(text, ":")?;
        push_digits(text, number)?;
    }
    Ok(())
}

/// What the lines that tell the fault say after the place and its name.
fn rest_of(
    alloc: Global,
    sources: &[Source<'_>],
    blocks: &[Block],
    telling: &Telling<'_>,
) -> Result<Vec<u8>, AllocError> {
    let mut text = Vec::new(alloc);
    push_what(&mut text, sources, blocks, telling)?;
    if let Some(near) = telling.near {
        push(&mut text, "; did you mean ")?;
        push_value(&mut text, near)?;
        text.push(b'?')?;
    }
    text.push(b'\n')?;
    push_blocks(&mut text, blocks, telling)?;
    Ok(text)
}

/// Adds the lines that tell the fault: the first begins with the place of the block that holds the value, and the fault's name.
pub fn push_telling(
    alloc: Global,
    text: &mut Vec<u8>,
    sources: &[Source<'_>],
    blocks: &[Block],
    telling: &Telling<'_>,
) -> Result<(), AllocError>
    ensures { OnOk result
        (Tells sources.now blocks.now telling.now text.old.items text.new.items) }
{
    push_head(text, sources, blocks, telling)?;
    let rest = rest_of(alloc, sources, blocks, telling)?;
    text.extend_from_slice(rest.as_slice())?;
    Ok(())
}
