//! A fault as an object of JSON.

use crate::blocks_named::{NamedBlock, named};
use crate::located::{Source, located};
use crate::telling::{Telling, kind_word};
use crate::text_forms::{push, push_detail};
use itoa::Buffer;
use object_reader::block::Block;
use std::alloc::{AllocError, Global};

/// Adds a byte of a string: a quote, a backslash and control characters are escaped.
fn push_escaped(text: &mut Vec<u8>, byte: u8) -> Result<(), AllocError> {
    if byte == b'"' || byte == b'\\' {
        return text.extend_from_slice(&[b'\\', byte]);
    }
    if byte < b' ' {
        return text.extend_from_slice(&[b'\\', b'u', b'0', b'0', hex(byte / 16), hex(byte % 16)]);
    }
    text.extend_from_slice(&[byte])
}

/// The hexadecimal digit of a number below 16.
fn hex(digit: u8) -> u8 {
    match digit {
        0..=9 => b'0' + digit,
        10..=15 => b'a' + (digit - 10),
        _ => b'0',
    }
}

/// Adds bytes as a string.
pub fn push_string(text: &mut Vec<u8>, bytes: &[u8]) -> Result<(), AllocError> {
    text.push(b'"')?;
    for byte in bytes {
        push_escaped(text, *byte)?;
    }
    text.push(b'"')?;
    Ok(())
}

/// Adds a member with a string.
pub fn push_member(text: &mut Vec<u8>, name: &str, value: &[u8]) -> Result<(), AllocError> {
    text.push(b',')?;
    push_string(text, name.as_bytes())?;
    text.push(b':')?;
    push_string(text, value)
}

/// Adds a member with a number.
pub fn push_count(text: &mut Vec<u8>, name: &str, number: u64) -> Result<(), AllocError> {
    text.push(b',')?;
    push_string(text, name.as_bytes())?;
    text.push(b':')?;
    let mut buffer = Buffer::new();
    text.extend_from_slice(buffer.format(number).as_bytes())
}

/// Adds the members that say where a line stands, and the brace before them.
pub fn begin(text: &mut Vec<u8>, sources: &[Source<'_>], line: u64) -> Result<(), AllocError> {
    let (file, number) = located(sources, line);
    push(text, "{\"file\":")?;
    push_string(text, file.as_bytes())?;
    push_count(text, "line", number)
}

/// Adds a block as a member.
pub fn push_block(text: &mut Vec<u8>, name: &str, block: NamedBlock<'_>) -> Result<(), AllocError> {
    text.push(b',')?;
    push_string(text, name.as_bytes())?;
    push(text, ":{\"type\":")?;
    push_string(text, block.kind.as_bytes())?;
    push(text, ",\"template\":")?;
    push(text, if block.is_template { "true" } else { "false" })?;
    push_member(text, "name", block.name)?;
    if !block.hosts.is_empty() {
        push_member(text, "hosts", block.hosts)?;
    }
    push(text, "}")
}

/// Adds the line that tells the fault: an object.
pub fn push_json(
    alloc: Global,
    text: &mut Vec<u8>,
    sources: &[Source<'_>],
    blocks: &[Block],
    telling: &Telling<'_>,
) -> Result<(), AllocError> {
    let Some(holder) = blocks.get(telling.holder) else {
        return Ok(());
    };
    begin(text, sources, holder.line)?;
    push_member(text, "fault", telling.fault.name().as_bytes())?;
    push_member(text, "directive", telling.directive)?;
    push_member(text, "value", telling.value)?;
    let mut detail = Vec::new(alloc);
    push_detail(&mut detail, telling, kind_word(holder.kind))?;
    push_member(text, "detail", detail.as_slice())?;
    if let Some(near) = telling.near {
        push_member(text, "near", near)?;
    }
    push_block(text, "in", named(holder))?;
    if let Some(user) = blocks.get(telling.user) {
        push_block(text, "first", named(user))?;
    }
    push_count(text, "others", telling.others as u64)?;
    push(text, "}\n")
}
