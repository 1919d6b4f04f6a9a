//! The faults of lines, as they are told.

ghost use Rattle.std.specs.Prelude.{OnOk};
ghost use Rattle.object_reader.specs.Fault.{fault_name};
ghost use Rattle.site_check.specs.Checked.{AreLines};

use crate::options::Form;
use faults_told::forms::{begin, push_member};
use faults_told::located::Source;
use faults_told::text_forms::{push, push_place, push_value};
use object_reader::fault::LineFault;
use std::alloc::{AllocError, Global};

/// The line of that number, from 1; empty where there are fewer.
pub(crate) fn line_at(text: &[u8], number: u64) -> &[u8] {
    let mut left = number;
    let mut start = 0;
    for at in 0..text.len() {
        if text[at] == b'\n' {
            if left <= 1 {
                return &text[start..at];
            }
            left -= 1;
            start = at + 1;
        }
    }
    if left <= 1 { &text[start..] } else { &[] }
}

/// What may be wrong with a line, in words; none where the line says it itself.
fn line_hint(line: &[u8], fault: LineFault) -> Option<&'static str> {
    match (line, fault) {
        ([0xEF, 0xBB, 0xBF, ..], LineFault::NotADefine) => {
            Some("the line begins with a byte order mark")
        }
        (_, LineFault::NotUtf8) => Some("the line isn't UTF-8; it may be Latin-1"),
        (_, LineFault::Unclosed) => Some("its `}` is missing"),
        (_, LineFault::LineTooLong) => Some("the line has more than 4,096 bytes"),
        _ => None,
    }
}

/// What the line that tells what is wrong with a line says after its place and the fault's name.
fn rest_of(alloc: Global, line: &[u8], fault: LineFault) -> Result<Vec<u8>, AllocError> {
    let mut text = Vec::new(alloc);
    push(&mut text, ": ")?;
    match line_hint(line, fault) {
        Some(words) => push(&mut text, words)?,
        None => push_value(&mut text, line)?,
    }
    text.push(b'\n')?;
    Ok(text)
}

/// Adds the line that tells what is wrong with a line: it begins with its place and the fault's name.
pub(crate) fn push_plain_line_fault(
    alloc: Global,
    text: &mut Vec<u8>,
    sources: &[Source<'_>],
    line: &[u8],
    number: u64,
    fault: LineFault,
) -> Result<(), AllocError>
    ensures { OnOk result
        (AreLines sources.now number (fault_name fault) text.old.items text.new.items) }
{
    push_place(text, sources, number)?;
    push(text, fault.name())?;
    let rest = rest_of(alloc, line, fault)?;
    text.extend_from_slice(rest.as_slice())?;
    Ok(())
}

/// Adds what is wrong with a line.
pub(crate) fn push_line_fault(
    alloc: Global,
    text: &mut Vec<u8>,
    form: Form<'_, '_>,
    line: &[u8],
    number: u64,
    fault: LineFault,
) -> Result<(), AllocError> {
    if !form.json {
        return push_plain_line_fault(alloc, text, form.sources, line, number, fault);
    }
    begin(text, form.sources, number)?;
    push_member(text, "fault", fault.name().as_bytes())?;
    if let Some(words) = line_hint(line, fault) {
        push_member(text, "detail", words.as_bytes())?;
    }
    push(text, "}\n")
}
