//! Columns: names that are filled up with blanks, and colours.

ghost use Rattle.std.specs.Prelude.{◌≡◌, ◌-◌, ◌≤◌, ◌++◌, filter, length, max, replicate, unwrap_or, IfOk, OnOk};
ghost use Rattle.notice_text.specs.claims.Texts.{contact_text, object_text};
ghost use Rattle.pretty_lines.specs.Columns.{begins_character, characters, padded, paint, unpaint};
ghost use Rattle.pretty_lines.specs.Columns.{widest, widths_of};

use due_model::config::{Config, ContactId, ObjectId};
use notice_text::texts::{contact_name, push_object};
use std::alloc::{AllocError, Global};

/// No column is filled up to more characters.
const MOST_WIDTH: usize = 40;

/// How many numbers objects and contacts may have.
const NUMBERS: u32 = 65_536;

/// How wide the columns of names are, in characters: at most 40.
#[derive(Clone, Copy, Debug)]
pub struct Widths {
    pub object: usize,
    pub contact: usize,
}

/// How lines look.
#[derive(Clone, Copy, Debug)]
pub struct Look {
    pub widths: Widths,
    /// Whether they have colours, for a terminal.
    pub coloured: bool,
}

/// Whether a byte of UTF-8 begins a character.
fn begins_character(byte: u8) -> bool
    ensures { result ≡ begins_character byte }
{
    !(128 <= byte && byte < 192)
}

/// How many characters a text has.
fn characters(text: &[u8]) -> usize
    ensures { result ≡ characters text.now }
{
    text.iter().filter(|byte| begins_character(**byte)).count()
}

/// Adds blanks.
fn push_blanks(text: &mut Vec<u8>, count: usize) -> Result<(), AllocError>
    ensures { OnOk result (text.new.items ≡ text.old.items ++ replicate count 32) }
{
    for _done in 0..count {
        text.push(b' ')?;
    }
    Ok(())
}

/// Adds a text, and blanks up to a width, in characters. A refused growth is the only error.
#[tactic(auto, unfolding(crate::specs::Columns::padded))]
pub fn push_padded(text: &mut Vec<u8>, value: &[u8], width: usize) -> Result<(), AllocError>
    ensures { OnOk result (text.new.items ≡ text.old.items ++ padded width value.now) }
{
    text.extend_from_slice(value)?;
    push_blanks(text, width.saturating_sub(characters(value)))
}

/// Adds an object in a column.
pub(crate) fn push_object_padded(
    alloc: Global,
    text: &mut Vec<u8>,
    config: &Config,
    object: ObjectId,
    width: usize,
) -> Result<(), AllocError>
    ensures { OnOk result
        (text.new.items ≡ text.old.items ++ padded width (object_text config.now object.0)) }
{
    let mut name = Vec::new(alloc);
    push_object(&mut name, config, object)?;
    push_padded(text, &name, width)
}

/// How many characters the name of an object has.
fn object_width(alloc: Global, config: &Config, object: ObjectId) -> Result<usize, AllocError>
    ensures { IfOk result (λ width. width ≡ characters (object_text config.now object.0)) }
{
    let mut name = Vec::new(alloc);
    push_object(&mut name, config, object)?;
    Ok(characters(&name))
}

/// The width of the longest name among the first objects.
fn widest_object(alloc: Global, config: &Config, count: u32) -> Result<usize, AllocError>
    requires { count ≤ 65536 }
    ensures { IfOk result (λ width. width ≡ widest (object_text config.now) count) }
{
    let mut widest = 0usize;
    for number in 0..count {
        widest = widest.max(object_width(alloc, config, ObjectId(number as u16))?);
    }
    Ok(widest)
}

/// The width of the longest name among the first contacts.
fn widest_contact(config: &Config, count: u32) -> usize
    requires { count ≤ 65536 }
    ensures { result ≡ widest (contact_text config.now) count }
{
    let mut widest = 0usize;
    for number in 0..count {
        widest = widest.max(characters(contact_name(config, ContactId(number as u16))));
    }
    widest
}

/// How wide the columns of a configuration are.
#[tactic(auto, unfolding(crate::specs::Columns::widths_of))]
fn widths_of(alloc: Global, config: &Config) -> Result<Widths, AllocError>
    ensures { IfOk result (λ widths. widths ≡ widths_of config.now) }
{
    Ok(Widths {
        object: widest_object(alloc, config, NUMBERS)?.min(MOST_WIDTH),
        contact: widest_contact(config, NUMBERS).min(MOST_WIDTH),
    })
}

/// How wide the columns of a configuration are, where that is known already or isn't. A refused growth is the only error.
pub fn widths_in(
    alloc: Global,
    config: &Config,
    known: Option<Widths>,
) -> Result<Widths, AllocError>
    ensures { IfOk result (λ widths. widths ≡ unwrap_or known (widths_of config.now)) }
{
    match known {
        Some(widths) => Ok(widths),
        None => widths_of(alloc, config),
    }
}

/// Adds what begins a colour, given by its number for a terminal, where there are colours. A refused growth is the only error.
pub fn push_paint(text: &mut Vec<u8>, coloured: bool, colour: &[u8]) -> Result<(), AllocError>
    ensures { OnOk result (text.new.items ≡ text.old.items ++ paint coloured colour.now) }
{
    if !coloured {
        return Ok(());
    }
    text.extend_from_slice(b"\x1b[")?;
    text.extend_from_slice(colour)?;
    text.extend_from_slice(b"m")
}

/// Adds what ends it. A refused growth is the only error.
pub fn push_unpaint(text: &mut Vec<u8>, coloured: bool) -> Result<(), AllocError>
    ensures { OnOk result (text.new.items ≡ text.old.items ++ unpaint coloured) }
{
    if !coloured {
        return Ok(());
    }
    text.extend_from_slice(b"\x1b[0m")
}
