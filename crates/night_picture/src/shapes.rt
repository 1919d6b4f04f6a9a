//! The shapes of a picture as SVG, and the escapes of XML.

ghost use Rattle.std.specs.Prelude.{◌≡◌, ◌++◌, decimal, flat_map, OnOk};
ghost use Rattle.night_picture.specs.Shapes.{LeavesNoMarkup, attribute, bar_front, bar_text};
ghost use Rattle.night_picture.specs.Shapes.{corner_text, cut_end, cut_front, cut_text};
ghost use Rattle.night_picture.specs.Shapes.{escaped, escaped_text, round_text, size_text, titled};
ghost use Rattle.night_picture.specs.Shapes.{words_front, words_text};

use itoa::Buffer;
use std::alloc::AllocError;

/// A place and a size, in pixels.
#[derive(Clone, Copy)]
pub(crate) struct Place {
    pub(crate) x: u64,
    pub(crate) y: u64,
    pub(crate) width: u64,
    pub(crate) height: u64,
}

/// Adds a byte of a text: what XML would read as its own is escaped.
#[tactic(auto, unfolding(crate::specs::Shapes::escaped))]
fn push_escaped(text: &mut Vec<u8>, byte: u8) -> Result<(), AllocError>
    ensures { OnOk result (text.new.items ≡ text.old.items ++ escaped byte) }
{
    if byte == b'&' {
        return text.extend_from_slice(b"&amp;");
    }
    if byte == b'<' {
        return text.extend_from_slice(b"&lt;");
    }
    if byte == b'>' {
        return text.extend_from_slice(b"&gt;");
    }
    if byte == b'"' {
        return text.extend_from_slice(b"&quot;");
    }
    if byte == b'\'' {
        return text.extend_from_slice(b"&#39;");
    }
    if byte < b' ' || byte == 127 {
        return text.extend_from_slice(b"?");
    }
    text.extend_from_slice(&[byte])
}

/// Adds a text, escaped. A refused growth is the only error.
#[tactic(auto, unfolding(crate::specs::Shapes::escaped_text))]
pub(crate) fn push_text(text: &mut Vec<u8>, bytes: &[u8]) -> Result<(), AllocError>
    ensures { OnOk result (text.new.items ≡ text.old.items ++ escaped_text bytes.now) }
{
    for byte in bytes {
        push_escaped(text, *byte)?;
    }
    Ok(())
}

/// Of an escaped text nothing is left that would begin or end a tag or a value.
pub fn escaped_texts_have_no_markup()
    ensures { LeavesNoMarkup }
{}

/// Adds a number in decimal digits.
pub(crate) fn push_decimal(text: &mut Vec<u8>, number: u64) -> Result<(), AllocError>
    ensures { OnOk result (text.new.items ≡ text.old.items ++ decimal number) }
{
    let mut buffer = Buffer::new();
    text.extend_from_slice(buffer.format(number).as_bytes())
}

/// Adds an attribute whose value is a number.
#[tactic(auto, unfolding(crate::specs::Shapes::attribute))]
pub(crate) fn push_attribute(text: &mut Vec<u8>, front: &[u8], value: u64) -> Result<(), AllocError>
    ensures { OnOk result (text.new.items ≡ text.old.items ++ attribute front.now value) }
{
    text.extend_from_slice(front)?;
    push_decimal(text, value)?;
    text.extend_from_slice(b"\"")
}

/// Adds where something is.
#[tactic(auto, unfolding(crate::specs::Shapes::corner_text))]
fn push_corner(text: &mut Vec<u8>, x: u64, y: u64) -> Result<(), AllocError>
    ensures { OnOk result (text.new.items ≡ text.old.items ++ corner_text x y) }
{
    push_attribute(text, b" x=\"", x)?;
    push_attribute(text, b" y=\"", y)
}

/// Adds how large something is.
#[tactic(auto, unfolding(crate::specs::Shapes::size_text))]
pub(crate) fn push_size(text: &mut Vec<u8>, width: u64, height: u64) -> Result<(), AllocError>
    ensures { OnOk result (text.new.items ≡ text.old.items ++ size_text width height) }
{
    push_attribute(text, b" width=\"", width)?;
    push_attribute(text, b" height=\"", height)
}

/// Adds the title of a shape, and what ends it.
#[tactic(auto, unfolding(crate::specs::Shapes::titled))]
fn push_titled(text: &mut Vec<u8>, title: &[u8], end: &[u8]) -> Result<(), AllocError>
    ensures { OnOk result (text.new.items ≡ text.old.items ++ titled title.now end.now) }
{
    text.extend_from_slice(b"\"><title>")?;
    text.extend_from_slice(title)?;
    text.extend_from_slice(b"</title>")?;
    text.extend_from_slice(end)
}

/// Adds how a bar begins.
#[tactic(auto, unfolding(crate::specs::Shapes::bar_front))]
fn push_bar_front(text: &mut Vec<u8>, place: Place) -> Result<(), AllocError>
    ensures { OnOk result (text.new.items ≡ text.old.items
        ++ bar_front place.x place.y place.width place.height) }
{
    text.extend_from_slice(b"<rect")?;
    push_corner(text, place.x, place.y)?;
    push_size(text, place.width, place.height)?;
    text.extend_from_slice(b" fill=\"")
}

/// Adds a bar of a colour, with a title.
#[tactic(auto, unfolding(crate::specs::Shapes::bar_text))]
pub(crate) fn push_bar(
    text: &mut Vec<u8>,
    place: Place,
    colour: &[u8],
    title: &[u8],
) -> Result<(), AllocError>
    ensures { OnOk result (text.new.items ≡ text.old.items
        ++ bar_text place.x place.y place.width place.height colour.now title.now) }
{
    push_bar_front(text, place)?;
    text.extend_from_slice(colour)?;
    push_titled(text, title, b"</rect>\n")
}

/// Adds a round mark.
#[tactic(auto, unfolding(crate::specs::Shapes::round_text))]
pub(crate) fn push_round(
    text: &mut Vec<u8>,
    front: &[u8],
    x: u64,
    y: u64,
    paint: &[u8],
    title: &[u8],
) -> Result<(), AllocError>
    ensures { OnOk result (text.new.items ≡ text.old.items
        ++ round_text front.now x y paint.now title.now) }
{
    push_attribute(text, front, x)?;
    push_attribute(text, b" cy=\"", y)?;
    text.extend_from_slice(paint)?;
    push_titled(text, title, b"</circle>\n")
}

/// Adds how a text begins.
#[tactic(auto, unfolding(crate::specs::Shapes::words_front))]
fn push_words_front(text: &mut Vec<u8>, front: &[u8], x: u64, y: u64) -> Result<(), AllocError>
    ensures { OnOk result (text.new.items ≡ text.old.items ++ words_front front.now x y) }
{
    text.extend_from_slice(front)?;
    push_corner(text, x, y)?;
    text.extend_from_slice(b">")
}

/// Adds a text at a place.
#[tactic(auto, unfolding(crate::specs::Shapes::words_text))]
pub(crate) fn push_words(
    text: &mut Vec<u8>,
    front: &[u8],
    x: u64,
    y: u64,
    words: &[u8],
) -> Result<(), AllocError>
    ensures { OnOk result (text.new.items ≡ text.old.items ++ words_text front.now x y words.now) }
{
    push_words_front(text, front, x, y)?;
    text.extend_from_slice(words)?;
    text.extend_from_slice(b"</text>\n")
}

/// Adds how a text begins that is cut off.
#[tactic(auto, unfolding(crate::specs::Shapes::cut_front))]
fn push_cut_front(text: &mut Vec<u8>, place: Place) -> Result<(), AllocError>
    ensures { OnOk result (text.new.items ≡ text.old.items
        ++ cut_front place.x place.y place.width place.height) }
{
    text.extend_from_slice(b"<svg")?;
    push_corner(text, place.x, place.y)?;
    push_size(text, place.width, place.height)?;
    text.extend_from_slice(b"><title>")
}

/// Adds how it ends: with the text itself, after its title.
#[tactic(auto, unfolding(crate::specs::Shapes::cut_end))]
fn push_cut_end(text: &mut Vec<u8>, words: &[u8]) -> Result<(), AllocError>
    ensures { OnOk result (text.new.items ≡ text.old.items ++ cut_end words.now) }
{
    text.extend_from_slice(b"</title><text x=\"4\" y=\"15\">")?;
    text.extend_from_slice(words)?;
    text.extend_from_slice(b"</text></svg>\n")
}

/// Adds a text that is cut off at a width.
#[tactic(auto, unfolding(crate::specs::Shapes::cut_text))]
pub(crate) fn push_cut(text: &mut Vec<u8>, place: Place, words: &[u8]) -> Result<(), AllocError>
    ensures { OnOk result (text.new.items ≡ text.old.items
        ++ cut_text place.x place.y place.width place.height words.now) }
{
    push_cut_front(text, place)?;
    text.extend_from_slice(words)?;
    push_cut_end(text, words)
}
