//! The name of a journal's file.

ghost use Rattle.std.specs.Prelude.{◌≡◌, ◌++◌, ◌<◌, IfOk, OnOk};
ghost use Rattle.journal_folder.specs.FileName.{escaped, file_name, hex_digit, is_plain};

use itoa::Buffer;
use std::alloc::{AllocError, Global};

/// Whether a byte stands in the name as it is.
fn is_plain(byte: u8) -> bool
    ensures { result ≡ is_plain byte }
{
    (48 <= byte && byte <= 57)
        || (65 <= byte && byte <= 90)
        || (97 <= byte && byte <= 122)
        || byte == 45
        || byte == 95
}

/// A hexadecimal digit.
fn hex_digit(digit: u8) -> u8
    requires { digit < 16 }
    ensures { result ≡ hex_digit digit }
{
    if digit < 10 { digit + 48 } else { digit + 55 }
}

/// Adds a byte, as it is or escaped.
fn push_escaped(name: &mut Vec<u8>, byte: u8) -> Result<(), AllocError>
    ensures { OnOk result (name.new.items ≡ name.old.items ++ escaped byte) }
{
    if is_plain(byte) {
        name.push(byte)?;
        return Ok(());
    }
    name.extend_from_slice(&[37, hex_digit(byte / 16), hex_digit(byte % 16)])
}

/// The name of the journal of a lane's channel of this number: the command's name, where each byte but letters, digits, `-` and `_` is
/// `%` and two hexadecimal digits, a point and the number. A refused growth is the only error.
pub fn file_name(alloc: Global, lane: &[u8], number: u8) -> Result<Vec<u8>, AllocError>
    ensures { IfOk result (λ name. name.items ≡ file_name lane.now number) }
{
    let mut name = Vec::new(alloc);
    for byte in lane {
        push_escaped(&mut name, *byte)?;
    }
    name.push(b'.')?;
    let mut buffer = Buffer::new();
    name.extend_from_slice(buffer.format(number).as_bytes())?;
    Ok(name)
}
