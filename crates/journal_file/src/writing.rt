//! Bytes to a writer, whole.

ghost use Rattle.std.specs.Prelude.{◌≡◌, true};
ghost use Rattle.std.specs.Io.KnownBytes.{Appends};
ghost use Rattle.written.specs.claims.Written.{WritesFront};

use channel_kinds::stream::Outlet;

/// Writes all of the bytes, and flushes. False: a front of them was written.
pub fn write_flushed<W: Outlet>(writer: &mut W, bytes: &[u8]) -> bool
    ensures whole { result ≡ true → Appends (W.contents writer.old) (W.contents writer.new) bytes.now }
    ensures flushed { result ≡ true → W.is_flushed writer.new ≡ true }
    ensures front { WritesFront (W.contents writer.old) (W.contents writer.new) bytes.now }
{
    let mut rest = bytes;
    while !rest.is_empty() {
        match writer.write_out(rest) {
            Ok(0) | Err(_) => return false,
            Ok(count) => rest = &rest[count..],
        }
    }
    writer.flush_out().is_ok()
}
