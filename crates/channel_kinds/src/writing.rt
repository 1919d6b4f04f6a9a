//! Bytes to a writer.

ghost use Rattle.std.specs.Prelude.{◌≡◌, true, OnOk};
ghost use Rattle.std.specs.Io.KnownBytes.{Appends};
ghost use Rattle.written.specs.claims.Written.{WritesFront};

use crate::stream::Outlet;

/// The device failed, or took nothing.
#[derive(Clone, Copy)]
pub(crate) struct DeviceFailed;

/// Writes all of the bytes, in as many calls as the writer wants. Where it fails or takes nothing, a front of
/// them was written.
pub(crate) fn write_whole<W: Outlet>(writer: &mut W, bytes: &[u8]) -> Result<(), DeviceFailed>
    ensures ok { OnOk result (Appends (W.contents writer.old) (W.contents writer.new) bytes.now) }
    ensures front { WritesFront (W.contents writer.old) (W.contents writer.new) bytes.now }
    ensures reads { W.reads writer.new ≡ W.reads writer.old }
{
    let mut rest = bytes;
    while !rest.is_empty() {
        match writer.write_out(rest) {
            Ok(0) | Err(_) => return Err(DeviceFailed),
            Ok(count) => rest = &rest[count..],
        }
    }
    Ok(())
}

/// Writes all of the bytes, and flushes. Where the writer fails or takes nothing, a front of them was written.
pub(crate) fn write_flushed<W: Outlet>(writer: &mut W, bytes: &[u8]) -> Result<(), DeviceFailed>
    ensures ok { OnOk result (Appends (W.contents writer.old) (W.contents writer.new) bytes.now) }
    ensures flushed { OnOk result (W.is_flushed writer.new ≡ true) }
    ensures front { WritesFront (W.contents writer.old) (W.contents writer.new) bytes.now }
    ensures reads { W.reads writer.new ≡ W.reads writer.old }
{
    write_whole(writer, bytes)?;
    match writer.flush_out() {
        Ok(()) => Ok(()),
        Err(_) => Err(DeviceFailed),
    }
}
