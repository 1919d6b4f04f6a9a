//! The line by which a feed tells of time.

ghost use Rattle.std.specs.Prelude.{◌≡◌, ◌++◌, IfOk};
ghost use Rattle.feed_file.specs.ClockLine.{clock_line, minute_of};

use itoa::Buffer;
use std::alloc::{AllocError, Global};

/// How many seconds a minute has.
const MINUTE: u64 = 60;

/// The line that says that it is this second of the epoch, with its newline. A refused growth is the only error.
pub fn clock_line(alloc: Global, now: u64) -> Result<Vec<u8>, AllocError>
    ensures { IfOk result (λ line. line.items ≡ clock_line now) }
{
    let mut buffer = Buffer::new();
    let mut line = Vec::new(alloc);
    line.extend_from_slice(b"[")?;
    line.extend_from_slice(buffer.format(now).as_bytes())?;
    line.extend_from_slice(b"] CLOCK\n")?;
    Ok(line)
}

/// Which minute of the epoch a second is of.
pub fn minute_of(now: u64) -> u64
    ensures { result ≡ minute_of now }
{
    now / MINUTE
}
