//! Readers that give their bytes in pieces, and that fail.

ghost use Rattle.std.specs.Prelude.{◌≡◌, ◌+◌, ◌^◌};

use std::cell::Cell;
use std::io::{self, ErrorKind, Read};

/// Some bytes in pieces of a size. It fails once so many calls were made.
#[derive(Drop)]
pub struct Pieces<'a> {
    /// What is left of the bytes.
    pub bytes: &'a [u8],
    /// The greatest number of bytes that a call gives.
    pub size: usize,
    /// How many calls it answers before it fails.
    pub calls: usize,
}

impl Read for Pieces<'_> {
    fn read(&mut self, buf: &mut [u8]) -> io::Result<usize> {
        if self.calls == 0 {
            return Err(io::Error::from(ErrorKind::Other));
        }
        self.calls -= 1;
        let count = self.size.min(buf.len()).min(self.bytes.len());
        let (front, rest) = self.bytes.split_at(count);
        buf[..count].copy_from_slice(front);
        self.bytes = rest;
        Ok(count)
    }
}

/// Some bytes in pieces of a size, without a fault.
pub fn in_pieces(bytes: &[u8], size: usize) -> Pieces<'_>
    ensures bytes { result.bytes.now ≡ bytes.now }
    ensures size { result.size ≡ size }
    ensures calls { result.calls + 1 ≡ 2 ^ 64 }
{
    Pieces {
        bytes,
        size,
        calls: usize::MAX,
    }
}

/// So many bytes `x`, and then a text, in pieces of a size.
#[derive(Drop)]
pub struct Exes<'a> {
    /// How many bytes `x` are left.
    pub left: usize,
    /// What comes after them.
    pub after: &'a [u8],
    /// The greatest number of bytes that a call gives.
    pub size: usize,
}

impl Read for Exes<'_> {
    fn read(&mut self, buf: &mut [u8]) -> io::Result<usize> {
        let most = self.size.min(buf.len());
        if self.left == 0 {
            let count = most.min(self.after.len());
            let (front, rest) = self.after.split_at(count);
            buf[..count].copy_from_slice(front);
            self.after = rest;
            return Ok(count);
        }
        let count = most.min(self.left);
        buf[..count].fill(b'x');
        self.left -= count;
        Ok(count)
    }
}

/// A reader that gives its lines one a call, and notes how much was written when it was last called, and what is left.
#[derive(Drop)]
pub struct Watching<'a> {
    /// What is left of the lines.
    pub lines: &'a [u8],
    /// How much was written.
    pub written: &'a Cell<usize>,
    /// How much that was at the last call.
    pub noted: &'a Cell<usize>,
    /// How many bytes are left.
    pub left: &'a Cell<usize>,
}

impl Read for Watching<'_> {
    fn read(&mut self, buf: &mut [u8]) -> io::Result<usize> {
        self.noted.set(self.written.get());
        let line = self.lines.iter().position(|byte| *byte == b'\n');
        let count = match line {
            Some(place) => buf.len().min(place.saturating_add(1)).min(self.lines.len()),
            None => self.lines.len().min(buf.len()),
        };
        let (front, rest) = self.lines.split_at(count);
        buf[..count].copy_from_slice(front);
        self.lines = rest;
        self.left.set(rest.len());
        Ok(count)
    }
}
