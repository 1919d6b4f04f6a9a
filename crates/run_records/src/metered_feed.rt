//! A feed whose lines are looked at as they come.

ghost use Rattle.std.specs.Prelude.{◌≡◌};

use crate::feed_times::FeedTimes;
use std::alloc::Global;
use std::io::{self, Read};
use std::marker::Model;
use std::sync::Arc;
use text_lines::Input;

/// What stands after the stamp of a clock's line.
const CLOCK: &[u8] = b" CLOCK";

/// Where in its line a byte stands.
#[derive(Clone, Copy, Debug, PartialEq, Eq)]
enum Place {
    /// It is the first.
    Begin,
    /// It is the stamp's first.
    Open,
    /// It is in the stamp, or after it.
    Stamp,
    /// So many bytes of what stands after the stamp of a clock's line came before.
    Word(u8),
    /// The line isn't the clock's.
    Other,
}

/// The place after this one and a byte that doesn't end the line.
fn after(place: Place, byte: u8) -> Place {
    match place {
        Place::Begin => {
            if byte == b'[' {
                Place::Open
            } else {
                Place::Other
            }
        }
        Place::Open => {
            if byte.is_ascii_digit() {
                Place::Stamp
            } else {
                Place::Other
            }
        }
        Place::Stamp => {
            if byte == b']' {
                Place::Word(0)
            } else if byte.is_ascii_digit() {
                Place::Stamp
            } else {
                Place::Other
            }
        }
        Place::Word(count) => {
            if CLOCK.get(usize::from(count)).copied() == Some(byte) {
                Place::Word(count.saturating_add(1))
            } else {
                Place::Other
            }
        }
        Place::Other => Place::Other,
    }
}

/// Whether a line that ends here is the clock's.
fn is_clock(place: Place) -> bool {
    match place {
        Place::Word(count) => usize::from(count) == CLOCK.len(),
        _ => false,
    }
}

/// Looks at the next bytes of a feed, from a place in a line on: where they leave it, whether a line ends in them, and whether a line of
/// the clock does.
fn look(from: Place, bytes: &[u8]) -> (Place, bool, bool) {
    let mut place = from;
    let mut has_line = false;
    let mut has_clock = false;
    for byte in bytes {
        if *byte == b'\n' {
            has_line = true;
            has_clock = has_clock || is_clock(place);
            place = Place::Begin;
        } else {
            place = after(place, *byte);
        }
    }
    (place, has_line, has_clock)
}

/// Notes the next bytes of a feed, from a place in a line on, where they are to be noted. It gives where they leave it.
fn noted(times: Option<&Arc<FeedTimes, Global>>, from: Place, bytes: &[u8]) -> Place {
    let Some(times) = times else {
        return from;
    };
    let (place, has_line, has_clock) = look(from, bytes);
    if has_line {
        times.see(has_clock);
    }
    place
}

/// A feed of a run, when whose lines come is noted where that is wanted.
#[derive(Drop)]
pub struct MeteredFeed<R: Input> {
    reader: R,
    times: Option<Arc<FeedTimes, Global>>,
    place: Place,
}

impl<R: Input> Model for MeteredFeed<R> {
    ghost use Rattle.std.specs.Prelude.{ℕ, List, Option};

    ghost Value = { Option (List ℕ) };

    ghost view = { λ s. R.remaining s.reader };
}

impl<R: Input> MeteredFeed<R> {
    /// This feed, of which nothing was read.
    pub fn new(reader: R, times: Option<Arc<FeedTimes, Global>>) -> Self
        ensures { result ≡ R.remaining reader }
    {
        MeteredFeed {
            reader,
            times,
            place: Place::Begin,
        }
    }
}

impl<R: Input> Read for MeteredFeed<R> {
    ghost remaining = { λ known. known };

    fn read(&mut self, buffer: &mut [u8]) -> io::Result<usize> {
        let count = self.reader.read(buffer)?;
        self.place = noted(self.times.as_ref(), self.place, &buffer[..count]);
        Ok(count)
    }
}

impl<R: Input> Input for MeteredFeed<R> {
    ghost can_fail = { R.can_fail };

    fn read_input(&mut self, buffer: &mut [u8]) -> io::Result<usize> {
        let count = self.reader.read_input(buffer)?;
        self.place = noted(self.times.as_ref(), self.place, &buffer[..count]);
        Ok(count)
    }
}
