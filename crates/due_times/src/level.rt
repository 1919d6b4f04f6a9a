//! A level of the index: moments, or none, by place.

ghost use Rattle.std.specs.Prelude.{◌≡◌, ◌+◌, ◌*◌, ◌<◌, ◌≤◌, None, length};
ghost use Rattle.std.specs.Prelude.{slice_set, IfOk};
ghost use Rattle.due_times.specs.claims.Index.{at};
ghost use Rattle.due_times.specs.Index.{earlier, is_earlier};
ghost use Rattle.due_times.specs.Levels.{IsAbove};

use std::alloc::{AllocError, Global};
use std::marker::Model;

/// Whether one moment comes before another; none comes after every moment.
fn is_earlier(a: Option<u64>, b: Option<u64>) -> bool
    ensures { result ≡ is_earlier a b }
{
    match (a, b) {
        (None, _) => false,
        (Some(_), None) => true,
        (Some(a), Some(b)) => a < b,
    }
}

/// The earlier of two moments; the first, where none is.
fn earlier(a: Option<u64>, b: Option<u64>) -> Option<u64>
    ensures { result ≡ earlier a b }
{
    if is_earlier(b, a) { b } else { a }
}

/// Moments, or none, by place.
#[derive(Drop)]
pub(crate) struct Level {
    moments: Vec<Option<u64>>,
}

impl Model for Level {
    ghost use Rattle.std.specs.Prelude.{List, Option, ℕ};

    ghost Value = { List (Option ℕ) };

    ghost view = { λ s. s.moments.items };
}

impl Level {
    /// A level of these moments.
    pub(crate) fn new(moments: Vec<Option<u64>>) -> Level
        ensures { result ≡ moments.items }
    {
        Level { moments }
    }

    /// How many places there are.
    pub(crate) fn len(&self) -> usize
        ensures { result ≡ length self.now }
    {
        self.moments.len()
    }

    /// The moments, by place.
    pub(crate) fn as_slice(&self) -> &[Option<u64>]
        ensures { result.now ≡ self.now }
    {
        self.moments.as_slice()
    }

    /// The moment at a place; none beyond the last.
    pub(crate) fn at(&self, place: usize) -> Option<u64>
        ensures { result ≡ at self.now place }
    {
        if place < self.moments.len() {
            self.moments[place]
        } else {
            None
        }
    }

    /// The earlier of the two moments that stand for a place of the level above.
    pub(crate) fn of_pair(&self, place: usize) -> Option<u64>
        requires { place < length self.now }
        ensures { result ≡ earlier (at self.now (2 * place)) (at self.now (2 * place + 1)) }
    {
        let count = self.moments.len();
        if place >= count - place {
            return None;
        }
        earlier(self.at(place + place), self.at(place + place + 1))
    }

    /// Puts a moment, or none, at a place.
    pub(crate) fn set(&mut self, place: usize, moment: Option<u64>)
        requires { place < length self.old }
        ensures { self.new ≡ slice_set self.old place moment }
    {
        self.moments[place] = moment;
    }

    /// The level above: of each two places the earlier moment. A refused growth is the only error.
    pub(crate) fn above(&self, alloc: Global) -> Result<Level, AllocError>
        ensures { IfOk result (λ above. IsAbove self.now above) }
    {
        let count = self.moments.len();
        let pairs = count - count / 2;
        let mut made = Vec::with_capacity(alloc, pairs)?;
        for place in 0..pairs {
            made.push(self.of_pair(place))?;
        }
        Ok(Level { moments: made })
    }
}
