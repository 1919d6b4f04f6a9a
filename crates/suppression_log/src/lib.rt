//! The suppressions that were noted, in order: a list whose room can be made beforehand.
#![tactic(auto)]

ghost use Rattle.std.specs.Prelude.{◌≡◌, ◌+◌, ◌<◌, ◌≤◌, [], ◌∷◌, ◌++◌, IsOk};
ghost use Rattle.std.specs.Prelude.{OnOk, OnErr};

use due_model::notice::Suppression;
use std::alloc::{AllocError, Global};
use std::marker::Model;

/// Suppressions in the order in which they were noted, the oldest first. Contracts see the list, and how
/// many more it takes without asking for memory (its room).
#[derive(Drop)]
pub struct Log {
    lines: Vec<Suppression>,
}

impl Model for Log {
    ghost use Rattle.std.specs.Prelude.{◌-◌, vec_len, vec_capacity};
    ghost use Rattle.suppression_log.specs.Log.{Lines};

    ghost Value = { Lines };

    ghost view = { λ s. record {
      lines = s.lines.items;
      room = vec_capacity s.lines - vec_len s.lines;
    } };
}

impl Log {
    /// Nothing is noted. It takes no memory.
    pub fn new(alloc: Global) -> Log
        ensures { result.lines ≡ [] }
    {
        Log {
            lines: Vec::new(alloc),
        }
    }

    /// Makes room for so many suppressions: the next `count` pushes are Ok. A refused growth is the only
    /// error, and changes nothing.
    pub fn reserve(&mut self, count: usize) -> Result<(), AllocError>
        ensures room { OnOk result (count ≤ self.new.room) }
        ensures kept { self.old.room ≤ self.new.room }
        ensures lines { self.new.lines ≡ self.old.lines }
        ensures err { OnErr result (self.new ≡ self.old) }
    {
        self.lines.reserve(count)
    }

    /// Notes a suppression. Where there is room it takes no memory; a refused growth is the only error, and
    /// changes nothing.
    pub fn push(&mut self, suppression: Suppression) -> Result<(), AllocError>
        ensures ok { OnOk result (self.new.lines ≡ self.old.lines ++ suppression ∷ []) }
        ensures room { 0 < self.old.room → IsOk result }
        ensures less { self.old.room ≤ self.new.room + 1 }
        ensures err { OnErr result (self.new ≡ self.old) }
    {
        self.lines.reserve(1)?;
        match self.lines.push(suppression) {
            Ok(()) => Ok(()),
            Err(_) => unreachable!(),
        }
    }

    /// The suppressions, the oldest first.
    pub fn lines(&self) -> &[Suppression]
        ensures { result.now ≡ self.now.lines }
    {
        self.lines.as_slice()
    }

    /// The suppressions as a vector, the oldest first.
    pub fn into_lines(self) -> Vec<Suppression>
        ensures { result.items ≡ self.lines }
    {
        let Log { lines } = self;
        lines
    }

    /// Forgets all of them and keeps their memory. A caller that has passed them on calls it, so that the
    /// log doesn't grow with the feed.
    pub fn clear(&mut self)
        ensures lines { self.new.lines ≡ [] }
        ensures room { self.old.room ≤ self.new.room }
    {
        self.lines.clear();
    }
}
