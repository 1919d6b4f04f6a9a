//! A journal in memory.

ghost use Rattle.std.specs.Prelude.{◌≡◌, [], false};

use crate::journal::Journal;
use journal_text::entry::Entry;
use std::alloc::Global;
use std::marker::Model;

/// A journal in memory, which breaks at a refused growth, or where it has as many entries as it may have.
#[derive(Drop)]
pub struct MemoryJournal {
    entries: Vec<Entry>,
    limit: usize,
    is_broken: bool,
}

impl Model for MemoryJournal {
    ghost use Rattle.journaled.specs.Memory.{Memory};

    ghost Value = { Memory };

    ghost view = { λ s. record { entries = s.entries.items; is_broken = s.is_broken } };
}

impl MemoryJournal {
    /// No entry, and room for so many.
    pub fn new(alloc: Global, limit: usize) -> MemoryJournal
        ensures { result ≡ record { entries = []; is_broken = false } }
    {
        MemoryJournal {
            entries: Vec::new(alloc),
            limit,
            is_broken: false,
        }
    }

    /// The entries, in order.
    pub fn entries(&self) -> &[Entry]
        ensures { result.now ≡ self.now.entries }
    {
        self.entries.as_slice()
    }
}

impl Journal for MemoryJournal {
    ghost use Rattle.std.specs.Prelude.{◌≡◌, ◌++◌};
    ghost use Rattle.journaled.specs.Memory.{follows_entries, stays_entries};

    ghost wrote = { λ a entries b. b.entries ≡ a.entries ++ entries };

    ghost stays = { λ s. stays_entries s.entries };

    ghost follows = { λ a b c one two. follows_entries a.entries b.entries c.entries one two };

    ghost is_broken = { λ s. s.is_broken };

    fn write(&mut self, entry: Entry) -> bool {
        if self.is_broken || self.entries.len() >= self.limit || self.entries.push(entry).is_err() {
            self.is_broken = true;
            return false;
        }
        true
    }
}
