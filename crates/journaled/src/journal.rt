//! What a channel writes its entries to.

ghost use Rattle.std.specs.Prelude.{◌≡◌, [], ◌∷◌, true, false};

use journal_text::entry::Entry;

/// What entries are written to. It may be dropped.
pub trait Journal: Drop {
    ghost use Rattle.std.specs.Prelude.{◌++◌, [], List, Bool};
    ghost use Rattle.journal_text.specs.declared.entry.Entry.{Entry};

    // What it becomes by these entries, which were written whole, one after another, and by nothing else but writes that fail.
    ghost wrote: { Self → List Entry → Self → Type 0 };

    ghost stays: { (s : Self) → wrote s [] s };

    ghost follows: { (a b c : Self) (one two : List Entry) → wrote a one b → wrote b two c
        → wrote a (one ++ two) c };

    // A write failed: nothing more is written.
    ghost is_broken: { Self → Bool };

    /// Writes an entry, and waits until it is where a kill leaves it. False: that failed, now or before, and a part of the entry may
    /// stand there.
    fn write(&mut self, entry: Entry) -> bool
        ensures wrote { result ≡ true → wrote self.old (entry ∷ []) self.new }
        ensures failed { result ≡ false → wrote self.old [] self.new }
        ensures whole { result ≡ true → is_broken self.new ≡ false }
        ensures broken { result ≡ false → is_broken self.new ≡ true }
        ensures remains { is_broken self.old ≡ true → result ≡ false };
}
