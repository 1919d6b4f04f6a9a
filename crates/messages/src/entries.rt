//! The entries of an event: what becomes of each message.

ghost use Rattle.std.specs.Prelude.{◌≡◌, filter, length};
ghost use Rattle.messages.specs.Entries.{is_for, is_withheld};

use due_model::notice::{Notice, Suppression};

/// What becomes of one message of an event: it is sent, or withheld.
#[derive(Clone, Copy, Debug, PartialEq, Eq)]
pub enum Entry {
    /// A notice that is due: one contact is to get it on one lane.
    Sent(Notice),
    /// A suppression: by a filter of the object, or of one contact.
    Withheld(Suppression),
}

impl Entry {
    /// Whether it is a notice for this lane.
    pub fn is_for(&self, lane: usize) -> bool
        ensures { result ≡ is_for lane self.now }
    {
        matches!(self, Entry::Sent(notice) if notice.lane.0 as usize == lane)
    }

    /// Whether it is a suppression.
    pub fn is_withheld(&self) -> bool
        ensures { result ≡ is_withheld self.now }
    {
        matches!(self, Entry::Withheld(_))
    }
}

/// How many of these entries are notices for this lane.
pub fn notices_for(entries: &[Entry], lane: usize) -> usize
    ensures { result ≡ length (filter (is_for lane) entries.now) }
{
    entries.iter().filter(|entry| entry.is_for(lane)).count()
}

/// How many of these entries are suppressions.
pub fn suppressions(entries: &[Entry]) -> usize
    ensures { result ≡ length (filter is_withheld entries.now) }
{
    entries.iter().filter(|entry| entry.is_withheld()).count()
}
