//! What a decider notes in its log.

ghost use Rattle.std.specs.Prelude.{◌≡◌, ◌+◌, ◌≤◌, [], ◌∷◌, ◌++◌, length, filter};
ghost use Rattle.messages.specs.Entries.{is_withheld, suppression_in, suppressions_in};
ghost use Rattle.decider.specs.Log.{HasRoomFor};

use messages::entries::Entry;
use suppression_log::Log;

/// Notes the suppressions among these entries, in their order. It takes no memory.
pub(crate) fn note(log: &mut Log, entries: &[Entry])
    requires { HasRoomFor log.old entries.now }
    ensures { log.new.lines ≡ log.old.lines ++ suppressions_in entries.now }
{
    for entry in entries {
        note_one(log, entry);
    }
}

/// Notes the suppression that an entry is, if it is one.
fn note_one(log: &mut Log, entry: &Entry)
    requires { HasRoomFor log.old (entry.now ∷ []) }
    ensures noted { log.new.lines ≡ log.old.lines ++ suppression_in entry.now }
    ensures room { log.old.room ≤ log.new.room + length (filter is_withheld (entry.now ∷ [])) }
{
    if let Entry::Withheld(suppression) = entry {
        let _room = log.push(*suppression);
    }
}
