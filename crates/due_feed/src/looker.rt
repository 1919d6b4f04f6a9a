//! Who looks at what is due.

ghost use Rattle.std.specs.Prelude.{◌≡◌, List, [], ◌∷◌, ◌++◌, IsErrOf, OnOk};
ghost use Rattle.messages.specs.Entries.{notices_in};
ghost use Rattle.due_feed.specs.Seen.{StopsAmong};

use due_model::notice::Notice;
use messages::entries::Entry;
use std::alloc::AllocError;

/// Why it isn't looked at any further.
#[derive(Clone, Copy, Debug, PartialEq, Eq)]
pub enum LookFault {
    /// Who looks wants no more.
    Stopped,
    /// Memory ran out.
    NoMemory,
}

impl From<AllocError> for LookFault {
    ghost use Rattle.due_feed.specs.declared.looker.LookFault.TheVariants.{NoMemory};

    ghost from_gives = { λ _ fault. fault ≡ NoMemory };

    fn from(_error: AllocError) -> LookFault {
        LookFault::NoMemory
    }
}

/// Who looks at what is due.
pub trait Looker {
    ghost use Rattle.std.specs.Prelude.{◌≡◌, List, [], ◌∷◌, ◌++◌, IsErrOf, OnOk};
    ghost use Rattle.due_model.specs.declared.notice.Notice.{Notice};

    // What it becomes by seeing these, one after another.
    ghost saw: { Self → List Notice → Self → Type 0 };

    ghost stays: { (s : Self) → saw s [] s };

    ghost follows: { (a b c : Self) (one two : List Notice) → saw a one b → saw b two c
        → saw a (one ++ two) c };

    // What it becomes where it wants no more at this one.
    ghost stops: { Self → Notice → Self → Type 0 };

    /// Sees the next notice that is due.
    fn see(&mut self, notice: &Notice) -> Result<(), LookFault>
        ensures saw { OnOk result (saw self.old (notice.now ∷ []) self.new) }
        ensures stopped { IsErrOf result LookFault.Stopped → stops self.old notice.now self.new };
}

/// Shows the notices among entries.
pub(crate) fn show<L: Looker>(looker: &mut L, entries: &[Entry]) -> Result<(), LookFault>
    ensures saw { OnOk result (L.saw looker.old (notices_in entries.now) looker.new) }
    ensures stopped { IsErrOf result LookFault.Stopped
        → StopsAmong L.saw L.stops looker.old (notices_in entries.now) looker.new }
{
    for entry in entries {
        if let Entry::Sent(notice) = entry {
            looker.see(notice)?;
        }
    }
    Ok(())
}
