//! When the objects of a share are next due, by an index: the clock takes out what has come, and new books set their
//! entries.

ghost use Rattle.std.specs.Prelude.{◌≡◌, ℕ, ◌≤◌, ◌<◌, length, IfOk};
ghost use Rattle.due_model.specs.claims.Limits.{max_objects};
ghost use Rattle.due_times.specs.claims.Index.{at};
ghost use Rattle.due_times.specs.Index.{Sets};
ghost use Rattle.decider.specs.Ready.{HasRoom, entry_decided, handed_after, left_after};

use crate::staging::NewBook;
use due_model::event::EventKind;
use due_times::Index;
use std::alloc::{AllocError, Global};

/// An index without an entry, with room for so many objects. A refused growth is the only error.
pub(crate) fn new_index(alloc: Global, objects: usize) -> Result<Index, AllocError>
    requires { objects ≤ max_objects }
    ensures entries { IfOk result (λ index. (o : ℕ) → at index.moments o ≡ None) }
    ensures room { IfOk result (λ index. objects ≤ length index.moments) }
    ensures examined { IfOk result (λ index. index.examined ≡ 0) }
{
    let mut index = Index::new(alloc);
    index.reserve(objects as u32)?;
    Ok(index)
}

/// Takes out what the clock judges at an event at moment `t`. Another event takes nothing out.
pub(crate) fn take_judged(index: &mut Index, event: EventKind, t: u64)
    ensures entries { (o : ℕ)
        → at index.new.moments o ≡ left_after event t (at index.old.moments o) }
    ensures room { length index.new.moments ≡ length index.old.moments }
    ensures examined { index.new.examined ≡ handed_after event t index.old }
{
    match event {
        EventKind::Clock => index.take_due(t),
        EventKind::Program(_) => {}
        EventKind::Hard(_, _) => {}
        EventKind::Downtime(_, _) => {}
        EventKind::Flapping(_, _) => {}
        EventKind::Ack(_, _) => {}
        EventKind::AckRemoved(_) => {}
        EventKind::OwnSwitch(_, _) => {}
    }
}

/// Sets the entries of the objects of these books. It takes no memory.
pub(crate) fn mark(index: &mut Index, decided: &[NewBook])
    requires { HasRoom index.old decided.now }
    ensures entries { (o : ℕ)
        → at index.new.moments o ≡ entry_decided decided.now o (at index.old.moments o) }
    ensures room { length index.old.moments ≤ length index.new.moments }
    ensures examined { index.new.examined ≡ index.old.examined }
{
    for new_book in decided {
        mark_one(index, new_book);
    }
}

/// Sets the entry of the object of a book: when its problem is next due.
fn mark_one(index: &mut Index, decided: &NewBook)
    requires { decided.now.object.0 < length index.old.moments }
    ensures entries { Sets index.old.moments index.new.moments decided.now.object.0
        decided.now.book.due }
    ensures room { length index.old.moments ≤ length index.new.moments }
    ensures examined { index.new.examined ≡ index.old.examined }
{
    let _set = index.set(decided.object, decided.book.due());
}
