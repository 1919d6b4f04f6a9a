//! The lists that a picture keeps: marks, changes, and which objects are left out.

ghost use Rattle.std.specs.Prelude.{◌≡◌, ◌++◌, ◌∷◌, [], length, replicate, slice_set, false, true, IfOk, OnOk};
ghost use Rattle.night_marks.specs.Lists.{changes_from, changes_without, is_of, is_out, mark_moment, mark_object};
ghost use Rattle.night_marks.specs.Lists.{marks_from, marks_without, no_flags};

use crate::conditions::Change;
use due_model::config::ObjectId;
use messages::entries::Entry;
use std::alloc::{AllocError, Global};
use std::marker::Model;

/// How many numbers objects may have.
const NUMBERS: usize = 65_536;

/// The object of which a mark is.
pub fn mark_object(mark: &Entry) -> ObjectId
    ensures { result ≡ mark_object mark.now }
{
    match mark {
        Entry::Sent(notice) => notice.object,
        Entry::Withheld(withheld) => withheld.object,
    }
}

/// When it is, in seconds since the epoch.
pub fn mark_moment(mark: &Entry) -> u64
    ensures { result ≡ mark_moment mark.now }
{
    match mark {
        Entry::Sent(notice) => notice.moment,
        Entry::Withheld(withheld) => withheld.moment,
    }
}

/// Whether two numbers are of one object.
pub fn is_of(object: ObjectId, other: ObjectId) -> bool
    ensures { result ≡ is_of object.0 other }
{
    other.0 == object.0
}

/// Notices and suppressions, in order. Contracts see them as a list.
#[derive(Drop)]
pub struct Marks {
    marks: Vec<Entry>,
}

impl Model for Marks {
    ghost use Rattle.std.specs.Prelude.{List};
    ghost use Rattle.messages.specs.declared.entries.Entry.{Entry};

    ghost Value = { List Entry };

    ghost view = { λ s. s.marks.items };
}

impl Marks {
    /// None.
    pub(crate) fn new(alloc: Global) -> Marks
        ensures { result ≡ [] }
    {
        Marks {
            marks: Vec::new(alloc),
        }
    }

    /// These marks.
    pub fn as_slice(&self) -> &[Entry]
        ensures { result.now ≡ self.now }
    {
        self.marks.as_slice()
    }

    /// Adds one. A refused growth is the only error.
    pub(crate) fn push(&mut self, mark: Entry) -> Result<(), AllocError>
        ensures { OnOk result (self.new ≡ self.old ++ mark ∷ []) }
    {
        self.marks.push(mark)?;
        Ok(())
    }

    /// Leaves those of an object out.
    pub(crate) fn leave_out(&mut self, object: ObjectId)
        ensures { self.new ≡ marks_without object.0 self.old }
    {
        self.marks.retain(|mark| !is_of(object, mark_object(mark)));
    }

    /// Leaves those before a moment out.
    pub(crate) fn begin_at(&mut self, moment: u64)
        ensures { self.new ≡ marks_from moment self.old }
    {
        self.marks.retain(|mark| moment <= mark_moment(mark));
    }
}

/// Changes of conditions, in order. Contracts see them as a list.
#[derive(Drop)]
pub struct Changes {
    changes: Vec<Change>,
}

impl Model for Changes {
    ghost use Rattle.std.specs.Prelude.{List};
    ghost use Rattle.night_marks.specs.declared.conditions.Change.{Change};

    ghost Value = { List Change };

    ghost view = { λ s. s.changes.items };
}

impl Changes {
    /// None.
    pub(crate) fn new(alloc: Global) -> Changes
        ensures { result ≡ [] }
    {
        Changes {
            changes: Vec::new(alloc),
        }
    }

    /// These changes.
    pub fn as_slice(&self) -> &[Change]
        ensures { result.now ≡ self.now }
    {
        self.changes.as_slice()
    }

    /// Adds one. A refused growth is the only error.
    pub(crate) fn push(&mut self, change: Change) -> Result<(), AllocError>
        ensures { OnOk result (self.new ≡ self.old ++ change ∷ []) }
    {
        self.changes.push(change)?;
        Ok(())
    }

    /// Leaves those of an object out.
    pub(crate) fn leave_out(&mut self, object: ObjectId)
        ensures { self.new ≡ changes_without object.0 self.old }
    {
        self.changes.retain(|change| !is_of(object, change.object));
    }

    /// Leaves those before a moment out.
    pub(crate) fn begin_at(&mut self, moment: u64)
        ensures { self.new ≡ changes_from moment self.old }
    {
        self.changes.retain(|change| moment <= change.moment);
    }
}

/// Which objects are left out, by their numbers. Contracts see them as a list of so many.
#[derive(Drop)]
pub struct Flags {
    flags: Vec<bool>,
}

impl Model for Flags {
    ghost use Rattle.std.specs.Prelude.{◌≡◌, Bool, List, length};

    ghost Value = { List Bool };

    ghost view = { λ s. s.flags.items };

    ghost invariant = { λ s. length s.flags.items ≡ 65536 };
}

/// So many that aren't.
fn nothing(alloc: Global, count: usize) -> Result<Vec<bool>, AllocError>
    ensures items { IfOk result (λ places. places.items ≡ replicate count false) }
    ensures length { IfOk result (λ places. length places.items ≡ count) }
{
    vec![in alloc; false; count]
}

impl Flags {
    /// No object is left out.
    #[tactic(auto, unfolding(crate::specs::Lists::no_flags))]
    pub(crate) fn new(alloc: Global) -> Result<Flags, AllocError>
        ensures { IfOk result (λ flags. flags ≡ no_flags) }
    {
        Ok(Flags {
            flags: nothing(alloc, NUMBERS)?,
        })
    }

    /// Whether an object is left out.
    pub(crate) fn is_out(&self, object: ObjectId) -> bool
        ensures { result ≡ is_out self.now object.0 }
    {
        self.flags[usize::from(object.0)]
    }

    /// Leaves an object out.
    pub(crate) fn leave_out(&mut self, object: ObjectId)
        ensures { self.new ≡ slice_set self.old object.0 true }
    {
        self.flags[usize::from(object.0)] = true;
    }
}
