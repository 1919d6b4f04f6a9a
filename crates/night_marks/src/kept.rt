//! The marks and the changes that are kept: of all objects, or of the busiest, or from some moment on.

ghost use Rattle.std.specs.Prelude.{◌≡◌, IfOk, OnOk};
ghost use Rattle.night_marks.specs.Kept.{after_moment, begun_at, given_up, kept_change, kept_mark, left_out};
ghost use Rattle.night_marks.specs.Kept.{middle_change, middle_mark, narrowed_changes, narrowed_changes_of, narrowed_marks};
ghost use Rattle.night_marks.specs.Kept.{narrowed_marks_of, nothing_kept, only_changes, only_marks, passes};
ghost use Rattle.night_marks.specs.Kept.{KeepsThem, settled_changes, settled_marks};

use crate::conditions::Change;
use crate::counts::activity;
use crate::lists::{Changes, Flags, Marks, is_of, mark_moment, mark_object};
use due_model::config::ObjectId;
use messages::entries::Entry;
use std::alloc::{AllocError, Global};

/// No more marks are kept, and no more changes.
const MOST: usize = 10_000;

/// What is kept.
#[derive(Drop)]
pub struct Kept {
    pub marks: Marks,
    pub changes: Changes,
    /// The objects of which nothing is.
    pub out: Flags,
    /// The moment from which on it is, in seconds since the epoch.
    pub begin: u64,
}

/// The moment after one, if there is one.
fn after_moment(moment: u64) -> u64
    ensures { result ≡ after_moment moment }
{
    if moment < 18_446_744_073_709_551_615 {
        moment + 1
    } else {
        moment
    }
}

/// Whether all marks are of one object.
fn only_marks_of(object: ObjectId, marks: &[Entry]) -> bool
    ensures { result ≡ only_marks object.0 marks.now }
{
    marks.iter().all(|mark| is_of(object, mark_object(mark)))
}

/// Whether all changes are.
fn only_changes_of(object: ObjectId, changes: &[Change]) -> bool
    ensures { result ≡ only_changes object.0 changes.now }
{
    changes.iter().all(|change| is_of(object, change.object))
}

/// The moment of the mark in the middle.
fn middle_mark(marks: &[Entry]) -> u64
    ensures { result ≡ middle_mark marks.now }
{
    match marks.get(marks.len() / 2) {
        Some(mark) => mark_moment(mark),
        None => 0,
    }
}

/// That of the change in the middle.
fn middle_change(changes: &[Change]) -> u64
    ensures { result ≡ middle_change changes.now }
{
    match changes.get(changes.len() / 2) {
        Some(change) => change.moment,
        None => 0,
    }
}

impl Kept {
    /// Nothing. It takes some memory now.
    pub(crate) fn new(alloc: Global) -> Result<Kept, AllocError>
        ensures { IfOk result (λ kept. kept ≡ nothing_kept) }
    {
        Ok(Kept {
            marks: Marks::new(alloc),
            changes: Changes::new(alloc),
            out: Flags::new(alloc)?,
            begin: 0,
        })
    }

    /// Whether what an object has at a moment is kept.
    fn passes(&self, object: ObjectId, moment: u64) -> bool
        ensures { result ≡ passes self.now object.0 moment }
    {
        !self.out.is_out(object) && self.begin <= moment
    }

    /// Leaves an object out.
    fn leave_out(&mut self, object: ObjectId)
        ensures { self.new ≡ left_out self.old object.0 }
    {
        self.marks.leave_out(object);
        self.changes.leave_out(object);
        self.out.leave_out(object);
    }

    /// Leaves out what is up to a moment.
    fn begin_after(&mut self, moment: u64)
        ensures { self.new ≡ begun_at self.old moment }
    {
        self.begin = self.begin.max(after_moment(moment));
        self.marks.begin_at(self.begin);
        self.changes.begin_at(self.begin);
    }

    /// Leaves out the least busy object, or, where there is only one, what is up to a moment.
    fn give_up(&mut self, least: ObjectId, is_only: bool, moment: u64)
        ensures { self.new ≡ given_up self.old least.0 is_only moment }
    {
        if is_only {
            self.begin_after(moment);
        } else {
            self.leave_out(least);
        }
    }

    /// Keeps fewer marks: this is the object of one of them.
    fn narrow_marks_of(&mut self, alloc: Global, first: ObjectId) -> Result<(), AllocError>
        ensures { OnOk result (self.new ≡ narrowed_marks_of self.old first) }
    {
        let marks = self.marks.as_slice();
        let counts = activity(alloc, marks, self.changes.as_slice())?;
        let least = counts.least_of_marks(first, marks);
        let is_only = only_marks_of(least, marks);
        let moment = middle_mark(marks);
        self.give_up(least, is_only, moment);
        Ok(())
    }

    /// Keeps fewer marks.
    fn narrow_marks(&mut self, alloc: Global) -> Result<(), AllocError>
        ensures { OnOk result (self.new ≡ narrowed_marks self.old) }
    {
        let first = match self.marks.as_slice().get(0) {
            Some(first) => mark_object(first),
            None => return Ok(()),
        };
        self.narrow_marks_of(alloc, first)
    }

    /// Keeps fewer changes: this is the object of one of them.
    fn narrow_changes_of(&mut self, alloc: Global, first: ObjectId) -> Result<(), AllocError>
        ensures { OnOk result (self.new ≡ narrowed_changes_of self.old first) }
    {
        let changes = self.changes.as_slice();
        let counts = activity(alloc, self.marks.as_slice(), changes)?;
        let least = counts.least_of_changes(first, changes);
        let is_only = only_changes_of(least, changes);
        let moment = middle_change(changes);
        self.give_up(least, is_only, moment);
        Ok(())
    }

    /// Keeps fewer changes.
    fn narrow_changes(&mut self, alloc: Global) -> Result<(), AllocError>
        ensures { OnOk result (self.new ≡ narrowed_changes self.old) }
    {
        let first = match self.changes.as_slice().get(0) {
            Some(first) => first.object,
            None => return Ok(()),
        };
        self.narrow_changes_of(alloc, first)
    }

    /// Keeps fewer marks, where there are too many.
    fn settle_marks(&mut self, alloc: Global) -> Result<(), AllocError>
        ensures { OnOk result (self.new ≡ settled_marks self.old) }
    {
        if MOST < self.marks.as_slice().len() {
            self.narrow_marks(alloc)
        } else {
            Ok(())
        }
    }

    /// Keeps fewer changes, where there are too many.
    fn settle_changes(&mut self, alloc: Global) -> Result<(), AllocError>
        ensures { OnOk result (self.new ≡ settled_changes self.old) }
    {
        if MOST < self.changes.as_slice().len() {
            self.narrow_changes(alloc)
        } else {
            Ok(())
        }
    }

    /// Keeps a mark, unless its object or its time is left out. A refused growth is the only error.
    pub(crate) fn keep_mark(&mut self, alloc: Global, mark: Entry) -> Result<(), AllocError>
        ensures { OnOk result (self.new ≡ kept_mark self.old mark) }
    {
        if !self.passes(mark_object(&mark), mark_moment(&mark)) {
            return Ok(());
        }
        self.marks.push(mark)?;
        self.settle_marks(alloc)
    }

    /// Keeps a change, unless its object or its time is left out. A refused growth is the only error.
    pub(crate) fn keep_change(&mut self, alloc: Global, change: Change) -> Result<(), AllocError>
        ensures { OnOk result (self.new ≡ kept_change self.old change) }
    {
        if !self.passes(change.object, change.moment) {
            return Ok(());
        }
        self.changes.push(change)?;
        self.settle_changes(alloc)
    }
}

/// What is kept is, of all marks and all changes that there were, in order, those of the objects that aren't left out, from the moment
/// on from which some are: at first, after one mark more, and after one change more; and never more than 10,000 of either.
#[tactic(auto, using(crate::proofs::KeptLaws::keeps_them))]
pub fn what_is_kept()
    ensures { KeepsThem }
{}
