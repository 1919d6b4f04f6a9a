//! How busy objects are: how many marks and changes each has.

ghost use Rattle.std.specs.Prelude.{◌≡◌, ◌<◌, ◌≤◌, ◌++◌, length, replicate, IfOk, OnOk};
ghost use Rattle.night_marks.specs.Counts.{activity, all_shown, bumped, change_objects, count_at, counted_on, first_shown};
ghost use Rattle.night_marks.specs.Counts.{is_less_busy, is_shown, least_of, less_busy, mark_objects, no_counts};
ghost use Rattle.night_marks.specs.Counts.{one_if, one_more, rank, rank_among, shown_at, shown_objects};

use crate::conditions::Change;
use crate::lists::mark_object;
use due_model::config::ObjectId;
use messages::entries::Entry;
use std::alloc::{AllocError, Global};
use std::marker::Model;

/// How many numbers objects may have.
const NUMBERS: u32 = 65_536;

/// No more objects are shown.
const MOST_OBJECTS: usize = 200;

/// How many marks and changes each object has, by their numbers. Contracts see them as a list of so many.
#[derive(Drop)]
pub(crate) struct Counts {
    counts: Vec<u32>,
}

impl Model for Counts {
    ghost use Rattle.std.specs.Prelude.{◌≡◌, ℕ, List, length};

    ghost Value = { List ℕ };

    ghost view = { λ s. s.counts.items };

    ghost invariant = { λ s. length s.counts.items ≡ 65536 };
}

/// So many zeros.
fn nothing(alloc: Global, count: usize) -> Result<Vec<u32>, AllocError>
    ensures items { IfOk result (λ places. places.items ≡ replicate count 0) }
    ensures length { IfOk result (λ places. length places.items ≡ count) }
{
    vec![in alloc; 0; count]
}

/// One more, if there is a greater number.
fn one_more(count: u32) -> u32
    ensures { result ≡ one_more count }
{
    if count < 4_294_967_295 {
        count + 1
    } else {
        count
    }
}

impl Counts {
    /// No object has any.
    #[tactic(auto, unfolding(crate::specs::Counts::no_counts))]
    fn new(alloc: Global) -> Result<Counts, AllocError>
        ensures { IfOk result (λ counts. counts ≡ no_counts) }
    {
        Ok(Counts {
            counts: nothing(alloc, NUMBERS as usize)?,
        })
    }

    /// That of an object.
    fn get(&self, object: ObjectId) -> u32
        ensures { result ≡ count_at self.now object.0 }
    {
        self.counts[usize::from(object.0)]
    }

    /// One more of an object.
    fn bump(&mut self, object: ObjectId)
        ensures { self.new ≡ bumped self.old object.0 }
    {
        let place = usize::from(object.0);
        self.counts[place] = one_more(self.counts[place]);
    }

    /// Those of marks.
    fn add_marks(&mut self, marks: &[Entry])
        ensures { self.new ≡ counted_on self.old (mark_objects marks.now) }
    {
        for mark in marks {
            self.bump(mark_object(mark));
        }
    }

    /// Those of changes.
    fn add_changes(&mut self, changes: &[Change])
        ensures { self.new ≡ counted_on self.old (change_objects changes.now) }
    {
        for change in changes {
            self.bump(change.object);
        }
    }

    /// Whether an object is less busy than another: of two that are alike, that with the greater number.
    fn is_less_busy(&self, object: ObjectId, other: ObjectId) -> bool
        ensures { result ≡ is_less_busy self.now object.0 other.0 }
    {
        let count = self.get(object);
        let others = self.get(other);
        count < others || (count == others && other.0 < object.0)
    }

    /// The less busy one of two.
    fn less_busy(&self, object: ObjectId, other: ObjectId) -> ObjectId
        ensures { result ≡ less_busy self.now object other }
    {
        if self.is_less_busy(object, other) {
            object
        } else {
            other
        }
    }

    /// The least busy one of this and of those of marks.
    pub(crate) fn least_of_marks(&self, first: ObjectId, marks: &[Entry]) -> ObjectId
        ensures { result ≡ least_of self.now first (mark_objects marks.now) }
    {
        let mut least = first;
        for mark in marks {
            least = self.less_busy(mark_object(mark), least);
        }
        least
    }

    /// The least busy one of this and of those of changes.
    pub(crate) fn least_of_changes(&self, first: ObjectId, changes: &[Change]) -> ObjectId
        ensures { result ≡ least_of self.now first (change_objects changes.now) }
    {
        let mut least = first;
        for change in changes {
            least = self.less_busy(change.object, least);
        }
        least
    }

    /// How many of the first objects are busier than one.
    fn rank_among(&self, object: ObjectId, count: u32) -> usize
        requires { count ≤ 65536 }
        ensures { result ≡ rank_among self.now object.0 count }
    {
        let mut busier = 0usize;
        for number in 0..count {
            busier += one_if(self.is_less_busy(object, ObjectId(number as u16)));
        }
        busier
    }

    /// How many are.
    #[tactic(auto, unfolding(crate::specs::Counts::rank))]
    fn rank(&self, object: ObjectId) -> usize
        ensures { result ≡ rank self.now object.0 }
    {
        self.rank_among(object, NUMBERS)
    }

    /// Whether an object is shown: it has marks or changes, and few are busier.
    fn is_shown(&self, object: ObjectId) -> bool
        ensures { result ≡ is_shown self.now object.0 }
    {
        0 < self.get(object) && self.rank(object) < MOST_OBJECTS
    }

    /// Adds an object that is shown.
    fn push_shown(&self, objects: &mut Vec<u16>, number: u32) -> Result<(), AllocError>
        requires { number < 65536 }
        ensures { OnOk result
            (objects.new.items ≡ objects.old.items ++ shown_at self.now number) }
    {
        if !self.is_shown(ObjectId(number as u16)) {
            return Ok(());
        }
        objects.push(number as u16)?;
        Ok(())
    }

    /// The first objects that are shown.
    fn first_shown(&self, alloc: Global, count: u32) -> Result<Vec<u16>, AllocError>
        requires { count ≤ 65536 }
        ensures { IfOk result (λ objects. objects.items ≡ first_shown self.now count) }
    {
        let mut objects = Vec::new(alloc);
        for number in 0..count {
            self.push_shown(&mut objects, number)?;
        }
        Ok(objects)
    }

    /// The objects that are shown.
    #[tactic(auto, unfolding(crate::specs::Counts::all_shown))]
    fn all_shown(&self, alloc: Global) -> Result<Vec<u16>, AllocError>
        ensures { IfOk result (λ objects. objects.items ≡ all_shown self.now) }
    {
        self.first_shown(alloc, NUMBERS)
    }
}

/// One, where it is so.
fn one_if(is: bool) -> usize
    ensures value { result ≡ one_if is }
    ensures bound { result ≤ 1 }
{
    if is { 1 } else { 0 }
}

/// How many marks and changes each object has. A refused growth is the only error.
pub(crate) fn activity(
    alloc: Global,
    marks: &[Entry],
    changes: &[Change],
) -> Result<Counts, AllocError>
    ensures { IfOk result (λ counts. counts ≡ activity marks.now changes.now) }
{
    let mut counts = Counts::new(alloc)?;
    counts.add_marks(marks);
    counts.add_changes(changes);
    Ok(counts)
}

/// The numbers of the objects that are shown of these marks and changes: the busiest, at most 200. A refused growth is the only
/// error.
#[tactic(auto, unfolding(crate::specs::Counts::shown_objects))]
pub fn shown_objects(
    alloc: Global,
    marks: &[Entry],
    changes: &[Change],
) -> Result<Vec<u16>, AllocError>
    ensures { IfOk result (λ objects. objects.items ≡ shown_objects marks.now changes.now) }
{
    let counts = activity(alloc, marks, changes)?;
    counts.all_shown(alloc)
}
