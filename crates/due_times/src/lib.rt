//! When each object is next due: a finite map from objects to moments, which gives its least entry in a number of
//! steps that grows with the logarithm of its size.
#![tactic(auto)]

mod level;

ghost use Rattle.std.specs.Prelude.{◌≡◌, ◌↔◌, IsTrue, ◌+◌, ◌-◌, ◌%◌, ◌^◌};
ghost use Rattle.std.specs.Prelude.{◌<◌, ◌≤◌, ℕ, List, [], Option, None, Some, IsOk, IfNone};
ghost use Rattle.std.specs.Prelude.{IfOk, IfSome, OnOk, OnErr, length, if◌then◌else◌, ◌*◌};
ghost use Rattle.due_model.specs.claims.Rules.{has_come};
ghost use Rattle.due_times.specs.claims.Index.{at};
ghost use Rattle.due_times.specs.Index.{IsFirst, IsFirstDue, NothingIsDue, SameEntries, Sets};
ghost use Rattle.due_times.specs.Index.{IsNextDue, NoneIsDueFrom, due_count, left_at};
ghost use Rattle.due_times.specs.Levels.{ArePaired, IsAbove, leaves, level};

use due_model::config::ObjectId;
use due_model::rules::has_come;
use level::Level;
use std::alloc::{AllocError, Global};
use std::marker::Model;

/// The most objects that an index has room for: as many as there are object numbers.
const MAX_ENTRIES: u32 = 65_536;

/// The moment at which each object is next due, if it is. Contracts see the moments by object number, of as many
/// objects as there is room for, and how many entries were handed out.
#[derive(Drop)]
pub struct Index {
    alloc: Global,
    /// The moments by object number; then, level by level, the earlier of each two of the level before, down to one.
    levels: Vec<Level>,
    /// How many entries were handed out, modulo 2^64.
    examined: u64,
}

impl Model for Index {
    ghost use Rattle.std.specs.Prelude.{◌≤◌, length};
    ghost use Rattle.due_times.specs.claims.Index.{Due};
    ghost use Rattle.due_times.specs.Levels.{ArePaired, leaves};

    ghost Value = { Due };

    ghost view = { λ s. record { moments = leaves s.levels.items; examined = s.examined } };

    ghost invariant = { λ s. ArePaired s.levels.items
        × (length (leaves s.levels.items) ≤ 65536) };
}

/// The levels above these moments, with them as the lowest. A refused growth is the only error.
fn levels_of(alloc: Global, moments: Vec<Option<u64>>) -> Result<Vec<Level>, AllocError>
    ensures leaves { IfOk result (λ levels. leaves levels.items ≡ moments.items) }
    ensures paired { IfOk result (λ levels. ArePaired levels.items) }
{
    let mut levels = Vec::new(alloc);
    let mut last = Level::new(moments);
    while last.len() > 1 {
        let above = last.above(alloc)?;
        levels.push(last)?;
        last = above;
    }
    levels.push(last)?;
    Ok(levels)
}

/// The moments and none after them, for so many objects. A refused growth is the only error.
fn lengthened(
    alloc: Global,
    moments: &[Option<u64>],
    objects: usize,
) -> Result<Vec<Option<u64>>, AllocError>
    requires { length moments.now ≤ objects }
    ensures entries { IfOk result (λ longer. SameEntries moments.now longer.items) }
    ensures room { IfOk result (λ longer. length longer.items ≡ objects) }
{
    let mut longer = Vec::from_slice(alloc, moments)?;
    while longer.len() < objects {
        longer.push(None)?;
    }
    Ok(longer)
}

/// Puts a moment at a place of the lowest level, and mends the levels above it, up to one where nothing changes.
fn set_in(levels: &mut Vec<Level>, place: usize, moment: Option<u64>)
    requires paired { ArePaired levels.old.items }
    requires place { place < length (leaves levels.old.items) }
    ensures leaves { Sets (leaves levels.old.items) (leaves levels.new.items) place moment }
    ensures room { length (leaves levels.new.items) ≡ length (leaves levels.old.items) }
    ensures paired { ArePaired levels.new.items }
{
    let mut spot = place;
    let mut value = moment;
    for number in 0..levels.len() {
        if is_same(levels[number].at(spot), value) {
            return;
        }
        let level = &mut levels[number];
        level.set(spot, value);
        spot /= 2;
        value = level.of_pair(spot);
    }
}

/// The place of the least entry, whose moment is that of the top.
fn first_place(levels: &[Level], moment: u64) -> usize
    requires paired { ArePaired levels.now }
    requires top { at (level levels.now (length levels.now - 1)) 0 ≡ Some moment }
    ensures { IsFirst (leaves levels.now) result moment }
{
    let mut place = 0;
    for step in 1..levels.len() {
        place = place_below(&levels[levels.len() - 1 - step], place, moment);
    }
    place
}

/// The least moment of all entries, which stands on top.
fn first_moment(levels: &[Level]) -> Option<u64>
    requires { ArePaired levels.now }
    ensures top { IfSome result (λ moment.
        at (level levels.now (length levels.now - 1)) 0 ≡ Some moment) }
    ensures least { IfSome result (λ moment.
        (t : ℕ) → t < moment → NothingIsDue (leaves levels.now) t) }
    ensures none { IfNone result ((t : ℕ) → NothingIsDue (leaves levels.now) t) }
{
    match levels {
        [] => None,
        [.., top] => top.at(0),
    }
}

/// Whether two moments are the same, or neither is there.
fn is_same(a: Option<u64>, b: Option<u64>) -> bool
    ensures { IsTrue result ↔ (a ≡ b) }
{
    match (a, b) {
        (None, None) => true,
        (Some(a), Some(b)) => a == b,
        _ => false,
    }
}

/// Whether this is the moment.
fn is_moment(found: Option<u64>, moment: u64) -> bool
    ensures { IsTrue result ↔ (found ≡ Some moment) }
{
    match found {
        Some(other) => other == moment,
        None => false,
    }
}

/// Which of the two places below a place has the least entry.
fn place_below(level: &Level, place: usize, moment: u64) -> usize
    requires { (above : List (Option ℕ))
        × IsAbove level.now above × IsFirst above place moment }
    ensures { IsFirst level.now result moment }
{
    let _count = level.len();
    let first = 2 * place;
    if is_moment(level.at(first), moment) {
        first
    } else {
        first + 1
    }
}

/// The first place from `from` on, in the level of this number, whose moment has come at `t`. It goes up a level only
/// where the place that it stands on isn't due.
fn next_in(levels: &[Level], number: usize, from: usize, t: u64) -> Option<usize>
    requires { ArePaired levels.now }
    ensures some { IfSome result (λ o. IsNextDue (level levels.now number) from t o) }
    ensures none { IfNone result (NoneIsDueFrom (level levels.now number) from t) }
{
    if number >= levels.len() {
        return None;
    }
    let here = &levels[number];
    if from >= here.len() {
        return None;
    }
    if has_come(here.at(from), t) {
        return Some(from);
    }
    match next_in(levels, number + 1, (from + 1) / 2, t) {
        Some(place) => Some(due_below(here, place, t)),
        None => None,
    }
}

/// The first of the two places below a place whose moment has come at `t`.
fn due_below(level: &Level, place: usize, t: u64) -> usize
    requires { 2 * place + 1 ≤ length level.now }
    ensures { result
        ≡ (if has_come (at level.now (2 * place)) t then 2 * place else 2 * place + 1) }
{
    let _count = level.len();
    let first = 2 * place;
    if has_come(level.at(first), t) {
        first
    } else {
        first + 1
    }
}

impl Index {
    /// An index without an entry. It takes no memory.
    pub fn new(alloc: Global) -> Index
        ensures { result ≡ record { moments = []; examined = 0 } }
    {
        Index {
            alloc,
            levels: Vec::new(alloc),
            examined: 0,
        }
    }

    /// How many objects there is room for.
    fn room(&self) -> usize
        ensures { result ≡ length self.now.moments }
    {
        match self.levels.as_slice() {
            [] => 0,
            [leaves, ..] => leaves.len(),
        }
    }

    /// Makes room for the objects below this number: `set` takes no memory for them from then on. A refused
    /// growth is the only error, and changes nothing.
    pub fn reserve(&mut self, objects: u32) -> Result<(), AllocError>
        ensures room { OnOk result ((o : ℕ)
            → o < objects → o < 2 ^ 16 → o < length self.new.moments) }
        ensures kept { length self.old.moments ≤ length self.new.moments }
        ensures entries { SameEntries self.old.moments self.new.moments }
        ensures examined { self.new.examined ≡ self.old.examined }
        ensures succeeds { objects ≤ length self.old.moments → IsOk result }
        ensures err { OnErr result (self.new ≡ self.old) }
    {
        let wanted = objects.min(MAX_ENTRIES) as usize;
        if wanted <= self.room() {
            return Ok(());
        }
        let moments = match self.levels.as_slice() {
            [] => lengthened(self.alloc, &[], wanted)?,
            [leaves, ..] => lengthened(self.alloc, leaves.as_slice(), wanted)?,
        };
        self.levels = levels_of(self.alloc, moments)?;
        Ok(())
    }

    /// Sets when an object is next due, or that it isn't. For an object that there is room for it takes no
    /// memory. A refused growth is the only error, and changes nothing.
    pub fn set(&mut self, object: ObjectId, moment: Option<u64>) -> Result<(), AllocError>
        ensures ok { OnOk result (Sets self.old.moments self.new.moments object.0 moment) }
        ensures room { object.0 < length self.old.moments → IsOk result }
        ensures kept { length self.old.moments ≤ length self.new.moments }
        ensures examined { self.new.examined ≡ self.old.examined }
        ensures err { OnErr result (self.new ≡ self.old) }
    {
        let place = object.0 as usize;
        self.reserve(u32::from(object.0) + 1)?;
        set_in(&mut self.levels, place, moment);
        Ok(())
    }

    /// Takes out the least entry whose moment has come at `t`, and hands out its object: the entry of the least
    /// moment, and of those with that moment the one of the least number. None where no entry's moment has come.
    /// It takes no memory.
    pub fn pop_due(&mut self, t: u64) -> Option<ObjectId>
        ensures first { IfSome result (λ o. IsFirstDue self.old.moments t o.0) }
        ensures removed { IfSome result (λ o. Sets self.old.moments self.new.moments o.0 None) }
        ensures examined { IfSome result (λ o.
            self.new.examined ≡ (self.old.examined + 1) % 2 ^ 64) }
        ensures room { length self.new.moments ≡ length self.old.moments }
        ensures none { IfNone result (NothingIsDue self.old.moments t) }
        ensures unchanged { IfNone result (self.new ≡ self.old) }
    {
        let Some(moment) = first_moment(self.levels.as_slice()) else {
            return None;
        };
        if moment > t {
            return None;
        }
        let place = first_place(self.levels.as_slice(), moment);
        set_in(&mut self.levels, place, None);
        self.examined = self.examined.wrapping_add(1);
        Some(ObjectId(place as u16))
    }

    /// Takes out every entry whose moment has come at `t`, as `pop_due` does, one after the other. It takes no memory.
    pub fn take_due(&mut self, t: u64)
        ensures entries { (o : ℕ)
            → at self.new.moments o ≡ left_at t (at self.old.moments o) }
        ensures room { length self.new.moments ≡ length self.old.moments }
        ensures examined { self.new.examined
            ≡ (self.old.examined + due_count t self.old.moments) % 2 ^ 64 }
    {
        let _handed_out = self.examined;
        while let Some(_object) = self.pop_due(t) {}
    }

    /// The object of the least number, from `from` on, whose moment has come at `t`. The entry stays, and isn't counted
    /// as handed out. It takes no memory.
    pub fn next_due(&self, from: u32, t: u64) -> Option<ObjectId>
        ensures some { IfSome result (λ o. IsNextDue self.now.moments from t o.0) }
        ensures none { IfNone result (NoneIsDueFrom self.now.moments from t) }
    {
        if !has_come(first_moment(self.levels.as_slice()), t) {
            return None;
        }
        match next_in(self.levels.as_slice(), 0, from as usize, t) {
            Some(place) => Some(ObjectId(place as u16)),
            None => None,
        }
    }

    /// How many entries were handed out, modulo 2^64.
    pub fn examined(&self) -> u64
        ensures { result ≡ self.now.examined }
    {
        self.examined
    }
}
