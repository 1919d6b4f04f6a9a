//! Lists that are kept one after another, and how they are made.

ghost use Rattle.std.specs.Prelude.{◌≡◌, ◌+◌, ◌^◌, ◌<◌, ◌≤◌, ◌++◌, ◌∷◌, []};
ghost use Rattle.std.specs.Prelude.{length, replicate, slice_index, slice_index_or, slice_range};
ghost use Rattle.std.specs.Prelude.{slice_set, sum, take, All, EachIndex, IfOk, OnErr, OnOk};
ghost use Rattle.graph.specs.Lists.{AreInPlace};

use std::alloc::{AllocError, Global};
use std::marker::Model;

/// Lists of values, such as the values that belong to each number, kept one after another. They take 8 bytes a
/// list beside their values, and one list is read at no cost of the others. Contracts see the list of the lists.
#[derive(Drop)]
pub struct Lists<T> {
    /// Where each list begins in `values`, and after the last one the length of `values`.
    starts: Vec<usize>,
    values: Vec<T>,
}

impl<T> Model for Lists<T> {
    ghost use Rattle.std.specs.Prelude.{List, length};
    ghost use Rattle.graph.specs.Lists.{AreStarts, parts};

    ghost Value = { List (List T) };

    ghost view = { λ s. parts s.starts.items s.values.items };

    ghost invariant = { λ s. AreStarts s.starts.items (length s.values.items) };
}

impl<T: Copy> Lists<T> {
    /// How many lists there are.
    pub fn len(&self) -> usize
        ensures { result ≡ length self.now }
    {
        self.starts.len() - 1
    }

    /// The list of that number, which counts from 0.
    pub fn get(&self, number: usize) -> &[T]
        requires { number < length self.now }
        ensures { result.now ≡ slice_index_or self.now number [] }
    {
        part_at(self.starts.as_slice(), self.values.as_slice(), number)
    }
}

/// The part of that number.
fn part_at<'a, T>(starts: &[usize], values: &'a [T], number: usize) -> &'a [T]
    requires within { number + 1 < length starts.now }
    requires ordered { slice_index starts.now number ≤ slice_index starts.now (number + 1) }
    requires inside { slice_index starts.now (number + 1) ≤ length values.now }
    ensures { result.now
        ≡ slice_range values.now (slice_index starts.now number)
        (slice_index starts.now (number + 1)) }
{
    &values[starts[number]..starts[number + 1]]
}

/// Lists that are still added to. They take 8 bytes a list, and for each value its number too: 16 bytes for a `u32`.
/// Contracts see the list of the lists.
#[derive(Drop)]
pub struct ListsBuilder<T> {
    /// 0, and after it how many values each list has.
    counts: Vec<usize>,
    /// What was added to the lists, in order.
    pushed: Vec<Pushed<T>>,
}

/// A value, and the number of the list that it was added to.
#[derive(Drop)]
struct Pushed<T> {
    number: usize,
    value: T,
}

impl<T> Model for ListsBuilder<T> {
    ghost use Rattle.std.specs.Prelude.{List, length};
    ghost use Rattle.graph.specs.Lists.{AreCounts, lists_of};

    ghost Value = { List (List T) };

    ghost view = { λ s. lists_of (length s.counts.items) s.pushed.items };

    ghost invariant = { λ s. AreCounts s.pushed.items s.counts.items };
}

impl<T: Copy> ListsBuilder<T> {
    /// So many empty lists. A refused growth leaves nothing.
    pub fn new(alloc: Global, count: usize) -> Result<Self, AllocError>
        ensures { IfOk result (λ lists. lists ≡ replicate count []) }
    {
        ListsBuilder::with_room(alloc, count, 0)
    }

    /// The same, with room for so many values at once.
    pub fn with_room(alloc: Global, count: usize, room: usize) -> Result<Self, AllocError>
        ensures { IfOk result (λ lists. lists ≡ replicate count []) }
    {
        let places = count.checked_add(1).ok_or(AllocError)?;
        Ok(ListsBuilder {
            counts: vec![in alloc; 0; places]?,
            pushed: Vec::with_capacity(alloc, room)?,
        })
    }

    /// How many lists there are.
    pub fn len(&self) -> usize
        ensures { result ≡ length self.now }
    {
        self.counts.len() - 1
    }

    /// Adds a value at the end of a list. A refused growth leaves the lists as they were.
    pub fn push(&mut self, number: usize, value: T) -> Result<(), AllocError>
        requires { number < length self.old }
        ensures pushed { OnOk result (self.new
            ≡ slice_set self.old number (slice_index_or self.old number [] ++ value ∷ [])) }
        ensures refused { OnErr result (self.new ≡ self.old) }
    {
        self.pushed.push(Pushed { number, value })?;
        self.counts[number + 1] += 1;
        Ok(())
    }

    /// The lists, as they are from now on. The time grows with the lists and their values, and so does the memory
    /// while they are made: what was added, and the values once more. A refused growth leaves nothing.
    pub fn build(self, alloc: Global) -> Result<Lists<T>, AllocError>
        ensures { IfOk result (λ lists. lists ≡ self) }
    {
        let mut starts = self.counts;
        let pushed = self.pushed;
        let mut values = some_values(alloc, pushed.as_slice())?;
        let places = starts.as_mut_slice();
        sum_up(places);
        place_each(places, values.as_mut_slice(), pushed.as_slice());
        Ok(Lists { starts, values })
    }
}

/// Writes over each count the sum of those before it.
fn sum_up(counts: &mut [usize])
    requires { sum counts.old < 2 ^ 64 }
    ensures { EachIndex counts.new (λ k. slice_index counts.new k ≡ sum (take k counts.old)) }
{
    let mut total = 0;
    for count in counts.iter_mut() {
        let start = total;
        total += *count;
        *count = start;
    }
}

/// As many values as were added, for `place_each` to write over.
fn some_values<T: Copy>(alloc: Global, pushed: &[Pushed<T>]) -> Result<Vec<T>, AllocError>
    ensures { IfOk result (λ values. length values.items ≡ length pushed.now) }
{
    match pushed.first() {
        Some(first) => Ok(vec![in alloc; first.value; pushed.len()]?),
        None => Ok(Vec::new(alloc)),
    }
}

/// Writes each value in its list's next free place.
fn place_each<T: Copy>(places: &mut [usize], values: &mut [T], pushed: &[Pushed<T>])
    requires within { All (λ one. one.number + 1 < length places.old) pushed.now }
    requires free { AreInPlace pushed.now [] places.old values.old }
    ensures { AreInPlace pushed.now pushed.now places.new values.new }
{
    for one in pushed {
        let place = &mut places[one.number + 1];
        values[*place] = one.value;
        *place += 1;
    }
}
