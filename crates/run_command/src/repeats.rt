//! Which suppressions only repeat the one before of their object.

use due_model::notice::Suppression;
use std::alloc::{AllocError, Global};

/// The last suppression of each object by a filter of its own, and how often it was repeated since its line was written. An object's place
/// is its number divided by the number of deciders, so that those of one decider have places of their own.
#[derive(Drop)]
pub(crate) struct Repeats {
    places: Vec<Option<Repeat>>,
    deciders: u8,
    /// Of the lines that are made of them.
    alloc: Global,
}

/// A suppression, and how many came like it since the first one.
#[derive(Clone, Copy)]
pub(crate) struct Repeat {
    pub last: Suppression,
    pub count: u64,
}

/// What a suppression is to the one before of its object.
#[derive(Clone, Copy)]
pub(crate) enum Step {
    /// The first, or another one.
    New,
    /// Another one, and the one before was repeated.
    Changed(Repeat),
    /// The same.
    Repeated,
}

impl Repeats {
    /// Of so many objects, in one of so many deciders: nothing was suppressed. A refused growth is the only error.
    pub(crate) fn new(alloc: Global, objects: usize, deciders: u8) -> Result<Repeats, AllocError> {
        let count = (objects / usize::from(deciders.max(1))).saturating_add(1);
        let mut places = Vec::with_capacity(alloc, count)?;
        for _place in 0..count {
            places.push(None)?;
        }
        Ok(Repeats {
            places,
            deciders,
            alloc,
        })
    }

    /// Takes note of a suppression.
    pub(crate) fn step(&mut self, next: &Suppression) -> Step {
        if next.contact.is_some() {
            return Step::New;
        }
        let place = next.object.0 as usize / usize::from(self.deciders.max(1));
        let Some(slot) = self.places.as_mut_slice().get_mut(place) else {
            return Step::New;
        };
        if let Some(repeat) = slot {
            if is_same(&repeat.last, next) {
                repeat.last = *next;
                repeat.count = repeat.count.saturating_add(1);
                return Step::Repeated;
            }
        }
        let before = slot.replace(Repeat {
            last: *next,
            count: 0,
        });
        match before {
            Some(repeat) if repeat.count > 0 => Step::Changed(repeat),
            _ => Step::New,
        }
    }

    /// The allocator of the lines that are made of them.
    pub(crate) fn alloc(&self) -> Global {
        self.alloc
    }

    /// How many places there are.
    pub(crate) fn len(&self) -> usize {
        self.places.len()
    }

    /// What was repeated of the object at a place, which is then forgotten.
    pub(crate) fn take(&mut self, place: usize) -> Option<Repeat> {
        let repeat = self.places.as_mut_slice().get_mut(place)?.take()?;
        if repeat.count > 0 { Some(repeat) } else { None }
    }
}

/// Whether two suppressions of an object differ in their event and moment alone.
fn is_same(one: &Suppression, other: &Suppression) -> bool {
    one.kind == other.kind && one.state == other.state && one.filter == other.filter
}
