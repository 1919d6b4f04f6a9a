//! The notification dependencies of a configuration, found by their dependents.

ghost use Rattle.std.specs.Prelude.{◌≡◌, length, IfOk};
ghost use Rattle.due_model.specs.ByObject.{entries_of};

use crate::by_object::{ByObject, lists_by_object};
use crate::config::{Dependency, ObjectId};
use graph::lists::Lists;
use std::alloc::{AllocError, Global};
use std::marker::Model;

/// The notification dependencies of a configuration, in their order, and once more by their dependents (chapter "Host
/// and Service Dependencies"). That takes 8 bytes an object and the entries themselves. Contracts see the list of the
/// entries alone.
#[derive(Drop)]
pub struct Dependencies {
    items: Vec<Dependency>,
    /// For each object the entries whose dependent it is, in the order of `items`.
    entries: Lists<Dependency>,
}

impl Model for Dependencies {
    ghost use Rattle.std.specs.Prelude.{List};
    ghost use Rattle.due_model.specs.declared.config.Dependency.{Dependency};
    ghost use Rattle.due_model.specs.ByObject.{AreEntries};

    ghost Value = { List Dependency };

    ghost view = { λ s. s.items.items };

    ghost invariant = { λ s. AreEntries s.items.items s.entries };
}

impl Dependencies {
    /// The collection of these entries. The work grows with the greatest number of a dependent and with the entries. A
    /// refused growth drops the entries.
    pub fn new(alloc: Global, items: Vec<Dependency>) -> Result<Self, AllocError>
        ensures { IfOk result (λ dependencies. dependencies ≡ items.items) }
    {
        let entries = lists_by_object(alloc, items.as_slice())?;
        Ok(Dependencies { items, entries })
    }

    /// The entries, in their order.
    pub fn as_slice(&self) -> &[Dependency]
        ensures { result.now ≡ self.now }
    {
        &self.items
    }

    /// How many entries there are.
    pub fn len(&self) -> usize
        ensures { result ≡ length self.now }
    {
        self.items.len()
    }

    /// The entries whose dependent the object is, in their order. It reads those of no other object and takes no
    /// memory. An object that depends on nothing has none, whether the configuration has it or not.
    pub fn of(&self, object: ObjectId) -> &[Dependency]
        ensures { result.now ≡ entries_of self.now object.0 }
    {
        let number = usize::from(object.0);
        if number < self.entries.len() {
            self.entries.get(number)
        } else {
            &[]
        }
    }
}

impl ByObject<Dependency> for Dependency {
    ghost number = { λ entry. entry.dependent.0 };

    ghost kept = { λ entry _. entry };

    fn object(&self) -> ObjectId {
        self.dependent
    }

    fn kept(&self, _place: usize) -> Dependency {
        *self
    }
}
