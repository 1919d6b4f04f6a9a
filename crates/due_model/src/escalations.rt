//! The escalations of a configuration, found by their objects.

ghost use Rattle.std.specs.Prelude.{◌≡◌, length, IfOk};
ghost use Rattle.due_model.specs.ByObject.{places_of};

use crate::by_object::{ByObject, lists_by_object};
use crate::config::{Escalation, ObjectId};
use graph::lists::Lists;
use std::alloc::{AllocError, Global};
use std::marker::Model;

/// The escalations of a configuration, in their order, with an index of them by their objects (chapter "Notification
/// Escalations"). The index takes 8 bytes an object and 8 an escalation. Contracts see the list of the escalations
/// alone.
#[derive(Drop)]
pub struct Escalations {
    items: Vec<Escalation>,
    /// For each object the places of its escalations in `items`.
    places: Lists<usize>,
}

impl Model for Escalations {
    ghost use Rattle.std.specs.Prelude.{List};
    ghost use Rattle.due_model.specs.declared.config.Escalation.{Escalation};
    ghost use Rattle.due_model.specs.ByObject.{ArePlaces};

    ghost Value = { List Escalation };

    ghost view = { λ s. s.items.items };

    ghost invariant = { λ s. ArePlaces s.items.items s.places };
}

impl Escalations {
    /// The collection of these escalations. The work grows with the greatest number of an object among theirs and with
    /// the escalations. A refused growth drops the escalations.
    pub fn new(alloc: Global, items: Vec<Escalation>) -> Result<Self, AllocError>
        ensures { IfOk result (λ escalations. escalations ≡ items.items) }
    {
        let places = lists_by_object(alloc, items.as_slice())?;
        Ok(Escalations { items, places })
    }

    /// The escalations, in their order.
    pub fn as_slice(&self) -> &[Escalation]
        ensures { result.now ≡ self.now }
    {
        &self.items
    }

    /// How many escalations there are.
    pub fn len(&self) -> usize
        ensures { result ≡ length self.now }
    {
        self.items.len()
    }

    /// The places of the object's escalations, in their order. It reads those of no other object and takes no memory.
    /// An object that has no escalation has no places, whether the configuration has it or not.
    pub fn of(&self, object: ObjectId) -> &[usize]
        ensures { result.now ≡ places_of self.now object.0 }
    {
        let number = usize::from(object.0);
        if number < self.places.len() {
            self.places.get(number)
        } else {
            &[]
        }
    }
}

impl ByObject<usize> for Escalation {
    ghost number = { λ e. e.object.0 };

    ghost kept = { λ _ place. place };

    fn object(&self) -> ObjectId {
        self.object
    }

    fn kept(&self, place: usize) -> usize {
        place
    }
}
