//! The condition of an object: its hard state, its downtimes and its acknowledgement.

ghost use Rattle.std.specs.Prelude.{◌≡◌, length, replicate, slice_set, IfOk};
ghost use Rattle.night_marks.specs.Conditions.{at_first, condition_after, condition_at, depth_after, event_object, is_drawn, no_conditions};
ghost use Rattle.night_marks.specs.Conditions.{same, same_look};

use due_model::config::ObjectId;
use due_model::event::{DowntimeChange, EventKind};
use due_model::rules::same_state;
use due_model::state::State;
use std::alloc::{AllocError, Global};
use std::marker::Model;

/// How many numbers objects may have.
const NUMBERS: usize = 65_536;

/// What is known of an object.
#[derive(Clone, Copy, Debug)]
pub struct Condition {
    /// Its last hard state.
    pub state: State,
    /// How many downtimes of it run.
    pub depth: u64,
    /// How its problem is acknowledged: sticky or not; none where it isn't.
    pub ack: Option<bool>,
}

/// A change of an object's condition that a picture shows.
#[derive(Clone, Copy, Debug)]
pub struct Change {
    /// In seconds since the epoch.
    pub moment: u64,
    pub object: ObjectId,
    pub before: Condition,
    pub now: Condition,
}

/// What is known of an object before the first event.
fn at_first() -> Condition
    ensures { result ≡ at_first }
{
    Condition {
        state: State::Pending,
        depth: 0,
        ack: None,
    }
}

/// The object of which an event says something.
pub(crate) fn event_object(kind: EventKind) -> Option<ObjectId>
    ensures { result ≡ event_object kind }
{
    match kind {
        EventKind::Clock => None,
        EventKind::Program(_) => None,
        EventKind::Hard(object, _) => Some(object),
        EventKind::Downtime(object, _) => Some(object),
        EventKind::Flapping(object, _) => Some(object),
        EventKind::Ack(object, _) => Some(object),
        EventKind::AckRemoved(object) => Some(object),
        EventKind::OwnSwitch(object, _) => Some(object),
    }
}

/// How many downtimes run after one began or ended; the count stays where it can't be greater.
fn changed_depth(change: DowntimeChange, depth: u64) -> u64
    ensures { result ≡ depth_after change depth }
{
    if depth < 18_446_744_073_709_551_614 {
        change.depth_after(depth)
    } else {
        depth
    }
}

/// The condition of an object after an event that says something of it.
pub(crate) fn condition_after(kind: EventKind, object: ObjectId, before: Condition) -> Condition
    ensures { result ≡ condition_after kind object.0 before }
{
    let depth = match kind {
        EventKind::Downtime(_, change) => changed_depth(change, before.depth),
        _ => before.depth,
    };
    Condition {
        state: kind.hard_after(object, before.state),
        depth,
        ack: kind.ack_after(object, before.state, before.ack),
    }
}

/// Whether both are so, or neither is.
pub fn same(one: bool, other: bool) -> bool
    ensures { result ≡ same one other }
{
    if one { other } else { !other }
}

/// Whether two conditions look alike.
fn same_look(one: &Condition, other: &Condition) -> bool
    ensures { result ≡ same_look one.now other.now }
{
    same_state(one.state, other.state)
        && same(0 < one.depth, 0 < other.depth)
        && same(one.ack.is_some(), other.ack.is_some())
}

/// Whether a change is drawn: it looks different, and isn't the first that is known of an object that is well.
pub(crate) fn is_drawn(before: &Condition, now: &Condition) -> bool
    ensures { result ≡ is_drawn before.now now.now }
{
    !same_look(before, now) && !(same_state(before.state, State::Pending) && now.state.is_ok())
}

/// The conditions of all objects, by their numbers. Contracts see them as a list of so many.
#[derive(Drop)]
pub struct Conditions {
    conditions: Vec<Condition>,
}

impl Model for Conditions {
    ghost use Rattle.std.specs.Prelude.{◌≡◌, List, length};
    ghost use Rattle.night_marks.specs.declared.conditions.Condition.{Condition};

    ghost Value = { List Condition };

    ghost view = { λ s. s.conditions.items };

    ghost invariant = { λ s. length s.conditions.items ≡ 65536 };
}

/// So many of objects of which nothing is known.
fn nothing(alloc: Global, count: usize) -> Result<Vec<Condition>, AllocError>
    ensures items { IfOk result (λ places. places.items ≡ replicate count at_first) }
    ensures length { IfOk result (λ places. length places.items ≡ count) }
{
    vec![in alloc; at_first(); count]
}

impl Conditions {
    /// Nothing is known of any object. They take all their memory now: some 2 MB.
    #[tactic(auto, unfolding(crate::specs::Conditions::no_conditions))]
    pub(crate) fn new(alloc: Global) -> Result<Conditions, AllocError>
        ensures { IfOk result (λ conditions. conditions ≡ no_conditions) }
    {
        Ok(Conditions {
            conditions: nothing(alloc, NUMBERS)?,
        })
    }

    /// That of an object.
    pub(crate) fn get(&self, object: ObjectId) -> Condition
        ensures { result ≡ condition_at self.now object.0 }
    {
        self.conditions[usize::from(object.0)]
    }

    /// Puts another in its place.
    pub(crate) fn set(&mut self, object: ObjectId, condition: Condition)
        ensures { self.new ≡ slice_set self.old object.0 condition }
    {
        self.conditions[usize::from(object.0)] = condition;
    }
}
