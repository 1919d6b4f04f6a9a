//! The status of each object.

ghost use Rattle.std.specs.Prelude.{◌≡◌, ◌+◌, ◌^◌, ◌<◌};
ghost use Rattle.std.specs.Prelude.{length, IfOk, IfSome, slice_index_or, None};
ghost use Rattle.due_model.specs.declared.state.State.TheVariants.{Pending};
ghost use Rattle.due_model.specs.Acknowledgements.{ack_after};
ghost use Rattle.due_model.specs.claims.Readings.{depth_after, depth_changed, flapping_after};
ghost use Rattle.due_model.specs.claims.Readings.{switched_after};
ghost use Rattle.decider.specs.claims.Statuses.{status_at};
ghost use Rattle.decider.specs.Statuses.{hard_by, named_by, no_statuses, status_by};
ghost use Rattle.decider.specs.Statuses.{statuses_after, with_ack, with_depth, with_flapping};
ghost use Rattle.decider.specs.Statuses.{with_state, with_switch};

use due_model::config::ObjectId;
use due_model::event::{DowntimeChange, EventKind};
use due_model::rules::ObjectStatus;
use due_model::state::State;
use std::alloc::{AllocError, Global};
use std::marker::Model;

/// The status of each object, by its number. It takes some 14 bytes an object.
#[derive(Drop)]
pub(crate) struct Statuses {
    /// The last hard state of each.
    states: Vec<State>,
    /// How many downtimes of each run.
    depths: Vec<u64>,
    /// Whether each is flapping.
    flaps: Vec<bool>,
    /// How the running problem of each is acknowledged: sticky or not; none where it isn't.
    acks: Vec<Option<bool>>,
    /// The own switch of each; none where nothing switched it.
    switches: Vec<Option<bool>>,
}

impl Model for Statuses {
    ghost use Rattle.std.specs.Prelude.{◌≡◌, length};
    ghost use Rattle.decider.specs.claims.Statuses.{StatusLists};

    ghost Value = { StatusLists };

    ghost view = { λ s. record {
      states = s.states.items;
      depths = s.depths.items;
      flaps = s.flaps.items;
      acks = s.acks.items;
      switches = s.switches.items;
    } };

    // There are as many of each.
    ghost invariant = { λ s. (length s.depths.items ≡ length s.states.items)
        × (length s.flaps.items ≡ length s.states.items)
        × (length s.acks.items ≡ length s.states.items)
        × (length s.switches.items ≡ length s.states.items) };
}

impl Statuses {
    /// The statuses of so many objects of which nothing is known yet. A refused growth leaves nothing.
    pub(crate) fn new(alloc: Global, objects: usize) -> Result<Statuses, AllocError>
        ensures { IfOk result (λ statuses. statuses ≡ no_statuses objects) }
    {
        Ok(Statuses {
            states: vec![in alloc; State::Pending; objects]?,
            depths: vec![in alloc; 0; objects]?,
            flaps: vec![in alloc; false; objects]?,
            acks: vec![in alloc; None; objects]?,
            switches: vec![in alloc; None; objects]?,
        })
    }

    /// The status of an object.
    pub(crate) fn at(&self, object: ObjectId) -> ObjectStatus
        requires { object.0 < length self.now.states }
        ensures { result ≡ status_at self.now object.0 }
    {
        let number = usize::from(object.0);
        ObjectStatus {
            state: self.states[number],
            depth: self.depths[number],
            flapping: self.flaps[number],
            acknowledged: self.acks[number],
            switched: self.switches[number],
        }
    }

    /// The last hard state of each object.
    pub(crate) fn states(&self) -> &[State]
        ensures { result.now ≡ self.now.states }
    {
        self.states.as_slice()
    }

    /// Gives an object this hard state. The result is the one that it had.
    pub(crate) fn replace_state(&mut self, object: ObjectId, state: State) -> State
        requires { object.0 < length self.old.states }
        ensures before { result ≡ slice_index_or self.old.states object.0 Pending }
        ensures after { self.new ≡ with_state self.old object.0 state }
    {
        let number = usize::from(object.0);
        let before = self.states[number];
        self.states[number] = state;
        before
    }

    /// Starts a downtime of an object, or ends one.
    fn change_depth(&mut self, object: ObjectId, change: DowntimeChange)
        requires object { object.0 < length self.old.states }
        requires room { slice_index_or self.old.depths object.0 0 + 1 < 2 ^ 64 }
        ensures { self.new ≡ with_depth self.old object.0
            (depth_changed change (slice_index_or self.old.depths object.0 0)) }
    {
        let number = usize::from(object.0);
        self.depths[number] = change.depth_after(self.depths[number]);
    }

    /// Says whether an object is flapping.
    fn set_flapping(&mut self, object: ObjectId, flapping: bool)
        requires { object.0 < length self.old.states }
        ensures { self.new ≡ with_flapping self.old object.0 flapping }
    {
        self.flaps[usize::from(object.0)] = flapping;
    }

    /// Says how the problem of an object is acknowledged after an event, of which its state is the one before it.
    fn follow_ack(&mut self, object: ObjectId, event: EventKind)
        requires { object.0 < length self.old.states }
        ensures { self.new ≡ with_ack self.old object.0 (ack_after object.0 event
            (slice_index_or self.old.states object.0 Pending)
            (slice_index_or self.old.acks object.0 None)) }
    {
        let number = usize::from(object.0);
        self.acks[number] = event.ack_after(object, self.states[number], self.acks[number]);
    }

    /// Says how the notifications of an object are switched after an event.
    fn follow_switch(&mut self, object: ObjectId, event: EventKind)
        requires { object.0 < length self.old.states }
        ensures { self.new ≡ with_switch self.old object.0 (switched_after object.0 event
            (slice_index_or self.old.switches object.0 None)) }
    {
        let number = usize::from(object.0);
        self.switches[number] = event.switched_after(object, self.switches[number]);
    }

    /// Counts an event.
    pub(crate) fn count(&mut self, event: EventKind)
        requires named { IfSome (named_by event) (λ object. (object.0 < length self.old.states)
            × ((status_at self.old object.0).depth + 1 < 2 ^ 64)) }
        ensures { self.new ≡ statuses_after event self.old }
    {
        match event {
            EventKind::Clock => {}
            EventKind::Program(_) => {}
            EventKind::Hard(object, state) => {
                self.follow_ack(object, event);
                self.replace_state(object, state);
            }
            EventKind::Downtime(object, change) => self.change_depth(object, change),
            EventKind::Flapping(object, starts) => self.set_flapping(object, starts),
            EventKind::Ack(object, _) => self.follow_ack(object, event),
            EventKind::AckRemoved(object) => self.follow_ack(object, event),
            EventKind::OwnSwitch(object, _) => self.follow_switch(object, event),
        }
    }
}

/// The object to which an event gives a hard state, and that state.
pub(crate) fn hard_by(event: EventKind) -> Option<(ObjectId, State)>
    ensures { result ≡ hard_by event }
{
    match event {
        EventKind::Hard(object, state) => Some((object, state)),
        _ => None,
    }
}

/// The status of an object after an event, of which `old` was the status before it.
pub(crate) fn status_by(old: ObjectStatus, event: EventKind, object: ObjectId) -> ObjectStatus
    requires { old.depth + 1 < 2 ^ 64 }
    ensures { result ≡ status_by object.0 event old }
{
    ObjectStatus {
        state: event.hard_after(object, old.state),
        depth: depth_by(old.depth, event, object),
        flapping: flapping_by(old.flapping, event, object),
        acknowledged: event.ack_after(object, old.state, old.acknowledged),
        switched: event.switched_after(object, old.switched),
    }
}

/// How many downtimes of an object run after an event, of which so many ran before it (chapter "Scheduled Downtime").
fn depth_by(old: u64, event: EventKind, object: ObjectId) -> u64
    requires { old + 1 < 2 ^ 64 }
    ensures { result ≡ depth_after object.0 event old }
{
    match event {
        EventKind::Downtime(named, change) => {
            if named.0 == object.0 {
                change.depth_after(old)
            } else {
                old
            }
        }
        _ => old,
    }
}

/// Whether an object is flapping after an event, which was so before it (chapter "State Flapping").
fn flapping_by(old: bool, event: EventKind, object: ObjectId) -> bool
    ensures { result ≡ flapping_after object.0 event old }
{
    match event {
        EventKind::Flapping(named, starts) => { if named.0 == object.0 { starts } else { old } }
        _ => old,
    }
}
