//! What the events so far say, read by going over all of them.

ghost use Rattle.std.specs.Prelude.{◌≡◌, ◌≤◌, ◌<◌, ◌+◌, ◌^◌, ◌&&◌, ◌∷◌};
ghost use Rattle.std.specs.Prelude.{not, length, reverse, if◌then◌else◌};
ghost use Rattle.due_model.specs.claims.Readings.{moment, program_on, hard, hard_after, switched};
ghost use Rattle.due_model.specs.claims.Readings.{is_problem_of, is_problem_state};
ghost use Rattle.due_model.specs.claims.Readings.{depth, depth_after, down, flapping, flapping_after};
ghost use Rattle.due_model.specs.claims.Acknowledgements.{acked, acknowledgement, takes_back};
ghost use Rattle.due_model.specs.claims.Changes.{delayed};
ghost use Rattle.due_model.specs.claims.Rules.{same_state};

use due_model::config::{Choices, Config, ObjectId};
use due_model::event::{Event, EventKind};
use due_model::rules::same_state;
use due_model::state::State;

/// The greatest stamp of the events, in seconds since the epoch; 0, if there is none.
pub(crate) fn moment(events: &[Event]) -> u64
    ensures { result ≡ moment (reverse events.now) }
{
    let mut greatest: u64 = 0;
    for event in events {
        greatest = greatest.max(event.moment);
    }
    greatest
}

/// Whether the program switch is on after the events (chapter "External Commands").
pub(crate) fn program_on(events: &[Event]) -> bool
    ensures { result ≡ program_on (reverse events.now) }
{
    let mut on = true;
    for event in events {
        on = event.kind.switch_after(on);
    }
    on
}

/// The last hard state of the object; pending, if there is none (chapter "State Types").
pub(crate) fn hard(object: ObjectId, events: &[Event]) -> State
    ensures { result ≡ hard object.0 (reverse events.now) }
{
    let mut state = State::Pending;
    for event in events {
        state = event.kind.hard_after(object, state);
    }
    state
}

/// How many downtimes of the object run after an event, of `depth` before it (chapter "Scheduled Downtime").
fn depth_after(object: ObjectId, event: EventKind, depth: u64) -> u64
    requires { depth + 1 < 2 ^ 64 }
    ensures value { result ≡ depth_after object.0 event depth }
    ensures few { result ≤ depth + 1 }
{
    match event {
        EventKind::Downtime(named, change) => {
            if named.0 == object.0 {
                change.depth_after(depth)
            } else {
                depth
            }
        }
        _ => depth,
    }
}

/// How many downtimes of the object run after the events.
pub(crate) fn depth(object: ObjectId, events: &[Event]) -> u64
    ensures value { result ≡ depth object.0 (reverse events.now) }
    ensures few { result ≤ length events.now }
{
    let mut depth = 0;
    for event in events {
        depth = depth_after(object, event.kind, depth);
    }
    depth
}

/// Whether the object is in downtime after an event and those before it.
pub(crate) fn is_down_at(object: ObjectId, event: &Event, past: &[Event]) -> bool
    ensures { result ≡ down object.0 (event.now ∷ reverse past.now) }
{
    0 < depth_after(object, event.kind, depth(object, past))
}

/// Whether the object is flapping after an event, where it was `flapping` or not before it (chapter "State
/// Flapping").
fn flapping_after(object: ObjectId, event: EventKind, flapping: bool) -> bool
    ensures { result ≡ flapping_after object.0 event flapping }
{
    match event {
        EventKind::Flapping(named, starts) => {
            if named.0 == object.0 {
                starts
            } else {
                flapping
            }
        }
        _ => flapping,
    }
}

/// Whether the object is flapping after the events.
pub(crate) fn flapping(object: ObjectId, events: &[Event]) -> bool
    ensures { result ≡ flapping object.0 (reverse events.now) }
{
    let mut flapping = false;
    for event in events {
        flapping = flapping_after(object, event.kind, flapping);
    }
    flapping
}

/// Whether the object is flapping after an event and those before it.
pub(crate) fn is_flapping_at(object: ObjectId, event: &Event, past: &[Event]) -> bool
    ensures { result ≡ flapping object.0 (event.now ∷ reverse past.now) }
{
    flapping_after(object, event.kind, flapping(object, past))
}

/// How the running problem of the object is acknowledged after the events: sticky or not; none where it isn't (chapter
/// "External Commands").
pub(crate) fn acknowledgement(object: ObjectId, events: &[Event]) -> Option<bool>
    ensures { result ≡ acknowledgement object.0 (reverse events.now) }
{
    let mut acknowledged = None;
    let mut state = State::Pending;
    for event in events {
        acknowledged = event.kind.ack_after(object, state, acknowledged);
        state = event.kind.hard_after(object, state);
    }
    acknowledged
}

/// Whether the running problem of the object is acknowledged after an event and those before it.
pub(crate) fn is_acknowledged_at(object: ObjectId, event: &Event, past: &[Event]) -> bool
    ensures { result ≡ acked object.0 (event.now ∷ reverse past.now) }
{
    let before = acknowledgement(object, past);
    event
        .kind
        .ack_after(object, hard(object, past), before)
        .is_some()
}

/// What the last event that switches the object's notifications says; none, where there is none.
pub(crate) fn switched(object: ObjectId, events: &[Event]) -> Option<bool>
    ensures { result ≡ switched object.0 (reverse events.now) }
{
    let mut own = None;
    for event in events {
        own = event.kind.switched_after(object, own);
    }
    own
}

/// The same, an event and those before it counted.
pub(crate) fn switched_at(object: ObjectId, event: &Event, past: &[Event]) -> Option<bool>
    ensures { result ≡ switched object.0 (event.now ∷ reverse past.now) }
{
    event.kind.switched_after(object, switched(object, past))
}

/// Whether an event takes back the acknowledgement of the object's problem.
pub(crate) fn takes_back(object: ObjectId, event: &Event, past: &[Event]) -> bool
    ensures { result ≡ takes_back object.0 event.now (reverse past.now) }
{
    let removal = event.kind.is_removal_of(object);
    let acked = acknowledgement(object, past).is_some();
    removal && acked
}

/// The last hard state of the object after an event and those before it.
pub(crate) fn hard_at(object: ObjectId, event: &Event, past: &[Event]) -> State
    ensures { result ≡ hard object.0 (event.now ∷ reverse past.now) }
{
    event.kind.hard_after(object, hard(object, past))
}

/// Whether a problem of the object begins with this event, of which the hard state was `old` before it
/// (chapter "Notifications").
pub(crate) fn begins(object: ObjectId, event: EventKind, old: State) -> bool
    ensures { result ≡ (is_problem_of object.0 event && not (is_problem_state old)) }
{
    event.is_problem_of(object) && !old.is_problem()
}

/// Whether this event changes the hard state of the object, which was `old` before it.
pub(crate) fn changes(object: ObjectId, event: EventKind, old: State) -> bool
    ensures { result ≡ not (same_state (hard_after object.0 event old) old) }
{
    !same_state(event.hard_after(object, old), old)
}

/// Whether the first delay runs anew from this event, of which the hard state was `old` before it: where a problem begins,
/// or by the daemon's rule where the hard state changes.
fn delays(choices: Choices, object: ObjectId, event: EventKind, old: State) -> bool
    ensures { result ≡ (if choices.delay then not (same_state (hard_after object.0 event old) old)
        else (is_problem_of object.0 event && not (is_problem_state old))) }
{
    if choices.delay {
        changes(object, event, old)
    } else {
        begins(object, event, old)
    }
}

/// Since when the first delay runs, in seconds since the epoch; 0, where it never did.
pub(crate) fn delayed(config: &Config, object: ObjectId, events: &[Event]) -> u64
    ensures { result ≡ delayed config.now object.0 (reverse events.now) }
{
    let mut began = 0;
    let mut greatest: u64 = 0;
    let mut state = State::Pending;
    for event in events {
        greatest = greatest.max(event.moment);
        if delays(config.choices, object, event.kind, state) {
            began = greatest;
        }
        state = event.kind.hard_after(object, state);
    }
    began
}

/// The moment of an event, in seconds since the epoch: the greatest stamp up to it.
pub(crate) fn moment_at(event: &Event, past: &[Event]) -> u64
    ensures { result ≡ moment (event.now ∷ reverse past.now) }
{
    moment(past).max(event.moment)
}

/// Since when the first delay runs, this event counted; 0, where it never did.
pub(crate) fn delayed_at(config: &Config, object: ObjectId, event: &Event, past: &[Event]) -> u64
    ensures { result ≡ delayed config.now object.0 (event.now ∷ reverse past.now) }
{
    if delays(config.choices, object, event.kind, hard(object, past)) {
        moment_at(event, past)
    } else {
        delayed(config, object, past)
    }
}
