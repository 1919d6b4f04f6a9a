//! What is due and what is suppressed after some events, found by looking back over all of them at each.

ghost use Rattle.std.specs.Prelude.{◌≡◌, ◌<◌, length, All, IfOk, reverse, slice_get, Some};
ghost use Rattle.due_model.specs.claims.Accepted.{IsAccepted};
ghost use Rattle.due_model.specs.claims.Due.{due, due_for, sup, suppressed_for};
ghost use Rattle.due_model.specs.claims.Proper.{IsProper};

use crate::attempts::released_after;
use crate::notices::{Answers, add_answers};
use crate::outcomes::{is_over, outcome};
use crate::subject::Subject;
use due_model::config::{Config, LaneId, ObjectId};
use due_model::event::Event;
use due_model::notice::{Notice, Suppression};
use due_model::zone::Zone;
use std::alloc::{AllocError, Global};

/// The notices of an object that are due on a lane after these events, and the suppressions of the object.
fn find_answers(
    alloc: Global,
    subject: &Subject<'_>,
    events: &[Event],
    lane: LaneId,
) -> Result<Answers, AllocError>
    requires accepted { IsAccepted subject.now.config.now }
    requires proper { All (IsProper subject.now.config.now) events.now }
    ensures due { IfOk result (λ a. a.due.items
        ≡ due_for subject.now.config.now subject.now.zone.now subject.now.id.0
        subject.now.object.now lane.0
        (reverse events.now)) }
    ensures suppressed { IfOk result (λ a. a.suppressed.items
        ≡ suppressed_for subject.now.config.now subject.now.zone.now subject.now.id.0
        subject.now.object.now
        (reverse events.now)) }
{
    let mut history = Vec::new(alloc);
    let mut over = false;
    let mut released = None;
    let mut answers = Answers {
        due: Vec::new(alloc),
        suppressed: Vec::new(alloc),
    };
    for (index, event) in events.iter().enumerate() {
        let past = &events[..index];
        let so_far = history.as_slice();
        let now = outcome(alloc, subject, event, past, so_far, over, released)?;
        let ends = is_over(alloc, subject, event, past, so_far, now, over)?;
        let freed = released_after(subject, event, past, now, released);
        let number = index as u64;
        add_answers(alloc, subject, lane, number, now, &mut answers)?;
        history.push(now)?;
        over = ends;
        released = freed;
    }
    Ok(answers)
}

/// An object of a configuration.
fn subject_of<'a>(config: &'a Config, zone: &'a Zone, object: ObjectId) -> Subject<'a>
    requires { object.0 < length config.now.objects }
    ensures config { result.config.now ≡ config.now }
    ensures zone { result.zone.now ≡ zone.now }
    ensures id { result.id ≡ object }
    ensures at { slice_get config.now.objects object.0 ≡ Some result.object.now }
{
    Subject {
        config,
        zone,
        id: object,
        object: &config.objects.as_slice()[object.0 as usize],
    }
}

/// The notices of an object that are due on a lane after these events, the oldest first. The events are
/// numbered from 0. The only error is want of memory. At each event it goes over all events before it, once for
/// each object of the configuration, over all escalations and contacts, and over seconds to the next one of a
/// period: the time grows with the square of the events.
pub fn slow_due(
    alloc: Global,
    config: &Config,
    zone: &Zone,
    events: &[Event],
    object: ObjectId,
    lane: LaneId,
) -> Result<Vec<Notice>, AllocError>
    requires accepted { IsAccepted config.now }
    requires proper { All (IsProper config.now) events.now }
    requires object { object.0 < length config.now.objects }
    ensures { IfOk result
        (λ v. v.items ≡ due config.now zone.now object.0 lane.0 (reverse events.now)) }
{
    let subject = subject_of(config, zone, object);
    let Answers { due, .. } = find_answers(alloc, &subject, events, lane)?;
    Ok(due)
}

/// The suppressions of an object after these events, the oldest first. The events are numbered from 0. The
/// only error is want of memory. The time grows as that of `slow_due`.
pub fn slow_sup(
    alloc: Global,
    config: &Config,
    zone: &Zone,
    events: &[Event],
    object: ObjectId,
) -> Result<Vec<Suppression>, AllocError>
    requires accepted { IsAccepted config.now }
    requires proper { All (IsProper config.now) events.now }
    requires object { object.0 < length config.now.objects }
    ensures { IfOk result
        (λ v. v.items ≡ sup config.now zone.now object.0 (reverse events.now)) }
{
    let subject = subject_of(config, zone, object);
    // The suppressions are the same whatever the lane.
    let Answers { suppressed, .. } = find_answers(alloc, &subject, events, LaneId(0))?;
    Ok(suppressed)
}
