//! Objects of which nobody is told at some time of a week (chapters "Notifications" and "Time Periods").

ghost use Rattle.std.specs.Prelude.{◌≡◌, ◌<◌, ◌&&◌, length, IfOk, OnOk};
ghost use Rattle.due_model.specs.claims.Accepted.{IsAccepted};
ghost use Rattle.object_warnings.specs.Hours.{AreAlways, AreFirst, AreKnown, IsFirst, lacks_hours};
ghost use Rattle.object_warnings.specs.Hours.{rows_of, weekly};
ghost use Rattle.object_warnings.specs.Objects.{can_notify, is_told};

use crate::covered::{always_of, is_covered};
use crate::known_spans::{Known, no_spans, span_of};
use crate::objects::{can_notify, is_told, object_id};
use crate::told_hours::hours_of;
use crate::week::{Week, weekly};
use due_model::config::{Config, Object, ObjectId};
use std::alloc::{AllocError, Global};

/// Minutes of a week, from Monday 00:00 on: from `start` on and before `end`.
#[derive(Clone, Copy, Debug, PartialEq, Eq)]
pub struct Span {
    pub start: u16,
    pub end: u16,
}

/// Whether an object can notify and tells somebody.
fn tells_somebody(config: &Config, number: ObjectId, object: &Object) -> bool
    ensures { result ≡ (can_notify object.now && is_told config.now number.0 object.now) }
{
    can_notify(object) && is_told(config, number, object)
}

/// The first span of the object of that number, if it can notify and tells somebody.
fn first_at(
    alloc: Global,
    config: &Config,
    all: &Week,
    always: &[bool],
    known: &mut Vec<Option<Known>>,
    number: usize,
) -> Result<Option<Span>, AllocError>
    requires accepted { IsAccepted config.now }
    requires week { all.now ≡ rows_of (weekly config.now) }
    requires always { AreAlways all.now always.now }
    requires within { number < length config.now.objects }
    requires known { AreKnown (rows_of (weekly config.now)) known.old.items }
    ensures known { OnOk result (AreKnown (rows_of (weekly config.now)) known.new.items) }
    ensures first { IfOk result (IsFirst (lacks_hours config.now number)) }
{
    let object = &config.objects.as_slice()[number];
    let id = object_id(number);
    if !tells_somebody(config, id, object) {
        return Ok(None);
    }
    if is_covered(config, always, id, object) {
        return Ok(None);
    }
    let hours = hours_of(alloc, config, id, object)?;
    Ok(span_of(all, known, object.period, hours))
}

/// Of each object that can notify and tells somebody the first span of a week, holidays apart, in which its period holds and
/// that of no contact does (NoHours): neither of a contact of its own nor of one of its escalations, of those with a command
/// for its kind. Objects with the same hours share one search. A refused growth leaves nothing.
pub fn without_hours(alloc: Global, config: &Config) -> Result<Vec<Option<Span>>, AllocError>
    requires { IsAccepted config.now }
    ensures { IfOk result (λ spans. AreFirst config.now spans.items) }
{
    let all = Week::new(alloc, &weekly(alloc, config)?)?;
    let always = always_of(alloc, &all, config.periods.len())?;
    let mut known = no_spans(alloc)?;
    let mut spans = Vec::with_capacity(alloc, config.objects.len())?;
    for number in 0..config.objects.len() {
        let span = first_at(alloc, config, &all, always.as_slice(), &mut known, number)?;
        spans.push(span)?;
    }
    Ok(spans)
}
