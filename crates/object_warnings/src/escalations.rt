//! Escalations that match no number that can come (chapter "Notification Escalations").

ghost use Rattle.std.specs.Prelude.{◌≡◌, length, IfOk};
ghost use Rattle.object_warnings.specs.Escalations.{is_dead, is_dead_at, is_told_once};
ghost use Rattle.object_warnings.specs.Numbers.{numbers_where};

use crate::numbers::push_where;
use due_model::config::{Config, Escalation, ObjectId};
use std::alloc::{AllocError, Global};

/// Whether the interval of an object is 0: each problem of it is told of once.
fn is_told_once(config: &Config, object: ObjectId) -> bool
    ensures { result ≡ is_told_once config.now object.0 }
{
    match config.objects.as_slice().get(usize::from(object.0)) {
        None => false,
        Some(found) => found.interval == 0,
    }
}

/// Whether the escalation matches no number that can come: its first is above its last, or above 1 where the interval of its
/// object is 0.
fn is_dead(config: &Config, escalation: &Escalation) -> bool
    ensures { result ≡ is_dead config.now escalation.now }
{
    let ends = escalation.last != 0 && escalation.first > escalation.last;
    ends || (escalation.first > 1 && is_told_once(config, escalation.object))
}

/// The same of the escalation at the place.
fn is_dead_at(config: &Config, place: usize) -> bool
    ensures { result ≡ is_dead_at config.now place }
{
    match config.escalations.as_slice().get(place) {
        None => false,
        Some(escalation) => is_dead(config, escalation),
    }
}

/// The places of the escalations that match no number that can come (DeadEscalation). A refused growth leaves nothing.
pub fn dead(alloc: Global, config: &Config) -> Result<Vec<usize>, AllocError>
    ensures { IfOk result (λ found. found.items
        ≡ numbers_where (is_dead_at config.now) (length config.now.escalations)) }
{
    let mut found = Vec::new(alloc);
    for place in 0..config.escalations.len() {
        push_where(&mut found, place, is_dead_at(config, place))?;
    }
    Ok(found)
}
