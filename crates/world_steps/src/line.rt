//! What waits in a decider's outbox of one object.

ghost use Rattle.std.specs.Prelude.{◌≡◌, ◌<◌, length, IfOk};
ghost use Rattle.decider.specs.claims.Outbox.{lists, waiting_at};
ghost use Rattle.steps.specs.claims.Lanes.{about};

use decider::Outbox;
use due_model::config::{LaneId, ObjectId};
use due_model::notice::Notice;
use std::alloc::{AllocError, Global};

/// The notices of an object that wait for a lane. A refused growth is the only error.
pub(crate) fn about_in_outbox(
    alloc: Global,
    outbox: &Outbox,
    lane: LaneId,
    object: ObjectId,
) -> Result<Vec<Notice>, AllocError>
    requires { lane.0 < length (lists outbox.now) }
    ensures { IfOk result (λ found. found.items ≡ about object.0 (waiting_at outbox.now lane.0)) }
{
    let mut found = Vec::new(alloc);
    for place in 0..outbox.waiting(lane) {
        if let Some(notice) = outbox.get(lane, place) {
            if notice.object.0 == object.0 {
                found.push(notice)?;
            }
        }
    }
    Ok(found)
}
