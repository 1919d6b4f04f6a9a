//! Notices that the tests give.

use due_model::config::{ContactId, LaneId, ObjectId};
use due_model::notice::{Kind, Notice};
use due_model::state::State;

/// The lane of all.
pub(crate) const LANE: LaneId = LaneId(0);

/// Web is down at an event; who is told is the contact of this number.
pub(crate) fn notice(event: u64, contact: u16) -> Notice {
    Notice {
        event,
        moment: 1_000,
        object: ObjectId(0),
        kind: Kind::Problem,
        state: State::Down,
        number: 1,
        contact: ContactId(contact),
        lane: LANE,
    }
}
