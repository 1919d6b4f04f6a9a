//! Events in short, and whether events may be given to the bodies.

ghost use Rattle.std.specs.Prelude.{◌≡◌, All, IsTrue};
ghost use Rattle.due_model.specs.claims.Objects.{object_id};
ghost use Rattle.due_model.specs.claims.Proper.{IsProper};
ghost use Rattle.due_model.specs.declared.event.EventKind.TheVariants.{Clock, Hard};

use due_model::config::{Config, ObjectId};
use due_model::event::{Event, EventKind};
use due_model::proper::is_proper;
use due_model::state::State;

/// An event of this kind.
pub fn at(moment: u64, kind: EventKind) -> Event
    ensures { result ≡ record { moment = moment; kind = kind } }
{
    Event { moment, kind }
}

/// A clock event.
pub fn clock(moment: u64) -> Event
    ensures { result ≡ record { moment = moment; kind = Clock } }
{
    at(moment, EventKind::Clock)
}

/// A hard state of an object.
pub fn hard(moment: u64, object: u16, state: State) -> Event
    ensures { result ≡ record { moment = moment; kind = Hard (object_id object) state } }
{
    at(moment, EventKind::Hard(ObjectId(object), state))
}

/// Whether each event is proper.
pub fn are_proper(config: &Config, events: &[Event]) -> bool
    ensures { IsTrue result → All (IsProper config.now) events.now }
{
    events.iter().all(|event| is_proper(config, event))
}
