//! Which events are proper for a configuration.

ghost use Rattle.std.specs.Prelude.{◌≡◌, ◌↔◌, IsTrue, is_some, ◌<◌, length};
ghost use Rattle.due_model.specs.claims.Accepted.{HasObject};
ghost use Rattle.due_model.specs.claims.Proper.{is_state_of, IsProper, KindIsProper};

use crate::config::{Config, ObjectId};
use crate::event::{Event, EventKind};
use crate::limits::LAST_MOMENT;
use crate::state::State;

impl State {
    /// Whether this is a hard state of a service, or of a host (chapter "State Types").
    pub fn is_state_of(self, service: bool) -> bool
        ensures { result ≡ is_state_of service self }
    {
        match self {
            State::Pending => false,
            State::Up | State::Down | State::Unreachable => !service,
            State::Fine | State::Warning | State::Unknown | State::Critical => service,
        }
    }
}

/// Whether an object of this number is in the configuration.
pub fn has_object(config: &Config, object: ObjectId) -> bool
    ensures { IsTrue result ↔ HasObject config.now object.0 }
{
    (object.0 as usize) < config.objects.len()
}

/// Whether an event names an object of the configuration, if it names one, and a hard state is one of
/// that object's kind.
fn kind_is_proper(config: &Config, kind: EventKind) -> bool
    ensures { IsTrue result ↔ KindIsProper config.now kind }
{
    match kind {
        EventKind::Clock | EventKind::Program(_) => true,
        EventKind::Hard(object, state) => {
            match config.objects.as_slice().get(object.0 as usize) {
                Some(object) => state.is_state_of(object.host.is_some()),
                None => false,
            }
        }
        EventKind::Downtime(object, _)
        | EventKind::Flapping(object, _)
        | EventKind::Ack(object, _)
        | EventKind::AckRemoved(object)
        | EventKind::OwnSwitch(object, _) => has_object(config, object),
    }
}

/// Whether the event is one that the feed gives: a stamp up to the end of the year 2999, and an object of
/// the configuration with a hard state of its kind. It takes no memory.
pub fn is_proper(config: &Config, event: &Event) -> bool
    ensures { IsTrue result ↔ IsProper config.now event.now }
{
    event.moment <= LAST_MOMENT && kind_is_proper(config, event.kind)
}
