//! A gate that holds nothing back.

ghost use Rattle.std.specs.Prelude.{◌≡◌, true};

use delivery_worker::Gate;
use due_model::config::LaneId;
use due_model::notice::Notice;

/// A gate that admits every notice at once, and holds no decider back.
#[derive(Clone, Copy, Debug)]
pub struct OpenGate;

impl Gate for OpenGate {
    fn admit(&self, _lane: LaneId, _notice: &Notice) -> bool
        ensures { result ≡ true }
    {
        true
    }

    fn turn(&self, _decider: u8) {}
}
