//! What earlier runs left of a lane.

ghost use Rattle.std.specs.Prelude.{◌≡◌};
ghost use Rattle.std.specs.Arc.{arc_value};

use journaled::Past;
use std::alloc::Global;
use std::sync::Arc;

/// What earlier runs left of a lane.
#[derive(Drop)]
pub struct LaneState {
    /// What its channels go by.
    pub past: Arc<Past, Global>,
    /// From which event on letters are handed over.
    pub from: u64,
    /// How many letters were taken or given up.
    pub earlier: u64,
    /// How many of these are of the events from which on letters are handed over.
    pub sent: u64,
    ghost first: { (arc_value past).from ≡ from },
}
