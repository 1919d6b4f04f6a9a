//! What a decider's thread is set in.

use channel_queue::LaneQueue;
use decider::Share;
use due_model::config::Config;
use due_model::zone::Zone;
use std::alloc::{AllocError, Global};
use std::sync::atomic::AtomicBool;

/// What a decider's thread is set in.
pub struct DeciderSetup<'a, G, R> {
    /// What waits and tells the time.
    pub rt: &'a R,
    pub alloc: Global,
    /// An accepted configuration.
    pub config: &'a Config,
    pub zone: &'a Zone,
    /// Which objects are the decider's.
    pub share: Share,
    /// The queue of each lane, in order.
    pub queues: &'a [LaneQueue],
    /// What may hold events back.
    pub gate: &'a G,
    /// True once a thread wants the others to stop.
    pub halt: &'a AtomicBool,
}

impl<'a, G, R> Clone for DeciderSetup<'a, G, R> {
    ghost use Rattle.std.specs.Prelude.{◌≡◌};

    ghost is_clone = { λ x y. y ≡ x };

    ghost is_infallible = { λ _. Unit {0} };

    fn clone(&self) -> Result<DeciderSetup<'a, G, R>, AllocError> {
        Ok(*self)
    }
}

impl<'a, G, R> Copy for DeciderSetup<'a, G, R> {}
