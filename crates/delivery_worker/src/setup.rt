//! What a lane's worker is set in.

use channel_queue::LaneQueue;
use due_model::config::Config;
use std::alloc::{AllocError, Global};

/// What a lane's worker is set in.
pub struct WorkerSetup<'a, G, R> {
    /// What waits and tells the time.
    pub rt: &'a R,
    pub alloc: Global,
    pub config: &'a Config,
    /// How often a letter may be tried.
    pub tries: u8,
    /// The lane's queue.
    pub queue: &'a LaneQueue,
    /// What may hold notices back.
    pub gate: &'a G,
}

impl<'a, G, R> Clone for WorkerSetup<'a, G, R> {
    ghost use Rattle.std.specs.Prelude.{◌≡◌};

    ghost is_clone = { λ x y. y ≡ x };

    ghost is_infallible = { λ _. Unit {0} };

    fn clone(&self) -> Result<WorkerSetup<'a, G, R>, AllocError> {
        Ok(*self)
    }
}

impl<'a, G, R> Copy for WorkerSetup<'a, G, R> {}
