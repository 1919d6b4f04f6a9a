//! What the threads of a run share.

use crate::word::StartWord;
use channel_queue::LaneQueue;
use delivery_worker::Closers;
use due_model::config::Config;
use std::alloc::{AllocError, Global};
use std::sync::atomic::AtomicBool;

/// What a run is set in.
pub struct Setup<'a, Z, G, R> {
    /// What starts threads, waits and tells the time.
    pub rt: &'a R,
    pub alloc: Global,
    /// An accepted configuration.
    pub config: &'a Config,
    pub zone: &'a Z,
    /// What asks lanes to close.
    pub closers: &'a Closers,
    /// What holds notices and events back.
    pub gate: &'a G,
}

impl<'a, Z, G, R> Clone for Setup<'a, Z, G, R> {
    ghost use Rattle.std.specs.Prelude.{◌≡◌};

    ghost is_clone = { λ x y. y ≡ x };

    ghost is_infallible = { λ _. Unit {0} };

    fn clone(&self) -> Result<Setup<'a, Z, G, R>, AllocError> {
        Ok(*self)
    }
}

impl<'a, Z, G, R> Copy for Setup<'a, Z, G, R> {}

/// What each thread of a run is given: what the run is set in, the queues of the lanes, and what stops them.
pub(crate) struct Shared<'s, Z, G, R> {
    pub rt: &'s R,
    pub alloc: Global,
    pub config: &'s Config,
    pub zone: &'s Z,
    pub closers: &'s Closers,
    pub gate: &'s G,
    /// The queue of each lane, in order.
    pub queues: &'s [LaneQueue],
    /// The word for which each thread waits before it begins.
    pub word: &'s StartWord,
    /// True once a thread wants the others to stop.
    pub halt: &'s AtomicBool,
    /// How often a letter may be tried at a channel.
    pub tries: u8,
}

impl<'s, Z, G, R> Clone for Shared<'s, Z, G, R> {
    ghost use Rattle.std.specs.Prelude.{◌≡◌};

    ghost is_clone = { λ x y. y ≡ x };

    ghost is_infallible = { λ _. Unit {0} };

    fn clone(&self) -> Result<Shared<'s, Z, G, R>, AllocError> {
        Ok(*self)
    }
}

impl<'s, Z, G, R> Copy for Shared<'s, Z, G, R> {}
