//! What is made before the threads start.

ghost use Rattle.std.specs.Prelude.{◌≡◌, ◌<◌, ◌≤◌, ℕ, [], IfOk, OnOk, length, slice_get, Some};
ghost use Rattle.channel_queue.specs.Passes.{IsDecider};
ghost use Rattle.engine_threads.specs.Works.{AreDeciderWorks, AreLonger, AreNewWorkers, AreRings};
ghost use Rattle.engine_threads.specs.Works.{HaveDeciders};

use crate::lane_work::LaneWork;
use crate::starts::DeciderWork;
use channel::Channel;
use channel_queue::{LaneQueue, Pass};
use decider_thread::{Seat, Signal};
use due_model::config::LaneId;
use rtrb::{Producer, RingBuffer};
use std::alloc::{AllocError, Global};

/// How many signals a ring holds.
const RING: usize = 256;

/// A ring for each decider. A refused growth is the only error.
fn make_rings(
    alloc: Global,
    deciders: u8,
) -> Result<(Vec<Producer<Signal>>, Vec<DeciderWork>), AllocError>
    ensures senders { IfOk result (λ r. length r.0.items ≡ deciders) }
    ensures deciders { IfOk result (λ r. length r.1.items ≡ deciders) }
    ensures rings { IfOk result (λ r. AreRings r.1.items r.0.items) }
    ensures works { IfOk result (λ r. AreDeciderWorks [] r.1.items) }
{
    let mut senders = Vec::with_capacity(alloc, usize::from(deciders))?;
    let mut works = Vec::with_capacity(alloc, usize::from(deciders))?;
    for _decider in 0..deciders {
        let (sender, ring) = RingBuffer::new(alloc, RING)?;
        senders.push(sender)?;
        works.push(DeciderWork {
            ring,
            seats: Vec::new(alloc),
        })?;
    }
    Ok((senders, works))
}

/// Gives each decider its pass of one lane's queue. A refused growth is the only error.
fn add_seats(
    lane: LaneId,
    queue: &LaneQueue,
    passes: Vec<Pass>,
    deciders: &mut Vec<DeciderWork>,
) -> Result<(), AllocError>
    requires count { length passes.items ≡ length deciders.old.items }
    requires passes { (d : ℕ) (p : _) → slice_get passes.items d ≡ Some p
        → IsDecider queue.now d [] p }
    ensures longer { OnOk result (AreLonger queue.now deciders.old.items deciders.new.items) }
    ensures count { length deciders.new.items ≡ length deciders.old.items }
{
    let _ = queue;
    let mut place = 0;
    for pass in passes {
        deciders[place].seats.push(Seat { lane, pass })?;
        place += 1;
    }
    Ok(())
}

/// All that the threads begin with.
#[derive(Drop)]
pub(crate) struct Prepared<C: Channel> {
    pub queues: Vec<LaneQueue>,
    pub works: Vec<LaneWork<C>>,
    pub deciders: Vec<DeciderWork>,
    pub senders: Vec<Producer<Signal>>,
}

/// What a worker begins with.
fn lane_work<C: Channel>(lane: LaneId, channels: Vec<C>, pass: Pass) -> LaneWork<C>
    requires { length channels.items ≤ 8 }
    ensures lane { result.lane ≡ lane }
    ensures channels { result.channels ≡ channels }
    ensures pass { result.pass ≡ pass }
{
    LaneWork {
        lane,
        channels,
        pass,
    }
}

/// Makes all that the threads begin with: a lane for each list of channels, with a queue for so many items, and so many
/// deciders. A refused growth is the only error.
pub(crate) fn prepare_all<C: Channel>(
    alloc: Global,
    given: Vec<Vec<C>>,
    deciders: u8,
    capacity: usize,
) -> Result<Prepared<C>, AllocError>
    requires capacity { 0 < capacity }
    requires lanes { length given.items < 256 }
    requires few { (l : ℕ) (c : _) → slice_get given.items l ≡ Some c → length c.items ≤ 8 }
    ensures queues { IfOk result (λ s. length s.queues.items ≡ length given.items) }
    ensures works { IfOk result (λ s. length s.works.items ≡ length given.items) }
    ensures given { IfOk result (λ s. (l : ℕ) (w : _) (c : _) → slice_get given.items l ≡ Some c
        → slice_get s.works.items l ≡ Some w → (w.channels ≡ c) × (w.lane.0 ≡ l)) }
    ensures counts { IfOk result (λ s. HaveDeciders deciders s.queues.items) }
    ensures workers { IfOk result (λ s. AreNewWorkers (λ w. w.pass) s.queues.items s.works.items) }
    ensures deciders { IfOk result (λ s. length s.deciders.items ≡ deciders) }
    ensures senders { IfOk result (λ s. length s.senders.items ≡ deciders) }
    ensures rings { IfOk result (λ s. AreRings s.deciders.items s.senders.items) }
    ensures seats { IfOk result (λ s. AreDeciderWorks s.queues.items s.deciders.items) }
{
    let (senders, mut ends) = make_rings(alloc, deciders)?;
    let mut queues = Vec::with_capacity(alloc, given.len())?;
    let mut works = Vec::with_capacity(alloc, given.len())?;
    for of_lane in given {
        let lane = LaneId(works.len() as u8);
        let (queue, passes, pass) = LaneQueue::new(alloc, capacity, deciders)?;
        add_seats(lane, &queue, passes, &mut ends)?;
        queues.push(queue)?;
        works.push(lane_work(lane, of_lane, pass))?;
    }
    Ok(Prepared {
        queues,
        works,
        deciders: ends,
        senders,
    })
}
