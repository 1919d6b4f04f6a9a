//! The thread of a lane's worker.

ghost use Rattle.std.specs.Prelude.{◌≡◌, ◌<◌, ◌≤◌, [], length};
ghost use Rattle.channel_queue.specs.Passes.{IsWorker};
ghost use Rattle.engine_threads.specs.Lanes.{HaveTaken, IsServed};

use crate::shared::Shared;
use channel::Channel;
use channel_queue::{LaneQueue, Pass};
use delivery_worker::{Gate, LaneBell, PatientBell, Served, serve};
use due_model::config::LaneId;
use std::sync::Wait;
use std::time::Clock;
use undelivered::Why;

/// What a worker begins with: its lane's channels, of which the first serves, and its pass.
#[derive(Drop)]
pub(crate) struct LaneWork<C: Channel> {
    pub lane: LaneId,
    pub channels: Vec<C>,
    pub pass: Pass,
    pub ghost few: { length channels.items ≤ 8 },
}

/// The work of a lane's thread.
pub(crate) fn serve_lane<C: Channel, Z, G: Gate, R: Wait + Clock>(
    shared: Shared<'_, Z, G, R>,
    work: LaneWork<C>,
    queue: &LaneQueue,
) -> (Served, Vec<C>)
    requires tries { 0 < shared.tries }
    requires deciders { queue.now.deciders ≤ 8 }
    requires worker { IsWorker queue.now [] [] work.pass }
    ensures served { IsServed queue.now (length work.channels.items) result.0 }
    ensures channels { HaveTaken C.account C.offered shared.entry.tries shared.entry.config.now result.0 work.channels.items result.1.items }
{
    let LaneWork {
        lane,
        channels,
        pass,
    } = work;
    let count = channels.len();
    let mut bell = PatientBell::new(LaneBell::new(shared.closers, lane), shared.rt, shared.gate);
    let (served, channels) = serve(
        shared.rt,
        shared.alloc,
        shared.config,
        channels,
        shared.tries,
        queue,
        pass,
        &mut bell,
        shared.gate,
    );
    tell_over(lane, count, &served, shared.gate);
    (served, channels)
}

/// Tells the gate that a lane is over which was given so many channels.
fn tell_over<G: Gate>(lane: LaneId, channels: usize, served: &Served, gate: &G) {
    if channels > 1 {
        tell_channels(lane, served, gate);
    }
    gate.lane_over(lane, cause_of(served));
}

/// Why a lane is over. One without a channel says so, also where memory ran out afterwards.
fn cause_of(served: &Served) -> Why {
    if served.held.parts().why == Some(Why::NoChannel) {
        Why::NoChannel
    } else {
        served.why
    }
}

/// Tells the gate how many notices each channel of a lane has taken that served.
fn tell_channels<G: Gate>(lane: LaneId, served: &Served, gate: &G) {
    let parts = served.held.parts();
    let mut number = 0u64;
    for taken in parts.ended {
        gate.channel_over(lane, number, taken.len() as u64);
        number = number.saturating_add(1);
    }
    gate.channel_over(lane, number, parts.taken.len() as u64);
}
