//! What is counted of a run for its metrics, from any thread.

use crate::feed_times::FeedTimes;
use due_model::config::{Config, LaneId};
use metrics_text::{CommandMetrics, Metrics};
use notice_text::texts::lane_name;
use std::alloc::{AllocError, Global};
use std::sync::Arc;
use std::sync::atomic::{AtomicU64, Ordering};

/// What is counted of one command.
#[derive(Drop)]
struct LaneMeter {
    /// What the metrics call it.
    label: Vec<u8>,
    /// How many notices became due.
    due: AtomicU64,
    /// How many of these each decider holds, as they wait for room in the command's queue. Nobody else changes its number.
    held: Vec<AtomicU64>,
    taken: AtomicU64,
    undelivered: AtomicU64,
    failures: AtomicU64,
}

impl LaneMeter {
    /// Of a command for which nothing is due, of so many deciders. A refused growth is the only error.
    fn new(alloc: Global, label: Vec<u8>, deciders: u8) -> Result<LaneMeter, AllocError> {
        let mut held = Vec::with_capacity(alloc, usize::from(deciders))?;
        for _decider in 0..deciders {
            held.push(AtomicU64::new(0))?;
        }
        Ok(LaneMeter {
            label,
            due: AtomicU64::new(0),
            held,
            taken: AtomicU64::new(0),
            undelivered: AtomicU64::new(0),
            failures: AtomicU64::new(0),
        })
    }

    /// A decider holds so many: what is more than before became due.
    fn hold(&self, decider: u8, notices: u64) {
        if let Some(held) = self.held.get(usize::from(decider)) {
            let before = held.swap(notices, Ordering::SeqCst);
            let more = notices.saturating_sub(before);
            if more > 0 {
                self.due.fetch_add(more, Ordering::SeqCst);
            }
        }
    }

    /// A decider holds one less, which is in the queue.
    fn queue(&self, decider: u8) {
        if let Some(held) = self.held.get(usize::from(decider)) {
            let before = held.load(Ordering::SeqCst);
            held.store(before.saturating_sub(1), Ordering::SeqCst);
        }
    }

    /// What is counted now. What was taken and given up is read before what is due, so that it is never more. A refused growth is the only
    /// error.
    fn metrics(&self, alloc: Global) -> Result<CommandMetrics, AllocError> {
        let mut name = Vec::new(alloc);
        name.extend_from_slice(self.label.as_slice())?;
        let taken = self.taken.load(Ordering::SeqCst);
        let undelivered = self.undelivered.load(Ordering::SeqCst);
        let due = self.due.load(Ordering::SeqCst);
        Ok(CommandMetrics {
            name,
            due,
            taken,
            undelivered,
            waiting: due.saturating_sub(taken).saturating_sub(undelivered),
            failures: self.failures.load(Ordering::SeqCst),
        })
    }
}

/// What is counted of a run.
#[derive(Drop)]
pub(crate) struct Meters {
    rt: HostRuntime,
    lanes: Vec<LaneMeter>,
    times: Arc<FeedTimes, Global>,
}

impl Meters {
    /// Nothing is counted yet of these commands, of so many deciders and of a feed whose lines are noted there. A refused growth is the only error.
    pub fn new(
        rt: &HostRuntime,
        config: &Config,
        deciders: u8,
        times: Arc<FeedTimes, Global>,
    ) -> Result<Meters, AllocError> {
        Ok(Meters {
            rt: *rt,
            lanes: lane_meters(rt.alloc(), config, deciders)?,
            times,
        })
    }

    /// A decider holds so many notices of a command.
    pub fn hold(&self, decider: u8, lane: LaneId, notices: u64) {
        if let Some(meter) = self.lanes.get(usize::from(lane.0)) {
            meter.hold(decider, notices);
        }
    }

    /// A decider has put one of them into the command's queue.
    pub fn queue(&self, decider: u8, lane: LaneId) {
        if let Some(meter) = self.lanes.get(usize::from(lane.0)) {
            meter.queue(decider);
        }
    }

    /// A channel of a command has taken a letter.
    pub fn take(&self, lane: LaneId) {
        if let Some(meter) = self.lanes.get(usize::from(lane.0)) {
            meter.taken.fetch_add(1, Ordering::SeqCst);
        }
    }

    /// A channel of a command has failed.
    pub fn fail(&self, lane: LaneId) {
        if let Some(meter) = self.lanes.get(usize::from(lane.0)) {
            meter.failures.fetch_add(1, Ordering::SeqCst);
        }
    }

    /// A command gives a notice up.
    pub fn give_up(&self, lane: LaneId) {
        if let Some(meter) = self.lanes.get(usize::from(lane.0)) {
            meter.undelivered.fetch_add(1, Ordering::SeqCst);
        }
    }

    /// What is counted now, where so many events were decided. A refused growth is the only error.
    pub fn metrics(&self, events: u64) -> Result<Metrics, AllocError> {
        let alloc = self.rt.alloc();
        let (feed_age, clock_age) = self.times.ages();
        let mut commands = Vec::with_capacity(alloc, self.lanes.len())?;
        for lane in self.lanes.as_slice() {
            commands.push(lane.metrics(alloc)?)?;
        }
        Ok(Metrics {
            events,
            commands,
            feed_age,
            clock_age,
        })
    }
}

/// A meter for each command, in order. A refused growth is the only error.
fn lane_meters(alloc: Global, config: &Config, deciders: u8) -> Result<Vec<LaneMeter>, AllocError> {
    let mut lanes = Vec::new(alloc);
    for number in 0..=u8::MAX {
        if usize::from(number) < config.lanes.len() {
            let label = label_of(alloc, config, LaneId(number))?;
            lanes.push(LaneMeter::new(alloc, label, deciders)?)?;
        }
    }
    Ok(lanes)
}

/// What the metrics call a command: by its name, or where that isn't UTF-8, by its place among the commands.
fn label_of(alloc: Global, config: &Config, lane: LaneId) -> Result<Vec<u8>, AllocError> {
    let mut label = Vec::new(alloc);
    let name = lane_name(config, lane);
    if std::str::from_utf8(name).is_ok() {
        label.extend_from_slice(name)?;
    } else {
        let number = lane.0;
        label.extend_from_slice(format!(in alloc; "command {number}")?.as_bytes())?;
    }
    Ok(label)
}
