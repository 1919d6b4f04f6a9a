//! Configurations and feeds that runs are tested with, and what they leave.

use acceptance_inputs::accepted::is_accepted;
use acceptance_inputs::rows::{ContactRow, ObjectRow, Rows, config_of};
use channel::Channel;
use channel::memory::MemoryChannel;
use due_model::config::{Config, ContactId, LaneId};
use due_model::notice::Notice;
use due_model::zone::Zone;
use engine::{Closers, Engine, Gate, LaneEnd, Post, RunEnd, Settings, are_few};
use std::alloc::{AllocError, Global};
use std::process::Abort;
use std::sync::Wait;
use std::thread::Threads;
use std::time::Clock;
use undelivered::Why;

/// The greatest length of a letter's text.
const LIMIT: u64 = 65_536;

/// How many deciders a run has, and how often it tries a letter. The queue of each lane holds one notice.
#[derive(Clone, Copy)]
pub(crate) struct How {
    pub(crate) deciders: u8,
    pub(crate) tries: u8,
}

/// The end of a run of a configuration over a feed, and its channels.
pub(crate) fn run<C: Channel, G: Gate + Sync, R: Abort + Threads + Wait + Clock + Sync>(
    rt: &R,
    alloc: Global,
    config: &Config,
    feed: &[u8],
    posts: Vec<Post<C>>,
    how: How,
    closers: &Closers,
    gate: &G,
) -> (RunEnd, Vec<Vec<C>>) {
    assert!(rt; is_accepted(config), "the configuration is accepted");
    assert!(rt; are_few(&posts), "no lane has too many channels");
    let settings = Settings::new(how.deciders, 1, how.tries).expect(rt, "settings in range");
    Engine::run(
        rt,
        alloc,
        config,
        &Zone::Utc,
        feed,
        posts,
        settings,
        closers,
        gate,
    )
}

/// Channels in memory, each for this lane, which fail at these calls.
pub(crate) fn in_memory(
    alloc: Global,
    channels: &[(u8, &[u64])],
) -> Result<Vec<Post<MemoryChannel>>, AllocError> {
    let mut posts = Vec::new(alloc);
    for (lane, fails) in channels {
        let channel = MemoryChannel::new(alloc, LIMIT, fails)?;
        posts.push(Post {
            lane: LaneId(*lane),
            channel,
        })?;
    }
    Ok(posts)
}

/// The feed was read to its end, and gave so many events and refused lines.
pub(crate) fn has_read(rt: &impl Abort, end: &RunEnd, events: usize, refused: usize) {
    let whole = !end.memory && !end.cut;
    let counted = end.events.len() == events && end.refused.len() == refused;
    assert!(rt;
        whole && counted,
        "{events} events and {refused} refused lines"
    );
}

/// The number after that of the last of these notices, where they are of each event from one number on.
fn event_after(notices: &[Notice], from: u64) -> Option<u64> {
    let mut next = from;
    for notice in notices {
        if notice.event != next {
            return None;
        }
        next = next.saturating_add(1);
    }
    Some(next)
}

/// Whether these are notices of each event from one number to another.
pub(crate) fn are_of_events(notices: &[Notice], from: u64, to: u64) -> bool {
    event_after(notices, from) == Some(to)
}

/// Whether what the channels of a lane have taken, one after another, are the notices of each event from one number to another.
fn has_taken_events(lane: &LaneEnd, from: u64, to: u64) -> bool {
    let mut next = from;
    for number in 0..lane.served() {
        let taken = lane.record(number).unwrap_or(&[]);
        match event_after(taken, next) {
            Some(after) => next = after,
            None => return false,
        }
    }
    next == to
}

/// What a lane leaves: its channel has taken the notices of the first events, those of the others up to so many were given up,
/// and why it is closed.
pub(crate) fn leaves(rt: &impl Abort, end: &RunEnd, lane: u8, taken: u64, all: u64, why: Why) {
    let found = end.lanes.as_slice().get(usize::from(lane));
    let left = found.expect(rt, "the lane is there");
    assert!(rt; left.lane() == LaneId(lane), "the number of lane {lane}");
    assert!(rt;
        has_taken_events(left, 0, taken),
        "what lane {lane} has taken"
    );
    assert!(rt;
        are_of_events(left.undelivered(), taken, all),
        "what lane {lane} gave up"
    );
    assert!(rt; left.why() == why, "why lane {lane} is closed");
}

/// The lines of a host that is down and up again in turn, so often: event i at moment i.
pub(crate) fn flips(alloc: Global, count: u64) -> Result<Vec<u8>, AllocError> {
    let mut feed = Vec::new(alloc);
    for moment in 0..count {
        let state = if moment % 2 == 0 { "DOWN" } else { "UP" };
        let line = format!(in alloc; "[{moment}] HOST_STATE;web;{state}\n")?;
        feed.extend_from_slice(line.as_bytes())?;
    }
    Ok(feed)
}

/// Ann, notified of everything by mail and by pager.
const ANN: ContactRow = ContactRow {
    name: "ann",
    lanes: &[LaneId(0), LaneId(1)],
    ..ContactRow::FREE
};

/// A host of this name, of which Ann is told.
const fn host(name: &'static str) -> ObjectRow {
    ObjectRow {
        name,
        interval: 1,
        contacts: &[ContactId(0)],
        ..ObjectRow::PLAIN
    }
}

/// One host, whose contact is told by mail and by pager.
pub(crate) fn on_two_lanes(alloc: Global) -> Result<Config, AllocError> {
    config_of(
        alloc,
        Rows {
            lanes: 2,
            contacts: &[ANN],
            objects: &[host("web")],
            ..Rows::NONE
        },
    )
}
