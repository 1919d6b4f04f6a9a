//! Runs of a host that is down and up again a thousand times, or five: what each lane has taken, what it gave up, and why it is closed.

use crate::gates::{AllMeet, AsksAt, Meeting};
use crate::given::{How, flips, has_read, in_memory, leaves, on_two_lanes, run};
use acceptance_inputs::configs::base;
use channel::Channel;
use channel::memory::MemoryChannel;
use due_model::config::LaneId;
use engine::{Closers, OpenGate, RunEnd, are_few};
use std::process::Abort;
use std::test::Fail;
use undelivered::Why;

/// A channel that fails at no call.
const NEVER: &[u64] = &[];

/// So many deciders that try a letter twice.
const fn by(deciders: u8) -> How {
    How { deciders, tries: 2 }
}

/// One, two and eight deciders, two lanes, none of which fails.
#[test]
fn one_two_and_eight_deciders(rt: HostRuntime) -> Result<(), Fail> {
    let config = on_two_lanes(rt.alloc())?;
    let feed = flips(rt.alloc(), 1_000)?;
    for deciders in [1, 2, 8] {
        let posts = in_memory(rt.alloc(), &[(0, NEVER), (1, NEVER)])?;
        let closers = Closers::new(rt.alloc(), 2)?;
        let (end, _channels) = run(
            &rt,
            rt.alloc(),
            &config,
            feed.as_slice(),
            posts,
            by(deciders),
            &closers,
            &OpenGate,
        );
        has_read(&rt, &end, 1_000, 0);
        leaves(&rt, &end, 0, 1_000, 1_000, Why::FeedOver);
        leaves(&rt, &end, 1, 1_000, 1_000, Why::FeedOver);
    }
    Ok(())
}

/// Where each notice waits for the one of the other lane, and each turn of a decider for that of the other: lanes deliver at the same
/// time, and deciders decide at the same time.
#[test]
fn all_meet(rt: HostRuntime) -> Result<(), Fail> {
    let config = on_two_lanes(rt.alloc())?;
    let feed = flips(rt.alloc(), 1_000)?;
    let posts = in_memory(rt.alloc(), &[(0, NEVER), (1, NEVER)])?;
    let closers = Closers::new(rt.alloc(), 2)?;
    let gate = AllMeet {
        lanes: Meeting::new(rt.alloc(), 2)?,
        deciders: Meeting::new(rt.alloc(), 2)?,
    };
    let (end, _channels) = run(
        &rt,
        rt.alloc(),
        &config,
        feed.as_slice(),
        posts,
        by(2),
        &closers,
        &gate,
    );
    assert!(&rt; gate.lanes.went(1_000), "the lanes have met");
    assert!(&rt; gate.deciders.went(1_000), "the deciders have met");
    leaves(&rt, &end, 0, 1_000, 1_000, Why::FeedOver);
    leaves(&rt, &end, 1, 1_000, 1_000, Why::FeedOver);
    Ok(())
}

/// A lane that is asked while its notice of an event is held back gives that one up, and all that come later; the other lane goes
/// on.
#[test]
fn asked_at_an_event(rt: HostRuntime) -> Result<(), Fail> {
    let config = on_two_lanes(rt.alloc())?;
    let feed = flips(rt.alloc(), 1_000)?;
    let posts = in_memory(rt.alloc(), &[(0, NEVER), (1, NEVER)])?;
    let gate = AsksAt {
        closers: Closers::new(rt.alloc(), 2)?,
        lane: LaneId(0),
        event: 500,
    };
    assert!(&rt; !gate.closers.ask(LaneId(2)), "there is no such lane");
    let (end, _channels) = run(
        &rt,
        rt.alloc(),
        &config,
        feed.as_slice(),
        posts,
        by(2),
        &gate.closers,
        &gate,
    );
    has_read(&rt, &end, 1_000, 0);
    leaves(&rt, &end, 0, 500, 1_000, Why::Asked);
    leaves(&rt, &end, 1, 1_000, 1_000, Why::FeedOver);
    Ok(())
}

/// Each channel that came back has taken what its record says.
fn are_as_told(rt: &impl Abort, end: &RunEnd, channels: &[Vec<MemoryChannel>]) {
    let lane = end.lanes.as_slice().first().expect(rt, "the lane");
    let found = channels.first().expect(rt, "the lane's channels");
    assert!(rt; lane.channels() == 2 && lane.served() == 2, "both served");
    for (number, channel) in (0..usize::MAX).zip(found) {
        let told = lane.record(number).unwrap_or(&[]);
        assert!(rt; channel.taken().len() == told.len(), "channel {number}");
    }
}

/// The third letter fails as often as it may be tried; the second channel takes it, and fails at the next.
#[test]
fn failing_device_with_another(rt: HostRuntime) -> Result<(), Fail> {
    let config = base(rt.alloc())?;
    let feed = flips(rt.alloc(), 5)?;
    let posts = in_memory(rt.alloc(), &[(0, &[3, 4]), (0, &[2, 3])])?;
    let closers = Closers::new(rt.alloc(), 1)?;
    let (end, channels) = run(
        &rt,
        rt.alloc(),
        &config,
        feed.as_slice(),
        posts,
        by(1),
        &closers,
        &OpenGate,
    );
    has_read(&rt, &end, 5, 0);
    leaves(&rt, &end, 0, 3, 5, Why::Failed);
    are_as_told(&rt, &end, channels.as_slice());
    Ok(())
}

/// Eight posts of a lane are few, and nine are not.
#[test]
fn eight_are_few(rt: HostRuntime) -> Result<(), Fail> {
    let eight = in_memory(rt.alloc(), &[(0, NEVER); 8])?;
    assert!(&rt; are_few(&eight), "eight");
    let nine = in_memory(rt.alloc(), &[(0, NEVER); 9])?;
    assert!(&rt; !are_few(&nine), "nine");
    Ok(())
}
