//! A lane served to its end, in one thread: each cause of a close, the gate, the bell, the drop of its channels, and channels that stand
//! by: where one fails, the next takes over with the letter still in hand.

ghost use Rattle.std.specs.Prelude.{◌≡◌, ◌≤◌, ◌<◌, length, IfOk};

use crate::given::{last_pass, no_objects, put_all};
use crate::watched::{Refusing, TrueFrom, Watch, Watched};
use channel_queue::LaneQueue;
use delivery_worker::{Served, serve};
use due_model::config::Config;
use due_model::notice::Notice;
use std::alloc::{AllocError, Global};
use std::process::Abort;
use std::sync::{Arc, Wait};
use std::test::Fail;
use std::time::Clock;
use undelivered::{RecordParts, Why};

/// How many notices are in the queue, before the one decider's end.
pub(crate) const NOTICES: u64 = 5;

/// A channel: how many bytes a letter may have, at which two calls its device fails, the first of them counted from 1, and how many
/// receipts it has room for.
#[derive(Clone, Copy)]
struct Device {
    limit: u64,
    fails: u64,
    room: u32,
}

/// It takes every letter.
const WHOLE: Device = Device {
    limit: 65_536,
    fails: 100,
    room: u32::MAX,
};

/// It takes no letter.
const SMALL: Device = Device { limit: 10, ..WHOLE };

/// It has room for three receipts.
const NARROW: Device = Device { room: 3, ..WHOLE };

/// It has taken so many letters, and fails twice with the next.
fn failing_after(taken: u64) -> Device {
    Device {
        fails: taken.saturating_add(1),
        ..WHOLE
    }
}

/// What a lane is given beside its channels: how often a letter is tried, how often the gate refuses, and the question from which on the
/// bell is true; 0 is none.
#[derive(Clone, Copy)]
struct Given {
    tries: u8,
    refusals: u64,
    question: u64,
}

const PLAIN: Given = Given {
    tries: 2,
    refusals: 0,
    question: 0,
};

/// What the channels leave: up to which event each earlier record goes, and the last, and why the lane is closed.
#[derive(Clone, Copy)]
struct Wanted<'a> {
    ended: &'a [u64],
    taken: u64,
    why: Why,
}

/// The first letter, the third, and the fourth fail twice.
const FIRST: Device = Device { fails: 1, ..WHOLE };

const THIRD: Device = Device { fails: 3, ..WHOLE };

const FOURTH: Device = Device { fails: 4, ..WHOLE };

/// What a lane is given: its channels, tries, refusals and question; and what it leaves: where earlier records end, what was taken and why
/// it is closed, and how often its gate was asked.
type Row = (
    &'static [Device],
    (u8, u64, u64),
    (&'static [u64], u64, Why),
    u64,
);

const ROWS: [Row; 11] = [
    (&[WHOLE], (2, 0, 0), (&[], 5, Why::FeedOver), 5),
    (&[THIRD], (2, 0, 0), (&[], 2, Why::Failed), 3),
    (&[THIRD], (3, 0, 0), (&[], 5, Why::FeedOver), 5),
    (&[], (2, 0, 0), (&[], 0, Why::NoChannel), 0),
    // The growth is refused before the bell is asked, which would be true, and so before the fourth notice is picked.
    (&[NARROW], (2, 0, 7), (&[], 3, Why::NoMemory), 3),
    (&[WHOLE], (2, 7, 0), (&[], 5, Why::FeedOver), 12),
    // The bell is asked after each refusal of the gate: the third question is the first of these that is true.
    (&[WHOLE], (2, 100, 3), (&[], 0, Why::Asked), 2),
    (&[THIRD, WHOLE], (2, 0, 0), (&[2], 5, Why::FeedOver), 5),
    (&[THIRD, FIRST], (2, 0, 0), (&[2], 2, Why::Failed), 3),
    // A channel that stands by and is too small for the letter is passed over, as one that fails is.
    (
        &[FOURTH, SMALL, WHOLE],
        (2, 0, 0),
        (&[3, 3], 5, Why::FeedOver),
        5,
    ),
    // The bell is asked before the first try at the second channel: that is its fourth question.
    (&[FIRST, WHOLE], (2, 0, 4), (&[0], 0, Why::Asked), 1),
];

/// These are the notices of the events from one number up to another.
fn are_of_events(notices: &[Notice], from: u64, to: u64) -> bool {
    let mut next = from;
    for notice in notices {
        if notice.event != next {
            return false;
        }
        next = next.saturating_add(1);
    }
    next == to
}

/// The records are those of the events in order, each up to its end, and what comes after them was given up, if there was memory.
fn are_records(parts: RecordParts<'_>, wanted: Wanted<'_>) -> bool {
    if parts.ended.len() != wanted.ended.len() {
        return false;
    }
    let mut from = 0;
    for (record, end) in parts.ended.iter().zip(wanted.ended) {
        if !are_of_events(record, from, *end) {
            return false;
        }
        from = *end;
    }
    let all = if wanted.why == Why::NoMemory {
        wanted.taken
    } else {
        NOTICES
    };
    are_of_events(parts.taken, from, wanted.taken)
        && are_of_events(parts.undelivered, wanted.taken, all)
}

/// What the worker gave back is what is wanted.
fn leaves(rt: &impl Abort, served: &Served, wanted: Wanted<'_>) {
    let parts = served.held.parts();
    assert!(rt;
        are_records(parts, wanted),
        "{} records, and {} were taken",
        parts.ended.len(),
        parts.taken.len()
    );
    assert!(rt; parts.why == Some(wanted.why), "closed for {:?}", parts.why);
    assert!(rt; served.why == wanted.why, "told as {:?}", served.why);
}

/// These channels, each with its own watch, which are kept in order.
fn channels(
    alloc: Global,
    watches: &mut Vec<Arc<Watch>>,
    devices: &[Device],
) -> Result<Vec<Watched>, AllocError>
    ensures { IfOk result (λ channels. length channels.items ≡ length devices.now) }
{
    let mut channels = Vec::with_capacity(alloc, devices.len())?;
    for device in devices {
        let watch = Watch::new(alloc)?;
        let fails = [device.fails, device.fails.saturating_add(1)];
        let watched = Watched::limited(alloc, &watch, device.limit, &fails)?;
        watches.push(watch)?;
        channels.push(watched.with_room(device.room))?;
    }
    Ok(channels)
}

/// Each channel was dropped once, and together they had so many receipts.
fn were_dropped(rt: &impl Abort, watches: &[Arc<Watch>], wanted: u64) {
    let mut receipts: u64 = 0;
    for watch in watches {
        let (drops, _, taken) = watch.told();
        assert!(rt; drops == 1, "dropped {drops} times");
        receipts = receipts.saturating_add(taken);
    }
    assert!(rt; receipts == wanted, "the channels have {receipts} receipts");
}

/// Serves a lane by these channels: how often the gate was asked.
fn drive(
    rt: &(impl Wait + Clock + Abort),
    alloc: Global,
    config: &Config,
    channels: Vec<Watched>,
    given: Given,
    wanted: Wanted<'_>,
) -> Result<u64, AllocError>
    requires channels { length channels.items ≤ 8 }
    requires tries { 0 < given.tries }
{
    let (queue, mut passes, worker) = LaneQueue::new(alloc, 8, 1)?;
    let pass = last_pass(rt, &queue, &mut passes);
    let _pass = put_all(rt, &queue, pass, 0, NOTICES);
    let mut bell = TrueFrom::new(given.question);
    let gate = Refusing::new(given.refusals);
    let (served, _channels) = serve(
        rt,
        alloc,
        config,
        channels,
        given.tries,
        &queue,
        worker,
        &mut bell,
        &gate,
    );
    leaves(rt, &served, wanted);
    Ok(gate.asks())
}

/// Serves a lane by these channels, of which each is dropped once: how often the gate was asked.
fn serves(
    rt: &(impl Wait + Clock + Abort),
    alloc: Global,
    config: &Config,
    devices: &[Device],
    given: Given,
    wanted: Wanted<'_>,
) -> Result<u64, AllocError> {
    assert!(rt; devices.len() <= 8 && given.tries > 0, "a lane that may be");
    let mut watches = Vec::new(alloc);
    let channels = channels(alloc, &mut watches, devices)?;
    let asks = drive(rt, alloc, config, channels, given, wanted)?;
    were_dropped(rt, watches.as_slice(), wanted.taken);
    Ok(asks)
}

#[test]
fn rows(rt: HostRuntime) -> Result<(), Fail> {
    let config = no_objects(rt.alloc())?;
    for (devices, (tries, refusals, question), (ended, taken, why), asks) in ROWS {
        let given = Given {
            tries,
            refusals,
            question,
        };
        let wanted = Wanted { ended, taken, why };
        let found = serves(&rt, rt.alloc(), &config, devices, given, wanted)?;
        assert_eq!(rt; found, asks, "the gate's questions");
    }
    Ok(())
}

/// The bell is asked before each pick and before each try: where it is true from question q on, half of q - 1 were taken. The
/// eleventh question is before the pick of the end, and there is no twelfth.
#[test]
fn bell_at_each_question(rt: HostRuntime) -> Result<(), Fail> {
    let config = no_objects(rt.alloc())?;
    for question in 1_u64..14 {
        let given = Given { question, ..PLAIN };
        let (taken, why) = if question >= 12 {
            (NOTICES, Why::FeedOver)
        } else {
            (question.saturating_sub(1) / 2, Why::Asked)
        };
        let ended = &[];
        let wanted = Wanted { ended, taken, why };
        let _asks = serves(&rt, rt.alloc(), &config, &[WHOLE], given, wanted)?;
    }
    Ok(())
}

/// Up to which event three channels come, each of which takes so many letters and then fails.
fn reached(one: u64, two: u64, three: u64) -> [u64; 3] {
    let first = one.min(NOTICES);
    let second = first.saturating_add(two).min(NOTICES);
    let third = second.saturating_add(three).min(NOTICES);
    [first, second, third]
}

/// What they leave: those before one that took the last letter have ended.
fn left_by_three(ends: &[u64; 3]) -> Wanted<'_> {
    let count = ends[..2].iter().filter(|end| **end < NOTICES).count();
    Wanted {
        ended: &ends[..count.min(2)],
        taken: ends[2],
        why: if ends[2] == NOTICES {
            Why::FeedOver
        } else {
            Why::Failed
        },
    }
}

/// Each of three channels fails after each number of letters, from none to all.
#[test]
fn each_fails_anywhere(rt: HostRuntime) -> Result<(), Fail> {
    let config = no_objects(rt.alloc())?;
    for turn in 0_u64..216 {
        let (one, two, three) = (turn / 36, turn / 6 % 6, turn % 6);
        let devices = [failing_after(one), failing_after(two), failing_after(three)];
        let ends = reached(one, two, three);
        let wanted = left_by_three(&ends);
        let _asks = serves(&rt, rt.alloc(), &config, &devices, PLAIN, wanted)?;
    }
    Ok(())
}
