//! A lane with two deciders and a worker, in three threads, through a queue of one item.

ghost use Rattle.std.specs.Prelude.{◌≡◌, ◌≤◌, [], length, IfOk};
ghost use Rattle.channel_queue.specs.Passes.{IsDecider, IsWorker};
ghost use Rattle.acceptance_lanes.specs.Deciders.{AreDeciders};

use crate::given::{last_pass, no_objects, put_all};
use crate::watched::{Refusing, TrueFrom, Watch, Watched};
use channel_queue::{LaneQueue, Pass};
use delivery_worker::{Served, serve};
use due_model::config::{Config, ObjectId};
use due_model::notice::Notice;
use std::alloc::{AllocError, Global};
use std::process::Abort;
use std::sync::Wait;
use std::test::Fail;
use std::thread;
use std::thread::Threads;
use std::time::Clock;
use undelivered::Why;

/// How many notices each decider puts.
const EVENTS: u64 = 200;

/// The event that comes next of an object after these notices, of which each of the object's is the next in its order.
fn next_after(rt: &impl Abort, notices: &[Notice], object: u16, first: u64) -> u64 {
    let mut next = first;
    for notice in notices {
        if notice.object == ObjectId(object) {
            assert!(rt;
                notice.event == next,
                "event {next} of object {object} is next"
            );
            next = next.saturating_add(1);
        }
    }
    next
}

/// Of each decider's object the lane has taken, and then given up, all notices in order.
fn holds_all(rt: &impl Abort, served: &Served, why: Why) {
    let parts = served.held.parts();
    for object in 0..2 {
        let taken = next_after(rt, parts.taken, object, 0);
        let all = next_after(rt, parts.undelivered, object, taken);
        assert!(rt; all == EVENTS, "all of object {object} is there");
    }
    assert!(rt; parts.why == Some(why), "closed for {:?}", parts.why);
}

/// Two deciders put, each in a thread of its own, while this thread serves.
fn run(
    rt: &(impl Threads + Wait + Clock + Abort + Sync),
    alloc: Global,
    config: &Config,
    channels: Vec<Watched>,
    queue: &LaneQueue,
    passes: Vec<Pass>,
    worker: Pass,
) -> Served
    requires channels { length channels.items ≤ 1 }
    requires queue { queue.now.deciders ≤ 8 }
    requires deciders { AreDeciders queue.now passes.items }
    requires count { length passes.items ≤ 2 }
    requires worker { IsWorker queue.now [] [] worker }
{
    thread::scope(
        thread::scope_env(),
        rt,
        move |scope| -> Served
            requires { (length channels.items ≤ 1) × (queue.now.deciders ≤ 8) × AreDeciders queue.now passes.items
                × (length passes.items ≤ 2) × IsWorker queue.now [] [] worker }
        {
            let mut passes = passes;
            for _ in 0..2 {
                if passes.is_empty() {
                    break;
                }
                let pass = last_pass(rt, queue, &mut passes);
                let decider = passes.len() as u8;
                let started = scope.spawn(
                    move ||
                        requires { IsDecider queue.now decider [] pass }
                    {
                        let _pass = put_all(rt, queue, pass, decider, EVENTS);
                    },
                );
                assert!(rt; started.is_ok(), "the thread is started");
            }
            let mut bell = TrueFrom::new(0);
            let gate = Refusing::new(0);
            let (served, _channels) = serve(
                rt, alloc, config, channels, 1, queue, worker, &mut bell, &gate,
            );
            served
        },
    )
}

/// A list of one channel.
fn one(alloc: Global, channel: Watched) -> Result<Vec<Watched>, AllocError>
    ensures { IfOk result (λ channels. length channels.items ≡ 1) }
{
    let mut channels = Vec::with_capacity(alloc, 1)?;
    channels.push(channel)?;
    Ok(channels)
}

/// Serves a lane by a channel.
fn drive(
    rt: &(impl Threads + Wait + Clock + Abort + Sync),
    alloc: Global,
    channel: Watched,
    why: Why,
) -> Result<(), AllocError> {
    let config = no_objects(alloc)?;
    let channels = one(alloc, channel)?;
    let (queue, passes, worker) = LaneQueue::new(alloc, 1, 2)?;
    let served = run(rt, alloc, &config, channels, &queue, passes, worker);
    holds_all(rt, &served, why);
    Ok(())
}

/// How often a channel yields before it takes a letter, and the call at which it fails; why the lane is closed; how many channels were
/// dropped, how often their devices failed, and how many receipts they had.
type Row = (u32, u64, Why, (u64, u64, u64));

const ROWS: [Row; 3] = [
    (0, 0, Why::FeedOver, (1, 0, 400)),
    (20, 0, Why::FeedOver, (1, 0, 400)),
    (0, 160, Why::Failed, (1, 1, 159)),
];

#[test]
fn fast_slow_and_failing(rt: HostRuntime) -> Result<(), Fail> {
    for (turns, fails, why, told) in ROWS {
        let watch = Watch::new(rt.alloc())?;
        let channel = Watched::limited(rt.alloc(), &watch, 65_536, &[fails])?;
        drive(&rt, rt.alloc(), channel.with_turns(turns), why)?;
        assert!(&rt; watch.told() == told, "{:?}", watch.told());
    }
    Ok(())
}
