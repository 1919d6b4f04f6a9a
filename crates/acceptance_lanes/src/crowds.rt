//! A lane's queue between threads: eight deciders and one worker.

ghost use Rattle.std.specs.Prelude.{◌≡◌, ◌≤◌, ◌<◌, [], length};
ghost use Rattle.channel_queue.specs.Passes.{IsDecider, IsWorker};
ghost use Rattle.channel_queue.specs.Rule.{joined_of, picked_of};
ghost use Rattle.acceptance_lanes.specs.Deciders.{AreDeciders};

use crate::given::{MOST_TURNS, last_pass, put_all};
use channel_queue::{LaneQueue, Pass};
use crossbeam_utils::Backoff;
use due_model::item::Item;
use std::alloc::{AllocError, Global};
use std::process::Abort;
use std::sync::Wait;
use std::test::Fail;
use std::thread;
use std::thread::Threads;
use std::time::Clock;

/// How many notices each decider puts.
const EVENTS: u64 = 10_000;

/// The event that comes next of each decider, and how many haven't put their end.
#[derive(Clone, Copy, Drop)]
struct Seen {
    next: [u64; 8],
    left: u32,
}

impl Seen {
    /// One more item was picked: the next of its decider.
    fn take(&mut self, rt: &impl Abort, item: Item) {
        let decider = item.decider();
        let next = self
            .next
            .get_mut(usize::from(decider))
            .expect(rt, "one of the deciders");
        match item {
            Item::Notice(_, notice) => {
                assert!(rt;
                    notice.event == *next,
                    "event {next} of decider {decider} is next"
                );
                *next = next.saturating_add(1);
            }
            Item::End(_) => {
                assert!(rt; *next == EVENTS, "all of decider {decider} was picked");
                self.left = self.left.saturating_sub(1);
            }
        }
    }
}

/// Picks one item, again while nothing is there.
fn pick_in_turn(rt: &impl Abort, queue: &LaneQueue, worker: Pass) -> (Pass, Item)
    requires { IsWorker queue.now (picked_of worker) (joined_of worker) worker }
    ensures { IsWorker queue.now (picked_of result.0) (joined_of worker) result.0 }
{
    let backoff = Backoff::new();
    let mut worker = worker;
    for _turn in 0..MOST_TURNS {
        let (next, item) = queue.pick(worker);
        if let Some(item) = item {
            return (next, item);
        }
        worker = next;
        backoff.snooze();
    }
    panic!(rt; "nothing comes")
}

/// Picks all that eight deciders put: of each in its order, and its end last.
fn pick_all(rt: &impl Abort, queue: &LaneQueue, worker: Pass)
    requires { IsWorker queue.now (picked_of worker) (joined_of worker) worker }
{
    let mut worker = worker;
    let mut seen = Seen {
        next: [0; 8],
        left: 8,
    };
    for _item in 0..8 * (EVENTS + 1) {
        let (next, item) = pick_in_turn(rt, queue, worker);
        worker = next;
        seen.take(rt, item);
    }
    assert!(rt; seen.left == 0, "each end was picked");
}

/// Eight deciders put, each in a thread of its own, while this thread picks.
fn run(
    rt: &(impl Threads + Wait + Clock + Abort + Sync),
    queue: &LaneQueue,
    passes: Vec<Pass>,
    worker: Pass,
)
    requires deciders { AreDeciders queue.now passes.items }
    requires count { length passes.items ≤ 8 }
    requires worker { IsWorker queue.now (picked_of worker) (joined_of worker) worker }
{
    thread::scope(
        thread::scope_env(),
        rt,
        move |scope|
            requires { AreDeciders queue.now passes.items × (length passes.items ≤ 8) × IsWorker queue.now (picked_of worker) (joined_of worker) worker }
        {
            let mut passes = passes;
            for _ in 0..8 {
                if passes.is_empty() {
                    break;
                }
                let pass = last_pass(rt, queue, &mut passes);
                let decider = passes.len() as u8;
                let started = scope.spawn(
                    move ||
                        requires { IsDecider queue.now decider [] pass }
                    {
                        let _pass = put_all(rt, queue, pass, decider, EVENTS);
                    },
                );
                assert!(rt; started.is_ok(), "the thread is started");
            }
            pick_all(rt, queue, worker);
        },
    );
}

/// A queue of so many between nine threads.
fn run_through(
    rt: &(impl Threads + Wait + Clock + Abort + Sync),
    alloc: Global,
    capacity: usize,
) -> Result<(), AllocError>
    requires { 0 < capacity }
{
    let (queue, passes, worker) = LaneQueue::new(alloc, capacity, 8)?;
    run(rt, &queue, passes, worker);
    Ok(())
}

/// Through one place, two, and many.
#[test]
fn eight_threads(rt: HostRuntime) -> Result<(), Fail> {
    run_through(&rt, rt.alloc(), 1)?;
    run_through(&rt, rt.alloc(), 2)?;
    run_through(&rt, rt.alloc(), 1_024)?;
    Ok(())
}
