//! A lane's queue in one thread: when it is full and when nothing is there, and its end.

ghost use Rattle.std.specs.Prelude.{◌<◌, []};
ghost use Rattle.channel_queue.specs.Passes.{IsDecider, IsWorker};
ghost use Rattle.channel_queue.specs.Rule.{IsOpen, joined_of, picked_of, put_of};

use crate::given::{item, last_pass};
use channel_queue::{LaneQueue, Pass};
use due_model::item::Item;
use std::alloc::{AllocError, Global};
use std::process::Abort;
use std::test::Fail;

/// The one decider puts as many notices as the queue holds, and one more for which there is no room.
fn fill(rt: &impl Abort, queue: &LaneQueue, pass: Pass, capacity: u64) -> Pass
    requires { IsDecider queue.now 0 [] pass }
    ensures own { IsDecider queue.now 0 (put_of result) result }
    ensures clear { IsOpen (put_of result) }
{
    let mut pass = pass;
    for event in 0..capacity {
        match queue.put(pass, item(0, event)) {
            Ok(next) => pass = next,
            Err(_) => panic!(rt; "full of {event} where {capacity} have room"),
        }
    }
    let Err(full) = queue.put(pass, item(0, capacity)) else {
        panic!(rt; "more than {capacity} have room")
    };
    assert!(rt; full.item == item(0, capacity), "the item comes back");
    full.pass
}

/// Picks one item, or none where that is wanted.
fn pick(rt: &impl Abort, queue: &LaneQueue, worker: Pass, wanted: Option<Item>) -> Pass
    requires { IsWorker queue.now (picked_of worker) (joined_of worker) worker }
    ensures { IsWorker queue.now (picked_of result) (joined_of worker) result }
{
    let (worker, found) = queue.pick(worker);
    assert!(rt; found == wanted, "{found:?} was picked");
    worker
}

/// Picks all that the one decider has put, and then none.
fn empty(rt: &impl Abort, queue: &LaneQueue, worker: Pass, capacity: u64) -> Pass
    requires { IsWorker queue.now [] [] worker }
    ensures { IsWorker queue.now (picked_of result) [] result }
{
    let mut worker = pick(rt, queue, worker, Some(item(0, 0)));
    for event in 1..capacity {
        worker = pick(rt, queue, worker, Some(item(0, event)));
    }
    pick(rt, queue, worker, None)
}

/// The one decider's end is the last that is picked.
fn end(rt: &impl Abort, queue: &LaneQueue, worker: Pass, pass: Pass)
    requires worker { IsWorker queue.now (picked_of worker) [] worker }
    requires own { IsDecider queue.now 0 (put_of pass) pass }
    requires clear { IsOpen (put_of pass) }
{
    let Ok(pass) = queue.put(pass, Item::End(0)) else {
        panic!(rt; "full of none")
    };
    let worker = pick(rt, queue, worker, Some(Item::End(0)));
    let worker = pick(rt, queue, worker, None);
    let _worker = queue.join(worker, pass);
}

/// A queue of so many is full exactly there, and nothing is there exactly where all was picked.
fn fill_and_empty(rt: &impl Abort, alloc: Global, capacity: u16) -> Result<(), AllocError>
    requires { 0 < capacity }
{
    let (queue, mut passes, worker) = LaneQueue::new(alloc, usize::from(capacity), 1)?;
    let pass = last_pass(rt, &queue, &mut passes);
    let pass = fill(rt, &queue, pass, u64::from(capacity));
    let worker = empty(rt, &queue, worker, u64::from(capacity));
    end(rt, &queue, worker, pass);
    assert!(rt; queue.deciders() == 1, "how many deciders there are");
    Ok(())
}

#[test]
fn full_and_empty(rt: HostRuntime) -> Result<(), Fail> {
    fill_and_empty(&rt, rt.alloc(), 1)?;
    fill_and_empty(&rt, rt.alloc(), 1_024)?;
    Ok(())
}
