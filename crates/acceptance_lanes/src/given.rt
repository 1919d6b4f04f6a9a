//! Notices and passes that the tests of lanes are given.

ghost use Rattle.std.specs.Prelude.{◌≡◌, false, ◌+◌, ◌++◌, ◌∷◌, [], length};
ghost use Rattle.due_model.specs.Items.{decider_of, is_end};
ghost use Rattle.channel_queue.specs.Passes.{IsDecider};
ghost use Rattle.channel_queue.specs.Rule.{IsOpen, put_of};
ghost use Rattle.acceptance_lanes.specs.Deciders.{AreDeciders, HavePut};

use channel_queue::{LaneQueue, Pass};
use crossbeam_utils::Backoff;
use due_model::config::{Choices, Config, ContactId, LaneId, ObjectId};
use due_model::dependencies::Dependencies;
use due_model::escalations::Escalations;
use due_model::item::Item;
use due_model::notice::{Kind, Notice};
use due_model::objects::Objects;
use due_model::sequence::Sequence;
use due_model::state::State;
use std::alloc::{AllocError, Global};
use std::process::Abort;

/// How many turns of a wait are too many.
pub(crate) const MOST_TURNS: u32 = 10_000_000;

/// A configuration without objects: a letter names none.
pub(crate) fn no_objects(alloc: Global) -> Result<Config, AllocError> {
    Ok(Config {
        choices: Choices::own(),
        objects: Objects::new(alloc, Vec::new(alloc))?,
        contacts: Sequence::new(Vec::new(alloc)),
        lanes: Sequence::new(Vec::new(alloc)),
        periods: Sequence::new(Vec::new(alloc)),
        escalations: Escalations::new(alloc, Vec::new(alloc))?,
        dependencies: Dependencies::new(alloc, Vec::new(alloc))?,
    })
}

/// A decider's notice: the object of its number is down at an event.
pub(crate) fn item(decider: u8, event: u64) -> Item
    ensures decider { decider_of result ≡ decider }
    ensures notice { is_end result ≡ false }
{
    Item::Notice(
        decider,
        Notice {
            event,
            moment: event,
            object: ObjectId(u16::from(decider)),
            kind: Kind::Problem,
            state: State::Down,
            number: 1,
            contact: ContactId(0),
            lane: LaneId(0),
        },
    )
}

/// Takes the pass of the last decider out.
pub(crate) fn last_pass(rt: &impl Abort, queue: &LaneQueue, passes: &mut Vec<Pass>) -> Pass
    requires { AreDeciders queue.now passes.old.items }
    ensures rest { AreDeciders queue.now passes.new.items }
    ensures decider { IsDecider queue.now (length passes.new.items) [] result }
    ensures count { length passes.new.items + 1 ≡ length passes.old.items }
{
    passes.pop().expect(rt, "a pass for each decider")
}

/// Puts an item, again while the queue is full.
pub(crate) fn put_in_turn(rt: &impl Abort, queue: &LaneQueue, pass: Pass, item: Item) -> Pass
    requires own { IsDecider queue.now (decider_of item) (put_of pass) pass }
    requires clear { IsOpen (put_of pass) }
    ensures { IsDecider queue.now (decider_of item) (put_of pass ++ item ∷ []) result }
{
    let backoff = Backoff::new();
    let mut pass = pass;
    for _turn in 0..MOST_TURNS {
        match queue.put(pass, item) {
            Ok(next) => return next,
            Err(full) => pass = full.pass,
        }
        backoff.snooze();
    }
    panic!(rt; "the queue stays full")
}

/// Puts notices of so many events and then the decider's end, each again while the queue is full.
pub(crate) fn put_all(
    rt: &impl Abort,
    queue: &LaneQueue,
    pass: Pass,
    decider: u8,
    events: u64,
) -> Pass
    requires { IsDecider queue.now decider [] pass }
    ensures { HavePut queue.now result }
{
    let mut pass = pass;
    for event in 0..events {
        let item = item(decider, event);
        pass = put_in_turn(rt, queue, pass, item);
    }
    put_in_turn(rt, queue, pass, Item::End(decider))
}
