//! A lane served to its end.

ghost use Rattle.std.specs.Prelude.{◌≡◌, ◌≢◌, ◌↔◌, ◌+◌, ◌<◌, ◌≤◌, ◌++◌, [], None, Some, IsSome};
ghost use Rattle.std.specs.Prelude.{OnErr, OnOk, false, true, length, if◌then◌else◌};
ghost use Rattle.std.specs.Option.{option_to_list};
ghost use mathlib.Core.List.{IsPrefix};
ghost use Rattle.channel_queue.specs.Passes.{IsWorker};
ghost use Rattle.channel_queue.specs.Rule.{joined_of, picked_of};
ghost use Rattle.delivery_worker.specs.claims.Attempts.{HasFailed};
ghost use Rattle.delivery_worker.specs.claims.Channels.{HaveServed};
ghost use Rattle.delivery_worker.specs.Channels.{records_in};
ghost use Rattle.delivery_worker.specs.Offers.{TakesOffers};
ghost use Rattle.delivery_worker.specs.Picked.{AllEnded, AreEnds, HasOwnRecord, IsServing};
ghost use Rattle.delivery_worker.specs.Picked.{held as held_in, joined, next_record};
ghost use Rattle.due_model.specs.Items.{notices};

use crate::laws::tend;
use crate::queue::{all_ended, pick_item};
use crate::{Bell, Gate, WorkerSetup};
use channel::Channel;
use channel_queue::{LaneQueue, Pass};
use due_model::config::Config;
use due_model::item::Item;
use idle_pause::Pause;
use std::alloc::{AllocError, Global};
use std::sync::Wait;
use std::time::Clock;
use undelivered::{LaneRecord, Why};

/// What a worker gives back.
#[derive(Drop)]
pub struct Served {
    /// Its pass, which has picked the end of each decider.
    pub pass: Pass,
    /// What the lane's channel has taken, and what was given up.
    pub held: LaneRecord,
    /// Why the lane was closed; `NoMemory` also where memory ran out after the close.
    pub why: Why,
}

/// Picks what is left, up to the end of each decider, and gives it up. False: memory ran out, and from there on nothing was
/// recorded.
fn drain<G: Gate, R: Wait + Clock>(
    rt: &R,
    lane: &mut LaneRecord,
    recording: bool,
    queue: &LaneQueue,
    pass: Pass,
    ends: &mut [bool; 8],
    gate: &G,
) -> (Pass, bool)
    requires deciders { queue.now.deciders ≤ 8 }
    requires worker { IsWorker queue.now (picked_of pass) (joined_of pass) pass }
    requires ends { AreEnds (picked_of pass) ends.old }
    requires closed { IsSome lane.old.why }
    requires idle { lane.old.hand ≡ None }
    requires order { recording ≡ true → joined lane.old ≡ notices (picked_of pass) }
    requires front { IsPrefix (joined lane.old) (notices (picked_of pass)) }
    ensures worker { IsWorker queue.now (picked_of result.0) (joined_of pass) result.0 }
    ensures ended { AllEnded queue.now.deciders (picked_of result.0) }
    ensures order { result.1 ≡ true → joined lane.new ≡ notices (picked_of result.0) }
    ensures front { IsPrefix (joined lane.new) (notices (picked_of result.0)) }
    ensures recording { result.1 ≡ true → recording ≡ true }
    ensures kept { lane.new ≡ record lane.old { undelivered = lane.new.undelivered } }
    ensures grows { IsPrefix lane.old.undelivered lane.new.undelivered }
{
    let mut pass = pass;
    let mut recording = recording;
    let mut pause = Pause::new();
    for _ in rt.forever() {
        if all_ended(ends, queue.deciders()) {
            return (pass, recording);
        }
        let (next, item) = pick_item(queue, pass, ends);
        pass = next;
        recording = give_up(lane, recording, item);
        tell_given_up(recording, item, gate);
        if item.is_some() {
            pause.reset();
        } else {
            pause.rest(rt);
        }
    }
    unreachable!()
}

/// Gives up what was picked, while there is memory for it.
fn give_up(lane: &mut LaneRecord, recording: bool, item: Option<Item>) -> bool
    requires { IsSome lane.old.why }
    ensures ok { result ≡ true
        → (recording ≡ true) × (joined lane.new ≡ joined lane.old ++ notices (option_to_list item)) }
    ensures err { result ≡ false → lane.new ≡ lane.old }
    ensures kept { lane.new ≡ record lane.old { undelivered = lane.new.undelivered } }
    ensures grows { IsPrefix lane.old.undelivered lane.new.undelivered }
{
    if !recording {
        return false;
    }
    match item {
        Some(Item::Notice(_, notice)) => lane.drain(notice).is_ok(),
        Some(Item::End(_)) | None => true,
    }
}

/// Tells the gate of what was picked, where it was given up.
fn tell_given_up<G: Gate>(recorded: bool, item: Option<Item>, gate: &G) {
    if let Some(Item::Notice(_, notice)) = item {
        if recorded {
            gate.given_up(&notice);
        }
    }
}

/// Ends the record of the channel before, unless this is the first. A refused growth is the only error, and changes nothing.
fn end_record(lane: &mut LaneRecord, first: bool) -> Result<(), AllocError>
    requires serving { IsServing lane.old }
    requires hand { first ≡ false → IsSome lane.old.hand }
    ensures ok { OnOk result (lane.new ≡ next_record first lane.old) }
    ensures held { held_in lane.new ≡ held_in lane.old }
    ensures serving { IsServing lane.new }
    ensures records { OnOk result (length lane.new.ended ≡ length lane.old.ended + (if first then 0 else 1)) }
    ensures err { OnErr result (lane.new ≡ lane.old) }
{
    if first {
        return Ok(());
    }
    lane.replace()
}

/// Serves a lane by its first or its next channel, and closes that. Before the next one serves, the record of the one before ends as it
/// stands.
pub fn tend_next<C: Channel, B: Bell, G: Gate, R: Wait + Clock>(
    setup: WorkerSetup<'_, G, R>,
    channel: &mut C,
    first: bool,
    lane: &mut LaneRecord,
    pass: Pass,
    ends: &mut [bool; 8],
    bell: &mut B,
) -> (Pass, Why)
    requires deciders { setup.queue.now.deciders ≤ 8 }
    requires worker { IsWorker setup.queue.now (picked_of pass) (joined_of pass) pass }
    requires ends { AreEnds (picked_of pass) ends.old }
    requires serving { IsServing lane.old }
    requires order { held_in lane.old ≡ notices (picked_of pass) }
    requires hand { first ≡ false → IsSome lane.old.hand }
    requires tries { 0 < setup.tries }
    ensures worker { IsWorker setup.entry.queue.now (picked_of result.0) (joined_of pass) result.0 }
    ensures ends { AreEnds (picked_of result.0) ends.new }
    ensures serving { IsServing lane.new }
    ensures order { result.1 ≢ Why.NoMemory → held_in lane.new ≡ notices (picked_of result.0) }
    ensures front { IsPrefix (held_in lane.new) (notices (picked_of result.0)) }
    ensures over { result.1 ≡ Why.FeedOver
        → (lane.new.hand ≡ None) × AllEnded setup.entry.queue.now.deciders (picked_of result.0) }
    ensures asked { (result.1 ≡ Why.Asked) ↔ (B.count bell.old < B.count bell.new) }
    ensures bell { B.count bell.new ≤ B.count bell.old + 1 }
    ensures unasked { result.1 ≢ Why.Asked → B.count bell.new ≡ B.count bell.old }
    ensures failed { result.1 ≡ Why.Failed → IsSome lane.new.hand }
    ensures has_channel { result.1 ≢ Why.NoChannel }
    // The record of now is what this channel has taken, and that of the one before stays as it was.
    ensures own { (first ≡ true → lane.old.taken ≡ [])
        → HasOwnRecord first result.1 lane.old lane.new
        (C.account channel.old).taken (C.account channel.new).taken
        (C.account channel.old).failures (C.account channel.new).failures
        (TakesOffers C.offered setup.entry.tries setup.entry.config.now lane.new.taken lane.new.hand (result.1 ≡ Why.Failed)
        channel.old channel.new)
        (C.offered channel.old [] channel.new) }
    // A channel fails only once a letter has failed as often as it may be tried.
    ensures tried { result.1 ≡ Why.Failed
        → HasFailed setup.entry.tries setup.entry.config.now (C.account channel.old).limit (C.account channel.old).failures
        (C.account channel.new).failures lane.new.hand }
    ensures number { (C.account channel.new).number ≡ (C.account channel.old).number }
    ensures limit { (C.account channel.new).limit ≡ (C.account channel.old).limit }
    ensures closed { (C.account channel.new).closed ≡ true }
    ensures grows { IsPrefix (held_in lane.old) (held_in lane.new) }
    ensures records { result.1 ≢ Why.NoMemory
        → length lane.new.ended ≡ length lane.old.ended + (if first then 0 else 1) }
    ensures records_left { length lane.new.ended ≤ length lane.old.ended + (if first then 0 else 1) }
{
    if end_record(lane, first).is_err() {
        channel.close();
        return (pass, Why::NoMemory);
    }
    let served = tend(
        setup.rt,
        setup.alloc,
        setup.config,
        channel,
        lane,
        setup.tries,
        setup.queue,
        pass,
        ends,
        bell,
        setup.gate,
    );
    channel.close();
    served
}

/// Serves a lane by its channels, one after another, up to the close, which it leaves to the caller. The next serves where the one
/// before has failed.
fn tend_channels<C: Channel, B: Bell, G: Gate, R: Wait + Clock>(
    setup: WorkerSetup<'_, G, R>,
    channels: &mut Vec<C>,
    lane: &mut LaneRecord,
    pass: Pass,
    ends: &mut [bool; 8],
    bell: &mut B,
) -> (Pass, Why)
    requires deciders { setup.queue.now.deciders ≤ 8 }
    requires worker { IsWorker setup.queue.now (picked_of pass) (joined_of pass) pass }
    requires ends { AreEnds (picked_of pass) ends.old }
    requires serving { IsServing lane.old }
    requires order { held_in lane.old ≡ notices (picked_of pass) }
    requires idle { lane.old.hand ≡ None }
    requires first { lane.old.ended ≡ [] }
    requires fresh { lane.old.taken ≡ [] }
    requires tries { 0 < setup.tries }
    ensures worker { IsWorker setup.entry.queue.now (picked_of result.0) (joined_of pass) result.0 }
    ensures ends { AreEnds (picked_of result.0) ends.new }
    ensures serving { IsServing lane.new }
    ensures order { result.1 ≢ Why.NoMemory → held_in lane.new ≡ notices (picked_of result.0) }
    ensures front { IsPrefix (held_in lane.new) (notices (picked_of result.0)) }
    ensures over { result.1 ≡ Why.FeedOver
        → (lane.new.hand ≡ None) × AllEnded setup.entry.queue.now.deciders (picked_of result.0) }
    ensures asked { (result.1 ≡ Why.Asked) ↔ (B.count bell.old < B.count bell.new) }
    ensures bell { B.count bell.new ≤ B.count bell.old + 1 }
    ensures unasked { result.1 ≢ Why.Asked → B.count bell.new ≡ B.count bell.old }
    ensures failed { result.1 ≡ Why.Failed → IsSome lane.new.hand }
    ensures no_channel { (result.1 ≡ Why.NoChannel) ↔ (channels.old.items ≡ []) }
    ensures untaken { channels.old.items ≡ [] → lane.new ≡ lane.old }
    ensures each_failed { result.1 ≡ Why.Failed → length lane.new.ended + 1 ≡ length channels.old.items }
    ensures records { channels.old.items ≢ [] → length lane.new.ended < length channels.old.items }
    // Each channel is where it was, and has taken what its record says.
    ensures channels { HaveServed C.account C.offered setup.entry.tries setup.entry.config.now (records_in lane.new) (held_in lane.new)
        (result.1 ≡ Why.Failed) channels.old.items channels.new.items }
{
    let mut pass = pass;
    let mut why = Why::NoChannel;
    for place in 0..channels.len() {
        let (next, close) = tend_next(
            setup,
            &mut channels[place],
            place == 0,
            lane,
            pass,
            ends,
            bell,
        );
        pass = next;
        why = close;
        if why != Why::Failed {
            return (pass, why);
        }
    }
    (pass, why)
}

/// Tells the gate of a close: of the notice that was in hand, and of want of memory.
fn tell_close<G: Gate>(why: Why, held: &LaneRecord, gate: &G) {
    for notice in held.parts().undelivered {
        gate.given_up(notice);
    }
    if why == Why::NoMemory {
        gate.wanting();
    }
}

/// Serves a lane to its end: up to the close by its channels, if it has any, and then to the end of each decider. The first
/// serves until a letter has failed as often as it may be tried; then the next serves, beginning with that letter. A channel is
/// closed where the next takes over or at the close, and is given back.
pub fn serve<C: Channel, B: Bell, G: Gate, R: Wait + Clock>(
    rt: &R,
    alloc: Global,
    config: &Config,
    channels: Vec<C>,
    tries: u8,
    queue: &LaneQueue,
    pass: Pass,
    bell: &mut B,
    gate: &G,
) -> (Served, Vec<C>)
    requires channels { length channels.items ≤ 8 }
    requires tries { 0 < tries }
    requires deciders { queue.now.deciders ≤ 8 }
    requires worker { IsWorker queue.now [] [] pass }
    // Whatever the cause, the end of each decider was picked.
    ensures worker { IsWorker queue.now (picked_of result.0.pass) [] result.0.pass }
    ensures ended { AllEnded queue.now.deciders (picked_of result.0.pass) }
    // What was taken and then what was given up is what was picked, in order; where memory ran out, a first part of it.
    ensures order { result.0.why ≢ Why.NoMemory → joined result.0.held ≡ notices (picked_of result.0.pass) }
    ensures front { IsPrefix (joined result.0.held) (notices (picked_of result.0.pass)) }
    // The record is closed, for the same cause unless memory ran out later.
    ensures hand { result.0.held.hand ≡ None }
    ensures closed { IsSome result.0.held.why }
    ensures why { result.0.why ≢ Why.NoMemory → result.0.held.why ≡ Some result.0.why }
    // The cause of the close.
    ensures over { result.0.held.why ≡ Some Why.FeedOver → result.0.held.undelivered ≡ [] }
    ensures asked { (result.0.held.why ≡ Some Why.Asked) ↔ (B.count bell.old < B.count bell.new) }
    ensures bell { B.count bell.new ≤ B.count bell.old + 1 }
    ensures failed { result.0.held.why ≡ Some Why.Failed → result.0.held.undelivered ≢ [] }
    ensures each_failed { result.0.held.why ≡ Some Why.Failed
        → length result.0.held.ended + 1 ≡ length channels.items }
    ensures no_channel { (result.0.held.why ≡ Some Why.NoChannel) ↔ (channels.items ≡ []) }
    ensures untaken { channels.items ≡ [] → result.0.held.taken ≡ [] }
    // There is one record for each channel that served.
    ensures records { channels.items ≢ [] → length result.0.held.ended < length channels.items }
    ensures no_records { channels.items ≡ [] → result.0.held.ended ≡ [] }
    // Each channel is given back, and has taken what its record says.
    ensures channels { HaveServed C.account C.offered tries config.now (records_in result.0.held)
        (joined result.0.held) (result.0.held.why ≡ Some Why.Failed) channels.items result.1.items }
{
    let mut held = LaneRecord::new(alloc);
    let mut ends = [false; 8];
    let mut channels = channels;
    let setup = WorkerSetup {
        rt,
        alloc,
        config,
        tries,
        queue,
        gate,
    };
    let (pass, why) = tend_channels(setup, &mut channels, &mut held, pass, &mut ends, bell);
    held.close(why);
    tell_close(why, &held, gate);
    if why == Why::FeedOver {
        return (Served { pass, held, why }, channels);
    }
    let recording = why != Why::NoMemory;
    let (pass, recorded) = drain(rt, &mut held, recording, queue, pass, &mut ends, gate);
    let why = if recorded { why } else { Why::NoMemory };
    (Served { pass, held, why }, channels)
}
