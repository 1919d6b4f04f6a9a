//! The tries of one letter, and a lane served up to its close.

ghost use Rattle.std.specs.Prelude.{◌≡◌, ◌≢◌, ◌↔◌, ◌+◌, ◌<◌, ◌≤◌, []};
ghost use Rattle.std.specs.Prelude.{◌∷◌, ◌++◌, length, map, List, None};
ghost use mathlib.Core.List.{IsPrefix};
ghost use Rattle.channel.specs.claims.Channels.{receipt_of};
ghost use Rattle.channel.specs.declared.Receipt.{Receipt};
ghost use Rattle.channel_queue.specs.Passes.{IsWorker};
ghost use Rattle.channel_queue.specs.Rule.{joined_of, picked_of};
ghost use Rattle.delivery_worker.specs.claims.Attempts.{HasFailed, TriesFailed};
ghost use Rattle.delivery_worker.specs.Attempts.{HasTriedAndAsked};
ghost use Rattle.delivery_worker.specs.Offers.{GainsByOffers, IsTried};
ghost use Rattle.delivery_worker.specs.Picked.{AllEnded, AreEnds, IsServing, held};
ghost use Rattle.due_model.specs.Items.{notices};

use crate::hand::{keep_room, serve_notice, try_hand};
use crate::queue::{all_ended, pick_item};
use crate::{Attempted, Bell, Gate, WorkerSetup};
use channel::letter::Letter;
use channel::{Channel, Fault};
use channel_queue::{LaneQueue, Pass};
use due_model::config::Config;
use due_model::item::Item;
use idle_pause::Pause;
use std::alloc::Global;
use std::sync::Wait;
use std::time::Clock;
use undelivered::{LaneRecord, Why};

/// Hands a letter to a channel until it is taken, or as often as it may be tried: `tries` answers that are errors mean
/// `Failed`, those that the text is too long counted. The bell is asked before each try, and told where one failed at the device
/// and another is due. While it lasts the channel is given no other letter. It takes no memory where the channel's `deliver` takes
/// none.
pub fn attempt<C: Channel, B: Bell>(
    channel: &mut C,
    letter: &Letter,
    tries: u8,
    bell: &mut B,
) -> Attempted
    requires { 0 < C.room channel.old }
    // Settled: the letter's receipt is the last one. Otherwise the channel has taken nothing.
    ensures settled { result ≡ Attempted.Settled
        → (C.account channel.new).taken ≡ (C.account channel.old).taken ++ receipt_of letter.now.notice ∷ [] }
    ensures kept { result ≢ Attempted.Settled → (C.account channel.new).taken ≡ (C.account channel.old).taken }
    // Asked: the bell's count rose, and by one.
    ensures asked { (result ≡ Attempted.Asked) ↔ (B.count bell.old < B.count bell.new) }
    ensures bell { B.count bell.new ≤ B.count bell.old + 1 }
    ensures unasked { result ≢ Attempted.Asked → B.count bell.new ≡ B.count bell.old }
    // It was asked before each try that failed, and once more where that wasn't the end.
    ensures tries { HasTriedAndAsked result tries (C.account channel.old).limit (length letter.now.text)
        (C.account channel.old).failures (C.account channel.new).failures (B.asks bell.old) (B.asks bell.new) }
    // Failed: so many tries failed. Otherwise it was fewer.
    ensures failed { result ≡ Attempted.Failed
        → TriesFailed tries (C.account channel.old).limit (length letter.now.text)
        (C.account channel.old).failures (C.account channel.new).failures }
    ensures sooner { result ≢ Attempted.Failed
        → (C.account channel.new).failures < (C.account channel.old).failures + tries }
    ensures counted { (C.account channel.old).failures ≤ (C.account channel.new).failures }
    ensures room { result ≢ Attempted.Settled → C.room channel.new ≡ C.room channel.old }
    ensures room_left { C.room channel.old ≤ C.room channel.new + 1 }
    ensures limit { (C.account channel.new).limit ≡ (C.account channel.old).limit }
    ensures kind { C.kind channel.new ≡ C.kind channel.old }
    ensures number { (C.account channel.new).number ≡ (C.account channel.old).number }
    // It was offered this letter and no other, once for each try.
    ensures offered { IsTried C.offered letter.now.notice letter.now.text tries result
        channel.old channel.new }
{
    for failed in 0..tries {
        if bell.asked() {
            return Attempted::Asked;
        }
        match channel.deliver(letter) {
            Ok(()) => return Attempted::Settled,
            Err(Fault::Device) => pause_before_retry(bell, failed + 1, tries),
            Err(Fault::TooLong) => {}
        }
    }
    Attempted::Failed
}

/// Tells the bell that so many tries of a letter have failed, where another is due.
fn pause_before_retry<B: Bell>(bell: &mut B, failed: u8, tries: u8)
    ensures count { B.count bell.new ≡ B.count bell.old }
    ensures asks { B.asks bell.new ≡ B.asks bell.old }
{
    if failed < tries {
        bell.before_retry(failed);
    }
}

/// Serves a lane up to its close, which it leaves to the caller: it first tries a notice that is in hand, and then picks one
/// after another. It closes since the end of each decider was picked (`FeedOver`), since the bell said so (`Asked`), since a letter
/// failed as often as it may be tried (`Failed`), or since a growth was refused (`NoMemory`). The bell is asked before each
/// pick, after each refusal of the gate and before each try.
pub fn tend<C: Channel, B: Bell, G: Gate, R: Wait + Clock>(
    rt: &R,
    alloc: Global,
    config: &Config,
    channel: &mut C,
    lane: &mut LaneRecord,
    tries: u8,
    queue: &LaneQueue,
    pass: Pass,
    ends: &mut [bool; 8],
    bell: &mut B,
    gate: &G,
) -> (Pass, Why)
    requires deciders { queue.now.deciders ≤ 8 }
    requires worker { IsWorker queue.now (picked_of pass) (joined_of pass) pass }
    requires ends { AreEnds (picked_of pass) ends.old }
    requires serving { IsServing lane.old }
    requires order { held lane.old ≡ notices (picked_of pass) }
    requires tries { 0 < tries }
    // The pass is the worker's still, and the ends are those that were picked.
    ensures worker { IsWorker queue.now (picked_of result.0) (joined_of pass) result.0 }
    ensures ends { AreEnds (picked_of result.0) ends.new }
    // The record is open, nothing was given up, and it holds what was picked, in order; where memory ran out, a first part.
    ensures serving { IsServing lane.new }
    ensures order { result.1 ≢ Why.NoMemory → held lane.new ≡ notices (picked_of result.0) }
    ensures front { IsPrefix (held lane.new) (notices (picked_of result.0)) }
    // What the record gained is what the channel has taken, after what it had before.
    ensures equal { (before : List Receipt) → (C.account channel.old).taken ≡ before ++ map receipt_of lane.old.taken
        → (C.account channel.new).taken ≡ before ++ map receipt_of lane.new.taken }
    // What was held stays, and more comes after it.
    ensures grows { IsPrefix (held lane.old) (held lane.new) }
    // Each close has its cause.
    ensures over { result.1 ≡ Why.FeedOver
        → (lane.new.hand ≡ None) × AllEnded queue.now.deciders (picked_of result.0) }
    ensures asked { (result.1 ≡ Why.Asked) ↔ (B.count bell.old < B.count bell.new) }
    ensures bell { B.count bell.new ≤ B.count bell.old + 1 }
    ensures unasked { result.1 ≢ Why.Asked → B.count bell.new ≡ B.count bell.old }
    ensures failed { result.1 ≡ Why.Failed
        → HasFailed tries config.now (C.account channel.old).limit (C.account channel.old).failures
        (C.account channel.new).failures lane.new.hand }
    ensures has_channel { result.1 ≢ Why.NoChannel }
    ensures limit { (C.account channel.new).limit ≡ (C.account channel.old).limit }
    ensures number { (C.account channel.new).number ≡ (C.account channel.old).number }
    // The records of earlier channels stay.
    ensures ended { lane.new.ended ≡ lane.old.ended }
    // It was offered the letters that were taken, each until it was, and then the one in hand as often as that was tried.
    ensures offered { GainsByOffers C.offered tries config.now lane.old lane.new
        (result.1 ≡ Why.Failed) channel.old channel.new }
{
    if let Err(why) = try_hand(alloc, config, channel, lane, tries, bell) {
        return (pass, why);
    }
    let setup = WorkerSetup {
        rt,
        alloc,
        config,
        tries,
        queue,
        gate,
    };
    let mut pass = pass;
    let mut pause = Pause::new();
    for _ in rt.forever() {
        if all_ended(ends, queue.deciders()) {
            return (pass, Why::FeedOver);
        }
        if keep_room(channel).is_err() {
            return (pass, Why::NoMemory);
        }
        if bell.asked() {
            return (pass, Why::Asked);
        }
        let (next, item) = pick_item(queue, pass, ends);
        pass = next;
        match item {
            None => pause.rest(rt),
            Some(Item::End(_)) => pause.reset(),
            Some(Item::Notice(_, notice)) => {
                pause.reset();
                if let Err(why) = serve_notice(setup, channel, lane, notice, bell) {
                    return (pass, why);
                }
            }
        }
    }
    unreachable!()
}
