//! The delivery of the notice that a worker has in hand.

ghost use Rattle.std.specs.Prelude.{◌≡◌, ◌↔◌, ◌+◌, ◌<◌, ◌≤◌, [], ◌∷◌, ◌++◌, length, map};
ghost use Rattle.std.specs.Prelude.{Some, None, IfErr, IsErrOf, OnErr, OnOk, false, true};
ghost use Rattle.std.specs.Option.{option_to_list};
ghost use Rattle.channel.specs.claims.Channels.{receipt_of};
ghost use Rattle.channel.specs.claims.Letter.{letter_of};
ghost use Rattle.delivery_worker.specs.claims.Attempts.{HasFailed};
ghost use Rattle.delivery_worker.specs.Attempts.{HasRung, HasTriedLetter, KeepsInHand};
ghost use Rattle.delivery_worker.specs.claims.Attempts.{TriesFailed};
ghost use Rattle.delivery_worker.specs.Attempts.{with_taken};
ghost use Rattle.delivery_worker.specs.Offers.{Settles, TriesInVain};

use crate::laws::attempt;
use crate::{Attempted, Bell, Gate, WorkerSetup};
use channel::Channel;
use channel::letter::letter_text;
use due_model::config::Config;
use due_model::notice::Notice;
use idle_pause::Pause;
use std::alloc::{AllocError, Global};
use std::sync::Wait;
use std::time::Clock;
use undelivered::{LaneRecord, Why};

/// Waits until the gate lets a notice by. False: the bell said that the lane is to close.
pub(crate) fn wait_for_gate<B: Bell, G: Gate, R: Wait + Clock>(
    rt: &R,
    notice: &Notice,
    bell: &mut B,
    gate: &G,
) -> bool
    ensures admitted { result ≡ true → B.count bell.new ≡ B.count bell.old }
    ensures asked { result ≡ false → B.count bell.new ≡ B.count bell.old + 1 }
{
    let mut pause = Pause::new();
    for _ in rt.forever() {
        if gate.admit(notice.lane, notice) {
            break;
        }
        if bell.asked() {
            return false;
        }
        pause.rest(rt);
    }
    true
}

/// Hands the letter of the notice in hand to the lane's channel, as often as it may be tried. After Ok the channel and the
/// record have it as the last that was taken; an error says why the lane is to close, and the notice is still in hand.
pub(crate) fn deliver_hand<C: Channel, B: Bell>(
    alloc: Global,
    config: &Config,
    channel: &mut C,
    lane: &mut LaneRecord,
    notice: Notice,
    tries: u8,
    bell: &mut B,
) -> Result<(), Why>
    requires hand { lane.old.hand ≡ Some notice }
    requires room { 0 < C.room channel.old }
    ensures taken { OnOk result ((C.account channel.new).taken ≡ (C.account channel.old).taken ++ receipt_of notice ∷ []) }
    ensures settled { OnOk result
        (lane.new ≡ record lane.old { taken = lane.old.taken ++ notice ∷ []; hand = None }) }
    ensures kept { OnErr result ((C.account channel.new).taken ≡ (C.account channel.old).taken) }
    ensures held { OnErr result (lane.new ≡ lane.old) }
    ensures bell { HasRung (IsErrOf result Why.Asked) (B.count bell.old) (B.count bell.new) }
    ensures failed { IsErrOf result Why.Failed
        → TriesFailed tries (C.account channel.old).limit (length (letter_of config.now notice))
        (C.account channel.old).failures (C.account channel.new).failures }
    // The bell was asked before each try that failed, and once more where that wasn't the end; where memory ran out, it wasn't, and
    // nothing was tried.
    ensures tries_taken { OnOk result
        (HasTriedLetter Attempted.Settled tries config.now notice (C.account channel.old).limit
        (C.account channel.old).failures (C.account channel.new).failures (B.asks bell.old) (B.asks bell.new)) }
    ensures tries_asked { IsErrOf result Why.Asked
        → HasTriedLetter Attempted.Asked tries config.now notice (C.account channel.old).limit
        (C.account channel.old).failures (C.account channel.new).failures (B.asks bell.old) (B.asks bell.new) }
    ensures tries_failed { IsErrOf result Why.Failed
        → HasTriedLetter Attempted.Failed tries config.now notice (C.account channel.old).limit
        (C.account channel.old).failures (C.account channel.new).failures (B.asks bell.old) (B.asks bell.new) }
    // The channel was offered its letter, once for each try.
    ensures offered { OnOk result
        (Settles C.offered tries config.now (notice ∷ []) channel.old channel.new) }
    ensures offered_in_vain { IfErr result (λ why.
        TriesInVain C.offered tries config.now (Some notice) (why ≡ Why.Failed)
        channel.old channel.new) }
    ensures no_asks { IsErrOf result Why.NoMemory → B.asks bell.new ≡ B.asks bell.old }
    ensures no_tries { IsErrOf result Why.NoMemory → (C.account channel.new).failures ≡ (C.account channel.old).failures }
    ensures counted { (C.account channel.old).failures ≤ (C.account channel.new).failures }
    ensures limit { (C.account channel.new).limit ≡ (C.account channel.old).limit }
    ensures number { (C.account channel.new).number ≡ (C.account channel.old).number }
    ensures not_over { ¬ IsErrOf result Why.FeedOver }
    ensures has_channel { ¬ IsErrOf result Why.NoChannel }
{
    let Ok(letter) = letter_text(alloc, config, notice) else {
        return Err(Why::NoMemory);
    };
    match attempt(channel, &letter, tries, bell) {
        Attempted::Settled => {
            lane.settle();
            Ok(())
        }
        Attempted::Asked => Err(Why::Asked),
        Attempted::Failed => Err(Why::Failed),
    }
}

/// Makes room for one receipt more. A refused growth is the only error; nothing that a letter is tried by changes.
pub(crate) fn keep_room<C: Channel>(channel: &mut C) -> Result<(), AllocError>
    ensures room { OnOk result (0 < C.room channel.new) }
    ensures taken { (C.account channel.new).taken ≡ (C.account channel.old).taken }
    ensures failures { (C.account channel.new).failures ≡ (C.account channel.old).failures }
    ensures limit { (C.account channel.new).limit ≡ (C.account channel.old).limit }
    ensures number { (C.account channel.new).number ≡ (C.account channel.old).number }
    ensures offered { C.offered channel.old [] channel.new }
{
    channel.reserve()
}

/// Takes a notice up, waits for the gate, and hands the letter to the lane's channel, as often as it may be tried. After Ok the
/// channel and the record have it as the last that was taken. An error says why the lane is to close; then the notice is in
/// hand, and only where memory ran out before it was taken up the record is as before.
pub(crate) fn serve_notice<C: Channel, B: Bell, G: Gate, R: Wait + Clock>(
    setup: WorkerSetup<'_, G, R>,
    channel: &mut C,
    lane: &mut LaneRecord,
    notice: Notice,
    bell: &mut B,
) -> Result<(), Why>
    requires idle { lane.old.hand ≡ None }
    requires serving { lane.old.why ≡ None }
    requires room { 0 < C.room channel.old }
    ensures taken { OnOk result ((C.account channel.new).taken ≡ (C.account channel.old).taken ++ receipt_of notice ∷ []) }
    ensures settled { OnOk result (lane.new ≡ with_taken notice lane.old) }
    ensures kept { OnErr result ((C.account channel.new).taken ≡ (C.account channel.old).taken) }
    ensures hand { IfErr result (λ why. KeepsInHand why notice lane.old lane.new) }
    ensures bell { HasRung (IsErrOf result Why.Asked) (B.count bell.old) (B.count bell.new) }
    ensures failed { IsErrOf result Why.Failed
        → TriesFailed setup.entry.tries (C.account channel.old).limit (length (letter_of setup.entry.config.now notice))
        (C.account channel.old).failures (C.account channel.new).failures }
    ensures counted { (C.account channel.old).failures ≤ (C.account channel.new).failures }
    ensures limit { (C.account channel.new).limit ≡ (C.account channel.old).limit }
    ensures number { (C.account channel.new).number ≡ (C.account channel.old).number }
    ensures offered { OnOk result
        (Settles C.offered setup.entry.tries setup.entry.config.now (notice ∷ []) channel.old channel.new) }
    ensures offered_in_vain { IfErr result (λ why.
        TriesInVain C.offered setup.entry.tries setup.entry.config.now lane.new.hand (why ≡ Why.Failed)
        channel.old channel.new) }
    ensures not_over { ¬ IsErrOf result Why.FeedOver }
    ensures has_channel { ¬ IsErrOf result Why.NoChannel }
{
    if lane.take_up(notice).is_err() {
        return Err(Why::NoMemory);
    }
    if !wait_for_gate(setup.rt, &notice, bell, setup.gate) {
        return Err(Why::Asked);
    }
    deliver_hand(
        setup.alloc,
        setup.config,
        channel,
        lane,
        notice,
        setup.tries,
        bell,
    )
}

/// Tries the notice that is in hand, if one is.
pub(crate) fn try_hand<C: Channel, B: Bell>(
    alloc: Global,
    config: &Config,
    channel: &mut C,
    lane: &mut LaneRecord,
    tries: u8,
    bell: &mut B,
) -> Result<(), Why>
    ensures taken { OnOk result
        ((C.account channel.new).taken ≡ (C.account channel.old).taken ++ map receipt_of (option_to_list lane.old.hand)) }
    ensures settled { OnOk result (lane.new
        ≡ record lane.old { taken = lane.old.taken ++ option_to_list lane.old.hand; hand = None }) }
    ensures kept { OnErr result ((C.account channel.new).taken ≡ (C.account channel.old).taken) }
    ensures held { OnErr result (lane.new ≡ lane.old) }
    ensures bell { HasRung (IsErrOf result Why.Asked) (B.count bell.old) (B.count bell.new) }
    ensures failed { IsErrOf result Why.Failed
        → HasFailed tries config.now (C.account channel.old).limit (C.account channel.old).failures (C.account channel.new).failures
        lane.old.hand }
    ensures counted { (C.account channel.old).failures ≤ (C.account channel.new).failures }
    ensures limit { (C.account channel.new).limit ≡ (C.account channel.old).limit }
    ensures number { (C.account channel.new).number ≡ (C.account channel.old).number }
    ensures offered { OnOk result
        (Settles C.offered tries config.now (option_to_list lane.old.hand) channel.old channel.new) }
    ensures offered_in_vain { IfErr result (λ why.
        TriesInVain C.offered tries config.now lane.new.hand (why ≡ Why.Failed)
        channel.old channel.new) }
    ensures not_over { ¬ IsErrOf result Why.FeedOver }
    ensures has_channel { ¬ IsErrOf result Why.NoChannel }
{
    let Some(notice) = lane.parts().hand else {
        return Ok(());
    };
    if keep_room(channel).is_err() {
        return Err(Why::NoMemory);
    }
    deliver_hand(alloc, config, channel, lane, notice, tries, bell)
}
