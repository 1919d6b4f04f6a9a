//! What becomes of the notices that a lane's worker takes up, one by one: its channel takes them, or they stay
//! undelivered. A lane may have several channels, one after another.
#![tactic(auto)]

ghost use Rattle.std.specs.Prelude.{◌≡◌, ◌↔◌, [], ◌∷◌, ◌++◌, Some, None, IsSome};
ghost use Rattle.std.specs.Prelude.{IsNone, IsErrOf, OnOk, OnErr, IfOk};
ghost use Rattle.std.specs.Option.{option_to_list};
ghost use Rattle.undelivered.specs.Record.{lists_of};

use due_model::notice::Notice;
use std::alloc::{AllocError, Global};
use std::marker::Model;
use std::mem;
use thiserror::Error;

/// Why a lane takes no more messages.
#[derive(Clone, Copy, Debug, PartialEq, Eq)]
pub enum Why {
    /// The feed is over, and all that was due went out.
    FeedOver,
    /// Someone asked for it.
    Asked,
    /// A message failed as often as it may be tried.
    Failed,
    /// Memory ran out.
    NoMemory,
    /// The lane has no channel.
    NoChannel,
}

/// Why a notice isn't taken up. Each leaves the record as it was.
#[derive(Clone, Copy, Debug, PartialEq, Eq, Error)]
pub enum TakeFault {
    /// Another notice is in hand.
    #[error("NotIdle")]
    NotIdle,
    /// The record is closed.
    #[error("Closed")]
    Closed,
    /// A growth of memory was refused.
    #[error("NoMemory")]
    NoMemory,
}

impl From<AllocError> for TakeFault {
    ghost use Rattle.undelivered.specs.declared.TakeFault.TheVariants.{NoMemory};

    ghost from_gives = { λ _ fault. fault ≡ NoMemory };

    fn from(_error: AllocError) -> TakeFault {
        TakeFault::NoMemory
    }
}

/// What became of a lane's notices so far.
#[derive(Drop)]
pub struct LaneRecord {
    /// What each channel had taken that was replaced, in order.
    ended: Vec<Vec<Notice>>,
    /// What the lane's channel has taken, in order.
    taken: Vec<Notice>,
    /// The notice that is being tried.
    hand: Option<Notice>,
    /// What was given up, in order.
    undelivered: Vec<Notice>,
    /// Why the record is closed, if it is.
    why: Option<Why>,
}

impl Model for LaneRecord {
    ghost use Rattle.std.specs.Prelude.{◌≡◌, ◌<◌, None, IsSome, vec_len, vec_capacity};
    ghost use Rattle.undelivered.specs.Record.{Record, lists_of};

    ghost Value = { Record };

    ghost view = { λ s. record {
      ended = lists_of s.ended.items;
      taken = s.taken.items;
      hand = s.hand;
      undelivered = s.undelivered.items;
      why = s.why;
    } };

    // With a notice in hand there is room for what becomes of it, and a closed record has none in hand.
    ghost invariant = { λ s. (IsSome s.hand → (vec_len s.taken < vec_capacity s.taken)
        × (vec_len s.undelivered < vec_capacity s.undelivered)) × (IsSome s.why → s.hand ≡ None) };
}

/// The parts of a record.
#[derive(Clone, Copy)]
pub struct RecordParts<'a> {
    /// What each channel had taken that was replaced, in order.
    pub ended: &'a [Vec<Notice>],
    /// What the channel has taken, in order.
    pub taken: &'a [Notice],
    /// The notice that is being tried.
    pub hand: Option<Notice>,
    /// What was given up, in order.
    pub undelivered: &'a [Notice],
    /// Why the record is closed, if it is.
    pub why: Option<Why>,
}

impl LaneRecord {
    /// An open record in which nothing stands. It takes no memory.
    pub fn new(alloc: Global) -> LaneRecord
        ensures { result
            ≡ record { ended = []; taken = []; hand = None; undelivered = []; why = None } }
    {
        LaneRecord {
            ended: Vec::new(alloc),
            taken: Vec::new(alloc),
            hand: None,
            undelivered: Vec::new(alloc),
            why: None,
        }
    }

    /// Takes a notice in hand. After Ok the room is there for what becomes of it, so that `settle` and `close`
    /// can't fail. A refusal changes nothing.
    pub fn take_up(&mut self, notice: Notice) -> Result<(), TakeFault>
        ensures ok { OnOk result (self.new ≡ record self.old { hand = Some notice }) }
        ensures err { OnErr result (self.new ≡ self.old) }
        ensures not_idle { IsErrOf result TakeFault.NotIdle ↔ IsSome self.old.hand }
        ensures closed { IsErrOf result TakeFault.Closed ↔ IsSome self.old.why }
    {
        if self.hand.is_some() {
            return Err(TakeFault::NotIdle);
        }
        if self.why.is_some() {
            return Err(TakeFault::Closed);
        }
        self.taken.reserve(1)?;
        self.undelivered.reserve(1)?;
        self.hand = Some(notice);
        Ok(())
    }

    /// The channel has taken the notice in hand. It takes no memory.
    pub fn settle(&mut self)
        requires { IsSome self.old.hand }
        ensures { self.new ≡ record self.old {
          taken = self.old.taken ++ option_to_list self.old.hand;
          hand = None;
        } }
    {
        if let Some(notice) = self.hand.take() {
            let _room = self.taken.push(notice);
        }
    }

    /// The lane's channel is replaced: its record ends, and that of the next begins with the notice still in hand. A refused
    /// growth is the only error, and changes nothing.
    pub fn replace(&mut self) -> Result<(), AllocError>
        requires hand { IsSome self.old.hand }
        requires serving { self.old.why ≡ None }
        ensures ok { OnOk result (self.new ≡ record self.old {
          ended = self.old.ended ++ self.old.taken ∷ [];
          taken = [];
        }) }
        ensures err { OnErr result (self.new ≡ self.old) }
    {
        self.ended.reserve(1)?;
        let next = Vec::with_capacity(self.taken.allocator().clone()?, 1)?;
        let _room = self.ended.push(mem::replace(&mut self.taken, next));
        Ok(())
    }

    /// Closes the record: a notice in hand is given up. It takes no memory.
    pub fn close(&mut self, why: Why)
        requires { self.old.why ≡ None }
        ensures { self.new ≡ record self.old {
          hand = None;
          undelivered = self.old.undelivered ++ option_to_list self.old.hand;
          why = Some why;
        } }
    {
        if let Some(notice) = self.hand.take() {
            let _room = self.undelivered.push(notice);
        }
        self.why = Some(why);
    }

    /// Gives up a notice that comes after the close. A refused growth is the only error, and changes nothing.
    pub fn drain(&mut self, notice: Notice) -> Result<(), AllocError>
        requires { IsSome self.old.why }
        ensures ok { OnOk result (self.new
            ≡ record self.old { undelivered = self.old.undelivered ++ notice ∷ [] }) }
        ensures err { OnErr result (self.new ≡ self.old) }
    {
        self.undelivered.push(notice)?;
        Ok(())
    }

    /// The parts.
    pub fn parts(&self) -> RecordParts<'_>
        ensures ended { lists_of result.ended.now ≡ self.now.ended }
        ensures taken { result.taken.now ≡ self.now.taken }
        ensures hand { result.hand ≡ self.now.hand }
        ensures undelivered { result.undelivered.now ≡ self.now.undelivered }
        ensures why { result.why ≡ self.now.why }
    {
        RecordParts {
            ended: self.ended.as_slice(),
            taken: self.taken.as_slice(),
            hand: self.hand,
            undelivered: self.undelivered.as_slice(),
            why: self.why,
        }
    }
}
