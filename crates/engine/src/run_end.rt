//! What a run leaves.

ghost use Rattle.std.specs.Prelude.{◌≡◌, [], length, slice_get, true, false, IfOk};
ghost use Rattle.std.specs.Option.{option_map};
ghost use Rattle.engine.specs.claims.Lanes.{taken};
ghost use Rattle.engine.specs.Lanes.{IsEndOf};

use delivery_worker::Served;
use due_model::config::LaneId;
use due_model::event::Event;
use due_model::notice::{Notice, Suppression};
use event_feed::RefusedLine;
use std::alloc::{AllocError, Global};
use std::marker::Model;
use undelivered::{LaneRecord, Why};

/// What a run leaves.
#[derive(Drop)]
pub struct RunEnd {
    /// The events that were accepted, in order.
    pub events: Vec<Event>,
    /// The lines of the feed that were refused, in order. Only the last may be Cut, Read or Ended, and none is where memory ran
    /// out.
    pub refused: Vec<RefusedLine>,
    /// What was suppressed, by event, then object, then contact.
    pub log: Vec<Suppression>,
    /// Each lane of the configuration in order; none where memory ran out, or a thread couldn't be started, before the first line
    /// of the feed was read.
    pub lanes: Vec<LaneEnd>,
    /// Whether memory ran out in any thread, or one couldn't be started. Then all that is here is a front of what there would be.
    pub memory: bool,
    /// Whether the feed ended before its input: by Cut, Read or Ended. False where memory ran out.
    pub cut: bool,
    /// Whether the run began. Where it didn't, since memory ran out or a thread couldn't be started, nothing of the feed was read.
    pub started: bool,
}

impl RunEnd {
    /// What a run leaves for which memory ran out before anything was read.
    pub(crate) fn unread(alloc: Global) -> RunEnd
        ensures events { result.events.items ≡ [] }
        ensures refused { result.refused.items ≡ [] }
        ensures log { result.log.items ≡ [] }
        ensures lanes { result.lanes.items ≡ [] }
        ensures memory { result.memory ≡ true }
        ensures cut { result.cut ≡ false }
        ensures started { result.started ≡ false }
    {
        RunEnd {
            events: Vec::new(alloc),
            refused: Vec::new(alloc),
            log: Vec::new(alloc),
            lanes: Vec::new(alloc),
            memory: true,
            cut: false,
            started: false,
        }
    }
}

/// A lane at the end of a run. Contracts see its number, how many channels it was given, what each that served has taken, what was
/// given up, and why it is closed.
#[derive(Drop)]
pub struct LaneEnd {
    lane: LaneId,
    channels: usize,
    held: LaneRecord,
    why: Why,
}

impl Model for LaneEnd {
    ghost use Rattle.std.specs.Prelude.{◌≡◌};
    ghost use Rattle.engine.specs.claims.Lanes.{LaneParts};
    ghost use Rattle.engine.specs.Lanes.{records_of};

    ghost Value = { LaneParts };

    ghost view = { λ s. record {
      lane = s.lane;
      channels = s.channels;
      records = records_of s.channels s.held;
      undelivered = s.held.undelivered;
      why = s.why;
    } };
}

impl LaneEnd {
    /// What a lane leaves that was given so many channels and served to its end. Where memory ran out after its close, that is why it
    /// is closed, unless it has no channel.
    pub(crate) fn of_served(lane: LaneId, channels: usize, served: Served) -> LaneEnd
        ensures { IsEndOf lane.0 channels served result }
    {
        let Served { pass: _, held, why } = served;
        let why = if held.parts().why == Some(Why::NoChannel) {
            Why::NoChannel
        } else {
            why
        };
        LaneEnd {
            lane,
            channels,
            held,
            why,
        }
    }

    /// The number of the lane.
    pub fn lane(&self) -> LaneId
        ensures { result ≡ self.now.lane }
    {
        self.lane
    }

    /// How many channels the lane was given.
    pub fn channels(&self) -> usize
        ensures { result ≡ self.now.channels }
    {
        self.channels
    }

    /// How many of them served.
    pub fn served(&self) -> usize
        ensures { result ≡ length self.now.records }
    {
        if self.channels == 0 {
            0
        } else {
            self.held.parts().ended.len() + 1
        }
    }

    /// What one of the channels that served has taken, in order; the first is number 0. `None` for a number of none that served.
    pub fn record(&self, number: usize) -> Option<&[Notice]>
        ensures { option_map (λ taken. taken.now) result ≡ slice_get self.now.records number }
    {
        if self.channels == 0 {
            return None;
        }
        let parts = self.held.parts();
        match parts.ended.get(number) {
            Some(taken) => Some(taken.as_slice()),
            None if number == parts.ended.len() => Some(parts.taken),
            None => None,
        }
    }

    /// What the lane's channels have taken, in order. A refused growth is the only error.
    pub fn taken(&self, alloc: Global) -> Result<Vec<Notice>, AllocError>
        ensures { IfOk result (λ all. all.items ≡ taken self.now) }
    {
        let mut all = Vec::new(alloc);
        for number in 0..self.served() {
            let Some(taken) = self.record(number) else {
                unreachable!()
            };
            all.extend_from_slice(taken)?;
        }
        Ok(all)
    }

    /// What was given up, in order.
    pub fn undelivered(&self) -> &[Notice]
        ensures { result.now ≡ self.now.undelivered }
    {
        self.held.parts().undelivered
    }

    /// Why the lane is closed.
    pub fn why(&self) -> Why
        ensures { result ≡ self.now.why }
    {
        self.why
    }
}
