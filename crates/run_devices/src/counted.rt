//! What counts the events, the notices and the letters of a run as it goes.

ghost use Rattle.std.specs.Prelude.{◌≡◌, ◌↔◌, ◌+◌, ◌<◌, ◌≤◌, ◌∷◌, ◌++◌, [], length, IsTrue, IsErrOf};
ghost use Rattle.std.specs.Prelude.{OnErr, OnOk};
ghost use Rattle.channel.specs.claims.Channels.{receipt_of};
ghost use Rattle.channel.specs.Channels.{IsCounted};

use crate::settings::pause_after;
use channel::letter::Letter;
use channel::{Channel, Fault, Kind, Receipt};
use command_output::OutputLine;
use due_model::config::LaneId;
use due_model::notice::Notice;
use engine::{Gate, Why};
use progress::Counts;
use run_records::teller::{LaneTeller, Teller};
use std::alloc::{AllocError, Global};
use std::sync::Arc;
use std::time::Duration;

/// A gate that admits all, counts the events, those that the first decider comes to, and what becomes of the notices, says how long a lane waits before it tries a letter
/// again, and writes what is given up and what is over to the run's log, if it has one.
#[derive(Drop)]
pub struct CountingGate {
    counts: Arc<Counts, Global>,
    teller: Arc<Teller, Global>,
    /// How many seconds pass before the second try of a letter.
    pause: u8,
}

impl CountingGate {
    /// A gate that counts there, says what is refused, and before the second try of a letter has so many seconds pass.
    pub fn new(
        counts: Arc<Counts, Global>,
        teller: Arc<Teller, Global>,
        pause: u8,
    ) -> CountingGate {
        CountingGate {
            counts,
            teller,
            pause,
        }
    }
}

impl Gate for CountingGate {
    fn admit(&self, _lane: LaneId, _notice: &Notice) -> bool {
        true
    }

    fn turn(&self, decider: u8) {
        if decider == 0 {
            self.counts.count_event();
        }
    }

    fn held(&self, decider: u8, lane: LaneId, notices: u64) {
        self.teller.count_held(decider, lane, notices);
    }

    fn queued(&self, decider: u8, lane: LaneId) {
        self.teller.count_queued(decider, lane);
    }

    fn refused(&self, line: u64, fault: &str) {
        self.teller.say_refused(line, fault);
    }

    fn given_up(&self, notice: &Notice) {
        self.teller.give_up(notice);
    }

    fn channel_over(&self, lane: LaneId, number: u64, taken: u64) {
        self.teller.log_line(&OutputLine::Box {
            lane,
            number,
            count: taken,
        });
    }

    fn lane_over(&self, lane: LaneId, why: Why) {
        self.teller.log_line(&OutputLine::Closed { lane, why });
    }

    fn wanting(&self) {
        self.teller.say_wanting();
    }

    fn retry_after(&self, _lane: LaneId, failed: u8) -> Duration {
        Duration::from_secs(u64::from(pause_after(self.pause, failed)))
    }
}

/// A channel that hands all to another, counts the letters that this has taken, and says where it failed for good.
#[derive(Drop)]
pub struct CountedChannel<C: Channel> {
    channel: C,
    counts: Arc<Counts, Global>,
    teller: LaneTeller,
}

impl<C: Channel> CountedChannel<C> {
    /// This channel, of which nothing is counted yet.
    pub fn new(channel: C, counts: Arc<Counts, Global>, teller: LaneTeller) -> CountedChannel<C>
        ensures { result.channel ≡ channel }
    {
        CountedChannel {
            channel,
            counts,
            teller,
        }
    }
}

impl<C: Channel> Channel for CountedChannel<C> {
    ghost account = { λ s. C.account s.channel };

    ghost room = { λ s. C.room s.channel };

    ghost kind = { λ s. C.kind s.channel };

    ghost offered = { λ a offers b. C.offered a.channel offers b.channel };

    ghost stays = { λ s. C.stays s.channel };

    ghost follows = { λ a b c one two. C.follows a.channel b.channel c.channel one two };

    fn kind(&self) -> Kind {
        self.channel.kind()
    }

    fn limit(&self) -> u64 {
        self.channel.limit()
    }

    fn number(&self) -> u64 {
        self.channel.number()
    }

    fn failures(&self) -> u64 {
        self.channel.failures()
    }

    fn room(&self) -> bool {
        self.channel.room()
    }

    fn taken(&self) -> &[Receipt] {
        self.channel.taken()
    }

    fn reserve(&mut self) -> Result<(), AllocError> {
        self.channel.reserve()
    }

    fn close(&mut self) {
        self.channel.close();
        self.teller.closed();
    }

    fn deliver(&mut self, letter: &Letter) -> Result<(), Fault> {
        let outcome = self.channel.deliver(letter);
        match outcome {
            Ok(()) => {
                self.counts.count_message();
                self.teller.taken(letter);
            }
            Err(fault) => self.teller.failed(letter, fault),
        }
        outcome
    }
}
