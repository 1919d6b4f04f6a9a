//! The channel below a journal.

ghost use Rattle.std.specs.Prelude.{◌≡◌};

use channel::letter::Letter;
use channel::{Channel, Fault, Kind, Receipt};
use run_devices::channels::OpenedChannel;
use run_devices::counted::CountedChannel;
use run_devices::run::SentChannel;
use std::alloc::AllocError;

/// A channel of a run, below its journal. It is one that was opened and counts what it takes, under one name: a proof about what stands over it
/// needn't look into that.
#[derive(Drop)]
pub struct RunChannel {
    sent: SentChannel,
}

impl RunChannel {
    /// This channel, below a journal.
    pub fn new(sent: SentChannel) -> RunChannel
        ensures { result.sent ≡ sent }
    {
        RunChannel { sent }
    }
}

impl Channel for RunChannel {
    ghost account = { λ s. ⟦<CountedChannel<OpenedChannel> as Channel>⟧.account s.sent };

    ghost room = { λ s. ⟦<CountedChannel<OpenedChannel> as Channel>⟧.room s.sent };

    ghost kind = { λ s. ⟦<CountedChannel<OpenedChannel> as Channel>⟧.kind s.sent };

    ghost offered = { λ a offers b. ⟦<CountedChannel<OpenedChannel> as Channel>⟧.offered a.sent offers b.sent };

    ghost stays = { λ s. ⟦<CountedChannel<OpenedChannel> as Channel>⟧.stays s.sent };

    ghost follows = { λ a b c one two. ⟦<CountedChannel<OpenedChannel> as Channel>⟧.follows a.sent b.sent c.sent one two };

    fn kind(&self) -> Kind {
        self.sent.kind()
    }

    fn limit(&self) -> u64 {
        self.sent.limit()
    }

    fn number(&self) -> u64 {
        self.sent.number()
    }

    fn failures(&self) -> u64 {
        self.sent.failures()
    }

    fn room(&self) -> bool {
        self.sent.room()
    }

    fn taken(&self) -> &[Receipt] {
        self.sent.taken()
    }

    fn reserve(&mut self) -> Result<(), AllocError> {
        self.sent.reserve()
    }

    fn close(&mut self) {
        self.sent.close();
    }

    fn deliver(&mut self, letter: &Letter) -> Result<(), Fault> {
        self.sent.deliver(letter)
    }
}
