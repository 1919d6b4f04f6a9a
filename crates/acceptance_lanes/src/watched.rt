//! Channels in memory that tell of themselves, gates, and bells.

ghost use Rattle.std.specs.Prelude.{◌≡◌, ◌↔◌, ◌+◌, ◌<◌, ◌≤◌, [], ◌∷◌, ◌++◌, length};
ghost use Rattle.std.specs.Prelude.{IsTrue, IsErrOf, OnOk, OnErr, if◌then◌else◌};
ghost use Rattle.channel.specs.claims.Channels.{receipt_of};
ghost use Rattle.channel.specs.Channels.{IsCounted};

use channel::letter::Letter;
use channel::memory::MemoryChannel;
use channel::{Channel, Fault, Kind, Receipt};
use delivery_worker::{Bell, Gate};
use due_model::config::LaneId;
use due_model::notice::Notice;
use std::alloc::{AllocError, Global};
use std::sync::Arc;
use std::sync::atomic::{AtomicU64, Ordering};
use std::thread;

/// What becomes of the channels that are watched together.
#[derive(Drop)]
pub(crate) struct Watch {
    /// How many were dropped.
    drops: AtomicU64,
    /// How often their devices had failed by then.
    failures: AtomicU64,
    /// How many receipts they had by then.
    taken: AtomicU64,
}

impl Watch {
    pub(crate) fn new(alloc: Global) -> Result<Arc<Watch>, AllocError> {
        let watch = Watch {
            drops: AtomicU64::new(0),
            failures: AtomicU64::new(0),
            taken: AtomicU64::new(0),
        };
        Ok(Arc::new(alloc, watch)?)
    }

    /// How many were dropped, how often their devices failed, and how many receipts they had.
    pub(crate) fn told(&self) -> (u64, u64, u64) {
        (
            self.drops.load(Ordering::SeqCst),
            self.failures.load(Ordering::SeqCst),
            self.taken.load(Ordering::SeqCst),
        )
    }
}

/// A channel in memory that is watched.
pub(crate) struct Watched {
    kept: MemoryChannel,
    watch: Arc<Watch>,
    /// How many receipts it may make room for.
    room: u32,
    /// How often it yields before it takes a letter.
    turns: u32,
}

impl Watched {
    /// A channel that takes letters of so many bytes at most, and fails at these calls.
    pub(crate) fn limited(
        alloc: Global,
        watch: &Arc<Watch>,
        limit: u64,
        fails: &[u64],
    ) -> Result<Watched, AllocError> {
        Ok(Watched {
            kept: MemoryChannel::new(alloc, limit, fails)?,
            watch: Arc::try_clone(watch)?,
            room: u32::MAX,
            turns: 0,
        })
    }

    /// The same with room for so many receipts.
    pub(crate) fn with_room(self, room: u32) -> Watched {
        let mut limited = self;
        limited.room = room;
        limited
    }

    /// The same, which yields so often before it takes a letter.
    pub(crate) fn with_turns(self, turns: u32) -> Watched {
        let mut slow = self;
        slow.turns = turns;
        slow
    }
}

impl Drop for Watched {
    fn drop(self) {
        let Watched {
            kept,
            watch,
            room: _,
            turns: _,
        } = self;
        watch.drops.fetch_add(1, Ordering::SeqCst);
        watch.failures.fetch_add(kept.failures(), Ordering::SeqCst);
        watch
            .taken
            .fetch_add(kept.taken().len() as u64, Ordering::SeqCst);
    }
}

impl Channel for Watched {
    ghost use Rattle.channel.specs.Channels.{WasOffered};
    ghost use Rattle.channel.specs.Memory.{account_of};
    ghost use Rattle.channel.specs.OfferLaws.{more_offered, none_offered};
    ghost use Rattle.channel.specs.declared.Kind.TheVariants as kinds;

    ghost account = { λ s. account_of s.kept };

    ghost room = { λ s. s.kept.kept.room };

    ghost kind = { λ _. kinds.Memory };

    ghost offered = { λ a offers b. WasOffered (account_of a.kept) offers (account_of b.kept) };

    ghost stays = { λ s. none_offered (account_of s.kept) };

    ghost follows = { λ a b c one two.
        more_offered (account_of a.kept) (account_of b.kept) (account_of c.kept) one two };

    fn number(&self) -> u64 {
        self.kept.number()
    }

    fn close(&mut self) {
        self.kept.close();
    }

    fn kind(&self) -> Kind {
        Kind::Memory
    }

    fn limit(&self) -> u64 {
        self.kept.limit()
    }

    fn failures(&self) -> u64 {
        self.kept.failures()
    }

    fn room(&self) -> bool {
        self.kept.room()
    }

    fn taken(&self) -> &[Receipt] {
        self.kept.taken()
    }

    fn reserve(&mut self) -> Result<(), AllocError> {
        if self.room == 0 {
            return Err(AllocError);
        }
        self.kept.reserve()?;
        self.room -= 1;
        Ok(())
    }

    fn deliver(&mut self, letter: &Letter) -> Result<(), Fault> {
        for _turn in 0..self.turns {
            thread::yield_now();
        }
        self.kept.deliver(letter)
    }
}

/// A gate that refuses so many times, and counts how often it was asked.
#[derive(Drop)]
pub(crate) struct Refusing {
    refusals: u64,
    asks: AtomicU64,
}

impl Refusing {
    pub(crate) fn new(refusals: u64) -> Refusing {
        Refusing {
            refusals,
            asks: AtomicU64::new(0),
        }
    }

    /// How often it was asked.
    pub(crate) fn asks(&self) -> u64 {
        self.asks.load(Ordering::SeqCst)
    }
}

impl Gate for Refusing {
    fn admit(&self, _lane: LaneId, _notice: &Notice) -> bool {
        self.asks.fetch_add(1, Ordering::SeqCst) >= self.refusals
    }

    fn turn(&self, _decider: u8) {}
}

/// A bell that is true from its question of this number on, counted from 1; 0 is never.
#[derive(Clone, Copy, Drop)]
pub(crate) struct TrueFrom {
    question: u64,
    asks: u64,
    count: u64,
}

impl TrueFrom {
    pub(crate) fn new(question: u64) -> TrueFrom {
        TrueFrom {
            question,
            asks: 0,
            count: 0,
        }
    }
}

impl Bell for TrueFrom {
    ghost count = { λ b. b.count };

    ghost asks = { λ b. b.asks };

    fn asked(&mut self) -> bool {
        if self.asks < u64::MAX {
            self.asks += 1;
        }
        if self.question == 0 || self.asks < self.question || self.count == u64::MAX {
            return false;
        }
        self.count += 1;
        true
    }

    fn count(&self) -> u64 {
        self.count
    }
}
