//! The end of a feed that receives.

ghost use Rattle.std.specs.Prelude.{◌≡◌};
ghost use Rattle.rtrb.specs.Ring.{received};
ghost use Rattle.caller_feeds.specs.Items.{has_end};

use crate::FeedItem;
use crate::handle::FeedHandle;
use due_model::config::Config;
use rtrb::Consumer;

/// The end of a feed that receives. It may move to another thread.
#[derive(Drop)]
pub struct FeedEnd {
    pub(crate) ring: Consumer<FeedItem>,
    pub(crate) improper: u64,
    pub(crate) over: bool,
    ghost marked: { over ≡ has_end (received ring) },
}

impl FeedEnd {
    ghost use Rattle.std.specs.Prelude.{◌≡◌, ◌++◌, ◌∷◌, [], true, IfSome, IfNone, IsTrue};
    ghost use mathlib.Core.List.{IsPrefix};
    ghost use Rattle.caller_feeds.specs.Items.{has_end};
    ghost use Rattle.caller_feeds.specs.Feeds.{ComesNext, HasLooked, IsPair, IsSameEnd, IsSameHandle, NothingWaits};
    ghost use Rattle.caller_feeds.specs.Feeds.{Passes, improper_of, received_by, sent_by};

    /// How many improper events were passed over. It stays at the greatest number.
    pub fn improper(&self) -> u64
        ensures { result ≡ improper_of self.now }
    {
        self.improper
    }

    /// Whether the handle's end was received.
    pub fn is_over(&self) -> bool
        ensures { result ≡ has_end (received_by self.now) }
    {
        self.over
    }

    /// Compares what was received with what the handle of the same feed has sent: it is the front of it, and all of it where
    /// the end was received. Nothing is received or sent.
    pub fn meet(&mut self, handle: &mut FeedHandle)
        requires pair { IsPair handle.old self.old }
        ensures front { IsPrefix (received_by self.old) (sent_by handle.old) }
        ensures all { has_end (received_by self.old) ≡ true
            → received_by self.old ≡ sent_by handle.old }
        ensures looked { HasLooked self.old self.new }
        ensures handle { IsSameHandle handle.old handle.new }
        ensures sent { sent_by handle.new ≡ sent_by handle.old }
    {
        self.ring.slots_beside(&mut handle.ring);
    }

    /// What comes next. It stays in the feed.
    pub(crate) fn peek(&mut self) -> Option<FeedItem>
        ensures looked { HasLooked self.old self.new }
        ensures next { IfSome result (λ item. ComesNext item self.new) }
    {
        if self.ring.slots() == 0 {
            return None;
        }
        Some(*self.ring.peek_known())
    }

    /// Takes what comes next, and counts it where it is an improper event.
    pub(crate) fn pass(&mut self, config: &Config, item: FeedItem)
        requires next { ComesNext item self.old }
        ensures { Passes config.now item self.old self.new }
    {
        self.receive(item);
        if item.is_improper(config) {
            self.improper = self.improper.saturating_add(1);
        }
    }

    /// Takes what comes next.
    fn receive(&mut self, item: FeedItem)
        requires next { ComesNext item self.old }
        ensures feed { IsSameEnd self.old self.new }
        ensures received { received_by self.new ≡ received_by self.old ++ item ∷ [] }
        ensures improper { improper_of self.new ≡ improper_of self.old }
    {
        self.ring.pop_known();
        self.over |= item.is_end();
    }

    /// Whether nothing more comes: the end was received, or the handle was dropped and the feed is empty. Whether it was
    /// dropped is asked first, since it may post until then.
    pub(crate) fn is_done(&mut self) -> bool
        ensures looked { HasLooked self.old self.new }
        ensures done { IsTrue result → NothingWaits self.new }
    {
        self.over || (self.ring.is_abandoned() && self.ring.slots() == 0)
    }
}
