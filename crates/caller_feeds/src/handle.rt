//! The end of a feed that posts.

ghost use Rattle.std.specs.Prelude.{◌≡◌, ◌≤◌, ◌+◌, true, length};
ghost use Rattle.rtrb.specs.Ring.{known_free, sent};
ghost use Rattle.caller_feeds.specs.Items.{ends_last};

use crate::FeedItem;
use due_model::event::Event;
use rtrb::Producer;
use thiserror::Error;

/// The feed is full. The event wasn't posted, and comes back.
#[derive(Clone, Copy, Debug, PartialEq, Eq, Error)]
#[error("the feed is full")]
pub struct Full {
    pub event: Event,
}

/// The feed is full. Its end wasn't sent.
#[derive(Clone, Copy, Debug, PartialEq, Eq, Error)]
#[error("the feed is full, and has no room for its end")]
pub struct EndFull;

/// The end of a feed that posts. It may move to a thread of its caller's own. Nothing stands between callers: each handle has
/// a ring of its own, and `post` and `end` take no `Wait`, so that neither can take a lock or wait for another.
///
/// A caller sends `end` when it has no more. Where a handle is dropped without it, the intake still takes all that was posted,
/// and tells that the feed's end is missing (`IntakeStop::HandleDropped`). Once the intake has stopped, nothing makes room in the
/// feed: a caller that tries again counts its turns.
#[derive(Drop)]
pub struct FeedHandle {
    pub(crate) ring: Producer<FeedItem>,
    // The first 256 that are sent have a place.
    ghost room: { 256 ≤ known_free ring + length (sent ring) },
    // Nothing is sent after the end.
    ghost last: { ends_last (sent ring) ≡ true },
}

impl FeedHandle {
    ghost use Rattle.std.specs.Prelude.{◌≡◌, ◌<◌, ◌++◌, ◌∷◌, [], length, IsOk, IfErr, OnErr, OnOk};
    ghost use Rattle.caller_feeds.specs.declared.item.FeedItem.TheVariants.{End, Posted};
    ghost use Rattle.caller_feeds.specs.Feeds.{IsOpen, IsSameHandle, sent_by};

    /// Posts an event, whatever it says: the intake tells whether it is proper. It doesn't wait and takes no memory; where
    /// the feed is full, it may be tried again. The first 256 that a handle sends, its end among them, find a place.
    pub fn post(&mut self, event: Event) -> Result<(), Full>
        requires { IsOpen self.old }
        ensures ok { OnOk result (sent_by self.new ≡ sent_by self.old ++ Posted event ∷ []) }
        ensures still { IsOpen self.new }
        ensures full { IfErr result (λ full. full.event ≡ event) }
        ensures err { OnErr result (sent_by self.new ≡ sent_by self.old) }
        ensures first { length (sent_by self.old) < 256 → IsOk result }
        ensures feed { IsSameHandle self.old self.new }
    {
        match self.ring.push(FeedItem::Posted(event)) {
            Ok(()) => Ok(()),
            Err(_) => Err(Full { event }),
        }
    }

    /// Sends that there is no more. It doesn't wait and takes no memory; where the feed is full, it may be tried again.
    pub fn end(&mut self) -> Result<(), EndFull>
        requires { IsOpen self.old }
        ensures ok { OnOk result (sent_by self.new ≡ sent_by self.old ++ End ∷ []) }
        ensures err { OnErr result (sent_by self.new ≡ sent_by self.old) }
        ensures first { length (sent_by self.old) < 256 → IsOk result }
        ensures feed { IsSameHandle self.old self.new }
    {
        match self.ring.push(FeedItem::End) {
            Ok(()) => Ok(()),
            Err(_) => Err(EndFull),
        }
    }
}
