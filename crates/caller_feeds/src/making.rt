//! How feeds are made.

ghost use Rattle.std.specs.Prelude.{◌≡◌, IfOk, length};
ghost use Rattle.caller_feeds.specs.Feeds.{ArePairs, AreUnread, AreUnsent, IsPair, IsUnread, IsUnsent};

use crate::FeedItem;
use crate::end::FeedEnd;
use crate::handle::FeedHandle;
use rtrb::RingBuffer;
use std::alloc::{AllocError, Global};

/// How many items a feed holds.
const ROOM: usize = 256;

/// One feed. A refused growth is the only error.
fn new_feed(alloc: Global) -> Result<(FeedHandle, FeedEnd), AllocError>
    ensures pair { IfOk result (λ r. IsPair r.0 r.1) }
    ensures unsent { IfOk result (λ r. IsUnsent r.0) }
    ensures unread { IfOk result (λ r. IsUnread r.1) }
{
    let (sender, ring) = RingBuffer::<FeedItem>::new(alloc, ROOM)?;
    let handle = FeedHandle { ring: sender };
    let end = FeedEnd {
        ring,
        improper: 0,
        over: false,
    };
    Ok((handle, end))
}

/// So many feeds: the handles, and in the same order the ends. A refused growth is the only error.
///
/// They are two lists and no list of pairs, since they go different ways: each handle to a caller, and all ends to one intake.
pub fn feeds(alloc: Global, count: usize) -> Result<(Vec<FeedHandle>, Vec<FeedEnd>), AllocError>
    ensures count { IfOk result (λ r. length r.1.items ≡ count) }
    ensures pairs { IfOk result (λ r. ArePairs r.0.items r.1.items) }
    ensures unsent { IfOk result (λ r. AreUnsent r.0.items) }
    ensures unread { IfOk result (λ r. AreUnread r.1.items) }
{
    let mut handles = Vec::with_capacity(alloc, count)?;
    let mut ends = Vec::with_capacity(alloc, count)?;
    for _feed in 0..count {
        let (handle, end) = new_feed(alloc)?;
        handles.push(handle)?;
        ends.push(end)?;
    }
    Ok((handles, ends))
}
