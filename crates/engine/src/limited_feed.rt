//! A feed whose stamps may be so late.

use event_feed::Horizon;
use std::io::Read;

/// A reader of a feed, and what says how late the stamp of a line of it may be.
#[derive(Drop)]
pub struct LimitedFeed<R: Read, H: Horizon> {
    pub reader: R,
    pub horizon: H,
}
