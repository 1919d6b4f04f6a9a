//! A law of the answers of a feed, the contract of a function with nothing to do.

ghost use Rattle.event_feed.specs.Laws.{NothingFollowsTheEnd};

/// Of the answers that are given of a feed, one that ends it is the last.
pub fn nothing_follows_the_end()
    ensures { NothingFollowsTheEnd }
{}
