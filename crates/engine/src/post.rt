//! The channels that a run is given.

ghost use Rattle.std.specs.Prelude.{◌≡◌, ◌≤◌, ◌↔◌, ℕ, length, true, IsTrue};
ghost use Rattle.engine.specs.claims.Lanes.{count_of};

use channel::Channel;
use due_model::config::LaneId;

/// How many posts of one lane a run takes at most.
const MOST: usize = 8;

/// A channel that serves a lane. The caller makes it, and it has taken nothing yet. Of several posts of one lane the first serves,
/// and each other where the one before has failed.
#[derive(Drop)]
pub struct Post<C: Channel> {
    pub lane: LaneId,
    pub channel: C,
}

/// Whether these are eight posts at most. Then no lane has more than eight, as a run asks of its posts.
pub fn are_few<C: Channel>(posts: &[Post<C>]) -> bool
    ensures exact { IsTrue result ↔ (length posts.now ≤ 8) }
    ensures few { result ≡ true → (l : ℕ) → count_of (λ post. post.lane.0) posts.now l ≤ 8 }
{
    posts.len() <= MOST
}
