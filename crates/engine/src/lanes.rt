//! The lanes of a run: the channels of each, and what it leaves.

ghost use Rattle.std.specs.Prelude.{◌≡◌, ◌<◌, ◌≤◌, ◌∷◌, ◌++◌, ℕ, [], length, map, slice_get};
ghost use Rattle.std.specs.Prelude.{vec_capacity, IfOk, OnOk, Some};
ghost use Rattle.engine.specs.claims.Lanes.{LaneParts, channels_on};
ghost use Rattle.engine.specs.Lanes.{IsEndOf};

use crate::post::Post;
use crate::run_end::LaneEnd;
use channel::Channel;
use delivery_worker::Served;
use due_model::config::LaneId;
use std::alloc::{AllocError, Global};

/// No channel, for each of so many lanes. A refused growth is the only error.
fn empty_lanes<C: Channel>(alloc: Global, count: u8) -> Result<Vec<Vec<C>>, AllocError>
    ensures count { IfOk result (λ channels. length channels.items ≡ count) }
    ensures none { IfOk result (λ channels. (l : ℕ) (of_lane : _) → slice_get channels.items l ≡ Some of_lane
        → of_lane.items ≡ []) }
{
    let mut channels = Vec::with_capacity(alloc, usize::from(count))?;
    for _lane in 0..count {
        channels.push(Vec::new(alloc))?;
    }
    Ok(channels)
}

/// Puts the channel of a post behind those of its lane, and touches no other lane. One of a lane that isn't there is dropped. A
/// refused growth is the only error.
fn place<C: Channel>(channels: &mut Vec<Vec<C>>, post: Post<C>) -> Result<(), AllocError>
    ensures count { OnOk result (length channels.new.items ≡ length channels.old.items) }
    ensures placed { OnOk result ((l : ℕ) (a b : _) → slice_get channels.old.items l ≡ Some a
        → slice_get channels.new.items l ≡ Some b
        → b.items ≡ a.items ++ channels_on (λ p. p.lane.0) (λ p. p.channel) l (post ∷ [])) }
{
    let Post { lane, channel } = post;
    let place = usize::from(lane.0);
    if place < channels.len() {
        channels[place].push(channel)?;
    }
    Ok(())
}

/// So many lanes' channels, each lane's in the order of its posts. A refused growth is the only error.
pub(crate) fn channels_of<C: Channel>(
    alloc: Global,
    count: u8,
    posts: Vec<Post<C>>,
) -> Result<Vec<Vec<C>>, AllocError>
    ensures count { IfOk result (λ channels. length channels.items ≡ count) }
    ensures each { IfOk result (λ channels. (l : ℕ) (of_lane : _) → slice_get channels.items l ≡ Some of_lane
        → of_lane.items ≡ channels_on (λ p. p.lane.0) (λ p. p.channel) l posts.items) }
{
    let mut channels = empty_lanes(alloc, count)?;
    for post in posts {
        place(&mut channels, post)?;
    }
    Ok(channels)
}

/// How many channels each lane has. A refused growth is the only error.
pub(crate) fn counts_of<C: Channel>(
    alloc: Global,
    channels: &[Vec<C>],
) -> Result<Vec<usize>, AllocError>
    ensures { IfOk result (λ counts. counts.items ≡ map (λ of_lane. length of_lane.items) channels.now) }
{
    let mut counts = Vec::with_capacity(alloc, channels.len())?;
    for of_lane in channels {
        counts.push(of_lane.len())?;
    }
    Ok(counts)
}

/// What the lanes leave, in their order, of which each was given so many channels, where there is room for it. It takes no memory.
pub(crate) fn ends_of(served: Vec<Served>, counts: &[usize], room: Vec<LaneEnd>) -> Vec<LaneEnd>
    requires none { room.items ≡ [] }
    requires room { length served.items ≤ vec_capacity room }
    requires counts { length served.items ≤ length counts.now }
    requires few { length served.items < 256 }
    ensures count { length result.items ≡ length served.items }
    ensures each { (l n : ℕ) (s : _) (lane : LaneParts) → slice_get counts.now l ≡ Some n
        → slice_get served.items l ≡ Some s → slice_get result.items l ≡ Some lane
        → IsEndOf l n s lane }
{
    let mut ends = room;
    for lane in served {
        let count = counts[ends.len()];
        let number = LaneId(ends.len() as u8);
        let _room = ends.push(LaneEnd::of_served(number, count, lane));
    }
    ends
}
