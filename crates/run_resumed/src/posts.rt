//! The channels of a run that goes on: each over one that was opened, and its journal.

ghost use Rattle.std.specs.Prelude.{◌≡◌, map, All, IfOk, OnOk};
ghost use Rattle.std.specs.Arc.{arc_value};
ghost use Rattle.run_resumed.specs.Resumed.{IsResumedPost};

use crate::inner::RunChannel;
use due_model::config::{Config, LaneId};
use earlier_runs::LaneState;
use engine::Post;
use journal_folder::{FileJournal, Folder, FolderFault};
use journaled::Journaled;
use run_devices::run::SentChannel;
use std::alloc::Global;
use std::sync::Arc;

/// A channel of a run that goes on.
pub type ResumedChannel = Journaled<RunChannel, FileJournal>;

/// Puts each channel over its journal, by what earlier runs left of its lane.
pub fn resumed_posts(
    alloc: Global,
    folder: &Folder,
    config: &Arc<Config, Global>,
    states: &[LaneState],
    posts: Vec<Post<SentChannel>>,
) -> Result<Vec<Post<ResumedChannel>>, FolderFault>
    ensures lanes { IfOk result (λ found. map (λ post. post.lane) found.items ≡ map (λ post. post.lane) posts.items) }
    ensures inner { IfOk result (λ found. map (λ post. post.channel.inner.sent) found.items ≡ map (λ post. post.channel) posts.items) }
    ensures each { IfOk result (λ found. All (IsResumedPost (arc_value config.now) states.now) found.items) }
{
    let mut found = Vec::with_capacity(alloc, posts.len())?;
    for post in posts {
        let number = count_on(&found, post.lane);
        let resumed = resumed_post(alloc, folder, config, states, post, number)?;
        found.push(resumed)?;
    }
    Ok(found)
}

/// Puts a channel over its journal, which has this number among those of the lane.
fn resumed_post(
    alloc: Global,
    folder: &Folder,
    config: &Arc<Config, Global>,
    states: &[LaneState],
    post: Post<SentChannel>,
    number: u8,
) -> Result<Post<ResumedChannel>, FolderFault>
    ensures lane { IfOk result (λ found. found.lane ≡ post.lane) }
    ensures inner { IfOk result (λ found. found.channel.inner.sent ≡ post.channel) }
    ensures each { IfOk result (IsResumedPost (arc_value config.now) states.now) }
{
    let Post { lane, channel } = post;
    let Some(state) = states.get(usize::from(lane.0)) else {
        return Err(FolderFault::NotWritten(lane, number));
    };
    let journal = folder.journal(config, lane, number, state.from)?;
    let channel = RunChannel::new(channel);
    let channel = Journaled::new(alloc, channel, journal, Arc::try_clone(&state.past)?);
    Ok(Post { lane, channel })
}

/// How many of these posts are of a lane.
fn count_on(posts: &[Post<ResumedChannel>], lane: LaneId) -> u8 {
    let mut count = 0u8;
    for post in posts {
        if post.lane.0 == lane.0 {
            count = count.saturating_add(1);
        }
    }
    count
}
