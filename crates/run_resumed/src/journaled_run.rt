//! The run of channels that go by journals, whatever these are and whatever channels are below.

ghost use Rattle.std.specs.Prelude.{◌≤◌, ℕ, is_none, map, IfOk, List};
ghost use Rattle.std.specs.Arc.{arc_value};
ghost use Rattle.channel_words.specs.Lanes.{channels_for};
ghost use Rattle.due_model.specs.claims.Accepted.{IsAccepted};
ghost use Rattle.earlier_runs.specs.declared.left.LaneState.{LaneState};
ghost use Rattle.run_resumed.specs.Resumed.{AreFresh, TellsOffers, WritesResumedEnds, WritesResumedRun};

use channel::Channel;
use command_output::{CommandFault, Ending, Sink};
use due_model::config::Config;
use due_model::zone::Zone;
use engine::Post;
use journaled::laws::split_by_past;
use journaled::{Journal, Journaled};
use run_devices::logged_run::log_posts;
use run_devices::run::run_posts;
use run_devices::{RunSettings, Watched};
use std::alloc::Global;
use std::sync::{Arc, Wait};
use std::thread::Threads;
use std::time::Clock;
use text_lines::Input;

/// Reads a feed, with these posts, as `run_posts` does. Where their channels went by what earlier runs left of the lanes, and nothing was taken
/// yet, the channels below have taken what no earlier run settled.
pub(crate) fn run_journaled<
    C: Channel,
    J: Journal + Send,
    T: Threads + Wait + Clock + Sync,
    R: Input + Drop,
    W: Sink,
>(
    watched: Watched<'_, T>,
    config: &Arc<Config, Global>,
    zone: &Zone,
    settings: RunSettings,
    posts: Vec<Post<Journaled<C, J>>>,
    feed: R,
    writer: &mut W,
) -> Result<(Ending, Vec<Vec<Journaled<C, J>>>), CommandFault>
    requires accepted { IsAccepted (arc_value config.now) }
    requires few { (l : ℕ) → channels_for (map (λ post. post.lane) posts.items) l ≤ 8 }
    requires tells { TellsOffers C.account C.offered }
    ensures report { IfOk result (λ done. (states : List LaneState) → AreFresh C.account states posts.items
        → WritesResumedRun C.account ⟦<Journaled<C, J> as Channel>⟧.account ⟦<Journaled<C, J> as Channel>⟧.offered
        (λ cs. cs.items) R.can_fail (is_none settings.ahead) (arc_value config.now) zone.now settings.settings.tries states
        posts.items done.1.items (R.remaining feed) done.0 (W.contents writer.old) (W.contents writer.new)) }
{
    split_by_past();
    let (ending, channels) = run_posts(watched, config, zone, settings, posts, feed, writer)?;
    Ok((ending, channels))
}

/// The same with a log, as `log_posts` does.
pub(crate) fn log_journaled<
    C: Channel,
    J: Journal + Send,
    T: Threads + Wait + Clock + Sync,
    R: Input + Drop,
    W: Sink,
>(
    watched: Watched<'_, T>,
    config: &Arc<Config, Global>,
    zone: &Zone,
    settings: RunSettings,
    fold: bool,
    posts: Vec<Post<Journaled<C, J>>>,
    feed: R,
    writer: &mut W,
) -> Result<(Ending, Vec<Vec<Journaled<C, J>>>), CommandFault>
    requires accepted { IsAccepted (arc_value config.now) }
    requires few { (l : ℕ) → channels_for (map (λ post. post.lane) posts.items) l ≤ 8 }
    requires tells { TellsOffers C.account C.offered }
    ensures report { IfOk result (λ done. (states : List LaneState) → AreFresh C.account states posts.items
        → WritesResumedEnds C.account ⟦<Journaled<C, J> as Channel>⟧.account ⟦<Journaled<C, J> as Channel>⟧.offered
        (λ cs. cs.items) R.can_fail (is_none settings.ahead) (arc_value config.now) zone.now settings.settings.tries states
        posts.items done.1.items (R.remaining feed) done.0 (W.contents writer.old) (W.contents writer.new)) }
{
    split_by_past();
    let (ending, channels) = log_posts(watched, config, zone, settings, fold, posts, feed, writer)?;
    Ok((ending, channels))
}
