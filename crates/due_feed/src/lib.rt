//! What a feed makes due, told letter by letter to whoever looks at it.
#![tactic(auto)]

ghost use Rattle.std.specs.Prelude.{IfOk, IsErrOf};
ghost use Rattle.due_model.specs.claims.Accepted.{IsAccepted};
ghost use Rattle.due_feed.specs.Seen.{IsSeen, IsStopped, unread};

pub mod looker;
mod search;

use due_model::config::Config;
use due_model::zone::Zone;
pub use looker::{LookFault, Looker};
use search::Search;
use std::alloc::Global;
use text_lines::{Input, LineReader};

/// Reads a feed to its end, or to where it can't be read any more, and shows all that its events make due. The answer is how many events
/// were decided.
pub fn look_through<R: Input + Drop, L: Looker>(
    alloc: Global,
    config: &Config,
    zone: &Zone,
    feed: R,
    looker: &mut L,
) -> Result<u64, LookFault>
    requires accepted { IsAccepted config.now }
    // All that the feed makes due was seen.
    ensures seen { IfOk result (λ count. IsSeen R.can_fail config.now zone.now
        (unread (R.remaining feed)) L.saw count looker.old looker.new) }
    // Who looks stopped at a letter that is due, after all that are due before it.
    ensures stopped { IsErrOf result LookFault.Stopped → IsStopped R.can_fail config.now zone.now
        (unread (R.remaining feed)) L.saw L.stops looker.old looker.new }
{
    let lines = LineReader::new(alloc, feed)?;
    let mut search = Search::new(alloc, config, zone, lines)?;
    search.look(looker)
}
