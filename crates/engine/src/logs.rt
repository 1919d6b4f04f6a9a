//! Where a run's messages and suppressions go, and logs that tell nothing.

ghost use Rattle.std.specs.Prelude.{◌≡◌, IfOk, length};

use crate::post::Post;
use channel::Channel;
use decider_thread::{DeciderLog, KeptLog};
use std::alloc::{AllocError, Global};

/// Where a run's messages and suppressions go: the channels of its lanes, and a log for each decider, in their order.
#[derive(Drop)]
pub struct Outlets<C: Channel, L: DeciderLog> {
    pub posts: Vec<Post<C>>,
    pub logs: Vec<L>,
}

/// Logs of so many deciders that tell nothing. A refused growth is the only error.
pub(crate) fn kept_logs(alloc: Global, deciders: u8) -> Result<Vec<KeptLog>, AllocError>
    ensures { IfOk result (λ logs. length logs.items ≡ deciders) }
{
    let mut logs = Vec::with_capacity(alloc, usize::from(deciders))?;
    for _decider in 0..deciders {
        logs.push(KeptLog)?;
    }
    Ok(logs)
}
