//! The logs of the deciders as one.

ghost use Rattle.std.specs.Prelude.{IfOk};
ghost use Rattle.decider_thread.specs.claims.Order.{IsInOrder};
ghost use Rattle.engine_threads.specs.Logs.{AreInOrder, HasEach};

use crate::log_merge::merge;
use decider_thread::DeciderEnd;
use due_model::notice::Suppression;
use std::alloc::{AllocError, Global};

/// The logs of all deciders as one, by event and then object. A refused growth is the only error.
pub(crate) fn merge_logs(alloc: Global, ends: &[DeciderEnd]) -> Result<Vec<Suppression>, AllocError>
    ensures order { IfOk result (λ log. AreInOrder ends.now → IsInOrder log.items) }
    ensures each { IfOk result (λ log. HasEach ends.now log.items) }
{
    let mut log = Vec::new(alloc);
    for end in ends {
        if usize::MAX - log.len() < end.log.len() {
            return Err(AllocError);
        }
        log = merge(alloc, &log, &end.log)?;
    }
    Ok(log)
}
