//! The logs of several deciders as one. Each decider notes what it suppressed of the objects of its share, by event and then
//! object; so does the log of all.

ghost use Rattle.std.specs.Prelude.{◌≡◌, ◌+◌, ◌<◌, ◌^◌, IfOk, length};
ghost use Rattle.decider_thread.specs.claims.Order.{IsInOrder};
ghost use Rattle.decider_thread.specs.Order.{stands_before};
ghost use Rattle.engine_threads.specs.Merge.{HasBoth, merged};

use due_model::notice::Suppression;
use std::alloc::{AllocError, Global};

/// Whether a suppression stands before another: by event, then object.
fn stands_before(a: Suppression, b: Suppression) -> bool
    ensures { result ≡ stands_before a b }
{
    a.event < b.event || (a.event == b.event && a.object.0 < b.object.0)
}

/// Two logs as one, each in order by event and then object. Lines of one place keep their order, those of the first log
/// before those of the second. A refused growth is the only error, and leaves both as they are.
pub(crate) fn merge(
    alloc: Global,
    first: &[Suppression],
    second: &[Suppression],
) -> Result<Vec<Suppression>, AllocError>
    requires { length first.now + length second.now < 2 ^ 64 }
    ensures order { IfOk result (λ log. IsInOrder first.now
        → IsInOrder second.now → IsInOrder log.items) }
    ensures both { IfOk result (λ log. HasBoth first.now second.now log.items) }
{
    merge_all(alloc, first, second)
}

/// The same, by what it makes: each time the line that stands first.
fn merge_all(
    alloc: Global,
    first: &[Suppression],
    second: &[Suppression],
) -> Result<Vec<Suppression>, AllocError>
    requires { length first.now + length second.now < 2 ^ 64 }
    ensures { IfOk result (λ log. log.items ≡ merged first.now second.now) }
{
    let mut log = Vec::with_capacity(alloc, first.len() + second.len())?;
    let mut i = 0;
    let mut j = 0;
    while i < first.len() && j < second.len() {
        if stands_before(second[j], first[i]) {
            log.push(second[j])?;
            j += 1;
        } else {
            log.push(first[i])?;
            i += 1;
        }
    }
    log.extend_from_slice(&first[i..])?;
    log.extend_from_slice(&second[j..])?;
    Ok(log)
}
