//! What is left of some notices once others are taken out of them, one for one.

ghost use Rattle.std.specs.Prelude.{◌≡◌, IfOk};
ghost use Rattle.std.specs.List.{position};
ghost use Rattle.changed_notices.specs.Left.{left_of, without_first};
ghost use Rattle.changed_notices.specs.Names.{is_same};

use crate::names::is_same;
use due_model::config::Config;
use due_model::notice::Notice;
use std::alloc::{AllocError, Global};

/// What follows the notices at the front of both lists that are the same in pairs.
#[tactic(auto, using(crate::proofs::LeftLaws::same_front))]
fn after_common<'x>(
    a: &Config,
    b: &Config,
    notices: &'x [Notice],
    others: &'x [Notice],
) -> (&'x [Notice], &'x [Notice])
    ensures { left_of a.now b.now notices.now others.now
        ≡ left_of a.now b.now result.0.now result.1.now }
{
    let mut notices = notices;
    let mut others = others;
    while let (Some((notice, after)), Some((other, later))) = (
        notices.split_first(),
        others.split_first(),
    ) {
        if !is_same(a, b, notice, other) {
            break;
        }
        notices = after;
        others = later;
    }
    (notices, others)
}

/// The place of the first notice that is the same as one of another configuration.
fn place_of(a: &Config, b: &Config, notice: &Notice, others: &[Notice]) -> Option<usize>
    ensures { result ≡ position (is_same a.now b.now notice.now) others.now }
{
    others.iter().position(|other| is_same(a, b, notice, other))
}

/// Takes the first of some notices out that is the same as one of another configuration.
#[tactic(auto, using(crate::proofs::LeftLaws::place_taken, crate::proofs::LeftLaws::no_place))]
fn take_out(a: &Config, b: &Config, notice: &Notice, others: &mut Vec<Notice>)
    ensures { others.new.items
        ≡ without_first (is_same a.now b.now notice.now) others.old.items }
{
    if let Some(place) = place_of(a, b, notice, others) {
        others.remove(place);
    }
}

/// What is left of the others once for each notice the first that is the same is taken out. The notices are of the first
/// configuration, the others of the second.
pub(crate) fn left_of(
    alloc: Global,
    a: &Config,
    b: &Config,
    notices: &[Notice],
    others: &[Notice],
) -> Result<Vec<Notice>, AllocError>
    ensures { IfOk result (λ left. left.items ≡ left_of a.now b.now notices.now others.now) }
{
    let (notices, others) = after_common(a, b, notices, others);
    let mut left = Vec::from_slice(alloc, others)?;
    for notice in notices {
        take_out(a, b, notice, &mut left);
    }
    Ok(left)
}
