//! What a lane holds of one object.

ghost use Rattle.std.specs.Prelude.{◌≡◌, ◌++◌, IfOk, OnOk};
ghost use Rattle.std.specs.Option.{option_to_list};
ghost use Rattle.steps.specs.claims.Lanes.{about, join_records, lists_of};

use due_model::config::ObjectId;
use due_model::notice::Notice;
use std::alloc::{AllocError, Global};
use std::collections::VecDeque;

/// What a lane holds of one object, part by part, each with the oldest notice first.
#[derive(Drop)]
pub struct LineParts {
    /// What the lane's channel has taken: what each of its channels has, in order.
    pub taken: Vec<Notice>,
    /// The message in hand: at most one.
    pub hand: Vec<Notice>,
    /// What was given up.
    pub undelivered: Vec<Notice>,
    /// What waits in the lane's queue.
    pub queue: Vec<Notice>,
    /// What waits in the outbox of the object's decider.
    pub outbox: Vec<Notice>,
}

/// The notices of an object among these. A refused growth is the only error.
pub(crate) fn about_in(
    alloc: Global,
    notices: &[Notice],
    object: ObjectId,
) -> Result<Vec<Notice>, AllocError>
    ensures { IfOk result (λ found. found.items ≡ about object.0 notices.now) }
{
    notices
        .iter()
        .copied()
        .filter(|notice| notice.object.0 == object.0)
        .collect(alloc)
}

/// Appends the notices of an object among these. A refused growth is the only error.
fn append_about(
    found: &mut Vec<Notice>,
    notices: &[Notice],
    object: ObjectId,
) -> Result<(), AllocError>
    ensures { OnOk result (found.new.items ≡ found.old.items ++ about object.0 notices.now) }
{
    for notice in notices {
        if notice.object.0 == object.0 {
            found.push(*notice)?;
        }
    }
    Ok(())
}

/// The notices of an object among what the channels of a lane have taken: the records that ended, and then the last.
/// A refused growth is the only error.
pub(crate) fn about_in_records(
    alloc: Global,
    ended: &[Vec<Notice>],
    last: &[Notice],
    object: ObjectId,
) -> Result<Vec<Notice>, AllocError>
    ensures { IfOk result (λ found. found.items
        ≡ about object.0 (join_records (lists_of ended.now) ++ last.now)) }
{
    let mut found = Vec::new(alloc);
    for taken in ended {
        append_about(&mut found, taken, object)?;
    }
    append_about(&mut found, last, object)?;
    Ok(found)
}

/// The notices of an object in a queue. A refused growth is the only error.
pub(crate) fn about_in_queue(
    alloc: Global,
    notices: &VecDeque<Notice>,
    object: ObjectId,
) -> Result<Vec<Notice>, AllocError>
    ensures { IfOk result (λ found. found.items ≡ about object.0 notices.now.items) }
{
    notices
        .iter()
        .copied()
        .filter(|notice| notice.object.0 == object.0)
        .collect(alloc)
}

/// The message in hand, if it is of the object. A refused growth is the only error.
pub(crate) fn about_in_hand(
    alloc: Global,
    hand: Option<Notice>,
    object: ObjectId,
) -> Result<Vec<Notice>, AllocError>
    ensures { IfOk result (λ found. found.items ≡ about object.0 (option_to_list hand)) }
{
    match hand {
        Some(notice) => about_in(alloc, &[notice], object),
        None => Ok(Vec::new(alloc)),
    }
}
