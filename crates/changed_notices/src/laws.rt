//! A law of what one of two configurations alone gives: the contract of a function with nothing to do.

ghost use Rattle.changed_notices.specs.Left.{LostIsTheDifference};

/// What one configuration alone gives is the difference of the two as multisets, by the names of object, contact and command.
#[tactic(auto, using(crate::proofs::LeftLaws::lost_is_the_difference))]
pub fn lost_is_the_difference()
    ensures { LostIsTheDifference }
{}
