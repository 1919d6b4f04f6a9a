//! Laws of escalations, each the contract of a function with nothing to do.

ghost use Rattle.object_escalations.specs.Laws.{CountIsTheSum, EscalatedAreObjects, OneForEach};
ghost use Rattle.object_escalations.specs.Laws.{OnePlacePasses, WithinPassesNowhere};

use object_reached::laws::spoken_are_objects;

/// What escalation blocks speak of are hosts and services.
pub fn escalated_are_objects()
    ensures { EscalatedAreObjects }
{
    spoken_are_objects();
}

/// Blocks give one escalation for each object of which one speaks.
pub fn one_for_each()
    ensures { OneForEach }
{}

/// Blocks pass the limit of escalations at one place at most, and nowhere where they keep within it.
pub fn one_block_passes()
    ensures one { OnePlacePasses }
    ensures within { WithinPassesNowhere }
{}

/// How many escalations blocks give, counted once, is the sum of what they speak of.
pub fn each_is_counted()
    ensures { CountIsTheSum }
{}
