//! Laws of the limit of objects, each the contract of a function with nothing to do.

ghost use Rattle.object_services.specs.Laws.{CountIsTheSum, OnePlacePasses, WithinPassesNowhere};

/// Blocks pass the limit of objects at one place at most, and nowhere where they keep within it.
pub fn one_place_passes()
    ensures one { OnePlacePasses }
    ensures within { WithinPassesNowhere }
{}

/// How many objects blocks give, counted once, is the sum of what they are.
pub fn count_is_the_sum()
    ensures { CountIsTheSum }
{}
