//! What runs of the same events have in common.

ghost use Rattle.engine.specs.Alike.{RunsAreAlike};

/// Runs of the same events in which memory didn't run out leave, on each lane, the same notices of each object in the same order, and
/// the same log, whatever their numbers of deciders were.
pub fn runs_are_alike()
    ensures { RunsAreAlike }
{}
