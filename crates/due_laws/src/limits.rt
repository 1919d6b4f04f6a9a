//! The limits by their numbers, so that none changes unseen.

ghost use Rattle.due_laws.specs.Limits.{LimitsAreThese};

/// The named limits have these values.
pub fn have_these_values()
    ensures { LimitsAreThese }
{}
