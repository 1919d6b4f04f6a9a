//! Laws of time periods (chapter "Time Periods").

ghost use Rattle.due_laws.specs.Periods.{PeriodsHoldByRanges, NextIsLeast};

/// A period of an accepted configuration holds exactly where a range of the local day has the local second
/// and none of the periods that it excludes holds.
pub fn hold_by_ranges()
    ensures { PeriodsHoldByRanges }
{}

/// The next moment of a period is the least from a moment on, and there is none where no moment of 400 days is
/// in the period.
pub fn find_the_least()
    ensures { NextIsLeast }
{}
