//! Laws of the periods that are made of blocks. Each is the contract of a function that does nothing.

ghost use Rattle.object_periods.specs.Laws.{NoLoopIsLeft, PeriodsFit};

/// What an accepted configuration asks of each period by itself holds of those that are made of blocks.
pub fn periods_fit()
    ensures { PeriodsFit }
{}

/// Blocks without a loop of exclusions give periods without one.
pub fn no_loop_is_left()
    ensures { NoLoopIsLeft }
{}
