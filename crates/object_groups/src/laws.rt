//! Laws of groups, each the contract of a function with nothing to do.

ghost use Rattle.object_groups.specs.Laws.{LoopAddsNothing};

/// A group's members don't change when a loop is added to it.
pub fn loop_adds_nothing()
    ensures { LoopAddsNothing }
{}
