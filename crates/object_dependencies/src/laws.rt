//! Laws of the dependencies that are made of blocks. Each is the contract of a function that does nothing.

ghost use Rattle.object_dependencies.specs.Laws.{DependenciesFit, NoLoopIsLeft};

use object_reached::laws::spoken_are_objects;

/// What an accepted configuration asks of each dependency holds of those that are made of blocks.
pub fn dependencies_fit()
    ensures { DependenciesFit }
{
    spoken_are_objects();
}

/// Blocks without a loop of dependencies give dependencies without one.
pub fn no_loop_is_left()
    ensures { NoLoopIsLeft }
{}
