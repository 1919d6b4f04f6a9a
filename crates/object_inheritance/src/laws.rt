//! Laws of what blocks inherit (chapter "Object Inheritance"). Each is the contract of a function with nothing
//! to do.

ghost use Rattle.object_inheritance.specs.Laws.{NothingPastTheBlocks, OwnListWins, OwnValueWins};
ghost use Rattle.object_inheritance.specs.Laws.{PlainBlockHasItsOwn, PlainListHasItsOwn};

/// A directive that a block gives itself never comes from a template; nor do the entries of a list, unless
/// it begins with `+`.
pub fn own_value_wins()
    ensures value { OwnValueWins }
    ensures list { OwnListWins }
{}

/// A block without `use` has what it gives itself.
pub fn plain_block_has_its_own()
    ensures value { PlainBlockHasItsOwn }
    ensures list { PlainListHasItsOwn }
{}

/// Where there is no block, nothing is given.
pub fn nothing_past_the_blocks()
    ensures { NothingPastTheBlocks }
{}
