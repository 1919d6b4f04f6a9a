//! Laws of several runs.

ghost use Rattle.journaled.specs.HandsLaws.{AreSplit};
ghost use Rattle.journaled.specs.Runs.{IsOnceOfEach};

/// Of what a channel with a journal was offered, what is new and was taken is what its inner channel took, what is settled and was
/// taken is held, and no settled letter was offered to the inner channel.
pub fn split_by_past()
    ensures { AreSplit }
{}

/// Over all runs of a feed that grows each message that is due is settled once.
pub fn each_once()
    ensures { IsOnceOfEach }
{}
