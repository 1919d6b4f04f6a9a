//! The laws of what a decider's events make of the objects of its share.

ghost use Rattle.decider_thread.specs.Laws.{MadeIsDue, MadeIsOwn, SuppressedIsInOrder};
ghost use Rattle.decider_thread.specs.Laws.{SuppressedIsNamed, SuppressedIsOwn, SuppressedIsSup};

/// What is made due of an object of the share is what is due of it, and all of it is of objects of the share; the same of what is
/// suppressed, which stands by event and then object.
pub fn made_of_share()
    ensures due { MadeIsDue }
    ensures own { MadeIsOwn }
    ensures suppressed { SuppressedIsSup }
    ensures nothing_else { SuppressedIsOwn }
    ensures named { SuppressedIsNamed }
    ensures order { SuppressedIsInOrder }
{}
