//! Laws of the choices.

ghost use Rattle.choice_rows.specs.Laws.{AllAreHeard, ChangesEndTheWait, DelaysRunFromChanges};
ghost use Rattle.choice_rows.specs.Laws.{OwnRulesKnowNoChoice, TheClockDoesNothing};
ghost use Rattle.choice_rows.specs.Laws.{ToldLettersAreTaken, UnheardNoticesLeaveAll};

/// Each choice means what it says, and by this project's own rules it is as if there was none.
pub fn mean_what_they_say()
    ensures unheard { UnheardNoticesLeaveAll }
    ensures heard { AllAreHeard }
    ensures wait { ChangesEndTheWait }
    ensures delay { DelaysRunFromChanges }
    ensures told { ToldLettersAreTaken }
    ensures clock { TheClockDoesNothing }
    ensures own { OwnRulesKnowNoChoice }
{}
