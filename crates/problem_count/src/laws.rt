//! Laws of books, over every configuration, zone, object and past, for callers that keep books and tell them of
//! events one by one. Each is the contract of a function with nothing to do.

ghost use Rattle.problem_count.specs.Laws.{OtherEventsFit, OtherOutcomesFit, UntouchedFit};
ghost use Rattle.problem_count.specs.Laws.{OutcomesAreByDue, ClockAttemptsByDue, ProblemsRun, RepeatsRun};
ghost use Rattle.problem_count.specs.Laws.{CountsAreFew, CountsWithinAreFew};

/// A book fits on within an event that gives its object no hard state, and after an event that becomes no attempt
/// as a problem. So does a book whose object an event doesn't touch: it isn't named, and isn't due at the clock's.
pub fn fit_on()
    ensures events { OtherEventsFit }
    ensures outcomes { OtherOutcomesFit }
    ensures untouched { UntouchedFit }
{}

/// What becomes of an object at an event, and whether the clock attempts its problem, is told by the moment at
/// which it is due by its book. An attempt as a problem is of a problem that runs.
pub fn attempt_by_due()
    ensures outcomes { OutcomesAreByDue }
    ensures clock { ClockAttemptsByDue }
    ensures runs { ProblemsRun }
    ensures repeats { RepeatsRun }
{}

/// No more notices went out in a problem than there were events.
pub fn count_few()
    ensures after { CountsAreFew }
    ensures within { CountsWithinAreFew }
{}
