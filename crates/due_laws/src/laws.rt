//! Laws of what is due, over every configuration, zone and list of events.

ghost use Rattle.due_laws.specs.Laws.{DueOnlyGrows, SuppressionsOnlyGrow, NoticesStandInOrder};
ghost use Rattle.due_laws.specs.Laws.{NoticesStandOnce, NoticesTellOfEvents, ProblemsAreHeldBack};
ghost use Rattle.due_laws.specs.Laws.{RecoveriesFollowNotices, NumbersGoUpByOne, NoticesAreNumbered};
ghost use Rattle.due_laws.specs.Laws.{NoticesKeepTheirGaps, ServicesWaitForTheirHosts};

/// What was due, or suppressed, after some events is the front of that after more events.
pub fn only_grows()
    ensures due { DueOnlyGrows }
    ensures suppressions { SuppressionsOnlyGrow }
{}

/// The notices of an object on a lane stand in the order of events and contacts, and none twice.
pub fn stand_once()
    ensures order { NoticesStandInOrder }
    ensures once { NoticesStandOnce }
{}

/// A notice tells of one of the events, and a problem or a recovery only while nothing holds it back.
pub fn tell_of_events()
    ensures events { NoticesTellOfEvents }
    ensures held_back { ProblemsAreHeldBack }
    ensures recoveries { RecoveriesFollowNotices }
    ensures hosts { ServicesWaitForTheirHosts }
{}

/// The notices of one problem are numbered from 1 on, and keep their gaps.
pub fn follow_in_problem()
    ensures numbers { NumbersGoUpByOne }
    ensures notices { NoticesAreNumbered }
    ensures gaps { NoticesKeepTheirGaps }
{}
