//! The filters in their order, and when a problem that one of them stopped is attempted again.

ghost use Rattle.due_laws.specs.Orders.{FiltersStandInOrder, ContactFiltersStandInOrder};
ghost use Rattle.due_laws.specs.Retries.{ProblemsAreTriedAMinuteLater, RetriesAreThese};

/// The filters are tried in their order, each on the kinds of which it speaks (chapter "Notifications").
pub fn stand_in_order()
    ensures object { FiltersStandInOrder }
    ensures contact { ContactFiltersStandInOrder }
{}

/// A problem is attempted again 60 seconds after an attempt that a filter stopped which waits for nothing that is
/// known beforehand, and never by the clock after one that an acknowledgement stopped.
pub fn try_again()
    ensures a_minute_later { ProblemsAreTriedAMinuteLater }
    ensures retries { RetriesAreThese }
{}
