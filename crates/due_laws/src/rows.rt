//! Worked examples that the definitions must get right.

ghost use Rattle.due_laws.specs.Rows.{OneHostDown, EmptyFeed, Renotify, SameStateTooSoon, ProgramSwitch};
ghost use Rattle.due_laws.specs.Rows.{EscalationAndRecovery, OverlappingEscalations, IntervalZero};
ghost use Rattle.due_laws.specs.Rows.{EscalationOptions, EscalationPeriod, OwnContacts};
ghost use Rattle.due_laws.specs.Rows.{InDowntime, NestedDowntimes, WhileFlapping, DependencyChain};
ghost use Rattle.due_laws.specs.Rows.{Acknowledged, AcknowledgedUp, TakenBack, SwitchedOff};
ghost use Rattle.due_laws.specs.Rows.{ToldOfAcknowledgements, VolatileService};
ghost use Rattle.due_laws.specs.Rows.{FirstDelay, ContactOptions, WorkHours, NestedExclusion};

/// The definitions give what the worked examples say of one host: a notice, none, the next after the
/// interval, the filters for the same state and for the program switch.
pub fn worked_examples()
    ensures one_host_down { OneHostDown }
    ensures empty_feed { EmptyFeed }
    ensures renotify { Renotify }
    ensures same_state_too_soon { SameStateTooSoon }
    ensures program_switch { ProgramSwitch }
{}

/// The definitions give what the worked examples say of escalations (chapter "Notification Escalations").
pub fn worked_escalations()
    ensures escalation_and_recovery { EscalationAndRecovery }
    ensures overlapping { OverlappingEscalations }
    ensures interval_zero { IntervalZero }
    ensures options { EscalationOptions }
    ensures period { EscalationPeriod }
    ensures own_contacts { OwnContacts }
{}

/// The definitions give what the worked examples say of the other filters.
pub fn worked_filters()
    ensures downtime { InDowntime }
    ensures nested_downtimes { NestedDowntimes }
    ensures flapping { WhileFlapping }
    ensures dependency_chain { DependencyChain }
    ensures acknowledged { Acknowledged }
    ensures acknowledged_up { AcknowledgedUp }
    ensures taken_back { TakenBack }
    ensures told_of_acknowledgements { ToldOfAcknowledgements }
    ensures switched_off { SwitchedOff }
    ensures volatile_service { VolatileService }
    ensures first_delay { FirstDelay }
    ensures contact_options { ContactOptions }
{}

/// The definitions give what the worked examples say of time periods (chapter "Time Periods").
pub fn worked_periods()
    ensures work_hours { WorkHours }
    ensures nested_exclusion { NestedExclusion }
{}
