//! Worked rows of each choice, by this project's rule and by the daemon's.

ghost use Rattle.choice_rows.specs.Rows.{HostDownOwn, HostDownNagios, HostRepeatsOwn, HostRepeatsNagios, HostDepOwn, HostDepNagios, NobodyOwn, NobodyNagios, ToldOwn, ToldNagios, ResetWaitOwn, ResetWaitNagios, DelayOwn, DelayNagios, PeriodWaitOwn, PeriodWaitNagios, DowntimeWaitOwn, DowntimeWaitNagios, EscOtherOwn, EscOtherNagios, AtResultsOwn, AtResultsNagios};
ghost use Rattle.choice_rows.specs.Rows.{DepPendingOwn, DepPendingNagios, DepLetterOwn, DepLetterNagios, OrderOwn, OrderNagios};

/// The definitions give what the rows say.
pub fn worked_choices()
    ensures host_down_own { HostDownOwn }
    ensures host_down_nagios { HostDownNagios }
    ensures host_repeats_own { HostRepeatsOwn }
    ensures host_repeats_nagios { HostRepeatsNagios }
    ensures host_dep_own { HostDepOwn }
    ensures host_dep_nagios { HostDepNagios }
    ensures nobody_own { NobodyOwn }
    ensures nobody_nagios { NobodyNagios }
    ensures told_own { ToldOwn }
    ensures told_nagios { ToldNagios }
    ensures reset_wait_own { ResetWaitOwn }
    ensures reset_wait_nagios { ResetWaitNagios }
    ensures delay_own { DelayOwn }
    ensures delay_nagios { DelayNagios }
    ensures period_wait_own { PeriodWaitOwn }
    ensures period_wait_nagios { PeriodWaitNagios }
    ensures downtime_wait_own { DowntimeWaitOwn }
    ensures downtime_wait_nagios { DowntimeWaitNagios }
    ensures esc_other_own { EscOtherOwn }
    ensures esc_other_nagios { EscOtherNagios }
    ensures at_results_own { AtResultsOwn }
    ensures at_results_nagios { AtResultsNagios }
    ensures dep_pending_own { DepPendingOwn }
    ensures dep_pending_nagios { DepPendingNagios }
    ensures dep_letter_own { DepLetterOwn }
    ensures dep_letter_nagios { DepLetterNagios }
    ensures order_own { OrderOwn }
    ensures order_nagios { OrderNagios }
{}
