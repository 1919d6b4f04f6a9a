//! The names of states, kinds and filters, as reports and letters write them.

ghost use Rattle.std.specs.Prelude.{◌≡◌};
ghost use Rattle.notice_text.specs.claims.Names.{filter_name, kind_name, state_name};

use due_model::notice::{Filter, Kind};
use due_model::state::State;

/// The name of a state.
pub fn state_name(state: State) -> &'static str
    ensures { result.now ≡ state_name state }
{
    match state {
        State::Pending => "PENDING",
        State::Up => "UP",
        State::Down => "DOWN",
        State::Unreachable => "UNREACHABLE",
        State::Fine => "OK",
        State::Warning => "WARNING",
        State::Unknown => "UNKNOWN",
        State::Critical => "CRITICAL",
    }
}

/// The name of a kind of notification.
pub fn kind_name(kind: Kind) -> &'static str
    ensures { result.now ≡ kind_name kind }
{
    match kind {
        Kind::Problem => "PROBLEM",
        Kind::Recovery => "RECOVERY",
        Kind::FlappingStart => "FLAPPINGSTART",
        Kind::FlappingStop => "FLAPPINGSTOP",
        Kind::DowntimeStart => "DOWNTIMESTART",
        Kind::DowntimeEnd => "DOWNTIMEEND",
        Kind::DowntimeCancelled => "DOWNTIMECANCELLED",
        Kind::Acknowledgement => "ACKNOWLEDGEMENT",
    }
}

/// The name of a filter.
pub fn filter_name(filter: Filter) -> &'static str
    ensures { result.now ≡ filter_name filter }
{
    match filter {
        Filter::Program => "Program",
        Filter::Disabled => "Disabled",
        Filter::Downtime => "Downtime",
        Filter::Flapping => "Flapping",
        Filter::Options => "Options",
        Filter::NoProblem => "NoProblem",
        Filter::Period => "Period",
        Filter::Dependency => "Dependency",
        Filter::Acknowledged => "Acknowledged",
        Filter::FirstDelay => "FirstDelay",
        Filter::Interval => "Interval",
        Filter::HostDown => "HostDown",
        Filter::ContactDisabled => "ContactDisabled",
        Filter::ContactOptions => "ContactOptions",
        Filter::ContactPeriod => "ContactPeriod",
        Filter::ContactNotTold => "ContactNotTold",
    }
}
