//! The fields of the choices.

ghost use Rattle.std.specs.Prelude.{◌≡◌};
ghost use Rattle.choice_words.specs.Words.{with_field};

use due_model::config::Choices;

/// A field of the choices: where this project's rule and the daemon's differ.
#[derive(Clone, Copy, Debug, PartialEq, Eq)]
pub enum Field {
    /// A service whose host isn't UP.
    HostDown,
    /// A service's result that repeats its problem while its host isn't UP.
    HostRepeats,
    /// The dependencies of a service's host.
    HostDep,
    /// A notice that every receiver's filters refuse.
    Nobody,
    /// A service's recovery.
    Told,
    /// A hard state that changes within a problem, and changes back.
    ResetWait,
    /// The first delay.
    Delay,
    /// A dependency whose master is pending.
    DepPending,
    /// An attempt outside the object's period.
    PeriodWait,
    /// An attempt that is stopped in downtime.
    DowntimeWait,
    /// Whom flapping and downtimes are told.
    EscOther,
    /// What attempts a problem again.
    AtResults,
    /// Which filter is named, where several fail.
    Order,
    /// A contact that lists no options.
    ContactNone,
    /// Object text.
    Text,
}

/// The choices with the daemon's rule in a field, or this project's.
pub(crate) fn with_field(choices: Choices, field: Field, daemons: bool) -> Choices
    ensures { result ≡ with_field choices field daemons }
{
    let mut chosen = choices;
    match field {
        Field::HostDown => chosen.host_down = daemons,
        Field::HostRepeats => chosen.host_repeats = daemons,
        Field::HostDep => chosen.host_dep = daemons,
        Field::Nobody => chosen.nobody = daemons,
        Field::Told => chosen.told = daemons,
        Field::ResetWait => chosen.reset_wait = daemons,
        Field::Delay => chosen.delay = daemons,
        Field::DepPending => chosen.dep_pending = daemons,
        Field::PeriodWait => chosen.period_wait = daemons,
        Field::DowntimeWait => chosen.downtime_wait = daemons,
        Field::EscOther => chosen.esc_other = daemons,
        Field::AtResults => chosen.at_results = daemons,
        Field::Order => chosen.order = daemons,
        Field::ContactNone => chosen.contact_none = daemons,
        Field::Text => chosen.text = daemons,
    }
    chosen
}
