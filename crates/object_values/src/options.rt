//! Lists of notification options and of failure criteria (chapters "Object Definitions", "Notification
//! Escalations" and "Host and Service Dependencies").

ghost use Rattle.std.specs.Prelude.{◌≡◌, ◌||◌, ◌∷◌, [], codes};
ghost use Rattle.std.specs.List.{list_any};
ghost use Rattle.std.specs.Str.{bytes_eq};
ghost use Rattle.object_reader.specs.claims.Blanks.{is_blank};
ghost use Rattle.object_values.specs.claims.Options.{are_among, criteria_in, criteria_words, gives, given_letters};
ghost use Rattle.object_values.specs.claims.Options.{given_host_states, given_service_states, is_of_hosts};
ghost use Rattle.object_values.specs.claims.Options.{letters_of, option_words, options_in, parts, states_of};
ghost use Rattle.object_values.specs.claims.Options.{every_host_state, every_service_state, no_letter, no_state};
ghost use Rattle.object_values.specs.claims.Values.{is_comma};

use crate::values::equals;
use due_model::options::OptionLetters;
use due_model::state::StateSet;

/// The kinds of list of notification options.
#[derive(Clone, Copy)]
pub enum OptionKind {
    /// `notification_options` of a host, `host_notification_options` of a contact.
    Host,
    /// `notification_options` of a service, `service_notification_options` of a contact.
    Service,
    /// `escalation_options` of a host escalation.
    HostEscalation,
    /// `escalation_options` of a service escalation.
    ServiceEscalation,
}

/// The kinds of list of failure criteria.
#[derive(Clone, Copy)]
pub enum CriteriaKind {
    /// `notification_failure_criteria` of a host dependency.
    OfHosts,
    /// `notification_failure_criteria` of a service dependency.
    OfServices,
}

/// Whether a byte stands between the parts of an option list.
fn is_separator(byte: u8) -> bool
    ensures { result ≡ (is_comma byte || is_blank byte) }
{
    byte == b',' || byte == b' ' || byte == b'\t'
}

/// Whether a list has a part that is the letter or the word.
fn gives(text: &[u8], letter: &str, word: &str) -> bool
    ensures { result ≡ gives letter.now word.now (parts text.now) }
{
    text.split(|byte| is_separator(*byte))
        .any(|part| equals(part, letter) || equals(part, word))
}

/// Whether a part is an option of hosts, without flapping and downtimes.
fn is_host_option(part: &[u8]) -> bool
    ensures { result ≡ list_any (bytes_eq part.now) (option_words OptionKind.HostEscalation) }
{
    equals(part, "d")
        || equals(part, "down")
        || equals(part, "u")
        || equals(part, "unreachable")
        || equals(part, "r")
        || equals(part, "recovery")
        || equals(part, "n")
        || equals(part, "none")
        || equals(part, "a")
        || equals(part, "all")
}

/// Whether a part is an option of services, without flapping and downtimes.
fn is_service_option(part: &[u8]) -> bool
    ensures { result ≡ list_any (bytes_eq part.now) (option_words OptionKind.ServiceEscalation) }
{
    equals(part, "w")
        || equals(part, "warning")
        || equals(part, "u")
        || equals(part, "unknown")
        || equals(part, "c")
        || equals(part, "critical")
        || equals(part, "r")
        || equals(part, "recovery")
        || equals(part, "n")
        || equals(part, "none")
        || equals(part, "a")
        || equals(part, "all")
}

/// Whether a part is the option of flapping or that of downtimes.
fn is_object_option(part: &[u8]) -> bool
    ensures { result ≡ list_any (bytes_eq part.now)
        (codes "f" ∷ codes "flapping" ∷ codes "s" ∷ codes "downtime" ∷ []) }
{
    equals(part, "f") || equals(part, "flapping") || equals(part, "s") || equals(part, "downtime")
}

/// Whether a part is an option of its kind of list.
fn is_option(kind: OptionKind, part: &[u8]) -> bool
    ensures { result ≡ list_any (bytes_eq part.now) (option_words kind) }
{
    match kind {
        OptionKind::Host => is_host_option(part) || is_object_option(part),
        OptionKind::Service => is_service_option(part) || is_object_option(part),
        OptionKind::HostEscalation => is_host_option(part),
        OptionKind::ServiceEscalation => is_service_option(part),
    }
}

/// Whether each part of a list is an option of its kind.
fn are_options(kind: OptionKind, text: &[u8]) -> bool
    ensures { result ≡ are_among (option_words kind) (parts text.now) }
{
    text.split(|byte| is_separator(*byte))
        .all(|part| part.is_empty() || is_option(kind, part))
}

/// Whether the objects of a list are hosts.
fn is_of_hosts(kind: OptionKind) -> bool
    ensures { result ≡ is_of_hosts kind }
{
    matches!(kind, OptionKind::Host | OptionKind::HostEscalation)
}

/// The letters that a list gives, which has neither `n` nor `a`.
fn given_letters(hosts: bool, text: &[u8]) -> OptionLetters
    ensures { result ≡ given_letters hosts (parts text.now) }
{
    OptionLetters {
        down: gives(text, "d", "down"),
        unreachable: hosts && gives(text, "u", "unreachable"),
        warning: gives(text, "w", "warning"),
        unknown: !hosts && gives(text, "u", "unknown"),
        critical: gives(text, "c", "critical"),
        recovery: gives(text, "r", "recovery"),
        flapping: gives(text, "f", "flapping"),
        downtime: gives(text, "s", "downtime"),
    }
}

/// The letters that a list allows, each of whose parts is an option.
fn letters_of(kind: OptionKind, text: &[u8]) -> OptionLetters
    ensures { result ≡ letters_of kind (parts text.now) }
{
    if gives(text, "n", "none") {
        return NO_LETTER;
    }
    if gives(text, "a", "all") {
        return OptionLetters::ALL;
    }
    given_letters(is_of_hosts(kind), text)
}

/// No letter.
const NO_LETTER: OptionLetters = OptionLetters {
    down: false,
    unreachable: false,
    warning: false,
    unknown: false,
    critical: false,
    recovery: false,
    flapping: false,
    downtime: false,
};

/// The options that a list of that kind allows: letters or their words, between commas and blanks. One with `n`
/// allows nothing, whatever else it has; one with `a` everything, as where it isn't given; one without
/// entries nothing. `None` where it has a word that is no option of its kind.
#[tactic(auto, unfolding(crate::specs::claims::Options::options_in))]
pub fn options_in(kind: OptionKind, text: &[u8]) -> Option<OptionLetters>
    ensures { result ≡ options_in kind text.now }
{
    if are_options(kind, text) {
        Some(letters_of(kind, text))
    } else {
        None
    }
}

/// Whether a part is a state of hosts, or `n` or `a`.
fn is_host_state(part: &[u8]) -> bool
    ensures { result ≡ list_any (bytes_eq part.now) (criteria_words CriteriaKind.OfHosts) }
{
    equals(part, "o")
        || equals(part, "up")
        || equals(part, "d")
        || equals(part, "down")
        || equals(part, "u")
        || equals(part, "unreachable")
        || equals(part, "p")
        || equals(part, "pending")
        || equals(part, "n")
        || equals(part, "none")
        || equals(part, "a")
        || equals(part, "all")
}

/// Whether a part is a state of services, or `n` or `a`.
fn is_service_state(part: &[u8]) -> bool
    ensures { result ≡ list_any (bytes_eq part.now) (criteria_words CriteriaKind.OfServices) }
{
    equals(part, "o")
        || equals(part, "ok")
        || equals(part, "w")
        || equals(part, "warning")
        || equals(part, "u")
        || equals(part, "unknown")
        || equals(part, "c")
        || equals(part, "critical")
        || equals(part, "p")
        || equals(part, "pending")
        || equals(part, "n")
        || equals(part, "none")
        || equals(part, "a")
        || equals(part, "all")
}

/// Whether a part is a state of the kind, or `n` or `a`.
fn is_state(kind: CriteriaKind, part: &[u8]) -> bool
    ensures { result ≡ list_any (bytes_eq part.now) (criteria_words kind) }
{
    match kind {
        CriteriaKind::OfHosts => is_host_state(part),
        CriteriaKind::OfServices => is_service_state(part),
    }
}

/// Whether each part of a list is a state of the kind.
fn are_states(kind: CriteriaKind, text: &[u8]) -> bool
    ensures { result ≡ are_among (criteria_words kind) (parts text.now) }
{
    text.split(|byte| is_separator(*byte))
        .all(|part| part.is_empty() || is_state(kind, part))
}

/// No state.
const NO_STATE: StateSet = StateSet {
    pending: false,
    up: false,
    down: false,
    unreachable: false,
    fine: false,
    warning: false,
    unknown: false,
    critical: false,
};

/// Each state of hosts.
const HOST_STATES: StateSet = StateSet {
    pending: true,
    up: true,
    down: true,
    unreachable: true,
    fine: false,
    warning: false,
    unknown: false,
    critical: false,
};

/// Each state of services.
const SERVICE_STATES: StateSet = StateSet {
    pending: true,
    up: false,
    down: false,
    unreachable: false,
    fine: true,
    warning: true,
    unknown: true,
    critical: true,
};

/// The states of hosts that a list gives, which has neither `n` nor `a`.
fn given_host_states(text: &[u8]) -> StateSet
    ensures { result ≡ given_host_states (parts text.now) }
{
    StateSet {
        pending: gives(text, "p", "pending"),
        up: gives(text, "o", "up"),
        down: gives(text, "d", "down"),
        unreachable: gives(text, "u", "unreachable"),
        fine: false,
        warning: false,
        unknown: false,
        critical: false,
    }
}

/// The states of services that a list gives, which has neither `n` nor `a`.
fn given_service_states(text: &[u8]) -> StateSet
    ensures { result ≡ given_service_states (parts text.now) }
{
    StateSet {
        pending: gives(text, "p", "pending"),
        up: false,
        down: false,
        unreachable: false,
        fine: gives(text, "o", "ok"),
        warning: gives(text, "w", "warning"),
        unknown: gives(text, "u", "unknown"),
        critical: gives(text, "c", "critical"),
    }
}

/// The states that a list names, each of whose parts is a state of the kind.
fn states_of(kind: CriteriaKind, text: &[u8]) -> StateSet
    ensures { result ≡ states_of kind (parts text.now) }
{
    if gives(text, "n", "none") {
        return NO_STATE;
    }
    let all = gives(text, "a", "all");
    match kind {
        CriteriaKind::OfHosts if all => HOST_STATES,
        CriteriaKind::OfHosts => given_host_states(text),
        CriteriaKind::OfServices if all => SERVICE_STATES,
        CriteriaKind::OfServices => given_service_states(text),
    }
}

/// The states that failure criteria of that kind name: letters or their words, between commas and blanks. Those
/// with `n` name none, whatever else they have; those with `a` each state of the kind, pending too; those
/// without entries none. `None` where they have a word that is no state of the kind.
#[tactic(auto, unfolding(crate::specs::claims::Options::criteria_in))]
pub fn criteria_in(kind: CriteriaKind, text: &[u8]) -> Option<StateSet>
    ensures { result ≡ criteria_in kind text.now }
{
    if are_states(kind, text) {
        Some(states_of(kind, text))
    } else {
        None
    }
}
