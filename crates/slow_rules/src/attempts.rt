//! What an event attempts, by whose rules decide.

ghost use Rattle.std.specs.Prelude.{◌≡◌, ◌==◌, ◌∷◌, Bool, false, None, Some, reverse, if◌then◌else◌};
ghost use Rattle.due_model.specs.claims.Acknowledgements.{takes_back};
ghost use Rattle.due_model.specs.claims.Histories.{is_of_problem_attempt, is_service_of, ready_or, released_by};
ghost use Rattle.due_model.specs.claims.Histories.{repeats, with_repeat};
ghost use Rattle.due_model.specs.claims.Readings.{moment};

use crate::readings::{hard, moment_at, takes_back};
use crate::subject::Subject;
use due_model::config::{Choices, ObjectId};
use due_model::event::{Event, EventKind};
use due_model::notice::{Kind, Outcome};
use due_model::rules::same_state;

/// The ready moment as the clock is asked for it: by the daemon's rule, never.
pub(crate) fn timed(choices: Choices, ready: Option<u64>) -> Option<u64>
    ensures { result ≡ (if choices.at_results then None else ready) }
{
    if choices.at_results { None } else { ready }
}

/// The ready moment by the last attempt, or when an acknowledgement was taken back since.
pub(crate) fn ready_or(released: Option<u64>, ready: Option<u64>) -> Option<u64>
    ensures { result ≡ ready_or released ready }
{
    match released {
        Some(moment) => Some(moment),
        None => ready,
    }
}

/// Whether an outcome is of an attempt as a problem.
fn is_of_problem_attempt(outcome: Outcome) -> bool
    ensures { result ≡ is_of_problem_attempt outcome }
{
    match outcome {
        Outcome::Nothing => false,
        Outcome::Sent { kind, .. } => kind.is_problem(),
        Outcome::Suppressed { kind, .. } => kind.is_problem(),
    }
}

/// When an acknowledgement was taken back with no attempt as a problem since, after an event of which this became.
pub(crate) fn released_after(
    subject: &Subject<'_>,
    event: &Event,
    past: &[Event],
    now: Outcome,
    before: Option<u64>,
) -> Option<u64>
    ensures { result ≡ released_by (is_of_problem_attempt now)
        (takes_back subject.now.id.0 event.now (reverse past.now))
        (moment (event.now ∷ reverse past.now)) before }
{
    if is_of_problem_attempt(now) {
        None
    } else if takes_back(subject.id, event, past) {
        Some(moment_at(event, past))
    } else {
        before
    }
}

/// Whether another object is a service of this one.
fn is_service(subject: &Subject<'_>, other: ObjectId) -> bool
    ensures { result ≡ is_service_of subject.now.config.now other.0 subject.now.id.0 }
{
    match subject.config.objects.as_slice().get(usize::from(other.0)) {
        Some(object) => is_host_of(subject.id, object.host),
        None => false,
    }
}

/// Whether this is the host.
fn is_host_of(object: ObjectId, host: Option<ObjectId>) -> bool
    ensures { result ≡ elim host as (λ _. Bool) [ None ↦ false | Some h ↦ h.0 == object.0 ] }
{
    match host {
        Some(h) => h.0 == object.0,
        None => false,
    }
}

/// Whether an event attempts the problem of the object again, by the daemon's rule: where a service of it has a problem
/// state, the same as before.
pub(crate) fn repeats(subject: &Subject<'_>, event: &Event, past: &[Event]) -> bool
    ensures { result ≡ repeats subject.now.config.now subject.now.id.0 event.now.kind
        (reverse past.now) }
{
    match event.kind {
        EventKind::Hard(service, state) => {
            subject.config.choices.host_repeats
                && is_service(subject, service)
                && state.is_problem()
                && same_state(state, hard(service, past))
        }
        _ => false,
    }
}

/// What is attempted: a problem again, where nothing else is.
pub(crate) fn with_repeat(again: bool, kind: Option<Kind>) -> Option<Kind>
    ensures { result ≡ with_repeat again kind }
{
    match kind {
        Some(kind) => Some(kind),
        None => { if again { Some(Kind::Problem) } else { None } }
    }
}
