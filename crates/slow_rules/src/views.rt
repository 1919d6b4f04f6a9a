//! What the filters read of an object at an event.

ghost use Rattle.std.specs.Prelude.{◌≡◌, ◌≤◌, ◌&&◌, ◌||◌, ◌∷◌, All};
ghost use Rattle.std.specs.Prelude.{Bool, false, IfOk, IfSome, None, Some};
ghost use Rattle.std.specs.Prelude.{length, reverse, map};
ghost use Rattle.std.specs.List.{range_with_len};
ghost use Rattle.due_model.specs.claims.Accepted.{IsAccepted};
ghost use Rattle.due_model.specs.claims.Dependencies.{dependency_fails};
ghost use Rattle.due_model.specs.claims.Histories.{depends_at, down_with_host, host_holds, view, waiting};
ghost use Rattle.due_model.specs.claims.Limits.{last_moment, max_objects};
ghost use Rattle.due_model.specs.claims.Proper.{IsProper};
ghost use Rattle.due_model.specs.claims.Readings.{hard, is_hard_of, moment};
ghost use Rattle.slow_rules.specs.Histories.{IsInRange, IsLastInRange};

use crate::dependencies::dependency_fails;
use crate::histories::{last_notice, notices_sent, told_letters};
use crate::readings::{
    delayed_at, hard_at, is_acknowledged_at, is_down_at, is_flapping_at, moment_at, program_on,
    switched_at,
};
use crate::subject::Subject;
use due_model::config::{Config, ObjectId};
use due_model::event::Event;
use due_model::notice::Outcome;
use due_model::rules::{Last, View};
use due_model::state::State;
use std::alloc::{AllocError, Global};

/// Whether the object, or a service's host, is in downtime at an event, the event itself counted.
pub(crate) fn is_down(subject: &Subject<'_>, event: &Event, past: &[Event]) -> bool
    ensures { result ≡ down_with_host subject.now.id.0 subject.now.object.now
        (event.now ∷ reverse past.now) }
{
    if is_down_at(subject.id, event, past) {
        return true;
    }
    match subject.object.host {
        None => false,
        Some(host) => is_down_at(host, event, past),
    }
}

/// Whether a service's host isn't UP at an event, the event itself counted, where that holds notices back.
pub(crate) fn host_holds(subject: &Subject<'_>, event: &Event, past: &[Event]) -> bool
    ensures { result ≡ host_holds subject.now.config.now subject.now.object.now
        (event.now ∷ reverse past.now) }
{
    if !subject.config.choices.host_down {
        return false;
    }
    match subject.object.host {
        None => false,
        Some(host) => hard_at(host, event, past).is_problem(),
    }
}

/// The hard state of each object at an event, the event itself counted.
fn states(
    alloc: Global,
    config: &Config,
    event: &Event,
    past: &[Event],
) -> Result<Vec<State>, AllocError>
    requires { length config.now.objects ≤ max_objects }
    ensures { IfOk result (λ v. v.items ≡ map (λ o. hard o (event.now ∷ reverse past.now))
        (range_with_len 0 (length config.now.objects))) }
{
    let mut states = Vec::new(alloc);
    for number in 0..config.objects.len() {
        states.push(hard_at(ObjectId(number as u16), event, past))?;
    }
    Ok(states)
}

/// Whether a dependency of an object fails at an event, the event itself counted.
fn fails(
    alloc: Global,
    subject: &Subject<'_>,
    event: &Event,
    past: &[Event],
    object: ObjectId,
) -> Result<bool, AllocError>
    requires accepted { IsAccepted subject.now.config.now }
    requires now { IsProper subject.now.config.now event.now }
    requires past { All (IsProper subject.now.config.now) past.now }
    ensures { IfOk result (λ fails. fails ≡ dependency_fails subject.now.config.now
        subject.now.zone.now
        (λ master. hard master (event.now ∷ reverse past.now))
        (moment (event.now ∷ reverse past.now)) object.0) }
{
    let states = states(alloc, subject.config, event, past)?;
    let moment = moment_at(event, past);
    dependency_fails(
        alloc,
        subject.config,
        subject.zone,
        states.as_slice(),
        moment,
        object,
    )
}

/// Whether one of a service's host fails, where that counts.
fn host_fails(
    alloc: Global,
    subject: &Subject<'_>,
    event: &Event,
    past: &[Event],
) -> Result<bool, AllocError>
    requires accepted { IsAccepted subject.now.config.now }
    requires now { IsProper subject.now.config.now event.now }
    requires past { All (IsProper subject.now.config.now) past.now }
    ensures { IfOk result (λ fails. fails ≡ (subject.now.config.now.choices.host_dep
        && elim subject.now.object.now.host as (λ _. Bool) [
          | None ↦ false
          | Some h ↦ dependency_fails subject.now.config.now subject.now.zone.now
              (λ master. hard master (event.now ∷ reverse past.now))
              (moment (event.now ∷ reverse past.now)) h.0
        ])) }
{
    if !subject.config.choices.host_dep {
        return Ok(false);
    }
    match subject.object.host {
        None => Ok(false),
        Some(host) => fails(alloc, subject, event, past, host),
    }
}

/// Whether a dependency of the object fails at an event, or of a service's host where that counts, the event itself
/// counted.
fn depends(
    alloc: Global,
    subject: &Subject<'_>,
    event: &Event,
    past: &[Event],
) -> Result<bool, AllocError>
    requires accepted { IsAccepted subject.now.config.now }
    requires now { IsProper subject.now.config.now event.now }
    requires past { All (IsProper subject.now.config.now) past.now }
    ensures { IfOk result (λ depends. depends ≡ depends_at subject.now.config.now
        subject.now.zone.now subject.now.id.0 subject.now.object.now event.now
        (reverse past.now)) }
{
    let own = fails(alloc, subject, event, past, subject.id)?;
    let hosts = host_fails(alloc, subject, event, past)?;
    let one = either(own, hosts);
    Ok(one)
}

/// Whether one of two is so.
fn either(one: bool, other: bool) -> bool
    ensures { result ≡ (one || other) }
{
    one || other
}

/// What the filters read at an event, the event itself counted; `earlier` has the outcomes of the problem
/// before it, and the wait after its last notice is `over` or not.
pub(crate) fn view(
    alloc: Global,
    subject: &Subject<'_>,
    event: &Event,
    past: &[Event],
    earlier: &[Outcome],
    over: bool,
) -> Result<View, AllocError>
    requires accepted { IsAccepted subject.now.config.now }
    requires now { IsProper subject.now.config.now event.now }
    requires past { All (IsProper subject.now.config.now) past.now }
    requires in_range { All IsInRange earlier.now }
    ensures value { IfOk result (λ v. v ≡ view subject.now.config.now subject.now.zone.now
        subject.now.id.0
        subject.now.object.now event.now (reverse past.now) (reverse earlier.now)
        over) }
    ensures began { IfOk result (λ v. v.began ≤ last_moment) }
    ensures last { IfOk result (λ v. IfSome v.last IsLastInRange) }
    ensures sent { IfOk result (λ v. v.sent ≤ length earlier.now) }
{
    let depends = depends(alloc, subject, event, past)?;
    Ok(View {
        program: event.kind.switch_after(program_on(past)),
        enabled: subject
            .object
            .is_enabled(switched_at(subject.id, event, past)),
        down: is_down(subject, event, past),
        flapping: is_flapping_at(subject.id, event, past),
        options: subject.object.options,
        sent: notices_sent(earlier),
        period: subject.object.period,
        depends,
        acknowledged: is_acknowledged_at(subject.id, event, past),
        began: delayed_at(subject.config, subject.id, event, past),
        delay: subject.object.delay,
        last: waiting(over, last_notice(earlier)),
        renews: renews(subject, event),
        told: told_letters(earlier),
        host_problem: host_holds(subject, event, past),
    })
}

/// Whether the event is a hard state of a volatile service.
fn renews(subject: &Subject<'_>, event: &Event) -> bool
    ensures { result ≡ (subject.now.object.now.volatile
        && is_hard_of subject.now.id.0 event.now.kind) }
{
    subject.object.volatile && event.kind.is_hard_of(subject.id)
}

/// The last notice, where its wait isn't over.
fn waiting(over: bool, last: Option<Last>) -> Option<Last>
    ensures value { result ≡ waiting over last }
    ensures in_range { IfSome last IsLastInRange → IfSome result IsLastInRange }
{
    if over { None } else { last }
}
