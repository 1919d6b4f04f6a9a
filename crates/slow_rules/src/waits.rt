//! Whether the wait after the last problem notice was ended.

ghost use Rattle.std.specs.Prelude.{◌≡◌, ◌≤◌, ◌==◌, ◌&&◌, ◌||◌, ◌∷◌, is_some, not, reverse, IfOk};
ghost use Rattle.due_model.specs.claims.Histories.{down_with_host, ended_by, ended_within, host_holds};
ghost use Rattle.due_model.specs.claims.Histories.{is_by_switch, lapses, waits_a_while};
ghost use Rattle.due_model.specs.claims.Limits.{last_moment};
ghost use Rattle.due_model.specs.claims.Periods.{in_period};
ghost use Rattle.due_model.specs.claims.Rules.{is_problem, is_recovery};
ghost use Rattle.slow_rules.specs.Histories.{IsInRange};

use crate::histories::notice_of;
use crate::periods::in_period;
use crate::readings::{changes, hard};
use crate::subject::Subject;
use crate::views::{host_holds, is_down};
use due_model::event::Event;
use due_model::notice::{Filter, Kind, Outcome};
use due_model::rules::Last;
use std::alloc::{AllocError, Global};

/// Whether the wait is ended within an event, which was `over` or not before it: by the daemon's rule a change of the hard
/// state ends it.
pub(crate) fn ended_within(subject: &Subject<'_>, event: &Event, past: &[Event], over: bool) -> bool
    ensures { result ≡ ended_within subject.now.config.now subject.now.id.0 event.now
        (reverse past.now) over }
{
    let before = hard(subject.id, past);
    let changed = changes(subject.id, event.kind, before);
    is_over_by(subject, over, changed)
}

/// Whether the wait was over, or ends by a change of the hard state.
fn is_over_by(subject: &Subject<'_>, over: bool, changed: bool) -> bool
    ensures { result ≡ (over || (subject.now.config.now.choices.reset_wait && changed)) }
{
    over || (subject.config.choices.reset_wait && changed)
}

/// The same after the event, of which this became, where it was `within` or not within it. `last` is the last notice
/// before it.
pub(crate) fn ended_after(
    alloc: Global,
    subject: &Subject<'_>,
    event: &Event,
    past: &[Event],
    last: Option<Last>,
    outcome: Outcome,
    within: bool,
) -> Result<bool, AllocError>
    requires in_range { IsInRange outcome }
    ensures { IfOk result (λ ended. ended ≡ ended_by subject.now.config.now subject.now.zone.now
        subject.now.object.now
        (down_with_host subject.now.id.0 subject.now.object.now (event.now ∷ reverse past.now))
        (host_holds subject.now.config.now subject.now.object.now (event.now ∷ reverse past.now))
        last outcome within) }
{
    if notice_of(outcome).is_some() {
        return Ok(false);
    }
    let lapses = lapses(alloc, subject, event, past, outcome)?;
    let ends = is_ended(within, lapses, last);
    Ok(ends)
}

/// Whether the wait was ended, or is by this.
fn is_ended(within: bool, lapses: bool, last: Option<Last>) -> bool
    ensures { result ≡ (within || (lapses && waits_a_while last)) }
{
    within || (lapses && waits_a_while(last))
}

/// Whether there is a last notice, and its gap isn't 0.
fn waits_a_while(last: Option<Last>) -> bool
    ensures { result ≡ waits_a_while last }
{
    match last {
        Some(last) => last.gap != 0,
        None => false,
    }
}

/// Whether what became of an attempt at an event ends the wait.
fn lapses(
    alloc: Global,
    subject: &Subject<'_>,
    event: &Event,
    past: &[Event],
    outcome: Outcome,
) -> Result<bool, AllocError>
    requires in_range { IsInRange outcome }
    ensures { IfOk result (λ ends. ends ≡ lapses subject.now.config.now subject.now.zone.now
        subject.now.object.now
        (down_with_host subject.now.id.0 subject.now.object.now (event.now ∷ reverse past.now))
        (host_holds subject.now.config.now subject.now.object.now (event.now ∷ reverse past.now))
        outcome) }
{
    match outcome {
        Outcome::Suppressed {
            kind,
            moment,
            filter,
            ..
        } => {
            let outside = is_outside(alloc, subject, kind, moment, filter)?;
            let down = is_down(subject, event, past);
            let held = host_holds(subject, event, past);
            let ends = stop_lapses(subject, down, held, kind, outside);
            Ok(ends)
        }
        _ => Ok(false),
    }
}

/// Whether an attempt of this kind that was stopped ends the wait, where it was a problem outside the object's period
/// or not.
fn stop_lapses(subject: &Subject<'_>, down: bool, held: bool, kind: Kind, outside: bool) -> bool
    ensures { result ≡ (not (is_problem kind && held)
        && ((subject.now.config.now.choices.period_wait && outside)
        || (subject.now.config.now.choices.downtime_wait
        && (not (is_recovery kind) && (is_some subject.now.object.now.host
        && (subject.now.object.now.interval == 0 && down)))))) }
{
    let stands = is_held(kind, held);
    let left = is_left(subject, outside);
    let paused = is_paused(subject, down, kind);
    ends(stands, left, paused)
}

/// Whether the host's problem holds back what is a problem.
fn is_held(kind: Kind, held: bool) -> bool
    ensures { result ≡ (is_problem kind && held) }
{
    kind.is_problem() && held
}

/// Whether a problem outside the period ends the wait.
fn is_left(subject: &Subject<'_>, outside: bool) -> bool
    ensures { result ≡ (subject.now.config.now.choices.period_wait && outside) }
{
    subject.config.choices.period_wait && outside
}

/// Whether downtime ends the wait.
fn is_paused(subject: &Subject<'_>, down: bool, kind: Kind) -> bool
    ensures { result ≡ (subject.now.config.now.choices.downtime_wait
        && (not (is_recovery kind) && (is_some subject.now.object.now.host
        && (subject.now.object.now.interval == 0 && down)))) }
{
    let object = subject.object;
    subject.config.choices.downtime_wait
        && (!kind.is_recovery() && (object.host.is_some() && (object.interval == 0 && down)))
}

/// Whether one of the two ends it, and nothing holds it back.
fn ends(held: bool, left: bool, paused: bool) -> bool
    ensures { result ≡ (not held && (left || paused)) }
{
    !held && (left || paused)
}

/// Whether this is a problem outside the object's period, and the program switch is on.
fn is_outside(
    alloc: Global,
    subject: &Subject<'_>,
    kind: Kind,
    moment: u64,
    filter: Filter,
) -> Result<bool, AllocError>
    requires moment { moment ≤ last_moment }
    ensures { IfOk result (λ outside. outside ≡ (is_problem kind && (not (is_by_switch filter)
        && not (in_period subject.now.config.now subject.now.zone.now subject.now.object.now.period
        moment)))) }
{
    let holds = in_period(
        alloc,
        subject.config,
        subject.zone,
        subject.object.period,
        moment,
    )?;
    let outside = is_attempt_outside(kind, filter, holds);
    Ok(outside)
}

/// Whether this is a problem, outside a period that holds or doesn't, and the program switch is on.
fn is_attempt_outside(kind: Kind, filter: Filter, holds: bool) -> bool
    ensures { result ≡ (is_problem kind && (not (is_by_switch filter) && not holds)) }
{
    kind.is_problem() && (!is_by_switch(filter) && !holds)
}

/// Whether the program switch stopped it.
fn is_by_switch(filter: Filter) -> bool
    ensures { result ≡ is_by_switch filter }
{
    matches!(filter, Filter::Program)
}
