//! What becomes of an object at an event: what is attempted, and the first filter that stops it.

ghost use Rattle.std.specs.Prelude.{◌≡◌, ◌≤◌, ◌<◌, ◌+◌, ◌^◌, ◌&&◌, ◌∷◌, All};
ghost use Rattle.std.specs.Prelude.{IfOk, IfSome};
ghost use Rattle.std.specs.Prelude.{length, reverse};
ghost use Rattle.due_model.specs.claims.Accepted.{IsAccepted};
ghost use Rattle.due_model.specs.claims.Histories.{status_after, gap_of, judged};
ghost use Rattle.due_model.specs.claims.Histories.{ended, outcome, reach_of};
ghost use Rattle.due_model.specs.claims.Histories.{ready, ready_or, released, repeats, timed, told_for};
ghost use Rattle.due_model.specs.claims.Histories.{with_repeat};
ghost use Rattle.due_model.specs.claims.Rules.{attempted};
ghost use Rattle.due_model.specs.claims.Limits.{last_moment};
ghost use Rattle.due_model.specs.claims.Proper.{IsProper};
ghost use Rattle.due_model.specs.claims.Changes.{delayed};
ghost use Rattle.due_model.specs.claims.Readings.{hard, is_problem_state, moment};
ghost use Rattle.slow_rules.specs.Histories.{IsInRange, IsLastInRange, longest_gap};

use crate::attempts::{ready_or, repeats, timed, with_repeat};
use crate::escalations::{Numbered, gap};
use crate::filters::failing;
use crate::histories::{before, last_notice, of_problem, ready};
use crate::readings::{
    acknowledgement, delayed, depth, flapping, hard, hard_at, moment_at, switched,
};
use crate::receivers::is_heard;
use crate::subject::Subject;
use crate::views::view;
use crate::waits::{ended_after, ended_within};
use due_model::config::ObjectId;
use due_model::event::Event;
use due_model::notice::{Kind, Outcome, Reach};
use due_model::options::OptionLetters;
use due_model::rules::{Attempt, ObjectStatus, View, attempted};
use std::alloc::{AllocError, Global};

/// The status of the object after the events.
fn status(object: ObjectId, past: &[Event]) -> ObjectStatus
    ensures value { result ≡ status_after object.0 (reverse past.now) }
    ensures few { result.depth ≤ length past.now }
{
    ObjectStatus {
        state: hard(object, past),
        depth: depth(object, past),
        flapping: flapping(object, past),
        acknowledged: acknowledgement(object, past),
        switched: switched(object, past),
    }
}

/// The gap of a notice in seconds: only a problem's has one.
fn gap_of(
    alloc: Global,
    subject: &Subject<'_>,
    attempt: Attempt,
    number: u64,
) -> Result<u64, AllocError>
    requires moment { attempt.moment ≤ last_moment }
    ensures value { IfOk result (λ seconds. seconds
        ≡ gap_of subject.now.config.now subject.now.zone.now subject.now.id.0
        subject.now.object.now attempt
        number) }
    ensures in_range { IfOk result (λ seconds. seconds ≤ longest_gap) }
{
    if !attempt.kind.is_problem() {
        return Ok(0);
    }
    let notification = Numbered {
        number,
        letter: attempt.kind.letter(attempt.state),
        moment: attempt.moment,
    };
    gap(alloc, subject, notification)
}

/// The letters of the states told in the problem, for the recovery of a service by the daemon's rule.
fn told_for(subject: &Subject<'_>, kind: Kind, told: OptionLetters) -> Option<OptionLetters>
    ensures { result ≡ told_for subject.now.config.now subject.now.object.now kind told }
{
    if subject.config.choices.told && (kind.is_recovery() && subject.object.host.is_some()) {
        Some(told)
    } else {
        None
    }
}

/// How far a notice reaches.
fn reach_of(
    alloc: Global,
    subject: &Subject<'_>,
    view: View,
    attempt: Attempt,
    number: u64,
) -> Result<Reach, AllocError>
    requires accepted { IsAccepted subject.now.config.now }
    requires moment { attempt.moment ≤ last_moment }
    ensures { IfOk result (λ reach. reach
        ≡ reach_of subject.now.config.now subject.now.zone.now subject.now.id.0
        subject.now.object.now view attempt number) }
{
    let told = told_for(subject, attempt.kind, view.told);
    let heard = is_heard(alloc, subject, attempt, number, told, view.sent)?;
    Ok(Reach {
        heard,
        told,
        standing: view.sent,
    })
}

/// What becomes of an attempt: the first failing filter suppresses it, else it goes out.
fn judged(
    alloc: Global,
    subject: &Subject<'_>,
    view: View,
    attempt: Attempt,
) -> Result<Outcome, AllocError>
    requires accepted { IsAccepted subject.now.config.now }
    requires began { view.began ≤ last_moment }
    requires last { IfSome view.last IsLastInRange }
    requires sent { view.sent + 1 < 2 ^ 64 }
    requires moment { attempt.moment ≤ last_moment }
    ensures value { IfOk result (λ now. now
        ≡ judged subject.now.config.now subject.now.zone.now subject.now.id.0
        subject.now.object.now view
        attempt) }
    ensures in_range { IfOk result IsInRange }
{
    let Attempt {
        kind,
        state,
        moment,
    } = attempt;
    let number = kind.number_after(view.sent);
    match failing(alloc, subject, view, attempt)? {
        None => {
            let gap = gap_of(alloc, subject, attempt, number)?;
            let reach = reach_of(alloc, subject, view, attempt, number)?;
            Ok(Outcome::Sent {
                kind,
                state,
                number,
                moment,
                gap,
                reach,
            })
        }
        Some(filter) => Ok(Outcome::Suppressed {
            kind,
            state,
            number,
            moment,
            filter,
        }),
    }
}

/// What an event attempts on the object, after the events before it and the outcomes of the last problem
/// among them; none is nothing.
fn attempted_at(
    alloc: Global,
    subject: &Subject<'_>,
    event: &Event,
    past: &[Event],
    problem: &[Outcome],
    freed: Option<u64>,
) -> Result<Option<Kind>, AllocError>
    requires past { All (IsProper subject.now.config.now) past.now }
    requires in_range { All IsInRange problem.now }
    ensures { IfOk result (λ kind. kind ≡ with_repeat
        (repeats subject.now.config.now subject.now.id.0 event.now.kind (reverse past.now)
        && is_problem_state (hard subject.now.id.0 (reverse past.now)))
        (attempted subject.now.id.0 event.now.kind
        (status_after subject.now.id.0 (reverse past.now))
        (timed subject.now.config.now (ready_or freed (ready subject.now.config.now
        subject.now.zone.now subject.now.object.now
        (delayed subject.now.config.now subject.now.id.0 (reverse past.now))
        (reverse problem.now))))
        (moment (event.now ∷ reverse past.now)))) }
{
    let began = delayed(subject.config, subject.id, past);
    let ready = ready(alloc, subject, began, problem)?;
    let old = status(subject.id, past);
    let due = timed(subject.config.choices, ready_or(freed, ready));
    let kind = attempted(subject.id, event.kind, old, due, moment_at(event, past));
    let again = both(repeats(subject, event, past), old.state.is_problem());
    Ok(with_repeat(again, kind))
}

/// Whether two are so.
fn both(one: bool, other: bool) -> bool
    ensures { result ≡ (one && other) }
{
    one && other
}

/// What becomes of the object at an event, after the events before it and their outcomes. `history` has one
/// outcome for each of those events, the wait after the last notice is `over` or not after them, and `freed` is when an
/// acknowledgement was taken back since the last attempt.
pub(crate) fn outcome(
    alloc: Global,
    subject: &Subject<'_>,
    event: &Event,
    past: &[Event],
    history: &[Outcome],
    over: bool,
    freed: Option<u64>,
) -> Result<Outcome, AllocError>
    requires accepted { IsAccepted subject.now.config.now }
    requires now { IsProper subject.now.config.now event.now }
    requires past { All (IsProper subject.now.config.now) past.now }
    requires length { length past.now ≡ length history.now }
    requires in_range { All IsInRange history.now }
    requires over { over ≡ ended subject.now.config.now subject.now.zone.now subject.now.id.0
        subject.now.object.now (reverse past.now) (reverse history.now) }
    requires freed { freed
        ≡ released subject.now.id.0 (reverse past.now) (reverse history.now) }
    ensures value { IfOk result (λ now. now ≡ outcome subject.now.config.now subject.now.zone.now
        subject.now.id.0 subject.now.object.now event.now (reverse past.now)
        (reverse history.now)) }
    ensures in_range { IfOk result IsInRange }
{
    let problem = of_problem(subject.id, past, history);
    match attempted_at(alloc, subject, event, past, problem, freed)? {
        None => Ok(Outcome::Nothing),
        Some(kind) => {
            let earlier = before(subject.id, event, past, problem);
            let ended = ended_within(subject, event, past, over);
            let view = view(alloc, subject, event, past, earlier, ended)?;
            let state = hard_at(subject.id, event, past);
            let moment = moment_at(event, past);
            let attempt = Attempt {
                kind,
                state,
                moment,
            };
            judged(alloc, subject, view, attempt)
        }
    }
}

/// Whether the wait after the last notice is over after an event of which this became, where it was `over` or not before
/// it. `history` has one outcome for each event before it.
pub(crate) fn is_over(
    alloc: Global,
    subject: &Subject<'_>,
    event: &Event,
    past: &[Event],
    history: &[Outcome],
    now: Outcome,
    over: bool,
) -> Result<bool, AllocError>
    requires length { length past.now ≡ length history.now }
    requires in_range { IsInRange now }
    ensures { IfOk result (λ after. over ≡ ended subject.now.config.now subject.now.zone.now
        subject.now.id.0 subject.now.object.now (reverse past.now) (reverse history.now)
        → after ≡ ended subject.now.config.now subject.now.zone.now subject.now.id.0
        subject.now.object.now (event.now ∷ reverse past.now) (now ∷ reverse history.now)) }
{
    let problem = of_problem(subject.id, past, history);
    let earlier = before(subject.id, event, past, problem);
    let within = ended_within(subject, event, past, over);
    ended_after(
        alloc,
        subject,
        event,
        past,
        last_notice(earlier),
        now,
        within,
    )
}
