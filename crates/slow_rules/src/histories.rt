//! What the outcomes so far say of the object's problem, read by going over all of them.

ghost use Rattle.std.specs.Prelude.{◌≡◌, ◌<◌, ◌≤◌, ◌^◌, length, reverse, None, All};
ghost use Rattle.std.specs.Prelude.{IfOk, IfSome, option_map, count_by, is_some, List, ◌∷◌};
ghost use Rattle.due_model.specs.claims.Limits.{last_moment};
ghost use Rattle.due_model.specs.declared.notice.Outcome.{Outcome};
ghost use Rattle.due_model.specs.claims.Histories.{before, of_problem, notice_of, notices_sent};
ghost use Rattle.due_model.specs.claims.Histories.{last_notice};
ghost use Rattle.due_model.specs.claims.Histories.{after_last, after_notice, retry_after, ready, told_letters};
ghost use Rattle.slow_rules.specs.Histories.{IsInRange, IsLastInRange, longest_gap};
ghost use Rattle.slow_rules.specs.Retries.{IsRetryInRange, retry_moment};

use crate::periods::next_in;
use crate::readings::{begins, hard};
use crate::subject::Subject;
use due_model::config::ObjectId;
use due_model::event::Event;
use due_model::notice::{Filter, Kind, Outcome, Reach};
use due_model::options::OptionLetters;
use due_model::rules::{Last, next_notice};
use due_model::state::State;
use std::alloc::{AllocError, Global};

/// The outcomes of the object's last problem: those from the event on with which it began.
pub(crate) fn of_problem<'a>(
    object: ObjectId,
    events: &[Event],
    history: &'a [Outcome],
) -> &'a [Outcome]
    requires { length events.now ≡ length history.now }
    ensures value { reverse result.now
        ≡ of_problem object.0 (reverse events.now) (reverse history.now) }
    ensures in_range { All IsInRange history.now → All IsInRange result.now }
    ensures few { length result.now ≤ length history.now }
{
    let mut start = 0;
    let mut state = State::Pending;
    for (index, event) in events.iter().enumerate() {
        if begins(object, event.kind, state) {
            start = index;
        }
        state = event.kind.hard_after(object, state);
    }
    &history[start..]
}

/// The problem notice that this outcome is, if it is one that counts.
pub(crate) fn notice_of(outcome: Outcome) -> Option<Last>
    ensures value { result ≡ notice_of outcome }
    ensures in_range { IsInRange outcome → IfSome result IsLastInRange }
{
    match outcome {
        Outcome::Sent {
            kind: Kind::Problem,
            state,
            moment,
            gap,
            reach,
            ..
        } => {
            if reach.heard {
                Some(Last { state, moment, gap })
            } else {
                None
            }
        }
        _ => None,
    }
}

/// How many problem notices went out.
pub(crate) fn notices_sent(history: &[Outcome]) -> u64
    ensures value { result ≡ notices_sent (reverse history.now) }
    ensures few { result ≤ length history.now }
{
    let mut sent = 0;
    for outcome in history {
        if notice_of(*outcome).is_some() {
            sent += 1;
        }
    }
    sent
}

/// The last problem notice that went out.
pub(crate) fn last_notice(history: &[Outcome]) -> Option<Last>
    ensures value { result ≡ last_notice (reverse history.now) }
    ensures in_range { All IsInRange history.now → IfSome result IsLastInRange }
{
    let mut last = None;
    for outcome in history {
        last = notice_of(*outcome).or(last);
    }
    last
}

/// The letters of the states that these notices and one more outcome told.
fn with_told(outcome: Outcome, told: OptionLetters) -> OptionLetters
    ensures { (history : List Outcome) → told ≡ told_letters history
        → result ≡ told_letters (outcome ∷ history) }
{
    match notice_of(outcome) {
        Some(last) => told.with(last.state.letter()),
        None => told,
    }
}

/// The letters of the states of which a problem notice went out.
pub(crate) fn told_letters(history: &[Outcome]) -> OptionLetters
    ensures { result ≡ told_letters (reverse history.now) }
{
    let mut told = OptionLetters::NONE;
    for outcome in history {
        told = with_told(*outcome, told);
    }
    told
}

/// When the last notice may be followed by one of the same state, in seconds since the epoch.
pub(crate) fn after_last(last: Option<Last>) -> Option<u64>
    requires { IfSome last IsLastInRange }
    ensures { result ≡ after_last last }
{
    match last {
        None => None,
        Some(last) => next_notice(last.moment, last.gap),
    }
}

/// When a problem is attempted again by the clock.
#[derive(Clone, Copy)]
pub(crate) enum Retry {
    /// At this moment, in seconds since the epoch; none is never.
    At(Option<u64>),
    /// At the next moment of the object's period, from this one on.
    InPeriod(u64),
}

/// When a problem is attempted again, after an attempt at `moment` that this filter stopped.
fn retry_after(
    subject: &Subject<'_>,
    began: u64,
    last: Option<Last>,
    moment: u64,
    filter: Filter,
) -> Retry
    requires began { began ≤ last_moment }
    requires moment { moment ≤ last_moment }
    requires last { IfSome last IsLastInRange }
    ensures value { retry_moment subject.now.config.now subject.now.zone.now subject.now.object.now
        result
        ≡ retry_after subject.now.config.now subject.now.zone.now subject.now.object.now began last
        moment
        filter }
    ensures in_range { IsRetryInRange result }
{
    match filter {
        Filter::Period => Retry::InPeriod(moment),
        Filter::FirstDelay => Retry::At(Some(began + 60 * u64::from(subject.object.delay))),
        Filter::Interval => Retry::At(after_last(last)),
        Filter::Acknowledged => Retry::At(None),
        Filter::Program
        | Filter::Disabled
        | Filter::Downtime
        | Filter::Flapping
        | Filter::Options
        | Filter::NoProblem
        | Filter::Dependency
        | Filter::HostDown
        | Filter::ContactDisabled
        | Filter::ContactOptions
        | Filter::ContactPeriod
        | Filter::ContactNotTold => Retry::At(Some(moment + 60)),
    }
}

/// When a problem is attempted again after a notice: when the next of the same state may go out, or a minute later where
/// it doesn't count.
fn after_notice(moment: u64, gap: u64, reach: Reach) -> Option<u64>
    requires moment { moment ≤ last_moment }
    requires gap { gap ≤ longest_gap }
    ensures { result ≡ after_notice moment gap reach }
{
    if reach.heard {
        next_notice(moment, gap)
    } else {
        Some(moment + 60)
    }
}

/// When a problem is attempted again after the outcome `now`, where it was `earlier` before it and `last` was
/// the last notice.
fn retry_with(
    subject: &Subject<'_>,
    began: u64,
    now: Outcome,
    last: Option<Last>,
    earlier: Retry,
) -> Retry
    requires began { began ≤ last_moment }
    requires now { IsInRange now }
    requires last { IfSome last IsLastInRange }
    ensures value { (history : List Outcome)
        → retry_moment subject.now.config.now subject.now.zone.now subject.now.object.now earlier
        ≡ ready subject.now.config.now subject.now.zone.now subject.now.object.now began history
        → last ≡ last_notice history
        → retry_moment subject.now.config.now subject.now.zone.now subject.now.object.now result
        ≡ ready subject.now.config.now subject.now.zone.now subject.now.object.now began (now ∷
        history) }
    ensures in_range { IsRetryInRange earlier → IsRetryInRange result }
{
    match now {
        Outcome::Sent {
            kind: Kind::Problem,
            moment,
            gap,
            reach,
            ..
        } => Retry::At(after_notice(moment, gap, reach)),
        Outcome::Suppressed {
            kind: Kind::Problem,
            moment,
            filter,
            ..
        } => retry_after(subject, began, last, moment, filter),
        _ => earlier,
    }
}

/// When a problem is attempted again, by the last attempt as a problem among these outcomes.
fn last_retry(subject: &Subject<'_>, began: u64, history: &[Outcome]) -> Retry
    requires began { began ≤ last_moment }
    requires in_range { All IsInRange history.now }
    ensures value { retry_moment subject.now.config.now subject.now.zone.now subject.now.object.now
        result
        ≡ ready subject.now.config.now subject.now.zone.now subject.now.object.now began
        (reverse history.now) }
    ensures in_range { IsRetryInRange result }
{
    let mut retry = Retry::At(None);
    let mut last = None;
    for outcome in history {
        retry = retry_with(subject, began, *outcome, last, retry);
        last = notice_of(*outcome).or(last);
    }
    retry
}

/// When the clock next attempts a problem, by its last attempt as a problem, in seconds since the epoch;
/// none is never. After an attempt outside the object's period it goes over the seconds until it holds.
pub(crate) fn ready(
    alloc: Global,
    subject: &Subject<'_>,
    began: u64,
    history: &[Outcome],
) -> Result<Option<u64>, AllocError>
    requires began { began ≤ last_moment }
    requires in_range { All IsInRange history.now }
    ensures { IfOk result (λ moment. moment
        ≡ ready subject.now.config.now subject.now.zone.now subject.now.object.now began
        (reverse history.now)) }
{
    match last_retry(subject, began, history) {
        Retry::At(moment) => Ok(moment),
        Retry::InPeriod(moment) => next_in(
            alloc,
            subject.config,
            subject.zone,
            subject.object.period,
            moment,
        ),
    }
}

/// The outcomes of the problem that runs at an event, or ends there, from before that event, where `problem`
/// has those of the last problem before it.
pub(crate) fn before<'a>(
    object: ObjectId,
    event: &Event,
    past: &[Event],
    problem: &'a [Outcome],
) -> &'a [Outcome]
    ensures value { (history : List Outcome)
        → reverse problem.now ≡ of_problem object.0 (reverse past.now) history
        → reverse result.now ≡ before object.0 event.now (reverse past.now) history }
    ensures in_range { All IsInRange problem.now → All IsInRange result.now }
    ensures few { length result.now ≤ length problem.now }
{
    if begins(object, event.kind, hard(object, past)) {
        &[]
    } else {
        problem
    }
}
