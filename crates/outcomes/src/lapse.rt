//! Whether what becomes of an attempt ends the wait after the last notice.

ghost use Rattle.std.specs.Prelude.{◌≡◌, ◌≤◌, ◌<◌, ◌==◌, ◌&&◌, ◌||◌, not};
ghost use Rattle.std.specs.Prelude.{is_some, length, nat_lt, slice_get, Some};
ghost use Rattle.due_model.specs.declared.config.Object.{Object};
ghost use Rattle.due_model.specs.claims.Histories.{is_by_switch, lapses, stop_lapses};
ghost use Rattle.due_model.specs.claims.Limits.{last_moment};
ghost use Rattle.due_model.specs.claims.Periods.{in_period};
ghost use Rattle.due_model.specs.claims.Rules.{is_problem, is_recovery};
ghost use Rattle.outcomes.specs.Outcome.{IsInRange, Lapses};
ghost use Rattle.outcomes.specs.Rules.{AreRules};

use crate::found::Found;
use crate::rules::Rules;
use due_model::config::{Choices, Object, ObjectId};
use due_model::notice::{Filter, Kind, Outcome};
use problem_count::Book;
use time_period::compiled::is_in_period;

/// The book within an event, told whether what becomes of the event ends the wait.
pub(crate) fn lapsed(
    rules: &Rules<'_>,
    object: ObjectId,
    found: &Found,
    outcome: Outcome,
    book: Book,
) -> Book
    requires rules { AreRules rules.now }
    requires object { object.0 < length rules.now.config.now.objects }
    requires range { IsInRange outcome }
    ensures state { result.state ≡ book.state }
    ensures sent { result.sent ≡ book.sent }
    ensures fits { Lapses rules.now object.0 found.now outcome book result }
{
    let mut told = book;
    told.lapse(lapses(rules, object, found, outcome));
    told
}

/// Whether this outcome of an object ends the wait.
fn lapses(rules: &Rules<'_>, object: ObjectId, found: &Found, outcome: Outcome) -> bool
    requires rules { AreRules rules.now }
    requires object { object.0 < length rules.now.config.now.objects }
    requires range { IsInRange outcome }
    ensures { (settings : Object)
        → slice_get rules.now.config.now.objects object.0 ≡ Some settings
        → result ≡ lapses rules.now.config.now rules.now.zone.now settings
        (nat_lt 0 found.now.after.depth || found.now.host_down) found.now.host_problem outcome }
{
    match outcome {
        Outcome::Suppressed {
            kind,
            moment,
            filter,
            ..
        } => {
            let settings = &rules.config.objects.as_slice()[usize::from(object.0)];
            stop_lapses(rules, settings, found, kind, moment, filter)
        }
        _ => false,
    }
}

/// Whether an attempt that this filter stopped ends the wait of an object with these settings.
fn stop_lapses(
    rules: &Rules<'_>,
    settings: &Object,
    found: &Found,
    kind: Kind,
    moment: u64,
    filter: Filter,
) -> bool
    requires rules { AreRules rules.now }
    requires moment { moment ≤ last_moment }
    ensures { result ≡ stop_lapses rules.now.config.now rules.now.zone.now settings.now
        (nat_lt 0 found.now.after.depth || found.now.host_down) found.now.host_problem kind
        moment filter }
{
    let choices = rules.config.choices;
    let held = is_held(kind, found.host_problem);
    let outside = is_outside(rules, settings, kind, moment, filter);
    let left = is_left(choices, outside);
    let down = is_down(found);
    let paused = is_paused(choices, settings, kind, down);
    is_ended(held, left, paused)
}

/// Whether the host's problem holds back what is a problem.
fn is_held(kind: Kind, host_problem: bool) -> bool
    ensures { result ≡ (is_problem kind && host_problem) }
{
    kind.is_problem() && host_problem
}

/// Whether a problem outside the period ends the wait.
fn is_left(choices: Choices, outside: bool) -> bool
    ensures { result ≡ (choices.period_wait && outside) }
{
    choices.period_wait && outside
}

/// Whether the object, or a service's host, is in downtime.
fn is_down(found: &Found) -> bool
    ensures { result ≡ (nat_lt 0 found.now.after.depth || found.now.host_down) }
{
    0 < found.after.depth || found.host_down
}

/// Whether downtime ends the wait.
fn is_paused(choices: Choices, settings: &Object, kind: Kind, down: bool) -> bool
    ensures { result ≡ (choices.downtime_wait && (not (is_recovery kind)
        && (is_some settings.now.host && (settings.now.interval == 0 && down)))) }
{
    choices.downtime_wait
        && (!kind.is_recovery() && (settings.host.is_some() && (settings.interval == 0 && down)))
}

/// Whether one of the two ends it, and nothing holds it back.
fn is_ended(held: bool, left: bool, paused: bool) -> bool
    ensures { result ≡ (not held && (left || paused)) }
{
    !held && (left || paused)
}

/// Whether this is a problem, outside the object's period, and the program switch is on.
fn is_outside(rules: &Rules<'_>, settings: &Object, kind: Kind, moment: u64, filter: Filter) -> bool
    requires rules { AreRules rules.now }
    requires moment { moment ≤ last_moment }
    ensures { result ≡ (is_problem kind && (not (is_by_switch filter)
        && not (in_period rules.now.config.now rules.now.zone.now settings.now.period moment))) }
{
    kind.is_problem()
        && (!is_by_switch(filter)
            && !is_in_period(rules.periods, settings.period, rules.zone, moment))
}

/// Whether the program switch stopped it.
fn is_by_switch(filter: Filter) -> bool
    ensures { result ≡ is_by_switch filter }
{
    matches!(filter, Filter::Program)
}
