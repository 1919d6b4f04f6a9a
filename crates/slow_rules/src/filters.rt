//! The filters of an object and of a contact, tried in their order (chapter "Notifications", "What Filters
//! Must Be Passed In Order For Notifications To Be Sent?").

ghost use Rattle.std.specs.Prelude.{◌≡◌, ◌≤◌, ◌+◌, ◌*◌, ◌==◌, ◌&&◌, nat_lt, not};
ghost use Rattle.std.specs.Prelude.{IfOk, IfSome};
ghost use Rattle.due_model.specs.claims.Limits.{last_moment};
ghost use Rattle.due_model.specs.claims.Rules.{contact_failing, failing, first_failing};
ghost use Rattle.due_model.specs.claims.Rules.{in_daemons_contact_order, in_daemons_order};
ghost use Rattle.due_model.specs.claims.Rules.{in_own_contact_order, in_own_order};
ghost use Rattle.due_model.specs.claims.Rules.{is_problem, is_too_soon, is_untold};
ghost use Rattle.slow_rules.specs.Histories.{IsLastInRange};

use crate::periods::in_period;
use crate::subject::Subject;
use due_model::config::Rights;
use due_model::notice::Filter;
use due_model::options::OptionLetters;
use due_model::rules::{Attempt, View, is_too_soon};
use std::alloc::{AllocError, Global};

/// Whether no notice of the problem went out yet and its first delay hasn't passed.
fn is_within_delay(view: View, attempt: Attempt) -> bool
    requires { view.began ≤ last_moment }
    ensures { result ≡ (is_problem attempt.kind && view.sent == 0
        && nat_lt attempt.moment (view.began + 60 * view.delay)) }
{
    let first_moment = view.began + 60 * u64::from(view.delay);
    attempt.kind.is_problem() && view.sent == 0 && attempt.moment < first_moment
}

/// Whether the last problem notice reported the same state, and its gap is 0 or hasn't passed.
fn is_within_gap(view: View, attempt: Attempt) -> bool
    requires { IfSome view.last IsLastInRange }
    ensures { result ≡ (is_problem attempt.kind && not view.renews
        && is_too_soon view.last attempt.state attempt.moment) }
{
    attempt.kind.is_problem()
        && !view.renews
        && is_too_soon(view.last, attempt.state, attempt.moment)
}

/// The first of an object's filters that fails, by the order that is chosen.
pub(crate) fn failing(
    alloc: Global,
    subject: &Subject<'_>,
    view: View,
    attempt: Attempt,
) -> Result<Option<Filter>, AllocError>
    requires moment { attempt.moment ≤ last_moment }
    requires began { view.began ≤ last_moment }
    requires last { IfSome view.last IsLastInRange }
    ensures { IfOk result (λ filter. filter
        ≡ failing subject.now.config.now subject.now.zone.now view attempt) }
{
    if subject.config.choices.order {
        failing_in_daemons_order(alloc, subject, view, attempt)
    } else {
        failing_in_own_order(alloc, subject, view, attempt)
    }
}

/// The first of an object's filters that fails, in their order.
fn failing_in_own_order(
    alloc: Global,
    subject: &Subject<'_>,
    view: View,
    attempt: Attempt,
) -> Result<Option<Filter>, AllocError>
    requires moment { attempt.moment ≤ last_moment }
    requires began { view.began ≤ last_moment }
    requires last { IfSome view.last IsLastInRange }
    ensures { IfOk result (λ filter. filter ≡ first_failing (in_own_order
        subject.now.config.now subject.now.zone.now view attempt)) }
{
    let kind = attempt.kind;
    if !view.program {
        Ok(Some(Filter::Program))
    } else if !view.enabled {
        Ok(Some(Filter::Disabled))
    } else if !kind.is_told_in_downtime() && view.down {
        Ok(Some(Filter::Downtime))
    } else if kind.is_of_problem() && view.flapping {
        Ok(Some(Filter::Flapping))
    } else if kind.asks_options() && !view.options.contains(kind.letter(attempt.state)) {
        Ok(Some(Filter::Options))
    } else if kind.is_recovery() && view.sent == 0 {
        Ok(Some(Filter::NoProblem))
    } else if !in_period(
        alloc,
        subject.config,
        subject.zone,
        view.period,
        attempt.moment,
    )? {
        Ok(Some(Filter::Period))
    } else if kind.is_of_problem() && view.depends {
        Ok(Some(Filter::Dependency))
    } else if kind.is_problem() && view.acknowledged {
        Ok(Some(Filter::Acknowledged))
    } else if is_within_delay(view, attempt) {
        Ok(Some(Filter::FirstDelay))
    } else if is_within_gap(view, attempt) {
        Ok(Some(Filter::Interval))
    } else if kind.is_of_problem() && view.host_problem {
        Ok(Some(Filter::HostDown))
    } else {
        Ok(None)
    }
}

/// The first of an object's filters that fails, in the daemon's order.
fn failing_in_daemons_order(
    alloc: Global,
    subject: &Subject<'_>,
    view: View,
    attempt: Attempt,
) -> Result<Option<Filter>, AllocError>
    requires moment { attempt.moment ≤ last_moment }
    requires began { view.began ≤ last_moment }
    requires last { IfSome view.last IsLastInRange }
    ensures { IfOk result (λ filter. filter ≡ first_failing (in_daemons_order
        subject.now.config.now subject.now.zone.now view attempt)) }
{
    let kind = attempt.kind;
    if !view.program {
        Ok(Some(Filter::Program))
    } else if !in_period(
        alloc,
        subject.config,
        subject.zone,
        view.period,
        attempt.moment,
    )? {
        Ok(Some(Filter::Period))
    } else if !view.enabled {
        Ok(Some(Filter::Disabled))
    } else if kind.is_problem() && view.acknowledged {
        Ok(Some(Filter::Acknowledged))
    } else if kind.is_of_problem() && view.depends {
        Ok(Some(Filter::Dependency))
    } else if kind.asks_options() && !view.options.contains(kind.letter(attempt.state)) {
        Ok(Some(Filter::Options))
    } else if kind.is_recovery() && view.sent == 0 {
        Ok(Some(Filter::NoProblem))
    } else if is_within_delay(view, attempt) {
        Ok(Some(Filter::FirstDelay))
    } else if kind.is_of_problem() && view.flapping {
        Ok(Some(Filter::Flapping))
    } else if !kind.is_told_in_downtime() && view.down {
        Ok(Some(Filter::Downtime))
    } else if is_within_gap(view, attempt) {
        Ok(Some(Filter::Interval))
    } else if kind.is_of_problem() && view.host_problem {
        Ok(Some(Filter::HostDown))
    } else {
        Ok(None)
    }
}

/// Whether none of these letters is one of the contact's.
fn is_untold(told: Option<OptionLetters>, rights: &Rights) -> bool
    ensures { result ≡ is_untold told rights.now.options }
{
    match told {
        Some(letters) => !letters.meets(rights.options),
        None => false,
    }
}

/// The first of a contact's filters that fails, by the order that is chosen.
pub(crate) fn contact_failing(
    alloc: Global,
    subject: &Subject<'_>,
    rights: &Rights,
    attempt: Attempt,
    told: Option<OptionLetters>,
) -> Result<Option<Filter>, AllocError>
    requires moment { attempt.moment ≤ last_moment }
    ensures { IfOk result (λ filter. filter
        ≡ contact_failing subject.now.config.now subject.now.zone.now rights.now attempt told) }
{
    if subject.config.choices.order {
        contact_failing_in_daemons_order(alloc, subject, rights, attempt, told)
    } else {
        contact_failing_in_own_order(alloc, subject, rights, attempt, told)
    }
}

/// The first of a contact's filters that fails, in their order.
fn contact_failing_in_own_order(
    alloc: Global,
    subject: &Subject<'_>,
    rights: &Rights,
    attempt: Attempt,
    told: Option<OptionLetters>,
) -> Result<Option<Filter>, AllocError>
    requires moment { attempt.moment ≤ last_moment }
    ensures { IfOk result (λ filter. filter ≡ first_failing (in_own_contact_order
        subject.now.config.now subject.now.zone.now rights.now attempt told)) }
{
    if !rights.enabled {
        Ok(Some(Filter::ContactDisabled))
    } else if !rights.options.contains(attempt.kind.letter(attempt.state)) {
        Ok(Some(Filter::ContactOptions))
    } else if !in_period(
        alloc,
        subject.config,
        subject.zone,
        rights.period,
        attempt.moment,
    )? {
        Ok(Some(Filter::ContactPeriod))
    } else if is_untold(told, rights) {
        Ok(Some(Filter::ContactNotTold))
    } else {
        Ok(None)
    }
}

/// The first of a contact's filters that fails, in the daemon's order.
fn contact_failing_in_daemons_order(
    alloc: Global,
    subject: &Subject<'_>,
    rights: &Rights,
    attempt: Attempt,
    told: Option<OptionLetters>,
) -> Result<Option<Filter>, AllocError>
    requires moment { attempt.moment ≤ last_moment }
    ensures { IfOk result (λ filter. filter ≡ first_failing (in_daemons_contact_order
        subject.now.config.now subject.now.zone.now rights.now attempt told)) }
{
    if !rights.enabled {
        Ok(Some(Filter::ContactDisabled))
    } else if !in_period(
        alloc,
        subject.config,
        subject.zone,
        rights.period,
        attempt.moment,
    )? {
        Ok(Some(Filter::ContactPeriod))
    } else if !rights.options.contains(attempt.kind.letter(attempt.state)) {
        Ok(Some(Filter::ContactOptions))
    } else if is_untold(told, rights) {
        Ok(Some(Filter::ContactNotTold))
    } else {
        Ok(None)
    }
}
