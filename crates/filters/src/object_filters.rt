//! The filters of an object.

ghost use Rattle.std.specs.Prelude.{◌≡◌, ◌+◌, ◌*◌, ◌≤◌, ◌==◌, ◌&&◌, not};
ghost use Rattle.std.specs.Prelude.{nat_lt, IfSome};
ghost use Rattle.std.specs.Result.{result_err};
ghost use Rattle.due_model.specs.declared.config.Config.{Config};
ghost use Rattle.due_model.specs.claims.Limits.{last_moment, max_number};
ghost use Rattle.due_model.specs.claims.Rules.{asks_options, failing_by, first_failing, has_letter, in_daemons_order};
ghost use Rattle.due_model.specs.claims.Rules.{in_own_order, is_too_soon, letter_of};
ghost use Rattle.due_model.specs.claims.Rules.{is_problem, is_recovery, is_told_in_downtime, is_of_problem};
ghost use Rattle.time_period.specs.claims.Days.{AreCompiled};
ghost use Rattle.filters.specs.Attempt.{IsLastInRange, plain};

use crate::attempt::Attempt;
use crate::verdict::stop_if;
use due_model::notice::{Filter, Kind};
use due_model::rules::{View, is_too_soon};

/// Tries the filters of an object in their order, or in the daemon's. The error is the first one that fails (chapter
/// "Notifications"). The attempt's letter is that of its kind and state, and numbers are within their limits: a notice's
/// gap is at most 60,000,000 seconds. It takes no memory.
pub fn object_verdict(daemons: bool, view: View, attempt: &Attempt<'_>) -> Result<(), Filter>
    requires moment { attempt.now.moment ≤ last_moment }
    requires letter { attempt.now.letter ≡ letter_of attempt.now.kind attempt.now.state }
    requires began { view.began ≤ last_moment }
    requires delay { view.delay ≤ max_number }
    requires last { IfSome view.last IsLastInRange }
    ensures { (c : Config) → AreCompiled c attempt.now.periods.now
        → result_err result
        ≡ failing_by daemons c attempt.now.zone.now view (plain attempt.now) }
{
    if daemons {
        verdict_in_daemons_order(view, attempt)
    } else {
        verdict_in_own_order(view, attempt)
    }
}

/// Tries the filters of an object in their order.
fn verdict_in_own_order(view: View, attempt: &Attempt<'_>) -> Result<(), Filter>
    requires moment { attempt.now.moment ≤ last_moment }
    requires letter { attempt.now.letter ≡ letter_of attempt.now.kind attempt.now.state }
    requires began { view.began ≤ last_moment }
    requires delay { view.delay ≤ max_number }
    requires last { IfSome view.last IsLastInRange }
    ensures { (c : Config) → AreCompiled c attempt.now.periods.now
        → result_err result
        ≡ first_failing (in_own_order c attempt.now.zone.now view (plain attempt.now)) }
{
    let kind = attempt.kind;
    stop_if(is_switched_off(view), Filter::Program)?;
    stop_if(is_disabled(view), Filter::Disabled)?;
    stop_if(is_down(view, kind), Filter::Downtime)?;
    stop_if(is_flapping(view, kind), Filter::Flapping)?;
    stop_if(lacks_letter(view, attempt), Filter::Options)?;
    stop_if(is_without_problem(view, kind), Filter::NoProblem)?;
    stop_if(attempt.is_outside(view.period), Filter::Period)?;
    stop_if(depends(view, kind), Filter::Dependency)?;
    stop_if(is_acknowledged(view, kind), Filter::Acknowledged)?;
    stop_if(is_within_delay(view, attempt), Filter::FirstDelay)?;
    stop_if(is_within_interval(view, attempt), Filter::Interval)?;
    stop_if(is_held_by_host(view, kind), Filter::HostDown)
}

/// Tries the filters of an object in the daemon's order.
fn verdict_in_daemons_order(view: View, attempt: &Attempt<'_>) -> Result<(), Filter>
    requires moment { attempt.now.moment ≤ last_moment }
    requires letter { attempt.now.letter ≡ letter_of attempt.now.kind attempt.now.state }
    requires began { view.began ≤ last_moment }
    requires delay { view.delay ≤ max_number }
    requires last { IfSome view.last IsLastInRange }
    ensures { (c : Config) → AreCompiled c attempt.now.periods.now
        → result_err result
        ≡ first_failing (in_daemons_order c attempt.now.zone.now view (plain attempt.now)) }
{
    stop_if(is_switched_off(view), Filter::Program)?;
    stop_if(attempt.is_outside(view.period), Filter::Period)?;
    stop_if(is_disabled(view), Filter::Disabled)?;
    stop_if(is_acknowledged(view, attempt.kind), Filter::Acknowledged)?;
    stop_if(depends(view, attempt.kind), Filter::Dependency)?;
    stop_if(lacks_letter(view, attempt), Filter::Options)?;
    stop_if(is_without_problem(view, attempt.kind), Filter::NoProblem)?;
    stop_if(is_within_delay(view, attempt), Filter::FirstDelay)?;
    stop_if(is_flapping(view, attempt.kind), Filter::Flapping)?;
    stop_if(is_down(view, attempt.kind), Filter::Downtime)?;
    stop_if(is_within_interval(view, attempt), Filter::Interval)?;
    stop_if(is_held_by_host(view, attempt.kind), Filter::HostDown)
}

/// The program switch is off.
fn is_switched_off(view: View) -> bool
    ensures { result ≡ not view.program }
{
    !view.program
}

/// The object's notifications are off.
fn is_disabled(view: View) -> bool
    ensures { result ≡ not view.enabled }
{
    !view.enabled
}

/// The object, or a service's host, is in downtime. Downtimes themselves are told, and acknowledgements.
fn is_down(view: View, kind: Kind) -> bool
    ensures { result ≡ (not (is_told_in_downtime kind) && view.down) }
{
    !kind.is_told_in_downtime() && view.down
}

/// The letter isn't among the object's options. Of an acknowledgement that isn't asked.
fn lacks_letter(view: View, attempt: &Attempt<'_>) -> bool
    ensures { result ≡ (asks_options attempt.now.kind && not (has_letter view.options attempt.now.letter)) }
{
    attempt.kind.asks_options() && attempt.lacks_letter(view.options)
}

/// The object is flapping, and this is about a problem.
fn is_flapping(view: View, kind: Kind) -> bool
    ensures { result ≡ (is_of_problem kind && view.flapping) }
{
    kind.is_of_problem() && view.flapping
}

/// A recovery from a problem of which no notice went out.
fn is_without_problem(view: View, kind: Kind) -> bool
    ensures { result ≡ (is_recovery kind && view.sent == 0) }
{
    kind.is_recovery() && view.sent == 0
}

/// A notification dependency fails, and this is about a problem.
fn depends(view: View, kind: Kind) -> bool
    ensures { result ≡ (is_of_problem kind && view.depends) }
{
    kind.is_of_problem() && view.depends
}

/// The host of a service isn't UP, and this is about a problem.
fn is_held_by_host(view: View, kind: Kind) -> bool
    ensures { result ≡ (is_of_problem kind && view.host_problem) }
{
    kind.is_of_problem() && view.host_problem
}

/// The problem is acknowledged. Recoveries are told.
fn is_acknowledged(view: View, kind: Kind) -> bool
    ensures { result ≡ (is_problem kind && view.acknowledged) }
{
    kind.is_problem() && view.acknowledged
}

/// No notice of the problem went out, and the delay since its first event hasn't passed.
fn is_within_delay(view: View, attempt: &Attempt<'_>) -> bool
    requires began { view.began ≤ last_moment }
    requires delay { view.delay ≤ max_number }
    ensures { result ≡ (is_problem attempt.now.kind && view.sent == 0
        && nat_lt attempt.now.moment (view.began + 60 * view.delay)) }
{
    attempt.kind.is_problem()
        && view.sent == 0
        && attempt.moment < view.began + 60 * u64::from(view.delay)
}

/// The last problem notice reported the same state, and its interval is 0 or hasn't passed; never at a hard state of a
/// volatile service.
fn is_within_interval(view: View, attempt: &Attempt<'_>) -> bool
    requires last { IfSome view.last IsLastInRange }
    ensures { result ≡ (is_problem attempt.now.kind && not view.renews
        && is_too_soon view.last attempt.now.state attempt.now.moment) }
{
    attempt.kind.is_problem()
        && !view.renews
        && is_too_soon(view.last, attempt.state, attempt.moment)
}
