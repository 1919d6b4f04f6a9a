//! What an event finds of an object.

ghost use Rattle.std.specs.Prelude.{◌≡◌, ◌∷◌, ◌<◌, ◌≤◌, ◌&&◌, ℕ, List, Some, length, slice_get};
ghost use Rattle.due_model.specs.declared.config.Config.{Config};
ghost use Rattle.due_model.specs.declared.config.Object.{Object};
ghost use Rattle.due_model.specs.declared.event.Event.{Event};
ghost use Rattle.due_model.specs.claims.Accepted.{IsAccepted};
ghost use Rattle.due_model.specs.claims.Dependencies.{dependency_fails};
ghost use Rattle.due_model.specs.claims.Histories.{depends_at, host_holds, repeats};
ghost use Rattle.due_model.specs.claims.Limits.{last_moment, max_events};
ghost use Rattle.due_model.specs.claims.Readings.{is_problem_state};
ghost use Rattle.due_model.specs.claims.Rules.{same_state};
ghost use Rattle.dependency.specs.Entry.{state_of};
ghost use Rattle.outcomes.specs.Found.{IsFound, is_host_down};
ghost use Rattle.time_period.specs.claims.Days.{AreCompiled};
ghost use Rattle.decider.specs.Events.{IsAt, values};
ghost use Rattle.decider.specs.Found.{depends_by, host_depends, is_host_problem, names};
ghost use Rattle.decider.specs.claims.Statuses.{StatusesFit, status_at};

use crate::reading::Reading;
use crate::statuses::{Statuses, hard_by, status_by};
use dependency::search::Search;
use due_model::config::{Choices, ObjectId};
use due_model::rules::same_state;
use due_model::state::State;
use outcomes::found::Found;

/// What the event finds of an object. It takes no memory.
pub(crate) fn find(
    reading: &Reading<'_>,
    dependencies: &mut Search,
    statuses: &mut Statuses,
    object: ObjectId,
) -> Found
    requires at { (e : Event) × (past : List Event)
        × IsAt (values reading.now dependencies.old statuses.old) e past }
    requires object { object.0 < length reading.now.rules.config.now.objects }
    ensures dependencies { dependencies.new ≡ dependencies.old }
    ensures statuses { statuses.new ≡ statuses.old }
    ensures found { (e : Event) (past : List Event) (settings : Object)
        → IsAt (values reading.now dependencies.old statuses.old) e past
        → slice_get reading.now.rules.config.now.objects object.0 ≡ Some settings
        → IsFound reading.now.rules.config.now reading.now.rules.zone.now object.0 settings
        e past result }
{
    let context = reading.context;
    let before = statuses.at(object);
    let after = status_by(before, context.kind, object);
    let host_down = is_host_down(reading, statuses, object);
    let host_problem = host_holds(reading, statuses, object);
    let repeats = is_object(repeated(reading, statuses), object);
    Found {
        event: context.kind,
        moment: context.moment,
        program: context.program,
        before,
        after,
        host_down,
        depends: depends(reading, dependencies, statuses, object),
        host_problem,
        repeats,
    }
}

/// The host whose problem an event attempts again, if one runs: by the daemon's rule, that of a service that has a problem
/// state, the same as before.
pub(crate) fn repeated(reading: &Reading<'_>, statuses: &Statuses) -> Option<ObjectId>
    requires at { (e : Event) × (past : List Event) × (searched : ℕ)
        × IsAt (values reading.now searched statuses.now) e past }
    ensures { (e : Event) (past : List Event) (searched o : ℕ)
        → IsAt (values reading.now searched statuses.now) e past
        → repeats reading.now.rules.config.now o e.kind past ≡ names result o }
{
    match hard_by(reading.context.kind) {
        Some((service, state)) => repeated_by(reading, statuses, service, state),
        None => None,
    }
}

/// The host whose problem the hard state of a service attempts again, if one runs.
fn repeated_by(
    reading: &Reading<'_>,
    statuses: &Statuses,
    service: ObjectId,
    state: State,
) -> Option<ObjectId>
    requires object { service.0 < length reading.now.rules.config.now.objects }
    requires states { length statuses.now.states ≡ length reading.now.rules.config.now.objects }
    ensures { (settings : Object) (o : ℕ)
        → slice_get reading.now.rules.config.now.objects service.0 ≡ Some settings
        → (reading.now.rules.config.now.choices.host_repeats && names settings.host o
        && is_problem_state state && same_state state (status_at statuses.now service.0).state)
        ≡ names result o }
{
    if is_repeated(
        reading.rules.config.choices,
        statuses.at(service).state,
        state,
    ) {
        reading.rules.config.objects.as_slice()[usize::from(service.0)].host
    } else {
        None
    }
}

/// Whether a service's hard state is a problem, the same as before, and that counts.
fn is_repeated(choices: Choices, before: State, state: State) -> bool
    ensures { result ≡ (choices.host_repeats && (is_problem_state state && same_state state before)) }
{
    choices.host_repeats && (state.is_problem() && same_state(state, before))
}

/// Whether it is this object.
fn is_object(found: Option<ObjectId>, object: ObjectId) -> bool
    ensures { result ≡ names found object.0 }
{
    match found {
        Some(host) => host.0 == object.0,
        None => false,
    }
}

/// Whether the host of a service isn't UP, the event counted, where that holds notices back.
fn host_holds(reading: &Reading<'_>, statuses: &Statuses, object: ObjectId) -> bool
    requires accepted { IsAccepted reading.now.rules.config.now }
    requires fit { (past : List Event) × (length past ≤ max_events)
        × StatusesFit (length reading.now.rules.config.now.objects) past statuses.now }
    requires object { object.0 < length reading.now.rules.config.now.objects }
    ensures { (e : Event) (past : List Event) (settings : Object)
        → StatusesFit (length reading.now.rules.config.now.objects) past statuses.now
        → reading.now.context.kind ≡ e.kind
        → slice_get reading.now.rules.config.now.objects object.0 ≡ Some settings
        → result ≡ host_holds reading.now.rules.config.now settings (e ∷ past) }
{
    let problem = is_host_problem(reading, statuses, object);
    reading.rules.config.choices.host_down && problem
}

/// Whether the host of a service isn't UP, the event counted; of a host it is false.
fn is_host_problem(reading: &Reading<'_>, statuses: &Statuses, object: ObjectId) -> bool
    requires accepted { IsAccepted reading.now.rules.config.now }
    requires fit { (past : List Event) × (length past ≤ max_events)
        × StatusesFit (length reading.now.rules.config.now.objects) past statuses.now }
    requires object { object.0 < length reading.now.rules.config.now.objects }
    ensures { (e : Event) (past : List Event) (settings : Object)
        → StatusesFit (length reading.now.rules.config.now.objects) past statuses.now
        → reading.now.context.kind ≡ e.kind
        → slice_get reading.now.rules.config.now.objects object.0 ≡ Some settings
        → result ≡ is_host_problem settings.host (e ∷ past) }
{
    match reading.rules.config.objects.as_slice()[usize::from(object.0)].host {
        Some(host) => reading
            .context
            .kind
            .hard_after(host, statuses.at(host).state)
            .is_problem(),
        None => false,
    }
}

/// Whether the host of a service is in downtime, the event counted; of a host it is false (chapter "Scheduled
/// Downtime").
fn is_host_down(reading: &Reading<'_>, statuses: &Statuses, object: ObjectId) -> bool
    requires accepted { IsAccepted reading.now.rules.config.now }
    requires fit { (past : List Event) × (length past ≤ max_events)
        × StatusesFit (length reading.now.rules.config.now.objects) past statuses.now }
    requires object { object.0 < length reading.now.rules.config.now.objects }
    ensures { (e : Event) (past : List Event) (settings : Object)
        → StatusesFit (length reading.now.rules.config.now.objects) past statuses.now
        → reading.now.context.kind ≡ e.kind
        → slice_get reading.now.rules.config.now.objects object.0 ≡ Some settings
        → result ≡ is_host_down settings.host (e ∷ past) }
{
    match reading.rules.config.objects.as_slice()[usize::from(object.0)].host {
        Some(host) => 0 < status_by(statuses.at(host), reading.context.kind, host).depth,
        None => false,
    }
}

/// Whether a notification dependency of the object fails, or of a service's host where that counts, the event counted
/// (chapter "Host and Service Dependencies").
fn depends(
    reading: &Reading<'_>,
    dependencies: &mut Search,
    statuses: &mut Statuses,
    object: ObjectId,
) -> bool
    requires at { (e : Event) × (past : List Event)
        × IsAt (values reading.now dependencies.old statuses.old) e past }
    requires object { object.0 < length reading.now.rules.config.now.objects }
    ensures dependencies { dependencies.new ≡ dependencies.old }
    ensures statuses { statuses.new ≡ statuses.old }
    ensures fails { (e : Event) (past : List Event) (settings : Object)
        → IsAt (values reading.now dependencies.old statuses.old) e past
        → slice_get reading.now.rules.config.now.objects object.0 ≡ Some settings
        → result ≡ depends_at reading.now.rules.config.now reading.now.rules.zone.now object.0
        settings e past }
{
    match hard_by(reading.context.kind) {
        Some((named, state)) => {
            let before = statuses.replace_state(named, state);
            let fails = depends_now(reading, dependencies, statuses, object);
            statuses.replace_state(named, before);
            fails
        }
        None => depends_now(reading, dependencies, statuses, object),
    }
}

/// Whether a notification dependency of the object fails by these statuses, or of a service's host where that counts.
fn depends_now(
    reading: &Reading<'_>,
    dependencies: &mut Search,
    statuses: &Statuses,
    object: ObjectId,
) -> bool
    requires accepted { IsAccepted reading.now.rules.config.now }
    requires compiled { AreCompiled reading.now.rules.config.now reading.now.rules.periods.now }
    requires objects { dependencies.old ≡ length reading.now.rules.config.now.objects }
    requires states { length statuses.now.states ≡ dependencies.old }
    requires moment { reading.now.context.moment ≤ last_moment }
    requires object { object.0 < length reading.now.rules.config.now.objects }
    ensures unchanged { dependencies.new ≡ dependencies.old }
    ensures fails { (settings : Object)
        → slice_get reading.now.rules.config.now.objects object.0 ≡ Some settings
        → result ≡ depends_by reading.now.rules.config.now reading.now.rules.zone.now
        (state_of statuses.now.states) reading.now.context.moment object.0 settings.host }
{
    let own = fails_now(reading, dependencies, statuses, object);
    let hosts = host_depends(reading, dependencies, statuses, object);
    own || hosts
}

/// Whether a notification dependency of a service's host fails by these statuses, where that counts.
fn host_depends(
    reading: &Reading<'_>,
    dependencies: &mut Search,
    statuses: &Statuses,
    object: ObjectId,
) -> bool
    requires accepted { IsAccepted reading.now.rules.config.now }
    requires compiled { AreCompiled reading.now.rules.config.now reading.now.rules.periods.now }
    requires objects { dependencies.old ≡ length reading.now.rules.config.now.objects }
    requires states { length statuses.now.states ≡ dependencies.old }
    requires moment { reading.now.context.moment ≤ last_moment }
    requires object { object.0 < length reading.now.rules.config.now.objects }
    ensures unchanged { dependencies.new ≡ dependencies.old }
    ensures fails { (settings : Object)
        → slice_get reading.now.rules.config.now.objects object.0 ≡ Some settings
        → result ≡ host_depends reading.now.rules.config.now reading.now.rules.zone.now
        (state_of statuses.now.states) reading.now.context.moment settings.host }
{
    if !reading.rules.config.choices.host_dep {
        return false;
    }
    match reading.rules.config.objects.as_slice()[usize::from(object.0)].host {
        Some(host) => fails_now(reading, dependencies, statuses, host),
        None => false,
    }
}

/// Whether a notification dependency of the object fails by these statuses.
fn fails_now(
    reading: &Reading<'_>,
    dependencies: &mut Search,
    statuses: &Statuses,
    object: ObjectId,
) -> bool
    requires accepted { IsAccepted reading.now.rules.config.now }
    requires compiled { AreCompiled reading.now.rules.config.now reading.now.rules.periods.now }
    requires objects { dependencies.old ≡ length reading.now.rules.config.now.objects }
    requires states { length statuses.now.states ≡ dependencies.old }
    requires moment { reading.now.context.moment ≤ last_moment }
    ensures unchanged { dependencies.new ≡ dependencies.old }
    ensures fails { result
        ≡ dependency_fails reading.now.rules.config.now reading.now.rules.zone.now
        (state_of statuses.now.states) reading.now.context.moment object.0 }
{
    dependencies.fails(
        reading.rules.config,
        statuses.states(),
        reading.rules.periods,
        reading.rules.zone,
        reading.context.moment,
        object,
    )
}
