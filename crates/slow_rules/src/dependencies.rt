//! Whether a dependency fails (chapter "Host and Service Dependencies").

ghost use Rattle.std.specs.Prelude.{◌≡◌, ℕ, ◌<◌, ◌≤◌, All, IfOk, false, length};
ghost use Rattle.due_model.specs.claims.Accepted.{IsAccepted};
ghost use Rattle.due_model.specs.declared.zone.Zone.{Zone};
ghost use Rattle.due_model.specs.claims.Dependencies.{dependency_fails};
ghost use Rattle.due_model.specs.claims.Limits.{last_moment};
ghost use Rattle.slow_rules.specs.Flags.{flag_at};
ghost use Rattle.slow_rules.specs.Rounds.{AreObjectFlags, ArePeriodsAt, entry_flag, object_flag};
ghost use Rattle.slow_rules.specs.Rounds.{state_of};

use crate::flags::{flag_at, or_into};
use crate::periods::{flags_at, is_open};
use due_model::config::{Config, Dependency, ObjectId};
use due_model::state::State;
use due_model::zone::Zone;
use std::alloc::{AllocError, Global};

/// Whether a dependency of the object fails at a moment, in seconds since the epoch: `states` has each object's last
/// hard state by its number, and an object beyond them is pending. An object that the configuration doesn't have has no
/// dependencies. The work grows with the square of how many entries there are, and with that of the periods as
/// `in_period` has it. Want of memory is the only error, and leaves nothing.
pub fn dependency_fails(
    alloc: Global,
    config: &Config,
    zone: &Zone,
    states: &[State],
    t: u64,
    object: ObjectId,
) -> Result<bool, AllocError>
    requires accepted { IsAccepted config.now }
    requires moment { t ≤ last_moment }
    ensures { IfOk result (λ fails. fails
        ≡ dependency_fails config.now zone.now (state_of states.now) t object.0) }
{
    let periods = flags_at(alloc, config, zone, t)?;
    let flags = rounds(alloc, config, periods.as_slice(), states)?;
    Ok(flag_at(flags.as_slice(), object.0))
}

/// A flag for each object: whether one of its entries fails. Each round lets chains have one entry more.
fn rounds(
    alloc: Global,
    config: &Config,
    periods: &[bool],
    states: &[State],
) -> Result<Vec<bool>, AllocError>
    requires { IsAccepted config.now }
    ensures { IfOk result (λ flags. (zone : Zone) (t : ℕ)
        → ArePeriodsAt config.now zone t periods.now
        → AreObjectFlags (length config.now.dependencies) config.now zone (state_of states.now) t
        flags.items) }
{
    let mut flags = Vec::new(alloc);
    for _round in 0..config.dependencies.len() {
        let next = round(alloc, config, periods, states, flags.as_slice())?;
        flags = next;
    }
    Ok(flags)
}

/// The flags of the next round.
fn round(
    alloc: Global,
    config: &Config,
    periods: &[bool],
    states: &[State],
    before: &[bool],
) -> Result<Vec<bool>, AllocError>
    requires { IsAccepted config.now }
    ensures { IfOk result (λ flags. (o : ℕ) → flag_at flags.items o
        ≡ object_flag config.now.choices.dep_pending periods.now states.now before.now
        config.now.dependencies o) }
{
    let mut flags = vec![in alloc; false; config.objects.len()]?;
    let entries = config.dependencies.as_slice();
    add_entries(
        flags.as_mut_slice(),
        entries,
        config.choices.dep_pending,
        periods,
        states,
        before,
    );
    Ok(flags)
}

/// Sets the flag of each object of which one of these entries fails.
fn add_entries(
    flags: &mut [bool],
    entries: &[Dependency],
    daemons: bool,
    periods: &[bool],
    states: &[State],
    before: &[bool],
)
    requires { All (λ entry. entry.dependent.0 < length flags.old) entries.now }
    ensures { (o : ℕ) → flag_at flags.old o ≡ false
        → flag_at flags.new o
        ≡ object_flag daemons periods.now states.now before.now entries.now o }
{
    for entry in entries {
        let fails = entry_flag(entry, daemons, periods, states, before);
        or_into(flags, entry.dependent.0, fails);
    }
}

/// Whether an entry fails: its period holds, and the state of its master is one of its states, or it inherits and
/// an entry of its master failed in the round before. `daemons` is whether a pending master counts as one that is UP or OK.
fn entry_flag(
    entry: &Dependency,
    daemons: bool,
    periods: &[bool],
    states: &[State],
    before: &[bool],
) -> bool
    ensures { result ≡ entry_flag daemons periods.now states.now before.now entry.now }
{
    is_open(periods, entry.period)
        && (entry
            .states
            .fails_at(daemons, state_of(states, entry.master))
            || entry.inherits && flag_at(before, entry.master.0))
}

/// The state of this object; pending, if there is none.
fn state_of(states: &[State], object: ObjectId) -> State
    ensures { result ≡ state_of states.now object.0 }
{
    match states.get(usize::from(object.0)) {
        Some(state) => *state,
        None => State::Pending,
    }
}
