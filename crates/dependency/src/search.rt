//! The walk through the entries that an object's chains reach.

ghost use Rattle.std.specs.Prelude.{◌≡◌, ◌≤◌, ◌<◌, [], ◌∷◌, cond, false, length, IfOk};
ghost use Rattle.std.specs.List.{list_any};
ghost use Rattle.graph.specs.Reach.{Gains};
ghost use Rattle.due_model.specs.claims.Accepted.{IsAccepted};
ghost use Rattle.due_model.specs.ByObject.{entries_of};
ghost use Rattle.due_model.specs.claims.Dependencies.{dependency_fails, fails_at};
ghost use Rattle.due_model.specs.claims.Limits.{last_moment};
ghost use Rattle.dependency.specs.Entry.{fails_by, masters_of, state_of};
ghost use Rattle.time_period.specs.claims.Days.{AreCompiled};

use due_model::config::{Config, Dependency, ObjectId};
use due_model::state::State;
use graph::reach::Reach;
use std::alloc::{AllocError, Global};
use std::marker::Model;
use time_period::compiled::{Compiled, is_in_period};
use zone_times::clock::ZoneClock;

/// What is found on the way along the chains of one object's dependencies, for one question after another. It takes 8
/// bytes an object. Contracts see for how many objects it is.
#[derive(Drop)]
pub struct Search {
    reach: Reach,
}

impl Model for Search {
    ghost use Rattle.std.specs.Prelude.{ℕ};

    ghost Value = { ℕ };

    ghost view = { λ s. s.reach.nodes };
}

impl Search {
    /// A search for the objects of a configuration. Want of memory is the only error and leaves nothing.
    pub fn new(alloc: Global, config: &Config) -> Result<Self, AllocError>
        requires { IsAccepted config.now }
        ensures { IfOk result (λ search. search ≡ length config.now.objects) }
    {
        Ok(Search {
            reach: Reach::new(alloc, config.objects.len() as u32)?,
        })
    }

    /// Whether a dependency of the object fails at a moment, in seconds since the epoch (chapter "Host and Service
    /// Dependencies"): `states` has each object's last hard state, and `periods` each period of the configuration as it
    /// is worked out. It looks only at entries that the object's chains reach, at each at most once, and takes no
    /// memory. An object that depends on nothing is answered at once; so is one that the configuration doesn't have.
    pub fn fails(
        &mut self,
        config: &Config,
        states: &[State],
        periods: &[Compiled],
        zone: &ZoneClock<'_>,
        t: u64,
        object: ObjectId,
    ) -> bool
        requires accepted { IsAccepted config.now }
        requires objects { self.old ≡ length config.now.objects }
        requires states { length states.now ≡ self.old }
        requires compiled { AreCompiled config.now periods.now }
        requires moment { t ≤ last_moment }
        ensures unchanged { self.new ≡ self.old }
        ensures fails { result
            ≡ dependency_fails config.now zone.now (state_of states.now) t object.0 }
    {
        if config.dependencies.of(object).is_empty() {
            return false;
        }
        self.reach.begin();
        self.reach.find(u32::from(object.0));
        let mut turn = 0;
        while turn < self.reach.found().len() {
            let next = ObjectId(self.reach.found()[turn] as u16);
            if follow(&mut self.reach, config, states, periods, zone, t, next) {
                return true;
            }
            turn += 1;
        }
        false
    }
}

/// Finds the masters to which the object's entries lead on, up to the first entry that fails by its own master's state.
/// Whether there is one.
fn follow(
    reach: &mut Reach,
    config: &Config,
    states: &[State],
    periods: &[Compiled],
    zone: &ZoneClock<'_>,
    t: u64,
    object: ObjectId,
) -> bool
    requires accepted { IsAccepted config.now }
    requires objects { reach.old.nodes ≡ length config.now.objects }
    requires states { length states.now ≡ reach.old.nodes }
    requires compiled { AreCompiled config.now periods.now }
    requires moment { t ≤ last_moment }
    ensures nodes { reach.new.nodes ≡ reach.old.nodes }
    ensures gains { result ≡ false → Gains reach.old.found
        (masters_of config.now zone.now t (entries_of config.now.dependencies object.0))
        reach.new.found }
    ensures fails { result ≡ list_any (fails_by config.now zone.now (state_of states.now) t)
        (entries_of config.now.dependencies object.0) }
{
    for entry in config.dependencies.of(object) {
        if is_in_period(periods, entry.period, zone, t)
            && look(reach, entry, states, config.choices.dep_pending)
        {
            return true;
        }
    }
    false
}

/// Finds the master of a valid entry, if it leads on. Whether the entry fails by the master's own state; `daemons` is whether
/// a pending master counts as one that is UP or OK.
fn look(reach: &mut Reach, entry: &Dependency, states: &[State], daemons: bool) -> bool
    requires within { entry.now.master.0 < reach.old.nodes }
    requires states { length states.now ≡ reach.old.nodes }
    ensures nodes { reach.new.nodes ≡ reach.old.nodes }
    ensures gains { Gains reach.old.found
        (cond entry.now.inherits (entry.now.master.0 ∷ []) []) reach.new.found }
    ensures fails { result
        ≡ fails_at daemons entry.now.states (state_of states.now entry.now.master.0) }
{
    if entry.inherits {
        reach.find(u32::from(entry.master.0));
    }
    entry
        .states
        .fails_at(daemons, states[usize::from(entry.master.0)])
}
