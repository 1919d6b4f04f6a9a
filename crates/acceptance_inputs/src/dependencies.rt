//! Notification dependencies that tests are run on.

ghost use Rattle.std.specs.Prelude.{◌≡◌, length, IfOk, None};
ghost use Rattle.due_model.specs.claims.Objects.{object_id};

use crate::rows::{ObjectRow, objects_of};
use due_model::config::{Dependency, ObjectId};
use due_model::objects::Objects;
use due_model::state::{State, StateSet};
use std::alloc::{AllocError, Global};

/// The criteria `n`.
pub const ON_NONE: StateSet = StateSet {
    pending: false,
    up: false,
    down: false,
    unreachable: false,
    fine: false,
    warning: false,
    unknown: false,
    critical: false,
};

/// The criteria `c`.
pub const ON_CRITICAL: StateSet = StateSet {
    critical: true,
    ..ON_NONE
};

/// Each object's state, a moment, an object, and whether a dependency of it fails then.
pub type Question<'a> = (&'a [State], u64, u16, bool);

/// Of the worked examples: web, C, B and A, of which A depends on B and B on C; C and A are CRITICAL.
pub const WORKED: [State; 4] = [
    State::Pending,
    State::Critical,
    State::Pending,
    State::Critical,
];

/// An entry of object `dependent` on object `master`, valid at every moment.
pub fn entry(dependent: u16, master: u16, inherits: bool, states: StateSet) -> Dependency
    ensures { result ≡ record {
      dependent = object_id dependent;
      master = object_id master;
      inherits = inherits;
      states = states;
      period = None;
    } }
{
    Dependency {
        dependent: ObjectId(dependent),
        master: ObjectId(master),
        inherits,
        states,
        period: None,
    }
}

/// So many hosts, of one name.
pub fn hosts(alloc: Global, count: u16) -> Result<Objects, AllocError>
    ensures { IfOk result (λ objects. length objects ≡ count) }
{
    let rows = vec![in alloc; ObjectRow::PLAIN; usize::from(count)]?;
    objects_of(alloc, rows.as_slice())
}
