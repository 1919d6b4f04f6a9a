//! The dependents and masters of one block.

ghost use Rattle.std.specs.Prelude.{◌≡◌, ◌-◌, ◌^◌, [], length, min};
ghost use Rattle.object_dependencies.specs.Pairs.{paired};

use std::alloc::Global;
use std::marker::Model;

/// The dependents and masters of a block, both by their numbers. Contracts see the pairs that they make: for each
/// dependent, in order, one with each master, in order. It takes 8 bytes for each of them, and none for the pairs.
#[derive(Drop)]
pub struct Sides {
    dependents: Vec<usize>,
    masters: Vec<usize>,
}

impl Model for Sides {
    ghost use Rattle.std.specs.Prelude.{List};
    ghost use Rattle.object_dependencies.specs.claims.Pairs.{Pair};
    ghost use Rattle.object_dependencies.specs.Pairs.{paired};

    ghost Value = { List Pair };

    ghost view = { λ s. paired s.dependents.items s.masters.items };
}

impl Sides {
    /// Those of a block that gives no pair.
    pub fn none(alloc: Global) -> Sides
        ensures { result ≡ [] }
    {
        Sides {
            dependents: Vec::new(alloc),
            masters: Vec::new(alloc),
        }
    }

    /// These dependents and masters.
    pub fn new(dependents: Vec<usize>, masters: Vec<usize>) -> Sides
        ensures { result ≡ paired dependents.items masters.items }
    {
        Sides {
            dependents,
            masters,
        }
    }

    /// The dependents and the masters.
    pub fn both(&self) -> (&[usize], &[usize])
        ensures { self.now ≡ paired result.0.now result.1.now }
    {
        (self.dependents.as_slice(), self.masters.as_slice())
    }

    /// How many pairs they make; `usize::MAX` where there are more.
    pub fn count(&self) -> usize
        ensures { result ≡ min (length self.now) (2 ^ 64 - 1) }
    {
        self.dependents.len().saturating_mul(self.masters.len())
    }
}
