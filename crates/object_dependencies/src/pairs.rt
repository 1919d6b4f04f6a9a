//! The pairs of dependents and masters of all blocks, within the limit of dependencies.

ghost use Rattle.std.specs.Prelude.{◌≡◌, ◌≤◌, ◌<◌, ◌++◌, ◌∷◌, [], length};
ghost use Rattle.std.specs.Prelude.{slice_index_or, sum_by};
ghost use Rattle.std.specs.Prelude.{IfErr, IfOk, OnOk};
ghost use Rattle.due_model.specs.claims.Limits.{max_dependencies};
ghost use Rattle.object_dependencies.specs.Limits.{IsRefusal};
ghost use Rattle.object_dependencies.specs.claims.Pairs.{ArePairsBelow};
ghost use Rattle.object_dependencies.specs.Pairs.{paired};
ghost use Rattle.object_groups.specs.declared.groups.GroupKind.TheVariants.{HostGroups};

use crate::blocks::DependencyBlocks;
use crate::sides::Sides;
use due_model::limits::MAX_DEPENDENCIES;
use object_groups::groups::Groups;
use object_service_groups::groups::ServiceGroups;
use object_services::services::LimitFault;
use std::alloc::{AllocError, Global};
use std::marker::Model;

/// Adds the pairs of one block.
fn keep(sides: &mut Vec<Sides>, pairs: Sides) -> Result<(), AllocError>
    ensures { OnOk result (sides.new.items ≡ sides.old.items ++ pairs ∷ []) }
{
    sides.push(pairs)?;
    Ok(())
}

/// The pairs of each block, by their numbers: a dependency is a block, one of its dependents and one of its masters.
/// Contracts see the list of the blocks' pairs. It takes some 48 bytes a block, and 8 for each dependent and each
/// master of a block; pairs take nothing.
#[derive(Drop)]
pub struct DependencyPairs {
    sides: Vec<Sides>,
    /// How many pairs they make in all.
    count: usize,
}

impl Model for DependencyPairs {
    ghost use Rattle.std.specs.Prelude.{◌≡◌, List, length, sum_by};
    ghost use Rattle.object_dependencies.specs.claims.Pairs.{Pair};

    ghost Value = { List (List Pair) };

    ghost view = { λ s. s.sides.items };

    ghost invariant = { λ s. s.count ≡ sum_by length s.sides.items };
}

impl DependencyPairs {
    /// The pairs of all blocks; `hosts` are the host groups and `groups` the service groups of the same blocks. The
    /// blocks are gone through in file order, and the first with which there are too many pairs is refused, before
    /// anything is kept of it. The time grows with that of `pairs_at` for each block up to there. A refusal leaves
    /// the groups as they were.
    pub fn new<'a>(
        alloc: Global,
        blocks: &DependencyBlocks<'a, '_>,
        hosts: &mut Groups<'a>,
        groups: &mut ServiceGroups<'a>,
    ) -> Result<DependencyPairs, LimitFault>
        requires hosts { hosts.old ≡ record { blocks = blocks.now.blocks; kind = HostGroups } }
        requires groups { groups.old ≡ blocks.now.blocks }
        ensures same_hosts { hosts.new ≡ hosts.old }
        ensures same_groups { groups.new ≡ groups.old }
        ensures pairs { IfOk result (ArePairsBelow blocks.now.blocks blocks.now.lists
            (length blocks.now.blocks)) }
        ensures few { IfOk result (λ made. sum_by length made ≤ max_dependencies) }
        ensures fault { IfErr result (IsRefusal blocks.now.blocks blocks.now.lists) }
    {
        let mut sides = Vec::with_capacity(alloc, blocks.blocks().len())?;
        let mut count = 0;
        for (place, block) in blocks.blocks().iter().enumerate() {
            let pairs = blocks.pairs_at(alloc, hosts, groups, place)?;
            let total = pairs.count().saturating_add(count);
            if total > MAX_DEPENDENCIES {
                return Err(LimitFault::TooMany {
                    place,
                    line: block.line,
                });
            }
            keep(&mut sides, pairs)?;
            count = total;
        }
        Ok(DependencyPairs { sides, count })
    }

    /// How many blocks there are.
    pub fn len(&self) -> usize
        ensures { result ≡ length self.now }
    {
        self.sides.len()
    }

    /// How many pairs there are.
    pub fn count(&self) -> usize
        ensures { result ≡ sum_by length self.now }
    {
        self.count
    }

    /// The dependents and the masters of the block at the place.
    pub fn both(&self, place: usize) -> (&[usize], &[usize])
        requires { place < length self.now }
        ensures { slice_index_or self.now place [] ≡ paired result.0.now result.1.now }
    {
        self.sides[place].both()
    }
}
