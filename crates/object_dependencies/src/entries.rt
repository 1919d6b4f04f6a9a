//! The dependencies of blocks.

ghost use Rattle.std.specs.Prelude.{◌≡◌, ◌≤◌, ◌<◌, ◌++◌, codes, length, map, sum_by};
ghost use Rattle.std.specs.Prelude.{slice_index_or};
ghost use Rattle.std.specs.Prelude.{IfOk, OnOk};
ghost use Rattle.due_model.specs.claims.Limits.{max_periods};
ghost use Rattle.object_dependencies.specs.claims.Entries.{AreDependencies, entries_at, entry_of};
ghost use Rattle.object_dependencies.specs.claims.Entries.{terms_at};
ghost use Rattle.object_dependencies.specs.claims.Pairs.{ArePairsBelow};
ghost use Rattle.object_dependencies.specs.Pairs.{paired};

use crate::blocks::DependencyBlocks;
use crate::pairs::DependencyPairs;
use due_model::config::{Dependency, ObjectId, PeriodId};
use due_model::state::StateSet;
use object_groups::names::Names;
use object_inheritance::inherited::Values;
use object_inheritance::templates::Templates;
use object_listing::readings::{is_on, period_at};
use std::alloc::{AllocError, Global};

/// What all dependencies of one block have in common.
#[derive(Clone, Copy)]
pub(crate) struct Terms {
    /// `inherits_parent`.
    inherits: bool,
    /// `notification_failure_criteria`.
    states: StateSet,
    /// `dependency_period`; none is always.
    period: Option<PeriodId>,
}

/// An object by its number. A number over 65,535 is want of memory.
fn object_id(number: usize) -> Result<ObjectId, AllocError>
    ensures { IfOk result (λ id. id.0 ≡ number) }
{
    if number > u16::MAX as usize {
        return Err(AllocError);
    }
    Ok(ObjectId(number as u16))
}

/// Adds the dependencies of a dependent, one for each master.
fn push_masters(
    dependencies: &mut Vec<Dependency>,
    terms: Terms,
    dependent: usize,
    masters: &[usize],
) -> Result<(), AllocError>
    ensures { OnOk result (dependencies.new.items ≡ dependencies.old.items
        ++ map (entry_of terms) (map (λ master. (dependent, master)) masters.now)) }
{
    let id = object_id(dependent)?;
    for master in masters {
        dependencies.push(Dependency {
            dependent: id,
            master: object_id(*master)?,
            inherits: terms.inherits,
            states: terms.states,
            period: terms.period,
        })?;
    }
    Ok(())
}

/// Adds the dependencies of a block.
fn push_pairs(
    dependencies: &mut Vec<Dependency>,
    terms: Terms,
    dependents: &[usize],
    masters: &[usize],
) -> Result<(), AllocError>
    ensures { OnOk result (dependencies.new.items ≡ dependencies.old.items
        ++ map (entry_of terms) (paired dependents.now masters.now)) }
{
    for dependent in dependents {
        push_masters(dependencies, terms, *dependent, masters)?;
    }
    Ok(())
}

/// What the blocks have for the directives that say how their dependencies are, and the periods' names.
#[derive(Drop)]
struct Columns<'a> {
    inherits: Values<'a>,
    period: Values<'a>,
}

/// What the blocks have for these.
fn columns_of<'a>(alloc: Global, templates: &Templates<'a>) -> Result<Columns<'a>, AllocError>
    ensures inherits { IfOk result (λ columns. columns.inherits
        ≡ record { blocks = templates.now; directive = codes "inherits_parent" }) }
    ensures period { IfOk result (λ columns. columns.period
        ≡ record { blocks = templates.now; directive = codes "dependency_period" }) }
{
    Ok(Columns {
        inherits: Values::new(alloc, templates, "inherits_parent".as_bytes())?,
        period: Values::new(alloc, templates, "dependency_period".as_bytes())?,
    })
}

/// No state.
const NO_STATE: StateSet = StateSet {
    pending: false,
    up: false,
    down: false,
    unreachable: false,
    fine: false,
    warning: false,
    unknown: false,
    critical: false,
};

/// What the dependencies of the block at the place have in common.
fn terms_at<'a>(
    blocks: &DependencyBlocks<'a, '_>,
    columns: &Columns<'a>,
    periods: &Names<'a>,
    place: usize,
) -> Terms
    requires within { place < length blocks.now.blocks }
    requires inherits { columns.now.inherits
        ≡ record { blocks = blocks.now.blocks; directive = codes "inherits_parent" } }
    requires period { columns.now.period
        ≡ record { blocks = blocks.now.blocks; directive = codes "dependency_period" } }
    requires periods { length periods.now ≤ max_periods }
    ensures { result ≡ terms_at blocks.now.blocks periods.now place }
{
    Terms {
        inherits: is_on(&columns.inherits, false, place),
        states: blocks.kept_states(place).unwrap_or(NO_STATE),
        period: period_at(periods, &columns.period, place),
    }
}

/// The dependencies of the blocks, where `pairs` are theirs, and `periods` the names of the periods: one for each pair
/// of a dependent and a master, block by block in file order. The time grows with the blocks, their directives, the
/// templates that they use, and the pairs. An object with a number over 65,535 is want of memory. A refused growth
/// leaves nothing.
pub fn dependencies_of<'a>(
    alloc: Global,
    templates: &Templates<'a>,
    blocks: &DependencyBlocks<'a, '_>,
    pairs: &DependencyPairs,
    periods: &Names<'a>,
) -> Result<Vec<Dependency>, AllocError>
    requires blocks { blocks.now.blocks ≡ templates.now }
    requires pairs { ArePairsBelow templates.now blocks.now.lists (length templates.now) pairs.now }
    requires periods { length periods.now ≤ max_periods }
    ensures dependencies { IfOk result (λ made.
        AreDependencies templates.now blocks.now.lists periods.now made.items) }
    ensures count { IfOk result (λ made. length made.items ≡ sum_by length pairs.now) }
{
    let columns = columns_of(alloc, templates)?;
    let mut dependencies = Vec::with_capacity(alloc, pairs.count())?;
    for place in 0..pairs.len() {
        let terms = terms_at(blocks, &columns, periods, place);
        let (dependents, masters) = pairs.both(place);
        push_pairs(&mut dependencies, terms, dependents, masters)?;
    }
    Ok(dependencies)
}
