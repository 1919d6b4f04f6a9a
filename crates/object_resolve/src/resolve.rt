//! The configuration that blocks mean, or the first block with a fault (chapters "Object Definitions" and "Object
//! Inheritance").

ghost use Rattle.std.specs.Prelude.{◌≡◌, ◌⊎◌, IfErr, IfOk, OnOk};
ghost use Rattle.object_faults.specs.claims.Faults as values;
ghost use Rattle.object_inheritance.specs.claims.Faults as templates_claims;
ghost use Rattle.object_inheritance.specs.Faults as templates;
ghost use Rattle.object_periods.specs.claims.Loops.{IsLoopedAt};
ghost use Rattle.object_resolve.specs.Fault.{IsAmong};
ghost use Rattle.object_resolve.specs.claims.First.{IsNowhere};
ghost use Rattle.object_resolve.specs.claims.Limits.{AreWithin};
ghost use Rattle.object_resolve.specs.Limits.{AreCounts};
ghost use Rattle.object_resolve.specs.claims.Names.{IsMisnamed};
ghost use Rattle.object_resolve.specs.claims.Resolve.{IsDependencyLooped, IsFirstLooped, IsMistemplated};
ghost use Rattle.object_resolve.specs.claims.Resolve.{IsMisvalued};
ghost use Rattle.object_resolve.specs.claims.Resolve.{IsFitting, IsRefusal, IsResolved, IsUnfit};
ghost use Rattle.object_resolve.specs.Tables.{AreTables};

use crate::config::config_of;
use crate::fault::of_place;
use crate::limits::{Counts, check_limits};
use crate::names::check_names;
use crate::tables::Tables;
use due_model::config::{Choices, Config};
use object_faults::check::check;
use object_faults::load_fault::{BlockFault, LoadFault};
use object_inheritance::templates::Templates;
use object_names::named::{NamedKind, NamedObjects};
use object_periods::loops::loop_of;
use object_reader::block::Block;
use object_services::blocks::ServiceBlocks;
use std::alloc::Global;

/// The templates of the blocks, where neither their templates nor their values have a fault.
fn check_values(alloc: Global, blocks: &[Block]) -> Result<Templates, LoadFault>
    ensures blocks { IfOk result (λ made. made ≡ blocks.now) }
    ensures templates { OnOk result (templates_claims.AreFree blocks.now) }
    ensures values { OnOk result (values.AreFree blocks.now) }
    ensures fault { IfErr result (IsAmong (λ line fault. IsMistemplated blocks.now line fault
        ⊎ (templates_claims.AreFree blocks.now × IsMisvalued blocks.now line fault))) }
{
    let templates = Templates::new(alloc, blocks)?;
    check(alloc, &templates)?;
    Ok(templates)
}

/// Finds the first block that is a time period on a loop of exclusions.
fn check_loops<'a>(
    alloc: Global,
    templates: &Templates<'a>,
    tables: &Tables<'a, '_>,
) -> Result<(), LoadFault>
    requires { AreTables templates.now tables.now }
    ensures none { OnOk result (IsNowhere (IsLoopedAt templates.now)) }
    ensures fault { IfErr result (IsAmong (IsFirstLooped templates.now)) }
{
    let periods = tables.objects.objects(NamedKind::TimePeriod);
    match loop_of(alloc, templates, periods)? {
        Some(place) => Err(of_place(templates.blocks(), place, BlockFault::PeriodLoop)),
        None => Ok(()),
    }
}

/// Finds the first block that doesn't fit the others. Where all do, gives what is known of them.
fn check_all<'a>(
    alloc: Global,
    templates: &Templates<'a>,
    tables: &mut Tables<'a, '_>,
) -> Result<Counts<'a>, LoadFault>
    requires { AreTables templates.now tables.old }
    ensures same { tables.new ≡ tables.old }
    ensures named { OnOk result (IsNowhere (IsMisnamed templates.now)) }
    ensures no_loop { OnOk result (IsNowhere (IsLoopedAt templates.now)) }
    ensures no_dependency_loop { OnOk result (IsNowhere (IsDependencyLooped templates.now)) }
    ensures within { OnOk result (AreWithin templates.now) }
    ensures counts { IfOk result (AreCounts templates.now) }
    ensures fault { IfErr result (IsAmong (IsUnfit templates.now)) }
{
    check_names(alloc, templates, tables)?;
    check_loops(alloc, templates, tables)?;
    check_limits(alloc, templates, tables)
}

/// The configuration of blocks that have no fault by themselves, or the first that doesn't fit the others, where
/// `tables` are theirs.
fn resolve_tables<'a>(
    alloc: Global,
    choices: Choices,
    templates: &Templates<'a>,
    tables: &mut Tables<'a, '_>,
) -> Result<Config, LoadFault>
    requires { AreTables templates.now tables.old }
    ensures config { IfOk result (IsFitting templates.now) }
    ensures choices { IfOk result (λ config. config.choices ≡ choices) }
    ensures fault { IfErr result (IsAmong (IsUnfit templates.now)) }
{
    let counts = check_all(alloc, templates, tables)?;
    Ok(config_of(alloc, choices, templates, tables, &counts)?)
}

/// The same, where the objects and the service blocks are theirs.
fn resolve_objects<'a>(
    alloc: Global,
    choices: Choices,
    templates: &Templates<'a>,
    objects: &NamedObjects<'a>,
    services: &ServiceBlocks<'a>,
) -> Result<Config, LoadFault>
    requires objects { objects.now ≡ templates.now }
    requires services { services.now ≡ templates.now }
    ensures config { IfOk result (IsFitting templates.now) }
    ensures choices { IfOk result (λ config. config.choices ≡ choices) }
    ensures fault { IfErr result (IsAmong (IsUnfit templates.now)) }
{
    let mut tables = Tables::new(alloc, templates, objects, services)?;
    resolve_tables(alloc, choices, templates, &mut tables)
}

/// The same, where they are yet to be found.
fn resolve_all(alloc: Global, choices: Choices, templates: &Templates) -> Result<Config, LoadFault>
    ensures config { IfOk result (IsFitting templates.now) }
    ensures choices { IfOk result (λ config. config.choices ≡ choices) }
    ensures fault { IfErr result (IsAmong (IsUnfit templates.now)) }
{
    let objects = NamedObjects::new(alloc, templates)?;
    let services = ServiceBlocks::new(alloc, templates)?;
    resolve_objects(alloc, choices, templates, &objects, &services)
}

/// The configuration that the blocks give by these choices, or the first fault: first of templates, then of the values of each
/// block, then of names, of loops of exclusions, of loops of dependencies and of limits; each over all blocks in file
/// order. Out of memory says nothing of the blocks. The work grows with the bytes of the blocks, what they inherit, and
/// the services, contacts, escalations and dependencies that they give.
pub(crate) fn resolve(
    alloc: Global,
    choices: Choices,
    blocks: &[Block],
) -> Result<Config, LoadFault>
    ensures resolved { IfOk result (IsResolved blocks.now) }
    ensures choices { IfOk result (λ config. config.choices ≡ choices) }
    ensures refusal { IfErr result (IsAmong (IsRefusal blocks.now)) }
{
    let templates = check_values(alloc, blocks)?;
    resolve_all(alloc, choices, &templates)
}
