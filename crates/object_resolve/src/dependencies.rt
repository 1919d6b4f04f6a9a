//! The dependencies of blocks that have no fault by themselves: the first block that lies on a loop of them, and the
//! dependents and masters of each block.

ghost use Rattle.std.specs.Prelude.{◌≡◌, ◌≤◌, length, sum_by, IfErr, IfNone, IfOk, IfSome, OnOk};
ghost use Rattle.due_model.specs.claims.Limits.{max_dependencies};
ghost use Rattle.object_dependencies.specs.Limits as dependent;
ghost use Rattle.object_dependencies.specs.Loops.{HasNoDependencyLoop, IsFirstLooped};
ghost use Rattle.object_dependencies.specs.claims.Pairs.{ArePairsBelow};
ghost use Rattle.object_groups.specs.claims.Objects.{objects_in};
ghost use Rattle.object_reader.specs.declared.block.BlockKind.TheVariants.{Service};
ghost use Rattle.object_resolve.specs.Fault.{IsAmong};
ghost use Rattle.object_resolve.specs.claims.First.{IsNowhere};
ghost use Rattle.object_resolve.specs.claims.Resolve.{IsDependencyLooped, IsFirstDependencyLooped};
ghost use Rattle.object_resolve.specs.Tables.{AreServices, AreTables};
ghost use Rattle.object_services.specs.claims.Limits.{AreHostLists, AreWithinLimit};

use crate::fault::of_place;
use crate::tables::Tables;
use object_dependencies::blocks::DependencyBlocks;
use object_dependencies::pairs::DependencyPairs;
use object_dependency_loops::loops::loop_of;
use object_faults::load_fault::{BlockFault, LoadFault};
use object_inheritance::templates::Templates;
use object_reached::services::HostServices;
use object_service_groups::groups::ServiceGroups;
use object_services::services::{LimitFault, ServiceHosts};
use std::alloc::{AllocError, Global};

/// The dependents and masters of each block, where `groups` are the service groups, `hosts` the hosts of each service
/// block and `services` the services.
pub(crate) fn pairs_in<'a>(
    alloc: Global,
    templates: &Templates<'a>,
    tables: &mut Tables<'a, '_>,
    groups: &mut ServiceGroups<'a>,
    hosts: &ServiceHosts,
    services: &HostServices<'a>,
) -> Result<DependencyPairs, LimitFault>
    requires tables { AreTables templates.now tables.old }
    requires groups { groups.old ≡ templates.now }
    requires hosts { AreHostLists templates.now (objects_in templates.now Service) hosts.now }
    requires services { AreServices templates.now hosts.now services.now }
    ensures same { tables.new ≡ tables.old }
    ensures same_groups { groups.new ≡ groups.old }
    ensures pairs { IfOk result (ArePairsBelow templates.now hosts.now
        (length templates.now)) }
    ensures few { IfOk result (λ made. sum_by length made ≤ max_dependencies) }
    ensures fault { IfErr result (dependent.IsRefusal templates.now hosts.now) }
{
    let blocks = DependencyBlocks::new(alloc, templates, services, hosts)?;
    DependencyPairs::new(alloc, &blocks, &mut tables.hosts, groups)
}

/// The place of the first block that lies on a loop of dependencies, where `groups` are the service groups, `hosts` the
/// hosts of each service block and `services` the services.
fn looped_in<'a>(
    alloc: Global,
    templates: &Templates<'a>,
    tables: &mut Tables<'a, '_>,
    groups: &mut ServiceGroups<'a>,
    hosts: &ServiceHosts,
    services: &HostServices<'a>,
) -> Result<Option<usize>, AllocError>
    requires tables { AreTables templates.now tables.old }
    requires groups { groups.old ≡ templates.now }
    requires hosts { AreHostLists templates.now (objects_in templates.now Service) hosts.now }
    requires services { AreServices templates.now hosts.now services.now }
    ensures same { tables.new ≡ tables.old }
    ensures same_groups { groups.new ≡ groups.old }
    ensures first { IfOk result (λ found.
        IfSome found (IsFirstLooped templates.now hosts.now)) }
    ensures no_loop { IfOk result (λ found.
        IfNone found (HasNoDependencyLoop templates.now hosts.now)) }
{
    let blocks = DependencyBlocks::new(alloc, templates, services, hosts)?;
    loop_of(alloc, &blocks, &mut tables.hosts, groups)
}

/// Finds the first block that lies on a loop of dependencies, where the objects keep within their limit.
pub(crate) fn check_dependency_loops<'a>(
    alloc: Global,
    templates: &Templates<'a>,
    tables: &mut Tables<'a, '_>,
    groups: &mut ServiceGroups<'a>,
    hosts: &ServiceHosts,
    services: &HostServices<'a>,
) -> Result<(), LoadFault>
    requires tables { AreTables templates.now tables.old }
    requires groups { groups.old ≡ templates.now }
    requires hosts { AreHostLists templates.now (objects_in templates.now Service) hosts.now }
    requires services { AreServices templates.now hosts.now services.now }
    requires keeps { AreWithinLimit templates.now }
    ensures same { tables.new ≡ tables.old }
    ensures same_groups { groups.new ≡ groups.old }
    ensures none { OnOk result (IsNowhere (IsDependencyLooped templates.now)) }
    ensures fault { IfErr result (IsAmong (IsFirstDependencyLooped templates.now)) }
{
    match looped_in(alloc, templates, tables, groups, hosts, services)? {
        Some(place) => Err(of_place(templates.blocks(), place, BlockFault::DependencyLoop)),
        None => Ok(()),
    }
}
