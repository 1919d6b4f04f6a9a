//! How many objects, escalations, dependencies, contacts, lanes and time periods blocks may give.

ghost use Rattle.std.specs.Prelude.{◌≡◌, ◌≤◌, length, slice_get, sum_by};
ghost use Rattle.std.specs.Prelude.{IfErr, IfNone, IfOk, None, OnOk, Some};
ghost use Rattle.std.specs.Option.{option_and_then};
ghost use Rattle.due_model.specs.claims.Limits.{max_dependencies, max_escalations, max_lanes};
ghost use Rattle.object_contacts.specs.claims.Lanes.{AreLanes, IsLane};
ghost use Rattle.object_dependencies.specs.claims.Pairs.{ArePairsBelow};
ghost use Rattle.object_escalations.specs.Escalated as escalated;
ghost use Rattle.object_escalations.specs.claims.Escalated.{AreEscalated};
ghost use Rattle.object_groups.specs.claims.Objects.{objects_in};
ghost use Rattle.object_reader.specs.declared.block.BlockKind.TheVariants.{Service};
ghost use Rattle.object_groups.specs.claims.First.{IsFirst};
ghost use Rattle.object_groups.specs.First.{lower};
ghost use Rattle.object_resolve.specs.Fault.{IsAmong};
ghost use Rattle.object_resolve.specs.claims.First.{IsNowhere};
ghost use Rattle.object_resolve.specs.claims.Limits.{AreFewOthers, AreWithin};
ghost use Rattle.object_resolve.specs.Limits.{AreCounted, AreCounts};
ghost use Rattle.object_resolve.specs.claims.Limits.{PassesOther, PassesRest};
ghost use Rattle.object_resolve.specs.claims.Resolve.{IsDependencyLooped, IsFirstOver, IsLoopedOrOver};
ghost use Rattle.object_resolve.specs.Tables.{AreServices, AreTables};
ghost use Rattle.object_services.specs.Limits as counted;
ghost use Rattle.object_services.specs.claims.Limits.{AreHostLists};

use crate::dependencies::{check_dependency_loops, pairs_in};
use crate::fault::of_place;
use crate::tables::{Tables, groups_in, place_of};
use due_model::limits::{MAX_CONTACTS, MAX_LANES, MAX_PERIODS};
use object_contacts::lanes::lanes_of;
use object_dependencies::pairs::DependencyPairs;
use object_escalations::escalated::EscalatedObjects;
use object_escalations::laws::one_block_passes;
use object_faults::load_fault::{BlockFault, LoadFault};
use object_groups::first::lower;
use object_groups::objects::Objects;
use object_inheritance::templates::Templates;
use object_names::named::{NamedKind, NamedObjects};
use object_reached::reached::services_of;
use object_reached::services::HostServices;
use object_reader::block::Block;
use object_service_groups::groups::ServiceGroups;
use object_services::laws::one_place_passes;
use object_services::services::{LimitFault, ServiceHosts};
use std::alloc::{AllocError, Global};

/// What is known of blocks that keep within the limits.
#[derive(Drop)]
pub(crate) struct Counts<'a> {
    /// The hosts of each service block.
    pub(crate) hosts: ServiceHosts,
    /// The services, and those of each host.
    pub(crate) services: HostServices<'a>,
    /// The objects of which each escalation block speaks.
    pub(crate) escalated: EscalatedObjects,
    /// The dependents and masters of each dependency block.
    pub(crate) pairs: DependencyPairs,
    /// The commands of the lanes, by their numbers.
    pub(crate) lanes: Vec<usize>,
}

/// The place of the command of the first lane that is one too many.
fn lane_over(commands: &Objects, lanes: &[usize]) -> Option<usize>
    ensures { result
        ≡ option_and_then (slice_get (objects_in commands.now.blocks commands.now.kind))
        (slice_get lanes.now max_lanes) }
{
    match lanes.get(MAX_LANES) {
        Some(command) => place_of(commands, *command),
        None => None,
    }
}

/// The place of the first block with which there are too many contacts, time periods or lanes.
fn first_other(objects: &NamedObjects, lanes: &[usize]) -> Option<usize>
    requires { AreLanes (IsLane objects.now) lanes.now }
    ensures first { IsFirst (PassesOther objects.now) result }
    ensures few { IfNone result (AreFewOthers objects.now) }
{
    let contact = place_of(objects.objects(NamedKind::Contact), MAX_CONTACTS);
    let period = place_of(objects.objects(NamedKind::TimePeriod), MAX_PERIODS);
    let lane = lane_over(objects.objects(NamedKind::Command), lanes);
    lower(contact, lower(period, lane))
}

/// The commands of the lanes, by their numbers.
fn lanes_in<'a>(
    alloc: Global,
    templates: &Templates<'a>,
    objects: &NamedObjects<'a>,
) -> Result<Vec<usize>, AllocError>
    requires { objects.now ≡ templates.now }
    ensures { IfOk result (λ lanes. AreLanes (IsLane templates.now) lanes.items) }
{
    let contacts = objects.objects(NamedKind::Contact);
    let commands = objects.objects(NamedKind::Command);
    lanes_of(alloc, templates, contacts, commands)
}

/// The lower of a place and another that may be there.
fn least(place: usize, other: Option<usize>) -> usize
    ensures { Some result ≡ lower (Some place) other }
{
    match other {
        Some(other) if other < place => other,
        _ => place,
    }
}

/// The fault of the first block that passes a limit, where the objects pass theirs: `other` is the first place
/// that passes another. There no loop of dependencies is looked for.
fn over(blocks: &[Block], fault: LimitFault, other: Option<usize>) -> LoadFault
    requires refused { counted.IsRefusal blocks.now fault }
    requires other { IsFirst (PassesOther blocks.now) other }
    ensures { IsAmong (IsLoopedOrOver blocks.now) result }
{
    one_place_passes();
    match fault {
        LimitFault::NoMemory => LoadFault::NoMemory,
        LimitFault::TooMany { place, line: _ } => {
            of_place(blocks, least(place, other), BlockFault::TooMany)
        }
    }
}

/// The objects of which each escalation block speaks, where `groups` are the service groups, `hosts` the hosts of each
/// service block and `services` the services.
fn escalated_in<'a>(
    alloc: Global,
    templates: &Templates<'a>,
    tables: &mut Tables<'a, '_>,
    groups: &mut ServiceGroups<'a>,
    hosts: &ServiceHosts,
    services: &HostServices<'a>,
) -> Result<EscalatedObjects, LimitFault>
    requires tables { AreTables templates.now tables.old }
    requires groups { groups.old ≡ templates.now }
    requires hosts { AreHostLists templates.now (objects_in templates.now Service) hosts.now }
    requires services { AreServices templates.now hosts.now services.now }
    ensures same { tables.new ≡ tables.old }
    ensures same_groups { groups.new ≡ groups.old }
    ensures objects { IfOk result (AreEscalated templates.now hosts.now
        (length templates.now)) }
    ensures few { IfOk result (λ made. sum_by length made ≤ max_escalations) }
    ensures fault { IfErr result (escalated.IsRefusal templates.now hosts.now) }
{
    EscalatedObjects::new(alloc, templates, services, hosts, &mut tables.hosts, groups)
}

/// The fault of the first block that passes a limit, where the objects keep within theirs and the escalations pass
/// theirs: `rest` is the first place that passes another.
fn over_escalations(
    blocks: &[Block],
    hosts: &ServiceHosts,
    fault: LimitFault,
    rest: Option<usize>,
) -> LoadFault
    requires counted { AreCounted blocks.now hosts.now }
    requires refused { escalated.IsRefusal blocks.now hosts.now fault }
    requires rest { IsFirst (PassesRest blocks.now) rest }
    ensures { IsAmong (IsFirstOver blocks.now) result }
{
    one_block_passes();
    match fault {
        LimitFault::NoMemory => LoadFault::NoMemory,
        LimitFault::TooMany { place, line: _ } => {
            of_place(blocks, least(place, rest), BlockFault::TooMany)
        }
    }
}

/// The fault of the first block that passes a limit, where the objects keep within theirs and `rest` is the first place
/// that passes another than that of the escalations.
fn over_rest<'a>(
    alloc: Global,
    templates: &Templates<'a>,
    tables: &mut Tables<'a, '_>,
    groups: &mut ServiceGroups<'a>,
    hosts: &ServiceHosts,
    services: &HostServices<'a>,
    rest: usize,
) -> LoadFault
    requires tables { AreTables templates.now tables.old }
    requires groups { groups.old ≡ templates.now }
    requires counted { AreCounted templates.now hosts.now }
    requires services { AreServices templates.now hosts.now services.now }
    requires rest { IsFirst (PassesRest templates.now) (Some rest) }
    ensures same { tables.new ≡ tables.old }
    ensures same_groups { groups.new ≡ groups.old }
    ensures fault { IsAmong (IsFirstOver templates.now) result }
{
    one_block_passes();
    let escalated = escalated_in(alloc, templates, tables, groups, hosts, services);
    let blocks = templates.blocks();
    match escalated {
        Err(fault) => over_escalations(blocks, hosts, fault, Some(rest)),
        Ok(_) => of_place(blocks, rest, BlockFault::TooMany),
    }
}

/// What is known of the blocks, where the objects, the dependencies and the others keep within their limits: `groups` are
/// the service groups, `hosts` the hosts of each service block, `services` the services, `pairs` the dependents and
/// masters of each block, and `lanes` the commands of the lanes. Refused is the first block with which there are too
/// many escalations.
fn counts_with<'a>(
    alloc: Global,
    templates: &Templates<'a>,
    tables: &mut Tables<'a, '_>,
    groups: &mut ServiceGroups<'a>,
    hosts: ServiceHosts,
    services: HostServices<'a>,
    pairs: DependencyPairs,
    lanes: Vec<usize>,
) -> Result<Counts<'a>, LoadFault>
    requires tables { AreTables templates.now tables.old }
    requires groups { groups.old ≡ templates.now }
    requires counted { AreCounted templates.now hosts }
    requires services { AreServices templates.now hosts services }
    requires lanes { AreLanes (IsLane templates.now) lanes.items }
    requires pairs { ArePairsBelow templates.now hosts (length templates.now) pairs }
    requires few_pairs { sum_by length pairs ≤ max_dependencies }
    requires rest { IsFirst (PassesRest templates.now) None }
    requires others { AreFewOthers templates.now }
    ensures same { tables.new ≡ tables.old }
    ensures same_groups { groups.new ≡ groups.old }
    ensures within { OnOk result (AreWithin templates.now) }
    ensures counts { IfOk result (AreCounts templates.now) }
    ensures fault { IfErr result (IsAmong (IsFirstOver templates.now)) }
{
    let escalated = escalated_in(alloc, templates, tables, groups, &hosts, &services);
    match escalated {
        Err(fault) => Err(over_escalations(templates.blocks(), &hosts, fault, None)),
        Ok(escalated) => Ok(Counts {
            hosts,
            services,
            escalated,
            pairs,
            lanes,
        }),
    }
}

/// What is known of the blocks, where the objects keep within their limit: `groups` are the service groups, `hosts` the
/// hosts of each service block, `services` the services, `lanes` the commands of the lanes, and `other` the first place
/// with which there are too many of the others. Refused is the first block that passes a limit.
fn counts_of<'a>(
    alloc: Global,
    templates: &Templates<'a>,
    tables: &mut Tables<'a, '_>,
    groups: &mut ServiceGroups<'a>,
    hosts: ServiceHosts,
    services: HostServices<'a>,
    lanes: Vec<usize>,
    other: Option<usize>,
) -> Result<Counts<'a>, LoadFault>
    requires tables { AreTables templates.now tables.old }
    requires groups { groups.old ≡ templates.now }
    requires counted { AreCounted templates.now hosts }
    requires services { AreServices templates.now hosts services }
    requires lanes { AreLanes (IsLane templates.now) lanes.items }
    requires other { IsFirst (PassesOther templates.now) other }
    requires others { IfNone other (AreFewOthers templates.now) }
    ensures same { tables.new ≡ tables.old }
    ensures same_groups { groups.new ≡ groups.old }
    ensures within { OnOk result (AreWithin templates.now) }
    ensures counts { IfOk result (AreCounts templates.now) }
    ensures fault { IfErr result (IsAmong (IsFirstOver templates.now)) }
{
    match pairs_in(alloc, templates, tables, groups, &hosts, &services) {
        Err(fault) => match fault {
            LimitFault::NoMemory => Err(LoadFault::NoMemory),
            LimitFault::TooMany { place, line: _ } => {
                let rest = least(place, other);
                Err(over_rest(alloc, templates, tables, groups, &hosts, &services, rest))
            }
        },
        Ok(pairs) => match other {
            Some(rest) => Err(over_rest(alloc, templates, tables, groups, &hosts, &services, rest)),
            None => counts_with(
                alloc, templates, tables, groups, hosts, services, pairs, lanes,
            ),
        },
    }
}

/// Finds the first block that lies on a loop of dependencies, and then the first that passes a limit, where the objects
/// keep within theirs; as `counts_of`.
fn check_counted<'a>(
    alloc: Global,
    templates: &Templates<'a>,
    tables: &mut Tables<'a, '_>,
    hosts: ServiceHosts,
    lanes: Vec<usize>,
    other: Option<usize>,
) -> Result<Counts<'a>, LoadFault>
    requires tables { AreTables templates.now tables.old }
    requires counted { AreCounted templates.now hosts }
    requires lanes { AreLanes (IsLane templates.now) lanes.items }
    requires other { IsFirst (PassesOther templates.now) other }
    requires others { IfNone other (AreFewOthers templates.now) }
    ensures same { tables.new ≡ tables.old }
    ensures no_loop { OnOk result (IsNowhere (IsDependencyLooped templates.now)) }
    ensures within { OnOk result (AreWithin templates.now) }
    ensures counts { IfOk result (AreCounts templates.now) }
    ensures fault { IfErr result (IsAmong (IsLoopedOrOver templates.now)) }
{
    let services = services_of(alloc, tables.services, &hosts, &tables.hosts)?;
    let mut groups = groups_in(alloc, templates, tables, &hosts)?;
    check_dependency_loops(alloc, templates, tables, &mut groups, &hosts, &services)?;
    counts_of(
        alloc,
        templates,
        tables,
        &mut groups,
        hosts,
        services,
        lanes,
        other,
    )
}

/// Finds the first block that lies on a loop of dependencies, and then the first that passes a limit. Where none does,
/// gives what is known of the blocks.
pub(crate) fn check_limits<'a>(
    alloc: Global,
    templates: &Templates<'a>,
    tables: &mut Tables<'a, '_>,
) -> Result<Counts<'a>, LoadFault>
    requires { AreTables templates.now tables.old }
    ensures same { tables.new ≡ tables.old }
    ensures no_loop { OnOk result (IsNowhere (IsDependencyLooped templates.now)) }
    ensures within { OnOk result (AreWithin templates.now) }
    ensures counts { IfOk result (AreCounts templates.now) }
    ensures fault { IfErr result (IsAmong (IsLoopedOrOver templates.now)) }
{
    let lanes = lanes_in(alloc, templates, tables.objects)?;
    let other = first_other(tables.objects, lanes.as_slice());
    let hosts = ServiceHosts::new(alloc, tables.services, &mut tables.hosts);
    match hosts {
        Err(fault) => Err(over(templates.blocks(), fault, other)),
        Ok(hosts) => check_counted(alloc, templates, tables, hosts, lanes, other),
    }
}
