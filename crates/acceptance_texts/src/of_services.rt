//! What is asked of the services of a text, and of the groups, escalations and dependencies that speak of them.

ghost use Rattle.std.specs.Prelude.{◌≡◌, ◌≤◌, length};
ghost use Rattle.due_model.specs.claims.Limits.{max_periods};
ghost use Rattle.object_dependencies.specs.claims.Pairs.{ArePairsBelow};
ghost use Rattle.object_groups.specs.declared.groups.GroupKind.TheVariants.{HostGroups};
ghost use Rattle.object_groups.specs.claims.Objects.{objects_in};
ghost use Rattle.object_reader.specs.declared.block.BlockKind.TheVariants.{Service};
ghost use Rattle.object_services.specs.claims.Limits.{AreHostLists};

use crate::shown::{push_numbers, show_place, text_or_mark};
use due_model::config::{Dependency, PeriodId};
use due_model::limits::MAX_PERIODS;
use due_model::state::StateSet;
use object_dependencies::blocks::DependencyBlocks;
use object_dependencies::entries::dependencies_of;
use object_dependencies::pairs::DependencyPairs;
use object_dependency_loops::loops::loop_of;
use object_escalations::escalated::EscalatedObjects;
use object_groups::groups::{GroupKind, Groups};
use object_groups::names::Names;
use object_groups::objects::Objects;
use object_inheritance::templates::Templates;
use object_pairs::members::services_named;
use object_pairs::unknown::first_unknown_member;
use object_reached::reached::services_of;
use object_reader::block::BlockKind;
use object_service_groups::groups::ServiceGroups;
use object_services::blocks::ServiceBlocks;
use object_services::doubled::first_doubled;
use object_services::numbers::ServiceNumbers;
use object_services::services::{LimitFault, ServiceHosts};
use object_values::values::entries;
use std::alloc::{AllocError, Global};
use std::fmt::Write;

/// What is asked.
#[derive(Clone, Copy)]
pub(crate) enum Asked {
    /// The hosts of each service block, a line each.
    Hosts,
    /// The place of the first service group with members that aren't pairs, the number of the first service block that is doubled, how
    /// many hosts each has; of three hosts the places of their services s and t; and those of the members a,s,b,t.
    Services,
    /// The members of all service groups, a line each.
    Groups,
    /// The objects of which each escalation block speaks, or the block that passes the limit.
    Escalated,
    /// The dependencies, or the block that passes the limit.
    Entries,
    /// How many dependencies there are.
    Count,
    /// The place of the first block on a loop.
    Loop,
}

/// Hosts by their names.
fn show_hosts(out: &mut String, hosts: &Groups, found: &[usize]) -> Result<(), AllocError> {
    for host in found {
        out.push_str(text_or_mark(hosts.objects().names().name(*host)))?;
        out.push_str(".")?;
    }
    out.push_str("\n")
}

/// The hosts of the service block at a place.
fn show_hosts_at<'a>(
    alloc: Global,
    out: &mut String,
    services: &ServiceBlocks<'a>,
    hosts: &mut Groups<'a>,
    place: usize,
) -> Result<(), AllocError>
    requires { hosts.old ≡ record { blocks = services.now; kind = HostGroups } }
{
    let found = services.hosts_at(alloc, hosts, place)?;
    show_hosts(out, hosts, found.as_slice())
}

/// The description of the services of the block of that number, and its hosts.
fn show_block<'a>(
    alloc: Global,
    out: &mut String,
    templates: &Templates<'a>,
    services: &ServiceBlocks<'a>,
    number: usize,
    place: usize,
) -> Result<(), AllocError>
    requires { services.now ≡ templates.now }
{
    out.push_str(text_or_mark(services.objects().names().name(number)))?;
    out.push_str(":")?;
    let mut hosts = Groups::new(alloc, templates, GroupKind::HostGroups)?;
    show_hosts_at(alloc, out, services, &mut hosts, place)
}

/// The hosts of each service block, a line each.
fn show_services<'a>(
    alloc: Global,
    out: &mut String,
    templates: &Templates<'a>,
    services: &ServiceBlocks<'a>,
) -> Result<(), AllocError>
    requires { services.now ≡ templates.now }
{
    for (number, place) in services.objects().places().iter().enumerate() {
        show_block(alloc, out, templates, services, number, *place)?;
    }
    Ok(())
}

/// The places of the services with that description: of each of the three hosts, or `-`.
fn show_places<'a>(
    out: &mut String,
    numbers: &ServiceNumbers<'a>,
    description: &'a str,
) -> Result<(), AllocError> {
    for host in 0..3 {
        show_place(out, numbers.find(host, description.as_bytes()))?;
    }
    out.push_str(" ")
}

/// The places of services, and of those that members name.
fn show_numbered<'a>(
    alloc: Global,
    out: &mut String,
    services: &ServiceBlocks<'a>,
    hosts: &Groups<'a>,
    lists: &ServiceHosts,
) -> Result<(), AllocError> {
    let numbers = ServiceNumbers::new(alloc, services.objects().names(), lists)?;
    show_places(out, &numbers, "s")?;
    show_places(out, &numbers, "t")?;
    let members = entries(alloc, b"a,s,b,t")?;
    let named = services_named(alloc, hosts.objects().names(), &numbers, members.as_slice())?;
    push_numbers(out, named.as_slice())
}

/// How many hosts each service block has.
fn show_counts(out: &mut String, lists: &ServiceHosts) -> Result<(), AllocError> {
    for number in 0..lists.len() {
        let count = lists.hosts(number).len();
        write!(out, "{count}.")?;
    }
    out.push_str(" ")
}

/// How many hosts each service block has, or the line at which there are too many objects, and the places of services.
fn show_lists<'a>(
    alloc: Global,
    out: &mut String,
    services: &ServiceBlocks<'a>,
    hosts: &mut Groups<'a>,
) -> Result<(), AllocError>
    requires { hosts.old ≡ record { blocks = services.now; kind = HostGroups } }
{
    match ServiceHosts::new(alloc, services, hosts) {
        Ok(lists) => {
            show_counts(out, &lists)?;
            show_numbered(alloc, out, services, hosts, &lists)
        }
        Err(LimitFault::TooMany { line, .. }) => write!(out, "{line} TooMany"),
        Err(LimitFault::NoMemory) => Err(AllocError),
    }
}

/// The first service group whose members aren't pairs, the first doubled service block, and the rest.
fn show_all<'a>(
    alloc: Global,
    out: &mut String,
    templates: &Templates<'a>,
    services: &ServiceBlocks<'a>,
) -> Result<(), AllocError>
    requires { services.now ≡ templates.now }
{
    let mut hosts = Groups::new(alloc, templates, GroupKind::HostGroups)?;
    let unknown = first_unknown_member(alloc, templates, services, &mut hosts)?;
    show_place(out, unknown)?;
    out.push_str(" ")?;
    let doubled = first_doubled(alloc, services, &mut hosts)?;
    show_place(out, doubled)?;
    out.push_str(" ")?;
    show_lists(alloc, out, services, &mut hosts)
}

/// The name of a group, and the places of its members among the services.
fn show_group(
    alloc: Global,
    out: &mut String,
    groups: &mut ServiceGroups,
    number: usize,
) -> Result<(), AllocError> {
    out.push_str(text_or_mark(groups.groups().names().name(number)))?;
    out.push_str(":")?;
    let members = groups.members(alloc, number)?;
    push_numbers(out, members.as_slice())?;
    out.push_str("\n")
}

/// The members of each service group, a line each.
fn show_groups(
    alloc: Global,
    out: &mut String,
    groups: &mut ServiceGroups,
) -> Result<(), AllocError> {
    for number in 0..groups.groups().names().len() {
        show_group(alloc, out, groups, number)?;
    }
    Ok(())
}

/// The place of each block that speaks of objects, and their numbers.
fn show_objects(out: &mut String, objects: &EscalatedObjects) -> Result<(), AllocError> {
    for place in 0..objects.len() {
        let numbers = objects.objects(place);
        if !numbers.is_empty() {
            write!(out, "{place}:")?;
            push_numbers(out, numbers)?;
        }
    }
    Ok(())
}

/// The letter, where the state is in the set.
fn mark(has: bool, letter: &str) -> &str {
    if has { letter } else { "" }
}

/// The letters of the states, in the order of their declaration.
fn push_states(out: &mut String, states: StateSet) -> Result<(), AllocError> {
    out.push_str(mark(states.pending, "p"))?;
    out.push_str(mark(states.up, "o"))?;
    out.push_str(mark(states.down, "d"))?;
    out.push_str(mark(states.unreachable, "u"))?;
    out.push_str(mark(states.fine, "O"))?;
    out.push_str(mark(states.warning, "W"))?;
    out.push_str(mark(states.unknown, "U"))?;
    out.push_str(mark(states.critical, "C"))
}

/// The number of a period; a dash is always.
fn push_period(out: &mut String, period: Option<PeriodId>) -> Result<(), AllocError> {
    match period {
        Some(period) => write!(out, "{}", period.0),
        None => out.push_str("-"),
    }
}

/// Each dependency: dependent, master, `+` where it inherits, states and period.
fn show_dependencies(out: &mut String, dependencies: &[Dependency]) -> Result<(), AllocError> {
    for entry in dependencies {
        write!(out, "{}>{}", entry.dependent.0, entry.master.0)?;
        out.push_str(mark(entry.inherits, "+"))?;
        out.push_str(" ")?;
        push_states(out, entry.states)?;
        out.push_str(" ")?;
        push_period(out, entry.period)?;
        out.push_str(";")?;
    }
    Ok(())
}

/// The dependencies of the blocks, or how many.
fn show_pairs<'a>(
    alloc: Global,
    out: &mut String,
    templates: &Templates<'a>,
    blocks: &DependencyBlocks<'a, '_>,
    periods: &Names<'a>,
    pairs: &DependencyPairs,
    asked: Asked,
) -> Result<(), AllocError>
    requires blocks { blocks.now.blocks ≡ templates.now }
    requires pairs { ArePairsBelow templates.now blocks.now.lists (length templates.now) pairs.now }
    requires periods { length periods.now ≤ max_periods }
{
    let dependencies = dependencies_of(alloc, templates, blocks, pairs, periods)?;
    match asked {
        Asked::Count => write!(out, "{}", dependencies.len()),
        _ => show_dependencies(out, dependencies.as_slice()),
    }
}

/// The same, or the block that passes the limit.
fn show_entries<'a>(
    alloc: Global,
    out: &mut String,
    templates: &Templates<'a>,
    blocks: &DependencyBlocks<'a, '_>,
    hosts: &mut Groups<'a>,
    groups: &mut ServiceGroups<'a>,
    asked: Asked,
) -> Result<(), AllocError>
    requires blocks { blocks.now.blocks ≡ templates.now }
    requires hosts { hosts.old ≡ record { blocks = templates.now; kind = HostGroups } }
    requires groups { groups.old ≡ templates.now }
{
    let periods = Objects::new(alloc, templates, BlockKind::TimePeriod)?;
    if periods.names().len() > MAX_PERIODS {
        return out.push_str("periods");
    }
    match DependencyPairs::new(alloc, blocks, hosts, groups) {
        Ok(pairs) => show_pairs(
            alloc,
            out,
            templates,
            blocks,
            periods.names(),
            &pairs,
            asked,
        ),
        Err(LimitFault::TooMany { place, line }) => write!(out, "{place} {line} TooMany"),
        Err(LimitFault::NoMemory) => out.push_str("memory"),
    }
}

/// The place of the first block on a loop.
fn show_loop<'a>(
    alloc: Global,
    out: &mut String,
    blocks: &DependencyBlocks<'a, '_>,
    hosts: &mut Groups<'a>,
    groups: &mut ServiceGroups<'a>,
) -> Result<(), AllocError>
    requires hosts { hosts.old ≡ record { blocks = blocks.now.blocks; kind = HostGroups } }
    requires groups { groups.old ≡ blocks.now.blocks }
{
    match loop_of(alloc, blocks, hosts, groups)? {
        Some(place) => write!(out, "{place}"),
        None => out.push_str("-"),
    }
}

/// What is asked of escalations or dependencies, where these are the service blocks, their hosts, the host groups and the service groups.
fn show_asked<'a>(
    alloc: Global,
    out: &mut String,
    templates: &Templates<'a>,
    services: &ServiceBlocks<'a>,
    lists: &ServiceHosts,
    hosts: &mut Groups<'a>,
    groups: &mut ServiceGroups<'a>,
    asked: Asked,
) -> Result<(), AllocError>
    requires services { services.now ≡ templates.now }
    requires lists { AreHostLists templates.now (objects_in templates.now Service) lists.now }
    requires hosts { hosts.old ≡ record { blocks = templates.now; kind = HostGroups } }
    requires groups { groups.old ≡ templates.now }
{
    let table = services_of(alloc, services, lists, hosts)?;
    if let Asked::Escalated = asked {
        return match EscalatedObjects::new(alloc, templates, &table, lists, hosts, groups) {
            Ok(objects) => show_objects(out, &objects),
            Err(LimitFault::TooMany { place, line }) => write!(out, "{place} {line} TooMany"),
            Err(LimitFault::NoMemory) => Err(AllocError),
        };
    }
    let blocks = DependencyBlocks::new(alloc, templates, &table, lists)?;
    match asked {
        Asked::Loop => show_loop(alloc, out, &blocks, hosts, groups),
        asked => show_entries(alloc, out, templates, &blocks, hosts, groups, asked),
    }
}

/// The same, where these are the hosts of the service blocks.
fn show_with_lists<'a>(
    alloc: Global,
    out: &mut String,
    templates: &Templates<'a>,
    services: &ServiceBlocks<'a>,
    lists: &ServiceHosts,
    hosts: &mut Groups<'a>,
    asked: Asked,
) -> Result<(), AllocError>
    requires services { services.now ≡ templates.now }
    requires lists { AreHostLists templates.now (objects_in templates.now Service) lists.now }
    requires hosts { hosts.old ≡ record { blocks = templates.now; kind = HostGroups } }
{
    let names = hosts.objects().names();
    let mut groups = ServiceGroups::new(alloc, templates, services, lists, names)?;
    if let Asked::Groups = asked {
        return show_groups(alloc, out, &mut groups);
    }
    show_asked(
        alloc,
        out,
        templates,
        services,
        lists,
        hosts,
        &mut groups,
        asked,
    )
}

/// The same, where these are the service blocks.
fn show_with_services<'a>(
    alloc: Global,
    out: &mut String,
    templates: &Templates<'a>,
    services: &ServiceBlocks<'a>,
    asked: Asked,
) -> Result<(), AllocError>
    requires { services.now ≡ templates.now }
{
    let mut hosts = Groups::new(alloc, templates, GroupKind::HostGroups)?;
    let Ok(lists) = ServiceHosts::new(alloc, services, &mut hosts) else {
        return out.push_str("too many objects");
    };
    show_with_lists(alloc, out, templates, services, &lists, &mut hosts, asked)
}

/// What is asked of the services of blocks.
pub(crate) fn show_service_blocks<'a>(
    alloc: Global,
    out: &mut String,
    templates: &Templates<'a>,
    asked: Asked,
) -> Result<(), AllocError> {
    let services = ServiceBlocks::new(alloc, templates)?;
    match asked {
        Asked::Hosts => show_services(alloc, out, templates, &services),
        Asked::Services => show_all(alloc, out, templates, &services),
        asked => show_with_services(alloc, out, templates, &services, asked),
    }
}
