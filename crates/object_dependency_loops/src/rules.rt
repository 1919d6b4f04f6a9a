//! The rules of notification dependencies.

ghost use Rattle.std.specs.Prelude.{◌≡◌, [], false, All, IfOk};
ghost use Rattle.std.specs.List.{range_with_len};
ghost use Rattle.object_dependency_loops.specs.Described.{ListsNoGroup};
ghost use Rattle.object_dependency_loops.specs.Places.{AreRulesOf};
ghost use Rattle.object_groups.specs.declared.groups.GroupKind.TheVariants.{HostGroups};
ghost use Rattle.object_reached.specs.declared.roles.Role.TheVariants.{Dependent, Master};
ghost use Rattle.object_reached.specs.claims.Roles.{directives_of};

use crate::base::base_of;
use crate::places::kept_places;
use crate::roles::push_role;
use graph_rules::rules::Rules;
use object_dependencies::blocks::DependencyBlocks;
use object_groups::groups::Groups;
use object_reached::laws::spoken_are_objects;
use object_reached::reached::Reached;
use object_reader::block::BlockKind;
use object_service_groups::groups::ServiceGroups;
use std::alloc::{AllocError, Global};

/// The numbers below a count.
fn numbers_below(alloc: Global, count: u32) -> Result<Vec<u32>, AllocError>
    ensures { IfOk result (λ numbers. numbers.items ≡ range_with_len 0 count) }
{
    let mut numbers = Vec::with_capacity(alloc, count as usize)?;
    for number in 0..count {
        numbers.push(number)?;
    }
    Ok(numbers)
}

/// Whether one of the blocks at the places lists a service group in the role.
fn lists_group(reached: &Reached, places: &[usize]) -> bool
    ensures { result ≡ false
        → All (ListsNoGroup reached.now.blocks (directives_of reached.now.role)) places.now }
{
    let groups = reached.listing().groups();
    for place in places {
        if groups.has_entries(*place) {
            return true;
        }
    }
    false
}

/// Whether one of the blocks at the places lists a service group as master or as dependent.
fn lists_any_group<'a>(blocks: &DependencyBlocks<'a, '_>, places: &[usize]) -> bool
    ensures dependents { result ≡ false
        → All (ListsNoGroup blocks.now.blocks (directives_of Dependent)) places.now }
    ensures masters { result ≡ false
        → All (ListsNoGroup blocks.now.blocks (directives_of Master)) places.now }
{
    if lists_group(blocks.dependents(), places) {
        return true;
    }
    lists_group(blocks.masters(), places)
}

/// Those of blocks among which there is no notification dependency.
fn no_rules(alloc: Global, count: u32) -> Rules
    ensures count { result.count ≡ count }
    ensures dependents { result.dependents.items ≡ [] }
    ensures masters { result.masters.items ≡ [] }
    ensures members { result.members.items ≡ [] }
    ensures objects { result.objects.items ≡ [] }
{
    Rules {
        count,
        nodes: 0,
        objects: Vec::new(alloc),
        members: Vec::new(alloc),
        dependents: Vec::new(alloc),
        masters: Vec::new(alloc),
    }
}

/// The rules that the notification dependencies give, each by the place of its block; `hosts` are the host groups and
/// `groups` the service groups of the same blocks. They take what the graph of host groups takes, and that of service
/// groups where a block lists any of these, and grow with the entries of the blocks' lists, where a list that many
/// blocks have counts once; and, for services that blocks list by hosts and descriptions, with these services, where
/// they count once for all blocks that have the same lists. Over 4,294,967,295 blocks or nodes are want of memory. A
/// refused growth changes nothing.
pub(crate) fn rules_of<'a>(
    alloc: Global,
    blocks: &DependencyBlocks<'a, '_>,
    hosts: &mut Groups<'a>,
    groups: &ServiceGroups<'a>,
) -> Result<Rules, AllocError>
    requires hosts { hosts.old ≡ record { blocks = blocks.now.blocks; kind = HostGroups } }
    requires groups { groups.now ≡ blocks.now.blocks }
    ensures same { hosts.new ≡ hosts.old }
    ensures rules { IfOk result (AreRulesOf blocks.now) }
{
    spoken_are_objects();
    if blocks.blocks().len() > u32::MAX as usize {
        return Err(AllocError);
    }
    let count = blocks.blocks().len() as u32;
    let host_places = kept_places(alloc, blocks, BlockKind::HostDependency)?;
    let service_places = kept_places(alloc, blocks, BlockKind::ServiceDependency)?;
    if host_places.is_empty() && service_places.is_empty() {
        return Ok(no_rules(alloc, count));
    }
    let has_groups = lists_any_group(blocks, service_places.as_slice());
    let base = base_of(alloc, blocks, hosts, groups, has_groups)?;
    let firsts = base.firsts;
    let mut members = base.edges;
    let dependents = push_role(
        alloc,
        &mut members,
        blocks,
        blocks.dependents(),
        hosts,
        groups,
        firsts,
        host_places.as_slice(),
        service_places.as_slice(),
        base.count,
    )?;
    let masters = push_role(
        alloc,
        &mut members,
        blocks,
        blocks.masters(),
        hosts,
        groups,
        firsts,
        host_places.as_slice(),
        service_places.as_slice(),
        dependents.next,
    )?;
    Ok(Rules {
        count,
        nodes: masters.next,
        objects: numbers_below(alloc, firsts.objects)?,
        members,
        dependents: dependents.links,
        masters: masters.links,
    })
}
