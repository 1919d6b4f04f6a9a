//! The first block that lies on a loop of dependencies.

ghost use Rattle.std.specs.Prelude.{◌≡◌, IfNone, IfOk, IfSome};
ghost use Rattle.object_dependencies.specs.Loops.{HasNoDependencyLoop, IsFirstLooped};
ghost use Rattle.object_groups.specs.declared.groups.GroupKind.TheVariants.{HostGroups};

use crate::apart::are_apart;
use crate::rules::rules_of;
use object_dependencies::blocks::DependencyBlocks;
use object_groups::groups::Groups;
use object_service_groups::groups::ServiceGroups;
use std::alloc::{AllocError, Global};

/// The place of the first block, in file order, that lies on a loop of dependencies, if there is one: by it one object
/// depends on another, from which a chain of dependencies leads back to the first. `hosts` are the host groups and
/// `groups` the service groups of the same blocks. The time and the memory grow with those of `rules_of`, and not with
/// the dependencies; there is no limit of these. Over 4,294,967,295 blocks or nodes are want of memory, and where a loop is
/// sought so are as many of both, each node counted twice. A refused growth changes nothing.
pub fn loop_of<'a>(
    alloc: Global,
    blocks: &DependencyBlocks<'a, '_>,
    hosts: &mut Groups<'a>,
    groups: &mut ServiceGroups<'a>,
) -> Result<Option<usize>, AllocError>
    requires hosts { hosts.old ≡ record { blocks = blocks.now.blocks; kind = HostGroups } }
    requires groups { groups.old ≡ blocks.now.blocks }
    ensures same_hosts { hosts.new ≡ hosts.old }
    ensures same_groups { groups.new ≡ groups.old }
    ensures first { IfOk result (λ found.
        IfSome found (IsFirstLooped blocks.now.blocks blocks.now.lists)) }
    ensures no_loop { IfOk result (λ found.
        IfNone found (HasNoDependencyLoop blocks.now.blocks blocks.now.lists)) }
{
    let rules = rules_of(alloc, blocks, hosts, groups)?;
    if rules.dependents.is_empty() {
        return Ok(None);
    }
    let apart = are_apart(alloc, &rules)?;
    if apart {
        return Ok(None);
    }
    match rules.first_looped(alloc)? {
        None => Ok(None),
        Some(rule) => Ok(Some(rule as usize)),
    }
}
