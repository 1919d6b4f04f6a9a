//! The hosts of all service blocks, within the limit of objects.

ghost use Rattle.std.specs.Prelude.{◌≡◌, ◌+◌, ◌≤◌, [], length, map, slice_index_or, sum_by};
ghost use Rattle.std.specs.Prelude.{IfErr, IfOk, OnOk, if◌then◌else◌};
ghost use Rattle.due_model.specs.claims.Limits.{max_objects};
ghost use Rattle.object_groups.specs.declared.groups.GroupKind.TheVariants.{HostGroups};
ghost use Rattle.object_groups.specs.claims.Objects.{objects_in};
ghost use Rattle.object_reader.specs.declared.block.BlockKind.TheVariants.{Host, Service};
ghost use Rattle.object_services.specs.declared.services.LimitFault.TheVariants.{NoMemory};
ghost use Rattle.object_services.specs.claims.Limits.{AreHostLists, AreWithinLimit};
ghost use Rattle.object_services.specs.Limits.{IsRefusal, Noted};
ghost use Rattle.object_services.specs.Limits.{PassesNowhere};

use crate::blocks::ServiceBlocks;
use due_model::limits::MAX_OBJECTS;
use object_groups::groups::Groups;
use object_groups::objects::is_object;
use object_reader::block::BlockKind;
use std::alloc::{AllocError, Global};
use std::marker::Model;

/// Why what blocks give together isn't given.
#[derive(Clone, Copy, Debug, PartialEq, Eq)]
pub enum LimitFault {
    /// With the block at this place, whose `define` is at this line, there are more than fit: 65,535 objects, which are
    /// hosts and a service for each host of each service block; 1,000,000 escalations, one for each object of which an
    /// escalation block speaks; or 1,000,000 dependencies, one for each dependent and each master of a block that is
    /// kept.
    TooMany { place: usize, line: u64 },
    /// Memory ran out. It says nothing of the blocks.
    NoMemory,
}

impl From<AllocError> for LimitFault {
    ghost from_gives = { λ _ fault. fault ≡ NoMemory };

    fn from(_error: AllocError) -> LimitFault {
        LimitFault::NoMemory
    }
}

/// The hosts of each service block, by the numbers of both; a service is a block and one of its hosts. Services are
/// numbered after the hosts: block by block, and within a block host by host. Contracts see the list of the
/// blocks' hosts. It takes some 24 bytes a block and 8 a service.
#[derive(Drop)]
pub struct ServiceHosts {
    lists: Vec<Vec<usize>>,
}

impl Model for ServiceHosts {
    ghost use Rattle.std.specs.Prelude.{ℕ, List, map};

    ghost Value = { List (List ℕ) };

    ghost view = { λ s. map (λ list. list.items) s.lists.items };
}

/// Notes the hosts of the block at the place, where it is a service block, and says how many they are.
fn note<'a>(
    alloc: Global,
    services: &ServiceBlocks<'a>,
    hosts: &mut Groups<'a>,
    lists: &mut Vec<Vec<usize>>,
    place: usize,
    service: bool,
) -> Result<usize, AllocError>
    requires { hosts.old ≡ record { blocks = services.now; kind = HostGroups } }
    ensures same { hosts.new ≡ hosts.old }
    ensures noted { IfOk result (Noted services.now place service
        (map (λ list. list.items) lists.old.items) (map (λ list. list.items) lists.new.items)) }
{
    if !service {
        return Ok(0);
    }
    let found = services.hosts_at(alloc, hosts, place)?;
    let count = found.len();
    lists.push(found)?;
    Ok(count)
}

/// One, for a host.
fn own_count(host: bool) -> usize
    ensures { result ≡ if host then 1 else 0 }
{
    if host { 1 } else { 0 }
}

impl ServiceHosts {
    /// The hosts of all service blocks, where `hosts` are the host groups of the same blocks. The blocks are gone
    /// through in file order, and the first with which there are too many objects is refused, before anything
    /// is kept of its services. The time grows with that of `hosts_at` for each block up to there. A refusal leaves
    /// nothing.
    pub fn new<'a>(
        alloc: Global,
        services: &ServiceBlocks<'a>,
        hosts: &mut Groups<'a>,
    ) -> Result<ServiceHosts, LimitFault>
        requires { hosts.old ≡ record { blocks = services.now; kind = HostGroups } }
        ensures same { hosts.new ≡ hosts.old }
        ensures lists { IfOk result (AreHostLists services.now (objects_in services.now Service)) }
        ensures few { IfOk result (λ made.
            length (objects_in services.now Host) + sum_by length made ≤ max_objects) }
        ensures keeps { OnOk result (AreWithinLimit services.now) }
        ensures none { OnOk result (PassesNowhere services.now) }
        ensures fault { IfErr result (IsRefusal services.now) }
    {
        let mut lists = Vec::new(alloc);
        let mut count = 0;
        for (place, block) in services.blocks().iter().enumerate() {
            let own = own_count(is_object(BlockKind::Host, block));
            let service = is_object(BlockKind::Service, block);
            let more = note(alloc, services, hosts, &mut lists, place, service)?;
            let total = (count + own).saturating_add(more);
            if total > MAX_OBJECTS {
                return Err(LimitFault::TooMany {
                    place,
                    line: block.line,
                });
            }
            count = total;
        }
        Ok(ServiceHosts { lists })
    }

    /// How many service blocks there are.
    pub fn len(&self) -> usize
        ensures { result ≡ length self.now }
    {
        self.lists.len()
    }

    /// The hosts of the service block of that number, in order; none where there are fewer.
    pub fn hosts(&self, number: usize) -> &[usize]
        ensures { result.now ≡ slice_index_or self.now number [] }
    {
        if number < self.lists.len() {
            self.lists[number].as_slice()
        } else {
            &[]
        }
    }
}
