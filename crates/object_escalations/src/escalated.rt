//! The objects of which escalation blocks speak, within the limit of escalations.

ghost use Rattle.std.specs.Prelude.{◌≡◌, ◌+◌, ◌<◌, ◌≤◌, ◌^◌, ◌++◌, ◌∷◌, []};
ghost use Rattle.std.specs.Prelude.{length, map};
ghost use Rattle.std.specs.Prelude.{slice_index_or, sum_by};
ghost use Rattle.std.specs.Prelude.{IfErr, IfOk, OnOk};
ghost use Rattle.due_model.specs.claims.Limits.{max_escalations};
ghost use Rattle.object_escalations.specs.claims.Escalated.{AreEscalated};
ghost use Rattle.object_escalations.specs.Escalated.{IsKept, IsRefusal, IsTooMany};
ghost use Rattle.object_groups.specs.declared.groups.GroupKind.TheVariants.{HostGroups};
ghost use Rattle.object_groups.specs.claims.Objects.{names_in, objects_in};
ghost use Rattle.object_reached.specs.declared.roles.Role.TheVariants.{Escalated};
ghost use Rattle.object_reader.specs.declared.block.BlockKind.TheVariants.{Host, Service};
ghost use Rattle.object_services.specs.claims.Limits.{AreHostLists};
ghost use Rattle.object_services.specs.claims.Numbers.{pairs_of};

use due_model::limits::MAX_ESCALATIONS;
use object_groups::groups::Groups;
use object_inheritance::templates::Templates;
use object_reached::reached::Reached;
use object_reached::roles::Role;
use object_reached::services::HostServices;
use object_service_groups::groups::ServiceGroups;
use object_services::services::{LimitFault, ServiceHosts};
use std::alloc::{AllocError, Global};
use std::marker::Model;

/// Adds the objects of one block.
fn push_objects(lists: &mut Vec<Vec<usize>>, objects: Vec<usize>) -> Result<(), AllocError>
    ensures { OnOk result (map (λ list. list.items) lists.new.items
        ≡ map (λ list. list.items) lists.old.items ++ objects.items ∷ []) }
{
    lists.push(objects)?;
    Ok(())
}

/// Adds the objects of the block at the place, whose `define` is at the line, and says how many there are with them,
/// where there were so many before. A block with which there are too many is refused.
fn keep(
    lists: &mut Vec<Vec<usize>>,
    objects: Vec<usize>,
    count: usize,
    place: usize,
    line: u64,
) -> Result<usize, LimitFault>
    ensures kept { IfOk result (IsKept (map (λ list. list.items) lists.old.items)
        (map (λ list. list.items) lists.new.items) objects.items count) }
    ensures fault { IfErr result (IsTooMany (count + length objects.items) place line) }
{
    let total = objects.len().saturating_add(count);
    if total > MAX_ESCALATIONS {
        return Err(LimitFault::TooMany { place, line });
    }
    push_objects(lists, objects)?;
    Ok(total)
}

/// The objects of which each block speaks, by their numbers: an escalation is a block and one of its objects, and
/// escalations stand block by block in file order, and within a block in number order. Contracts see the list of
/// the blocks' objects. It takes some 24 bytes a block and 8 an escalation.
#[derive(Drop)]
pub struct EscalatedObjects {
    lists: Vec<Vec<usize>>,
    /// How many objects there are in all.
    count: usize,
}

impl Model for EscalatedObjects {
    ghost use Rattle.std.specs.Prelude.{◌≡◌, ℕ, List, length, map, sum_by};

    ghost Value = { List (List ℕ) };

    ghost view = { λ s. map (λ list. list.items) s.lists.items };

    ghost invariant = { λ s. s.count ≡ sum_by length (map (λ list. list.items) s.lists.items) };
}

/// The objects of all blocks, where `reached` finds those of each. As `EscalatedObjects::new`.
fn objects_of<'a>(
    alloc: Global,
    templates: &Templates<'a>,
    reached: &Reached<'a>,
    services: &HostServices<'a>,
    lists: &ServiceHosts,
    hosts: &mut Groups<'a>,
    groups: &mut ServiceGroups<'a>,
) -> Result<EscalatedObjects, LimitFault>
    requires reached { reached.now ≡ record { blocks = templates.now; role = Escalated } }
    requires services { services.now ≡ pairs_of (names_in templates.now Service) lists.now }
    requires few { length (names_in templates.now Host) + length services.now < 2 ^ 32 }
    requires lists { AreHostLists templates.now (objects_in templates.now Service) lists.now }
    requires hosts { hosts.old ≡ record { blocks = templates.now; kind = HostGroups } }
    requires groups { groups.old ≡ templates.now }
    ensures same_hosts { hosts.new ≡ hosts.old }
    ensures same_groups { groups.new ≡ groups.old }
    ensures objects { IfOk result (AreEscalated templates.now lists.now (length templates.now)) }
    ensures few { IfOk result (λ made. sum_by length made ≤ max_escalations) }
    ensures fault { IfErr result (IsRefusal templates.now lists.now) }
{
    let mut found = Vec::with_capacity(alloc, templates.blocks().len())?;
    let mut count = 0;
    for (place, block) in templates.blocks().iter().enumerate() {
        let objects = reached.objects_at(alloc, hosts, groups, services, place)?;
        count = keep(&mut found, objects, count, place, block.line)?;
    }
    Ok(EscalatedObjects {
        lists: found,
        count,
    })
}

impl EscalatedObjects {
    /// The objects of all blocks: of a registered `hostescalation` the hosts that it lists, by themselves or by
    /// host groups, and of a `serviceescalation` the services, by hosts and descriptions or by service groups; of
    /// another block none. `services` are the services, `lists` the hosts of the service blocks, `hosts` the host
    /// groups and `groups` the service groups, all of the same blocks. The blocks are gone through in file order, and the
    /// first with which there are too many escalations is refused, before anything is kept of it. The time grows
    /// with that of `Reached::objects_at` for each block up to there. A refusal leaves the
    /// groups as they were.
    pub fn new<'a>(
        alloc: Global,
        templates: &Templates<'a>,
        services: &HostServices<'a>,
        lists: &ServiceHosts,
        hosts: &mut Groups<'a>,
        groups: &mut ServiceGroups<'a>,
    ) -> Result<EscalatedObjects, LimitFault>
        requires services { services.now ≡ pairs_of (names_in templates.now Service) lists.now }
        requires few { length (names_in templates.now Host) + length services.now < 2 ^ 32 }
        requires lists { AreHostLists templates.now (objects_in templates.now Service)
            lists.now }
        requires hosts { hosts.old ≡ record { blocks = templates.now; kind = HostGroups } }
        requires groups { groups.old ≡ templates.now }
        ensures same_hosts { hosts.new ≡ hosts.old }
        ensures same_groups { groups.new ≡ groups.old }
        ensures objects { IfOk result (AreEscalated templates.now lists.now
            (length templates.now)) }
        ensures few { IfOk result (λ made. sum_by length made ≤ max_escalations) }
        ensures fault { IfErr result (IsRefusal templates.now lists.now) }
    {
        let reached = Reached::new(alloc, templates, Role::Escalated)?;
        objects_of(alloc, templates, &reached, services, lists, hosts, groups)
    }

    /// How many blocks there are.
    pub fn len(&self) -> usize
        ensures { result ≡ length self.now }
    {
        self.lists.len()
    }

    /// How many escalations there are.
    pub fn count(&self) -> usize
        ensures { result ≡ sum_by length self.now }
    {
        self.count
    }

    /// The objects of which the block at the place speaks, in order; none where there are fewer blocks.
    pub fn objects(&self, place: usize) -> &[usize]
        ensures { result.now ≡ slice_index_or self.now place [] }
    {
        if place < self.lists.len() {
            self.lists[place].as_slice()
        } else {
            &[]
        }
    }
}
