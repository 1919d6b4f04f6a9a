//! The pairs of dependents and masters of each block.

ghost use Rattle.std.specs.Prelude.{◌≡◌, ◌+◌, ◌<◌, ◌^◌, length, IfOk};
ghost use Rattle.object_dependencies.specs.claims.Pairs.{ArePairs, kept_states};
ghost use Rattle.object_groups.specs.declared.groups.GroupKind.TheVariants.{HostGroups};
ghost use Rattle.object_groups.specs.claims.Objects.{names_in, objects_in};
ghost use Rattle.object_reached.specs.declared.roles.Role.TheVariants.{Dependent, Master};
ghost use Rattle.object_reader.specs.declared.block.BlockKind.TheVariants.{Host, Service};
ghost use Rattle.object_services.specs.claims.Limits.{AreHostLists};
ghost use Rattle.object_services.specs.claims.Numbers.{pairs_of};

use crate::sides::Sides;
use due_model::state::StateSet;
use object_groups::groups::Groups;
use object_groups::objects::is_object;
use object_inheritance::inherited::Values;
use object_inheritance::templates::Templates;
use object_listing::readings::own_states;
use object_reached::reached::Reached;
use object_reached::roles::Role;
use object_reached::services::HostServices;
use object_reader::block::{Block, BlockKind};
use object_service_groups::groups::ServiceGroups;
use object_services::services::ServiceHosts;
use object_values::options::CriteriaKind;
use std::alloc::{AllocError, Global};
use std::marker::Model;

/// What blocks have for the directives of dependencies. It takes some 180 bytes a block. Contracts see the blocks, and
/// the hosts of each service block.
#[derive(Drop)]
pub struct DependencyBlocks<'a, 'l> {
    blocks: &'a [Block],
    lists: &'l ServiceHosts,
    masters: Reached<'a>,
    dependents: Reached<'a>,
    criteria: Values<'a>,
    services: &'l HostServices<'a>,
}

impl<'a, 'l> Model for DependencyBlocks<'a, 'l> {
    ghost use Rattle.object_dependencies.specs.Pairs.{AreDependencyBlocks, BlocksOf};

    ghost Value = { BlocksOf };

    ghost view = { λ s. record { blocks = s.blocks.now; lists = s.lists.now } };

    ghost invariant = { λ s.
        AreDependencyBlocks s.blocks.now s.lists.now s.masters s.dependents s.criteria
        s.services.now };
}

impl<'a, 'l> DependencyBlocks<'a, 'l> {
    /// What the blocks have. `services` are the services, and `lists` the hosts of the service blocks, both of the same
    /// blocks. The time grows with the blocks, their directives and the templates that they use. A refused growth
    /// leaves nothing.
    pub fn new(
        alloc: Global,
        templates: &Templates<'a>,
        services: &'l HostServices<'a>,
        lists: &'l ServiceHosts,
    ) -> Result<DependencyBlocks<'a, 'l>, AllocError>
        requires services { services.now ≡ pairs_of (names_in templates.now Service) lists.now }
        requires few { length (names_in templates.now Host) + length services.now < 2 ^ 32 }
        requires lists { AreHostLists templates.now (objects_in templates.now Service)
            lists.now }
        ensures { IfOk result (λ made. made
            ≡ record { blocks = templates.now; lists = lists.now }) }
    {
        let directive = "notification_failure_criteria";
        Ok(DependencyBlocks {
            blocks: templates.blocks(),
            lists,
            masters: Reached::new(alloc, templates, Role::Master)?,
            dependents: Reached::new(alloc, templates, Role::Dependent)?,
            criteria: Values::new(alloc, templates, directive.as_bytes())?,
            services,
        })
    }

    /// The blocks.
    pub fn blocks(&self) -> &'a [Block]
        ensures { result.now ≡ self.now.blocks }
    {
        self.blocks
    }

    /// The objects of which they speak as masters, and as dependents.
    pub fn masters(&self) -> &Reached<'a>
        ensures { result.now ≡ record { blocks = self.now.blocks; role = Master } }
    {
        &self.masters
    }

    pub fn dependents(&self) -> &Reached<'a>
        ensures { result.now ≡ record { blocks = self.now.blocks; role = Dependent } }
    {
        &self.dependents
    }

    /// The services.
    pub fn services(&self) -> &'l HostServices<'a>
        ensures lists { AreHostLists self.now.blocks (objects_in self.now.blocks Service)
            self.now.lists }
        ensures services { result.now
            ≡ pairs_of (names_in self.now.blocks Service) self.now.lists }
        ensures few { length (names_in self.now.blocks Host) + length result.now < 2 ^ 32 }
    {
        self.services
    }

    /// How many services there are.
    pub fn service_count(&self) -> usize
        ensures { result ≡ length (pairs_of (names_in self.now.blocks Service) self.now.lists) }
    {
        self.services.len()
    }

    /// The states of the failure criteria of the block at the place, where it is kept as a notification dependency:
    /// it is a registered dependency, and has criteria.
    pub fn kept_states(&self, place: usize) -> Option<StateSet>
        requires { place < length self.now.blocks }
        ensures { result ≡ kept_states self.now.blocks place }
    {
        let blocks = self.blocks();
        let block = &blocks[place];
        if is_object(BlockKind::HostDependency, block) {
            return own_states(&self.criteria, CriteriaKind::OfHosts, place);
        }
        if is_object(BlockKind::ServiceDependency, block) {
            return own_states(&self.criteria, CriteriaKind::OfServices, place);
        }
        None
    }

    /// The pairs of the block at the place; `hosts` are the host groups and `groups` the service groups of the same
    /// blocks. The time grows with the entries of the lists of both sides, with what each of their groups reaches, and
    /// with the services of their hosts. A refused growth changes nothing.
    pub fn pairs_at(
        &self,
        alloc: Global,
        hosts: &mut Groups<'a>,
        groups: &mut ServiceGroups<'a>,
        place: usize,
    ) -> Result<Sides, AllocError>
        requires within { place < length self.now.blocks }
        requires hosts { hosts.old ≡ record { blocks = self.now.blocks; kind = HostGroups } }
        requires groups { groups.old ≡ self.now.blocks }
        ensures same_hosts { hosts.new ≡ hosts.old }
        ensures same_groups { groups.new ≡ groups.old }
        ensures pairs { IfOk result (ArePairs self.now.blocks self.now.lists place) }
    {
        if self.kept_states(place).is_none() {
            return Ok(Sides::none(alloc));
        }
        let masters = self
            .masters
            .objects_at(alloc, hosts, groups, self.services, place)?;
        if masters.is_empty() {
            return Ok(Sides::none(alloc));
        }
        let dependents = self
            .dependents
            .objects_at(alloc, hosts, groups, self.services, place)?;
        if dependents.is_empty() {
            return Ok(Sides::none(alloc));
        }
        Ok(Sides::new(dependents, masters))
    }
}
