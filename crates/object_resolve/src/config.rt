//! The configuration of blocks that have no fault.

ghost use Rattle.std.specs.Prelude.{◌≡◌, ◌≤◌, length, map, IfOk};
ghost use Rattle.due_model.specs.claims.Limits.{max_lanes};
ghost use Rattle.object_contacts.specs.claims.Contacts.{AreContactsOf};
ghost use Rattle.object_dependencies.specs.claims.Entries.{AreDependencies};
ghost use Rattle.object_escalations.specs.claims.Entries.{AreEntriesOf};
ghost use Rattle.object_groups.specs.claims.Objects.{names_in};
ghost use Rattle.object_reader.specs.declared.block.BlockKind.TheVariants.{TimePeriod};
ghost use Rattle.object_resolve.specs.Asked.{asked_contacts};
ghost use Rattle.object_resolve.specs.claims.Config.{IsConfigOf, command_at};
ghost use Rattle.object_resolve.specs.claims.Limits.{AreFewOthers, AreWithin};
ghost use Rattle.object_resolve.specs.Limits.{AreCounts};
ghost use Rattle.object_resolve.specs.Tables.{AreTables};
ghost use Rattle.object_settings.specs.claims.Settings.{AreObjectsOf};

use crate::asked::asked_of;
use crate::limits::Counts;
use crate::tables::Tables;
use due_model::config::{Choices, Config, Contact, Dependency, Escalation, Lane};
use due_model::dependencies::Dependencies;
use due_model::escalations::Escalations;
use due_model::objects::Objects as ObjectTable;
use due_model::sequence::Sequence;
use object_contacts::contacts::contacts_of;
use object_contacts::lanes::named_lanes;
use object_dependencies::blocks::DependencyBlocks;
use object_dependencies::entries::dependencies_of;
use object_escalations::entries::escalations_of;
use object_escalations::laws::escalated_are_objects;
use object_groups::groups::{GroupKind, Groups};
use object_inheritance::templates::Templates;
use object_listing::contacts::ContactListing;
use object_names::named::{NamedKind, NamedObjects};
use object_periods::periods::periods_of;
use object_settings::objects::objects_of;
use std::alloc::{AllocError, Global};

/// The contacts, where `lanes` are the commands of the lanes; what one has that lists no options, by this project's rule or
/// the daemon's.
fn contacts_in<'a>(
    alloc: Global,
    daemons: bool,
    templates: &Templates<'a>,
    objects: &NamedObjects<'a>,
    lanes: &[usize],
) -> Result<Vec<Contact>, AllocError>
    requires objects { objects.now ≡ templates.now }
    requires few { AreFewOthers templates.now }
    requires few_lanes { length lanes.now ≤ max_lanes }
    ensures { IfOk result (λ made. AreContactsOf daemons templates.now lanes.now made.items) }
{
    let contacts = objects.objects(NamedKind::Contact);
    let commands = objects.objects(NamedKind::Command);
    let periods = objects.objects(NamedKind::TimePeriod);
    contacts_of(
        alloc, daemons, templates, contacts, commands, periods, lanes,
    )
}

/// The lanes, by the names of their commands.
fn lanes_in(alloc: Global, objects: &NamedObjects, lanes: &[usize]) -> Result<Vec<Lane>, AllocError>
    ensures { IfOk result (λ made.
        map (λ lane. lane.name) made.items ≡ map (command_at objects.now) lanes.now) }
{
    named_lanes(alloc, objects.objects(NamedKind::Command).names(), lanes)
}

/// What the blocks list as contacts, of those that give objects or escalations, where `counts` are those of the blocks.
fn listed_contacts<'a>(
    alloc: Global,
    templates: &Templates<'a>,
    counts: &Counts<'a>,
) -> Result<ContactListing<'a>, AllocError>
    requires { AreFewOthers templates.now }
    ensures { IfOk result (λ contacts.
        contacts ≡ asked_contacts templates.now counts.now.hosts counts.now.escalated) }
{
    let asked = asked_of(alloc, templates.blocks(), &counts.hosts, &counts.escalated)?;
    let mut groups = Groups::new(alloc, templates, GroupKind::ContactGroups)?;
    ContactListing::new(alloc, templates, &mut groups, asked)
}

/// The hosts and services, where `counts` are those of the blocks, and `contacts` what the blocks list as contacts.
fn objects_in<'a>(
    alloc: Global,
    templates: &Templates<'a>,
    tables: &Tables<'a, '_>,
    counts: &Counts,
    contacts: &ContactListing<'a>,
) -> Result<ObjectTable, AllocError>
    requires tables { AreTables templates.now tables.now }
    requires contacts { contacts.now
        ≡ asked_contacts templates.now counts.now.hosts counts.now.escalated }
    requires few { AreFewOthers templates.now }
    requires counts { AreCounts templates.now counts.now }
    ensures { IfOk result (AreObjectsOf templates.now counts.now.hosts) }
{
    let hosts = tables.objects.objects(NamedKind::Host);
    let periods = tables.objects.objects(NamedKind::TimePeriod);
    let services = tables.services;
    objects_of(
        alloc,
        templates,
        services,
        &counts.hosts,
        contacts,
        hosts,
        periods,
    )
}

/// The escalations, where these are the objects, and `contacts` what the blocks list as contacts.
fn escalations_in<'a>(
    alloc: Global,
    templates: &Templates<'a>,
    tables: &Tables<'a, '_>,
    counts: &Counts,
    objects: &ObjectTable,
    contacts: &ContactListing<'a>,
) -> Result<Vec<Escalation>, AllocError>
    requires tables { AreTables templates.now tables.now }
    requires contacts { contacts.now
        ≡ asked_contacts templates.now counts.now.hosts counts.now.escalated }
    requires few { AreFewOthers templates.now }
    requires counts { AreCounts templates.now counts.now }
    requires objects { AreObjectsOf templates.now counts.now.hosts objects.now }
    ensures { IfOk result (λ made.
        AreEntriesOf templates.now objects.now counts.now.escalated made.items) }
{
    escalated_are_objects();
    let periods = tables.objects.objects(NamedKind::TimePeriod).names();
    escalations_of(
        alloc,
        templates,
        &counts.escalated,
        objects.as_slice(),
        contacts,
        periods,
    )
}

/// The dependencies, where `counts` are those of the blocks.
fn dependencies_in<'a>(
    alloc: Global,
    templates: &Templates<'a>,
    tables: &Tables<'a, '_>,
    counts: &Counts<'a>,
) -> Result<Vec<Dependency>, AllocError>
    requires tables { AreTables templates.now tables.now }
    requires few { AreFewOthers templates.now }
    requires counts { AreCounts templates.now counts.now }
    ensures { IfOk result (λ made. AreDependencies templates.now counts.now.hosts
        (names_in templates.now TimePeriod) made.items) }
{
    let periods = tables.objects.objects(NamedKind::TimePeriod).names();
    let blocks = DependencyBlocks::new(alloc, templates, &counts.services, &counts.hosts)?;
    dependencies_of(alloc, templates, &blocks, &counts.pairs, periods)
}

/// The configuration of blocks that keep within the limits, where `tables` and `counts` are theirs, by these choices. A refused
/// growth leaves nothing.
pub(crate) fn config_of<'a>(
    alloc: Global,
    choices: Choices,
    templates: &Templates<'a>,
    tables: &Tables<'a, '_>,
    counts: &Counts<'a>,
) -> Result<Config, AllocError>
    requires tables { AreTables templates.now tables.now }
    requires within { AreWithin templates.now }
    requires counts { AreCounts templates.now counts.now }
    ensures config { IfOk result (IsConfigOf templates.now) }
    ensures choices { IfOk result (λ config. config.choices ≡ choices) }
{
    let lanes = counts.lanes.as_slice();
    let contacts = contacts_in(
        alloc,
        choices.contact_none,
        templates,
        tables.objects,
        lanes,
    )?;
    let named = lanes_in(alloc, tables.objects, lanes)?;
    let periods = periods_of(
        alloc,
        templates,
        tables.objects.objects(NamedKind::TimePeriod),
    )?;
    let listed = listed_contacts(alloc, templates, counts)?;
    let objects = objects_in(alloc, templates, tables, counts, &listed)?;
    let escalations = escalations_in(alloc, templates, tables, counts, &objects, &listed)?;
    let dependencies = dependencies_in(alloc, templates, tables, counts)?;
    Ok(Config {
        choices,
        objects,
        contacts: Sequence::new(contacts),
        lanes: Sequence::new(named),
        periods: Sequence::new(periods),
        escalations: Escalations::new(alloc, escalations)?,
        dependencies: Dependencies::new(alloc, dependencies)?,
    })
}
