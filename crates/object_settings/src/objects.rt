//! The hosts and services of blocks.

ghost use Rattle.std.specs.Prelude.{◌≡◌, ◌+◌, ◌<◌, ◌≤◌, None, length, map};
ghost use Rattle.std.specs.Prelude.{slice_index_or};
ghost use Rattle.std.specs.Prelude.{sum_by, All, IfOk, OnOk, Some};
ghost use Rattle.std.specs.List.{AllZip};
ghost use Rattle.due_model.specs.claims.Limits.{max_objects, max_periods};
ghost use Rattle.due_model.specs.claims.Objects.{object_id};
ghost use Rattle.object_groups.specs.claims.Objects.{name_at, names_in, objects_in};
ghost use Rattle.object_listing.specs.Contacts.{IsAsked};
ghost use Rattle.object_reader.specs.declared.block.BlockKind.TheVariants.{Host, Service};
ghost use Rattle.object_reader.specs.declared.block.BlockKind.TheVariants.{TimePeriod};
ghost use Rattle.object_listing.specs.Periods.{ArePeriods};
ghost use Rattle.object_services.specs.claims.Hosts.{AreHosts};
ghost use Rattle.object_services.specs.claims.Limits.{AreHostLists};
ghost use Rattle.object_settings.specs.Own.{AddsObjects, AddsServices, AreRead, IsHostTaken};
ghost use Rattle.object_settings.specs.Own.{IsOwnOfHost, options_of};
ghost use Rattle.object_settings.specs.claims.Settings.{AreObjectsOf};
ghost use Rattle.object_settings.specs.Settings.{AskForHosts, AskForServices};
ghost use Rattle.object_settings.specs.claims.Settings.{service_origins};

use crate::own::{Own, object_of};
use crate::tables::Tables;
use due_model::config::{Object, ObjectId};
use due_model::objects::Objects as ObjectTable;
use due_model::options::OptionLetters;
use object_groups::names::Names;
use object_groups::objects::Objects;
use object_inheritance::templates::Templates;
use object_listing::contacts::ContactListing;
use object_listing::laws::listed_are_objects;
use object_services::blocks::ServiceBlocks;
use object_services::services::ServiceHosts;
use object_values::options::OptionKind;
use std::alloc::{AllocError, Global};

/// What the host blocks give.
fn owns_of<'a>(
    alloc: Global,
    tables: &Tables<'a>,
    periods: &Names<'a>,
    hosts: &Objects<'a>,
) -> Result<Vec<Own<'a>>, AllocError>
    requires hosts { hosts.now ≡ record { blocks = tables.now.blocks; kind = Host } }
    requires periods { ArePeriods tables.now.blocks periods.now }
    requires asked { AskForHosts tables.now.blocks tables.now.asked }
    ensures { IfOk result (λ owns.
        AllZip (IsOwnOfHost tables.now.blocks) (objects_in tables.now.blocks Host) owns.items) }
{
    let mut read = tables.none_read(alloc)?;
    let mut owns = Vec::with_capacity(alloc, hosts.places().len())?;
    for (number, place) in hosts.places().iter().enumerate() {
        let name = hosts.names().name(number);
        let own = tables.own_at(periods, OptionKind::Host, &mut read, name, *place);
        owns.push(own)?;
    }
    Ok(owns)
}

/// How many services there are, for the room that they take.
fn service_count(lists: &ServiceHosts) -> usize {
    let mut count: usize = 0;
    for number in 0..lists.len() {
        count = count.saturating_add(lists.hosts(number).len());
    }
    count
}

/// The hosts, with room for so many services.
fn hosts_of<'a>(alloc: Global, owns: &[Own<'a>], services: usize) -> Result<Vec<Object>, AllocError>
    ensures { IfOk result (λ objects. AllZip IsHostTaken owns.now objects.items) }
{
    let mut objects = Vec::with_capacity(alloc, owns.len().saturating_add(services))?;
    for own in owns {
        let object = object_of(alloc, own, own, None)?;
        objects.push(object)?;
    }
    Ok(objects)
}

/// Adds the services of a block, one for each of its hosts.
fn push_block<'a>(
    alloc: Global,
    objects: &mut Vec<Object>,
    owns: &[Own<'a>],
    own: &Own<'a>,
    hosts: &[usize],
) -> Result<(), AllocError>
    requires within { All (λ host. host < length owns.now) hosts.now }
    requires few { length owns.now ≤ max_objects }
    ensures { OnOk result (AddsServices owns.now own.now hosts.now
        objects.old.items objects.new.items) }
{
    for host in hosts {
        let number = ObjectId(*host as u16);
        let object = object_of(alloc, own, &owns[*host], Some(number))?;
        objects.push(object)?;
    }
    Ok(())
}

/// Adds the services of the service block at the place, whose contacts were asked for where it has hosts. `read` is what
/// was read of the options of service blocks so far.
fn push_services_at<'a>(
    alloc: Global,
    objects: &mut Vec<Object>,
    tables: &Tables<'a>,
    periods: &Names<'a>,
    owns: &[Own<'a>],
    read: &mut Vec<Option<OptionLetters>>,
    name: &'a [u8],
    place: usize,
    hosts: &[usize],
) -> Result<(), AllocError>
    requires periods { ArePeriods tables.now.blocks periods.now }
    requires owns { AllZip (IsOwnOfHost tables.now.blocks) (objects_in tables.now.blocks Host)
        owns.now }
    requires few_hosts { length (objects_in tables.now.blocks Host) ≤ max_objects }
    requires read { AreRead (options_of tables.now.blocks) OptionKind.Service read.old.items }
    requires named { name.now ≡ name_at tables.now.blocks Service place }
    requires asked { 0 < length hosts.now → IsAsked tables.now.asked place }
    requires hosts { AreHosts tables.now.blocks place hosts.now }
    ensures read { AreRead (options_of tables.now.blocks) OptionKind.Service read.new.items }
    ensures objects { OnOk result (AddsObjects tables.now.blocks
        (map (λ host. record { place = place; host = Some host }) hosts.now)
        objects.old.items objects.new.items) }
{
    listed_are_objects();
    if hosts.is_empty() {
        return Ok(());
    }
    let own = tables.own_at(periods, OptionKind::Service, read, name, place);
    push_block(alloc, objects, owns, &own, hosts)?;
    Ok(())
}

/// Adds the services of all service blocks.
fn push_services<'a>(
    alloc: Global,
    objects: &mut Vec<Object>,
    tables: &Tables<'a>,
    periods: &Names<'a>,
    owns: &[Own<'a>],
    services: &Objects<'a>,
    lists: &ServiceHosts,
) -> Result<(), AllocError>
    requires periods { ArePeriods tables.now.blocks periods.now }
    requires owns { AllZip (IsOwnOfHost tables.now.blocks) (objects_in tables.now.blocks Host)
        owns.now }
    requires few_hosts { length (objects_in tables.now.blocks Host) ≤ max_objects }
    requires services { services.now ≡ record { blocks = tables.now.blocks; kind = Service } }
    requires lists { AreHostLists tables.now.blocks (objects_in tables.now.blocks Service)
        lists.now }
    requires asked { AskForServices tables.now.blocks lists.now tables.now.asked }
    ensures { OnOk result (AddsObjects tables.now.blocks
        (service_origins tables.now.blocks lists.now) objects.old.items objects.new.items) }
{
    let mut read = tables.none_read(alloc)?;
    for (number, place) in services.places().iter().enumerate() {
        let name = services.names().name(number);
        let hosts = lists.hosts(number);
        push_services_at(
            alloc, objects, tables, periods, owns, &mut read, name, *place, hosts,
        )?;
    }
    Ok(())
}

/// The hosts and the services.
fn all_objects<'a>(
    alloc: Global,
    tables: &Tables<'a>,
    periods: &Names<'a>,
    hosts: &Objects<'a>,
    services: &Objects<'a>,
    lists: &ServiceHosts,
) -> Result<Vec<Object>, AllocError>
    requires hosts { hosts.now ≡ record { blocks = tables.now.blocks; kind = Host } }
    requires periods { ArePeriods tables.now.blocks periods.now }
    requires few_hosts { length (objects_in tables.now.blocks Host) ≤ max_objects }
    requires services { services.now ≡ record { blocks = tables.now.blocks; kind = Service } }
    requires lists { AreHostLists tables.now.blocks (objects_in tables.now.blocks Service)
        lists.now }
    requires asked_hosts { AskForHosts tables.now.blocks tables.now.asked }
    requires asked_services { AskForServices tables.now.blocks lists.now tables.now.asked }
    ensures { IfOk result (λ objects.
        AreObjectsOf tables.now.blocks lists.now objects.items) }
{
    let owns = owns_of(alloc, tables, periods, hosts)?;
    let own = owns.as_slice();
    let mut objects = hosts_of(alloc, own, service_count(lists))?;
    push_services(alloc, &mut objects, tables, periods, own, services, lists)?;
    Ok(objects)
}

/// The objects of the blocks in number order: the hosts in file order, and then the services, block by block and
/// within a block host by host. A service takes from its host what its block lacks: contacts, where it gives
/// neither contacts nor contact groups, interval and period; other directives that are lacking are by default.
/// `services` are the service blocks, `lists` their hosts, `contacts` what the blocks list as contacts, asked for of each
/// host and of each service block with hosts, and `hosts` and `periods` the hosts and the time periods, all of the same
/// blocks; there are no more of each than fit. What a block gives is found once, however many services it has: the time
/// grows with the blocks and the templates that they use, and with the objects and their contacts. A refused growth
/// leaves nothing.
pub fn objects_of<'a>(
    alloc: Global,
    templates: &Templates<'a>,
    services: &ServiceBlocks<'a>,
    lists: &ServiceHosts,
    contacts: &ContactListing<'a>,
    hosts: &Objects<'a>,
    periods: &Objects<'a>,
) -> Result<ObjectTable, AllocError>
    requires services { services.now ≡ templates.now }
    requires lists { AreHostLists templates.now (objects_in templates.now Service) lists.now }
    requires few { length (objects_in templates.now Host) + sum_by length lists.now
        ≤ max_objects }
    requires contacts { contacts.now.blocks ≡ templates.now }
    requires asked_hosts { AskForHosts templates.now contacts.now.asked }
    requires asked_services { AskForServices templates.now lists.now contacts.now.asked }
    requires hosts { hosts.now ≡ record { blocks = templates.now; kind = Host } }
    requires periods { periods.now ≡ record { blocks = templates.now; kind = TimePeriod } }
    requires few_periods { length (names_in templates.now TimePeriod) ≤ max_periods }
    ensures { IfOk result (AreObjectsOf templates.now lists.now) }
{
    let tables = Tables::new(alloc, templates, contacts)?;
    let names = periods.names();
    let blocks = services.objects();
    let objects = all_objects(alloc, &tables, names, hosts, blocks, lists)?;
    ObjectTable::new(alloc, objects)
}
