//! The escalations that blocks give.

ghost use Rattle.std.specs.Prelude.{◌≡◌, ◌<◌, ◌≤◌, length, slice_get, All, IfOk, OnOk, Some};
ghost use Rattle.due_model.specs.claims.Limits.{max_objects};
ghost use Rattle.object_escalations.specs.claims.Entries.{AreEntriesOf};
ghost use Rattle.object_escalations.specs.Entries.{AddsEntries, AskForAll};
ghost use Rattle.object_escalations.specs.claims.Entries.{origins_at};
ghost use Rattle.object_escalations.specs.Given.{AddsTaken, contacts_of, IsTaken, list_kind};
ghost use Rattle.object_listing.specs.Contacts.{IsAsked};
ghost use Rattle.object_listing.specs.Periods.{ArePeriods};

use crate::escalated::EscalatedObjects;
use crate::given::{Given, Tables};
use due_model::config::{ContactList, Escalation, Object, ObjectId};
use object_groups::names::Names;
use object_groups::objects::is_object;
use object_inheritance::templates::Templates;
use object_listing::contacts::ContactListing;
use object_reader::block::{Block, BlockKind};
use object_values::options::OptionKind;
use std::alloc::{AllocError, Global};

/// The kind of an escalation block's option list.
fn list_kind(block: &Block) -> OptionKind
    ensures { result ≡ list_kind block.now }
{
    if is_object(BlockKind::HostEscalation, block) {
        OptionKind::HostEscalation
    } else {
        OptionKind::ServiceEscalation
    }
}

/// The contacts of the block, or those of the object.
fn contacts_of(alloc: Global, given: &Given, object: &Object) -> Result<ContactList, AllocError>
    ensures { IfOk result (λ contacts. contacts ≡ contacts_of given.now object.now) }
{
    if given.lacks_contacts {
        ContactList::new(alloc, object.contacts.as_slice())
    } else {
        ContactList::new(alloc, given.contacts)
    }
}

/// The escalation of the object of that number, which takes from it what the block lacks.
fn escalation_of(
    alloc: Global,
    given: &Given,
    object: &Object,
    number: usize,
) -> Result<Escalation, AllocError>
    requires { number < max_objects }
    ensures { IfOk result (IsTaken given.now number object.now) }
{
    Ok(Escalation {
        object: ObjectId(number as u16),
        first: given.first,
        last: given.last,
        interval: given.interval.unwrap_or(object.interval),
        period: given.period.unwrap_or(object.period),
        options: given.options,
        contacts: contacts_of(alloc, given, object)?,
    })
}

/// Adds the escalations of a block, one for each of the objects of these numbers.
fn push_block(
    alloc: Global,
    escalations: &mut Vec<Escalation>,
    given: &Given,
    objects: &[Object],
    numbers: &[usize],
) -> Result<(), AllocError>
    requires within { All (λ number. number < length objects.now) numbers.now }
    requires few { length objects.now ≤ max_objects }
    ensures { OnOk result (AddsTaken given.now objects.now numbers.now
        escalations.old.items escalations.new.items) }
{
    for number in numbers {
        let escalation = escalation_of(alloc, given, &objects[*number], *number)?;
        escalations.push(escalation)?;
    }
    Ok(())
}

/// Adds the escalations of the block at the place, which speaks of the objects of these numbers, and whose contacts were
/// asked for where there are any.
fn push_block_at<'a>(
    alloc: Global,
    escalations: &mut Vec<Escalation>,
    tables: &Tables<'a>,
    periods: &Names<'a>,
    objects: &[Object],
    numbers: &[usize],
    block: &Block,
    place: usize,
) -> Result<(), AllocError>
    requires periods { ArePeriods tables.now.blocks periods.now }
    requires within { All (λ number. number < length objects.now) numbers.now }
    requires few { length objects.now ≤ max_objects }
    requires here { slice_get tables.now.blocks place ≡ Some block.now }
    requires asked { 0 < length numbers.now → IsAsked tables.now.asked place }
    ensures { OnOk result (AddsEntries tables.now.blocks objects.now
        (origins_at place numbers.now) escalations.old.items escalations.new.items) }
{
    if numbers.is_empty() {
        return Ok(());
    }
    let given = tables.given_at(periods, list_kind(block), place);
    push_block(alloc, escalations, &given, objects, numbers)?;
    Ok(())
}

/// The escalations of the blocks, by these tables of theirs. As `escalations_of`.
fn entries_of<'a>(
    alloc: Global,
    templates: &Templates<'a>,
    escalated: &EscalatedObjects,
    objects: &[Object],
    tables: &Tables<'a>,
    periods: &Names<'a>,
) -> Result<Vec<Escalation>, AllocError>
    requires within { All (All (λ number. number < length objects.now)) escalated.now }
    requires long { length escalated.now ≡ length templates.now }
    requires few { length objects.now ≤ max_objects }
    requires tables { tables.now.blocks ≡ templates.now }
    requires asked { AskForAll escalated.now tables.now.asked }
    requires periods { ArePeriods templates.now periods.now }
    ensures { IfOk result (λ escalations.
        AreEntriesOf templates.now objects.now escalated.now escalations.items) }
{
    let mut escalations = Vec::with_capacity(alloc, escalated.count())?;
    for (place, block) in templates.blocks().iter().enumerate() {
        let numbers = escalated.objects(place);
        push_block_at(
            alloc,
            &mut escalations,
            tables,
            periods,
            objects,
            numbers,
            block,
            place,
        )?;
    }
    Ok(escalations)
}

/// The escalations of the blocks: one for each object of which a block speaks, block by block in file order, and within
/// a block in number order. An escalation takes from its object what its block lacks: contacts, where it gives neither
/// contacts nor contact groups, interval and period; other directives that are lacking are by default.
/// `escalated` are the objects of which each block speaks, `objects` the hosts and services, `contacts` what the blocks
/// list as contacts, asked for of each that speaks of an object, and `periods` the names of the time periods, all of the
/// same blocks. The time grows with the blocks and the templates that they use, and with the escalations and their
/// contacts. A refused growth leaves nothing.
pub fn escalations_of<'a>(
    alloc: Global,
    templates: &Templates<'a>,
    escalated: &EscalatedObjects,
    objects: &[Object],
    contacts: &ContactListing<'a>,
    periods: &Names<'a>,
) -> Result<Vec<Escalation>, AllocError>
    requires within { All (All (λ number. number < length objects.now)) escalated.now }
    requires long { length escalated.now ≡ length templates.now }
    requires few { length objects.now ≤ max_objects }
    requires contacts { contacts.now.blocks ≡ templates.now }
    requires asked { AskForAll escalated.now contacts.now.asked }
    requires periods { ArePeriods templates.now periods.now }
    ensures { IfOk result (λ escalations.
        AreEntriesOf templates.now objects.now escalated.now escalations.items) }
{
    let tables = Tables::new(alloc, templates, contacts)?;
    entries_of(alloc, templates, escalated, objects, &tables, periods)
}
