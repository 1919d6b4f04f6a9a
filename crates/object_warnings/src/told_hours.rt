//! The periods of the contacts that are told of an object (chapters "Notifications" and "Notification Escalations").

ghost use Rattle.std.specs.Prelude.{◌≡◌, ◌&&◌, ◌||◌, Bool, Option, false, true, IfOk, OnOk};
ghost use Rattle.std.specs.List.{list_any};
ghost use Rattle.due_model.specs.declared.config.PeriodId.{PeriodId};
ghost use Rattle.object_warnings.specs.Hours.{contacts_by, has_hours, has_hours_by, is_covered};

use crate::objects::rights_of;
use due_model::config::{Config, ContactId, Object, ObjectId, PeriodId};
use std::alloc::{AllocError, Global};

/// Whether two periods are one.
pub(crate) fn is_same(one: Option<PeriodId>, other: Option<PeriodId>) -> bool
    ensures { result ≡ true → one ≡ other }
{
    match (one, other) {
        (None, None) => true,
        (Some(number), Some(second)) => number.0 == second.0,
        (_, _) => false,
    }
}

/// Whether they are two.
pub(crate) fn differs(one: Option<PeriodId>, other: Option<PeriodId>) -> bool
    ensures { result ≡ false → one ≡ other }
{
    !is_same(one, other)
}

/// Whether the period is one of these.
fn is_among(hours: &[Option<PeriodId>], period: Option<PeriodId>) -> bool
    ensures { result ≡ true → (holds : Option PeriodId → Bool) → holds period ≡ true
        → list_any holds hours.now ≡ true }
{
    for other in hours {
        if is_same(*other, period) {
            return true;
        }
    }
    false
}

/// Adds a period, unless it is there.
fn add_hours(hours: &mut Vec<Option<PeriodId>>, period: Option<PeriodId>) -> Result<(), AllocError>
    ensures { OnOk result ((holds : Option PeriodId → Bool)
        → list_any holds hours.new.items ≡ (list_any holds hours.old.items || holds period)) }
{
    if is_among(hours.as_slice(), period) {
        return Ok(());
    }
    hours.push(period)?;
    Ok(())
}

/// The same where it is asked for.
fn add_if(
    hours: &mut Vec<Option<PeriodId>>,
    asked: bool,
    period: Option<PeriodId>,
) -> Result<(), AllocError>
    ensures { OnOk result ((holds : Option PeriodId → Bool) → list_any holds hours.new.items
        ≡ (list_any holds hours.old.items || (asked && holds period))) }
{
    if asked {
        add_hours(hours, period)?;
        return Ok(());
    }
    Ok(())
}

/// Whether the contact of that number has a command for the object's kind, and its period.
fn contact_hours(config: &Config, object: &Object, contact: ContactId) -> (bool, Option<PeriodId>)
    ensures { (holds : Option PeriodId → Bool)
        → has_hours config.now holds object.now contact ≡ (result.0 && holds result.1) }
{
    match config.contacts.as_slice().get(usize::from(contact.0)) {
        None => (false, None),
        Some(found) => {
            let rights = rights_of(object, found);
            (rights.lanes.len() != 0, rights.period)
        }
    }
}

/// Adds that period, if the contact has a command for the object's kind.
fn add_contact(
    config: &Config,
    object: &Object,
    hours: &mut Vec<Option<PeriodId>>,
    contact: ContactId,
) -> Result<(), AllocError>
    ensures { OnOk result ((holds : Option PeriodId → Bool) → list_any holds hours.new.items
        ≡ (list_any holds hours.old.items || has_hours config.now holds object.now contact)) }
{
    let (asked, period) = contact_hours(config, object, contact);
    add_if(hours, asked, period)?;
    Ok(())
}

/// Adds those of the contacts.
fn add_contacts(
    config: &Config,
    object: &Object,
    hours: &mut Vec<Option<PeriodId>>,
    contacts: &[ContactId],
) -> Result<(), AllocError>
    ensures { OnOk result ((holds : Option PeriodId → Bool) → list_any holds hours.new.items
        ≡ (list_any holds hours.old.items
        || list_any (has_hours config.now holds object.now) contacts.now)) }
{
    for contact in contacts {
        add_contact(config, object, hours, *contact)?;
    }
    Ok(())
}

/// The contacts of the escalation at the place.
fn contacts_by(config: &Config, place: usize) -> &[ContactId]
    ensures { result.now ≡ contacts_by config.now place }
{
    match config.escalations.as_slice().get(place) {
        None => &[],
        Some(escalation) => escalation.contacts.as_slice(),
    }
}

/// Adds those of its contacts.
fn add_escalation(
    config: &Config,
    object: &Object,
    hours: &mut Vec<Option<PeriodId>>,
    place: usize,
) -> Result<(), AllocError>
    ensures { OnOk result ((holds : Option PeriodId → Bool) → list_any holds hours.new.items
        ≡ (list_any holds hours.old.items || has_hours_by config.now holds object.now place)) }
{
    add_contacts(config, object, hours, contacts_by(config, place))?;
    Ok(())
}

/// Adds those of the contacts of the escalations at the places.
fn add_escalations(
    config: &Config,
    object: &Object,
    hours: &mut Vec<Option<PeriodId>>,
    places: &[usize],
) -> Result<(), AllocError>
    ensures { OnOk result ((holds : Option PeriodId → Bool) → list_any holds hours.new.items
        ≡ (list_any holds hours.old.items
        || list_any (has_hours_by config.now holds object.now) places.now)) }
{
    for place in places {
        add_escalation(config, object, hours, *place)?;
    }
    Ok(())
}

/// Adds those of the object's own contacts, and of those of its escalations.
fn add_all(
    config: &Config,
    number: ObjectId,
    object: &Object,
    hours: &mut Vec<Option<PeriodId>>,
) -> Result<(), AllocError>
    ensures { OnOk result ((holds : Option PeriodId → Bool) → list_any holds hours.new.items
        ≡ (list_any holds hours.old.items || is_covered config.now holds number.0 object.now)) }
{
    add_contacts(config, object, hours, object.contacts.as_slice())?;
    add_escalations(config, object, hours, config.escalations.of(number))?;
    Ok(())
}

/// The periods of the contacts with a command for the object's kind, each once: of its own and of those of its escalations.
/// One of them holds exactly where one of these contacts may be told. A refused growth leaves nothing.
pub(crate) fn hours_of(
    alloc: Global,
    config: &Config,
    number: ObjectId,
    object: &Object,
) -> Result<Vec<Option<PeriodId>>, AllocError>
    ensures { IfOk result (λ hours. (holds : Option PeriodId → Bool)
        → list_any holds hours.items ≡ is_covered config.now holds number.0 object.now) }
{
    let mut hours = Vec::new(alloc);
    add_all(config, number, object, &mut hours)?;
    Ok(hours)
}
