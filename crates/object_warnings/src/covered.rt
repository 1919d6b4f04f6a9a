//! Objects of which a contact is told at each minute of a week (chapters "Notifications" and "Time Periods").

ghost use Rattle.std.specs.Prelude.{◌≡◌, ℕ, ◌<◌, Some, true, IfOk};
ghost use Rattle.std.specs.List.{list_any};
ghost use Rattle.object_warnings.specs.Hours.{AreAlways, flag, has_hours, has_hours_by, is_covered, row_at, week};

use crate::objects::rights_of;
use crate::spans::{first_gap, flag};
use crate::week::Week;
use due_model::config::{Config, ContactId, Object, ObjectId, PeriodId};
use std::alloc::{AllocError, Global};

/// A period by its number.
fn period_id(number: usize) -> PeriodId
    requires { number < 65_536 }
    ensures { result.0 ≡ number }
{
    PeriodId(number as u16)
}

/// Whether the period holds at each minute.
fn is_always(all: &Week, period: PeriodId) -> bool
    ensures { result ≡ true → (minute : ℕ) → minute < week
        → flag (row_at all.now minute) (Some period) ≡ true }
{
    let hours = [Some(period)];
    match first_gap(all, None, &hours) {
        None => true,
        Some(_) => false,
    }
}

/// Which periods do.
pub(crate) fn always_of(alloc: Global, all: &Week, count: usize) -> Result<Vec<bool>, AllocError>
    ensures { IfOk result (λ flags. AreAlways all.now flags.items) }
{
    let mut flags = Vec::new(alloc);
    for number in 0..count.min(65_536) {
        flags.push(is_always(all, period_id(number)))?;
    }
    Ok(flags)
}

/// Whether the contact of that number has a command for the object's kind, and its period holds.
fn has_hours(config: &Config, flags: &[bool], object: &Object, contact: ContactId) -> bool
    ensures { result ≡ has_hours config.now (flag flags.now) object.now contact }
{
    match config.contacts.as_slice().get(usize::from(contact.0)) {
        None => false,
        Some(found) => {
            let rights = rights_of(object, found);
            rights.lanes.len() != 0 && flag(flags, rights.period)
        }
    }
}

/// Whether one of the contacts has.
fn have_hours(config: &Config, flags: &[bool], object: &Object, contacts: &[ContactId]) -> bool
    ensures { result ≡ list_any (has_hours config.now (flag flags.now) object.now) contacts.now }
{
    contacts
        .iter()
        .any(|contact| has_hours(config, flags, object, *contact))
}

/// Whether one of the contacts of the escalation at the place has.
fn has_hours_by(config: &Config, flags: &[bool], object: &Object, place: usize) -> bool
    ensures { result ≡ has_hours_by config.now (flag flags.now) object.now place }
{
    match config.escalations.as_slice().get(place) {
        None => false,
        Some(escalation) => have_hours(config, flags, object, escalation.contacts.as_slice()),
    }
}

/// Whether one of the contacts of the escalations at the places has.
fn have_hours_by(config: &Config, flags: &[bool], object: &Object, places: &[usize]) -> bool
    ensures { result ≡ list_any (has_hours_by config.now (flag flags.now) object.now) places.now }
{
    places
        .iter()
        .any(|place| has_hours_by(config, flags, object, *place))
}

/// Whether such a contact is the object's own, or one of its escalations.
pub(crate) fn is_covered(config: &Config, flags: &[bool], number: ObjectId, object: &Object) -> bool
    ensures { result ≡ is_covered config.now (flag flags.now) number.0 object.now }
{
    have_hours(config, flags, object, object.contacts.as_slice())
        || have_hours_by(config, flags, object, config.escalations.of(number))
}
