//! Whom a configuration names for an object.

ghost use Rattle.std.specs.Prelude.{◌≡◌};
ghost use Rattle.due_model.specs.claims.Escalations.{has_contact};
ghost use Rattle.std.specs.List.{list_any};
ghost use Rattle.due_model.specs.ByObject.{places_of};
ghost use Rattle.due_model.specs.claims.Receivers.{rights_for};
ghost use Rattle.who_missed.specs.Missed.{has_command, is_named, is_named_at, is_own};

use due_model::config::{Config, Contact, ContactId, Object, ObjectId, Rights};

/// Whether contacts have this one among them.
pub(crate) fn has(contacts: &[ContactId], contact: ContactId) -> bool
    ensures { result ≡ has_contact contacts.now contact.0 }
{
    contacts.iter().any(|other| other.0 == contact.0)
}

/// Whether the escalation at a place names a contact.
fn is_named_at(config: &Config, contact: ContactId, place: usize) -> bool
    ensures { result ≡ is_named_at config.now contact.0 place }
{
    match config.escalations.as_slice().get(place) {
        Some(escalation) => has(escalation.contacts.as_slice(), contact),
        None => false,
    }
}

/// Whether a contact is one of the object's own.
pub(crate) fn is_own(config: &Config, object: ObjectId, contact: ContactId) -> bool
    ensures { result ≡ is_own config.now object.0 contact.0 }
{
    match config.objects.as_slice().get(usize::from(object.0)) {
        Some(object) => object.has_contact(contact),
        None => false,
    }
}

/// Whether an escalation of the object names a contact.
pub(crate) fn is_in_escalations(config: &Config, object: ObjectId, contact: ContactId) -> bool
    ensures { result
        ≡ list_any (is_named_at config.now contact.0) (places_of config.now.escalations object.0) }
{
    let places = config.escalations.of(object);
    places
        .iter()
        .any(|place| is_named_at(config, contact, *place))
}

/// Whether the configuration names a contact for an object.
pub fn is_named(config: &Config, object: ObjectId, contact: ContactId) -> bool
    ensures { result ≡ is_named config.now object.0 contact.0 }
{
    if usize::from(contact.0) >= config.contacts.len() {
        return false;
    }
    is_own(config, object, contact) || is_in_escalations(config, object, contact)
}

/// What a contact is notified of, for the kind of an object.
fn rights_for<'a>(object: &Object, contact: &'a Contact) -> &'a Rights
    ensures { result.now ≡ rights_for object.now contact.now }
{
    if object.host.is_some() {
        &contact.services
    } else {
        &contact.hosts
    }
}

/// Whether a contact has a command for such an object.
pub fn has_command(config: &Config, object: ObjectId, contact: ContactId) -> bool
    ensures { result ≡ has_command config.now object.0 contact.0 }
{
    let Some(object) = config.objects.as_slice().get(usize::from(object.0)) else {
        return false;
    };
    match config.contacts.as_slice().get(usize::from(contact.0)) {
        Some(contact) => 0 < rights_for(object, contact).lanes.len(),
        None => false,
    }
}
