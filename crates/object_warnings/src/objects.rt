//! Hosts and services of whose problems nobody is told (chapters "Notifications" and "Notification Escalations").

ghost use Rattle.std.specs.Prelude.{◌≡◌, ◌≤◌, length, IfOk};
ghost use Rattle.std.specs.List.{list_any};
ghost use Rattle.due_model.specs.claims.Accepted.{IsAccepted};
ghost use Rattle.due_model.specs.claims.Limits.{max_objects};
ghost use Rattle.object_warnings.specs.Numbers.{numbers_where};
ghost use Rattle.object_warnings.specs.Objects.{can_notify, has_command, has_some_letter};
ghost use Rattle.object_warnings.specs.Objects.{is_told, lacks_problems, lacks_problems_at, rights_of};
ghost use Rattle.object_warnings.specs.Objects.{tells_by, tells_nobody, tells_nobody_at};

use crate::numbers::push_where;
use due_model::config::{Config, Contact, ContactId, Object, ObjectId, Rights};
use due_model::options::OptionLetters;
use std::alloc::{AllocError, Global};

/// Whether there is any of the letters.
fn has_some_letter(options: OptionLetters) -> bool
    ensures { result ≡ has_some_letter options }
{
    options.down
        || options.unreachable
        || options.warning
        || options.unknown
        || options.critical
        || options.recovery
        || options.flapping
        || options.downtime
}

/// Whether notifications about an object may be sent: they are enabled, and its options have a letter.
pub(crate) fn can_notify(object: &Object) -> bool
    ensures { result ≡ can_notify object.now }
{
    object.enabled && has_some_letter(object.options)
}

/// Whether the options of an object lack the letters of its problems altogether.
fn lacks_problems(object: &Object) -> bool
    ensures { result ≡ lacks_problems object.now }
{
    let options = object.options;
    match object.host {
        None => !(options.down || options.unreachable),
        Some(_) => !(options.warning || options.unknown || options.critical),
    }
}

/// What the contact is notified of for the object's kind.
pub(crate) fn rights_of<'a>(object: &Object, contact: &'a Contact) -> &'a Rights
    ensures { result.now ≡ rights_of object.now contact.now }
{
    match object.host {
        None => &contact.hosts,
        Some(_) => &contact.services,
    }
}

/// Whether a contact has a command for objects of the kind.
fn has_command(config: &Config, object: &Object, contact: ContactId) -> bool
    ensures { result ≡ has_command config.now object.now contact }
{
    match config.contacts.as_slice().get(usize::from(contact.0)) {
        None => false,
        Some(found) => rights_of(object, found).lanes.len() != 0,
    }
}

/// Whether one of the contacts has.
fn have_command(config: &Config, object: &Object, contacts: &[ContactId]) -> bool
    ensures { result ≡ list_any (has_command config.now object.now) contacts.now }
{
    contacts
        .iter()
        .any(|contact| has_command(config, object, *contact))
}

/// Whether one of the contacts of the escalation at the place has.
fn tells_by(config: &Config, object: &Object, place: usize) -> bool
    ensures { result ≡ tells_by config.now object.now place }
{
    match config.escalations.as_slice().get(place) {
        None => false,
        Some(escalation) => have_command(config, object, escalation.contacts.as_slice()),
    }
}

/// Whether one of the contacts of the escalations at the places has.
fn tell_by(config: &Config, object: &Object, places: &[usize]) -> bool
    ensures { result ≡ list_any (tells_by config.now object.now) places.now }
{
    places.iter().any(|place| tells_by(config, object, *place))
}

/// Whether a contact with a command for the object's kind is told of it: one of its own, or of its escalations.
pub(crate) fn is_told(config: &Config, number: ObjectId, object: &Object) -> bool
    ensures { result ≡ is_told config.now number.0 object.now }
{
    have_command(config, object, object.contacts.as_slice())
        || tell_by(config, object, config.escalations.of(number))
}

/// Whether notifications about the object may be sent, and nobody is told.
fn tells_nobody(config: &Config, number: ObjectId, object: &Object) -> bool
    ensures { result ≡ tells_nobody config.now number.0 object.now }
{
    can_notify(object) && !is_told(config, number, object)
}

/// An object by its number.
pub(crate) fn object_id(number: usize) -> ObjectId
    requires { number ≤ max_objects }
    ensures { result.0 ≡ number }
{
    ObjectId(number as u16)
}

/// The same of the object of the number.
fn tells_nobody_at(config: &Config, number: usize) -> bool
    requires accepted { IsAccepted config.now }
    ensures { result ≡ tells_nobody_at config.now number }
{
    match config.objects.as_slice().get(number) {
        None => false,
        Some(object) => tells_nobody(config, object_id(number), object),
    }
}

/// Whether the object of the number lacks the letters of its problems.
fn lacks_problems_at(config: &Config, number: usize) -> bool
    ensures { result ≡ lacks_problems_at config.now number }
{
    match config.objects.as_slice().get(number) {
        None => false,
        Some(object) => lacks_problems(object),
    }
}

/// The numbers of the objects that can notify and tell nobody (NobodyTold): neither a contact of their own nor one of an
/// escalation of theirs has a command for their kind. A refused growth leaves nothing.
pub fn untold(alloc: Global, config: &Config) -> Result<Vec<usize>, AllocError>
    requires accepted { IsAccepted config.now }
    ensures { IfOk result (λ found. found.items
        ≡ numbers_where (tells_nobody_at config.now) (length config.now.objects)) }
{
    let mut found = Vec::new(alloc);
    for number in 0..config.objects.len() {
        push_where(&mut found, number, tells_nobody_at(config, number))?;
    }
    Ok(found)
}

/// The numbers of the objects whose options lack the letters of their problems altogether (MissingOption). A refused growth
/// leaves nothing.
pub fn without_problems(alloc: Global, config: &Config) -> Result<Vec<usize>, AllocError>
    ensures { IfOk result (λ found. found.items
        ≡ numbers_where (lacks_problems_at config.now) (length config.now.objects)) }
{
    let mut found = Vec::new(alloc);
    for number in 0..config.objects.len() {
        push_where(&mut found, number, lacks_problems_at(config, number))?;
    }
    Ok(found)
}
