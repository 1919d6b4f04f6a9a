//! Who is notified.

ghost use Rattle.std.specs.Prelude.{◌≡◌, ◌<◌, ◌≤◌, ◌++◌, All, Some, length, slice_get};
ghost use Rattle.std.specs.Prelude.{IfOk, OnErr, OnOk};
ghost use Rattle.due_model.specs.claims.Accepted.{IsAccepted};
ghost use Rattle.due_model.specs.claims.Escalations.{contacts_with, has_contact, reach};
ghost use Rattle.due_model.specs.claims.Limits.{last_moment};
ghost use Rattle.due_model.specs.declared.config.Object.{Object};
ghost use Rattle.time_period.specs.claims.Days.{AreCompiled};
ghost use Rattle.escalation.specs.Matching.{applying};
ghost use Rattle.escalation.specs.Named.{contact_ids, has_some, named_by};

use crate::in_order::{append_in_order, is_in_order};
use crate::matching::applies;
use due_model::config::{Config, ContactId, ObjectId};
use due_model::options::OptionLetter;
use std::alloc::{AllocError, Global};
use time_period::compiled::Compiled;
use zone_times::clock::ZoneClock;

/// Appends who is notified of a problem, or of a recovery from it: the contacts of the escalations that match, and
/// the object's own where none does, each once and in number order. The number is that of the problem notice; of
/// a recovery, how many problem notices went out before it. A refused growth leaves `out` as it was.
pub fn contacts(
    alloc: Global,
    config: &Config,
    object: ObjectId,
    number: u64,
    letter: OptionLetter,
    t: u64,
    periods: &[Compiled],
    zone: &ZoneClock<'_>,
    out: &mut Vec<ContactId>,
) -> Result<(), AllocError>
    requires accepted { IsAccepted config.now }
    requires object { object.0 < length config.now.objects }
    requires moment { t ≤ last_moment }
    requires compiled { AreCompiled config.now periods.now }
    ensures appended { OnOk result ((settings : Object)
        → slice_get config.now.objects object.0 ≡ Some settings
        → out.new.items ≡ out.old.items
        ++ contact_ids (reach config.now zone.now object.0 settings number letter t)) }
    ensures refused { OnErr result (out.new.items ≡ out.old.items) }
{
    let mut named = Vec::new(alloc);
    let places = config.escalations.of(object);
    if name_applying(config, places, number, letter, t, periods, zone, &mut named)? {
        append_in_order(named, out)
    } else {
        own_contacts(alloc, config, object, out)
    }
}

/// Appends the object's own contacts, each once and in number order: who is notified of flapping and of a downtime,
/// which no escalation concerns. A refused growth leaves `out` as it was.
pub fn own_contacts(
    alloc: Global,
    config: &Config,
    object: ObjectId,
    out: &mut Vec<ContactId>,
) -> Result<(), AllocError>
    requires accepted { IsAccepted config.now }
    requires object { object.0 < length config.now.objects }
    ensures appended { OnOk result ((settings : Object)
        → slice_get config.now.objects object.0 ≡ Some settings
        → out.new.items ≡ out.old.items
        ++ contact_ids (contacts_with config.now (has_contact settings.contacts))) }
    ensures refused { OnErr result (out.new.items ≡ out.old.items) }
{
    let own = config.objects.as_slice()[usize::from(object.0)]
        .contacts
        .as_slice();
    if is_in_order(own) {
        out.extend_from_slice(own)
    } else {
        append_in_order(Vec::from_slice(alloc, own)?, out)
    }
}

/// Appends the contacts of the escalations at these places that apply, as they stand there, and answers whether
/// there is such an escalation.
fn name_applying(
    config: &Config,
    places: &[usize],
    number: u64,
    letter: OptionLetter,
    t: u64,
    periods: &[Compiled],
    zone: &ZoneClock<'_>,
    named: &mut Vec<ContactId>,
) -> Result<bool, AllocError>
    requires accepted { IsAccepted config.now }
    requires within { All (λ place. place < length config.now.escalations) places.now }
    requires moment { t ≤ last_moment }
    requires compiled { AreCompiled config.now periods.now }
    ensures some { IfOk result (λ some. some
        ≡ has_some (applying config.now zone.now number letter t places.now)) }
    ensures named { OnOk result (named.new.items ≡ named.old.items
        ++ named_by (applying config.now zone.now number letter t places.now)) }
{
    let mut some = false;
    for place in places {
        let escalation = &config.escalations.as_slice()[*place];
        if applies(escalation, number, letter, t, periods, zone) {
            named.extend_from_slice(escalation.contacts.as_slice())?;
            some = true;
        }
    }
    Ok(some)
}
