//! What one block gives for its objects, and the objects made of it.

ghost use Rattle.std.specs.Prelude.{◌≡◌, ◌<◌, map, unwrap_or, All, IfOk, None, Some};
ghost use Rattle.due_model.specs.claims.Objects.{object_id};
ghost use Rattle.object_settings.specs.Own.{contacts_of, IsTaken};

use due_model::config::{ContactId, ContactList, Object, ObjectId, PeriodId};
use due_model::options::OptionLetters;
use due_model::short_list::Text;
use std::alloc::{AllocError, Global};

/// What a block gives, by itself or by its templates.
#[derive(Drop)]
pub(crate) struct Own<'a> {
    /// The name of its objects: a host's name, or the description of services.
    pub(crate) name: &'a [u8],
    /// Whether it gives neither contacts nor contact groups.
    pub(crate) lacks_contacts: bool,
    /// The contacts, each once and in number order.
    pub(crate) contacts: &'a [ContactId],
    /// The interval, in units of 60 seconds; none where it has none.
    pub(crate) interval: Option<u32>,
    /// The period; none where it has none, and `Some(None)` is always.
    pub(crate) period: Option<Option<PeriodId>>,
    pub(crate) options: OptionLetters,
    pub(crate) enabled: bool,
    pub(crate) volatile: bool,
    /// The first delay, in units of 60 seconds.
    pub(crate) delay: u32,
}

/// The interval, or that of the host, or 30.
fn interval_of(own: Option<u32>, host: Option<u32>) -> u32
    ensures { result ≡ unwrap_or own (unwrap_or host 30) }
{
    match own {
        Some(interval) => interval,
        None => match host {
            Some(interval) => interval,
            None => 30,
        },
    }
}

/// The period, or that of the host, or always.
fn period_of(own: Option<Option<PeriodId>>, host: Option<Option<PeriodId>>) -> Option<PeriodId>
    ensures { result ≡ unwrap_or own (unwrap_or host None) }
{
    match own {
        Some(period) => period,
        None => match host {
            Some(period) => period,
            None => None,
        },
    }
}

/// The contacts, or those of the host.
fn contacts_of<'a>(alloc: Global, own: &Own<'a>, host: &Own<'a>) -> Result<ContactList, AllocError>
    ensures { IfOk result (λ contacts. contacts ≡ contacts_of own.now host.now) }
{
    if own.lacks_contacts {
        ContactList::new(alloc, host.contacts)
    } else {
        ContactList::new(alloc, own.contacts)
    }
}

/// The object of a block, which takes from its host what the block lacks. A host's host is itself.
pub(crate) fn object_of<'a>(
    alloc: Global,
    own: &Own<'a>,
    host: &Own<'a>,
    number: Option<ObjectId>,
) -> Result<Object, AllocError>
    ensures host { IfOk result (λ object. object.host ≡ number) }
    ensures taken { IfOk result (IsTaken own.now host.now) }
{
    Ok(Object {
        name: Text::new(alloc, own.name)?,
        host: number,
        enabled: own.enabled,
        options: own.options,
        period: period_of(own.period, host.period),
        interval: interval_of(own.interval, host.interval),
        delay: own.delay,
        volatile: own.volatile,
        contacts: contacts_of(alloc, own, host)?,
    })
}
