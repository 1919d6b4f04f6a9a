//! Objects that have the name of another of their type.

ghost use Rattle.object_names.specs.claims.Doubled.{IsDoubled, IsDoubledOf};
ghost use Rattle.object_names.specs.Doubled.{IsDoubledAmong};
ghost use Rattle.object_groups.specs.claims.First.{IsFirst};

use crate::named::{NamedKind, NamedObjects};
use object_groups::first::lower;
use object_groups::objects::Objects;

/// The place of the first of the objects that has the name of one before it.
fn first_of(objects: &Objects) -> Option<usize>
    ensures { IsFirst (IsDoubledOf objects.now.blocks objects.now.kind) result }
{
    for (number, place) in objects.places().iter().enumerate() {
        if objects.names().is_doubled(number) {
            return Some(*place);
        }
    }
    None
}

/// The place of the first object of one of the types that has the name of one before it.
fn first_among(objects: &NamedObjects, kinds: &[NamedKind]) -> Option<usize>
    ensures { IsFirst (IsDoubledAmong objects.now kinds.now) result }
{
    let mut first = None;
    for kind in kinds {
        let found = first_of(objects.objects(*kind));
        first = lower(first, found);
    }
    first
}

/// The place of the first block, in file order, whose object has the name that one of the same type before it
/// has, if there is one: a host, a host group, a service group, a contact, a contact group, a time period
/// or a command. Names that templates give count; blocks of which `register` is 0 don't. Services are looked for
/// elsewhere, once their hosts are known. The time grows with the objects, and no memory is needed.
pub fn first_doubled(objects: &NamedObjects) -> Option<usize>
    ensures { IsFirst (IsDoubled objects.now) result }
{
    let kinds = [
        NamedKind::Host,
        NamedKind::HostGroup,
        NamedKind::ServiceGroup,
        NamedKind::Contact,
        NamedKind::ContactGroup,
        NamedKind::TimePeriod,
        NamedKind::Command,
    ];
    first_among(objects, &kinds)
}
