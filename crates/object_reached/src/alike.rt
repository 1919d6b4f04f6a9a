//! Blocks that have the same lists.

ghost use Rattle.std.specs.Prelude.{◌≡◌, [], IfOk, OnOk};
ghost use Rattle.object_groups.specs.claims.Objects.{list_at};
ghost use Rattle.object_reached.specs.Alike.{AreListsAlike, HaveLists, IsAlike};
ghost use Rattle.object_reached.specs.Listed.{ServiceListingOf};

use crate::listing::ServiceListing;
use indexmap::IndexMap;
use object_inheritance::inherited::Values;
use std::alloc::{AllocError, Global};

/// Blocks of which lists were asked for: by the block that gives a list, and by a text that isn't added to another list,
/// the place of the first that has the same. Its memory grows with them.
#[derive(Drop)]
pub struct Alike<'a> {
    /// By the place of the block that gives a list, the place of one that has the same.
    pub by_place: IndexMap<usize, usize>,
    /// By the text of a list, the place of one that has it.
    pub by_text: IndexMap<&'a [u8], usize>,
}

/// None of them.
fn none_alike<'a>(alloc: Global) -> Alike<'a>
    ensures by_place { result.by_place.entries ≡ [] }
    ensures by_text { result.by_text.entries ≡ [] }
{
    Alike {
        by_place: IndexMap::new(alloc),
        by_text: IndexMap::new(alloc),
    }
}

/// The place of a block whose list has the same text, where the list of the block at the place is its text alone.
fn by_text<'a>(
    values: &Values<'a>,
    alike: &mut Alike<'a>,
    place: usize,
) -> Result<usize, AllocError>
    requires { IsAlike values.now.blocks values.now.directive alike.old }
    ensures alike { OnOk result (IsAlike values.now.blocks values.now.directive alike.new) }
    ensures same { IfOk result (λ other. list_at values.now.blocks values.now.directive other
        ≡ list_at values.now.blocks values.now.directive place) }
{
    if values.added_to(place).is_some() {
        return Ok(place);
    }
    let Some(text) = values.value(place) else {
        return Ok(place);
    };
    if let Some(other) = alike.by_text.get(&text) {
        return Ok(*other);
    }
    alike.by_text.insert(text, place)?;
    Ok(place)
}

/// The place of a block that has the same list as the one at the place: one for all that take it from the same block, or
/// from blocks that give the same text. The time grows with the text of a list where the block that gives it is met first.
fn alike_at<'a>(
    values: &Values<'a>,
    alike: &mut Alike<'a>,
    place: usize,
) -> Result<usize, AllocError>
    requires { IsAlike values.now.blocks values.now.directive alike.old }
    ensures alike { OnOk result (IsAlike values.now.blocks values.now.directive alike.new) }
    ensures same { IfOk result (λ other. list_at values.now.blocks values.now.directive other
        ≡ list_at values.now.blocks values.now.directive place) }
{
    let origin = values.origin(place);
    if let Some(other) = alike.by_place.get(&origin) {
        return Ok(*other);
    }
    let other = by_text(values, alike, origin)?;
    alike.by_place.insert(origin, other)?;
    Ok(other)
}

/// Blocks of which the lists of hosts, of host groups and of descriptions were asked for. Its memory grows with them.
#[derive(Drop)]
pub struct Alikes<'a> {
    /// By their lists of hosts.
    pub hosts: Alike<'a>,
    /// By their lists of host groups.
    pub host_groups: Alike<'a>,
    /// By their lists of descriptions.
    pub descriptions: Alike<'a>,
}

/// None of them.
pub fn none_found<'a>(alloc: Global) -> Alikes<'a>
    ensures { (listing : ServiceListingOf) → AreListsAlike listing result }
{
    Alikes {
        hosts: none_alike(alloc),
        host_groups: none_alike(alloc),
        descriptions: none_alike(alloc),
    }
}

/// The places of blocks that have the same lists of hosts, of host groups and of descriptions as the one at the place: the
/// same for all that take a list from the same block, or from blocks that give the same text. The time grows with the texts
/// of the lists where the blocks that give them are met first. After a refused growth nothing is promised of `alikes`.
pub fn lists_like<'a>(
    listing: &ServiceListing<'a>,
    alikes: &mut Alikes<'a>,
    place: usize,
) -> Result<((usize, usize), usize), AllocError>
    requires { AreListsAlike listing.now alikes.old }
    ensures alike { OnOk result (AreListsAlike listing.now alikes.new) }
    ensures lists { IfOk result (HaveLists listing.now.blocks listing.now.directives place) }
{
    let hosts = listing.hosts();
    let named = alike_at(hosts.objects(), &mut alikes.hosts, place)?;
    let grouped = alike_at(hosts.groups(), &mut alikes.host_groups, place)?;
    let described = alike_at(listing.descriptions(), &mut alikes.descriptions, place)?;
    Ok(((named, grouped), described))
}
