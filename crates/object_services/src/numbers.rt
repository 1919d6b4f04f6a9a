//! Services by their hosts and descriptions.

ghost use Rattle.std.specs.Prelude.{◌≡◌, ◌<◌, ◌++◌, ◌∷◌, List, [], length, map};
ghost use Rattle.std.specs.Prelude.{IfOk, IfSome, OnOk};
ghost use Rattle.object_services.specs.claims.Numbers.{Pair, pairs_of};
ghost use Rattle.object_services.specs.Numbers.{HasPlaces, pairs_in};
ghost use Rattle.object_services.specs.claims.Numbers.{service_number};

use crate::services::ServiceHosts;
use indexmap::IndexMap;
use object_groups::names::Names;
use std::alloc::{AllocError, Global};
use std::marker::Model;

/// Adds the services of a block.
fn push_block<'a>(
    pairs: &mut Vec<(usize, &'a [u8])>,
    hosts: &[usize],
    description: &'a [u8],
) -> Result<(), AllocError>
    ensures { OnOk result (pairs_in pairs.new.items
        ≡ pairs_in pairs.old.items ++ map (λ host. (host, description.now)) hosts.now) }
{
    for host in hosts {
        pairs.push((*host, description))?;
    }
    Ok(())
}

/// How many services there are, for the room that they take.
fn service_count(lists: &ServiceHosts) -> usize {
    let mut count: usize = 0;
    for number in 0..lists.len() {
        count = count.saturating_add(lists.hosts(number).len());
    }
    count
}

/// The services of all blocks, block by block: each by the number of its host, and its description. A refused growth leaves
/// nothing.
pub fn pairs_of<'a>(
    alloc: Global,
    descriptions: &Names<'a>,
    lists: &ServiceHosts,
) -> Result<Vec<(usize, &'a [u8])>, AllocError>
    ensures { IfOk result (λ pairs.
        pairs_in pairs.items ≡ pairs_of descriptions.now lists.now) }
{
    let mut pairs = Vec::with_capacity(alloc, service_count(lists))?;
    for number in 0..lists.len() {
        push_block(&mut pairs, lists.hosts(number), descriptions.name(number))?;
    }
    Ok(pairs)
}

/// Notes the place of one more service, unless one of its host and description stands before it.
fn note<'a>(
    places: &mut IndexMap<(usize, &'a [u8]), usize>,
    host: usize,
    description: &'a [u8],
    place: usize,
) -> Result<(), AllocError>
    ensures { OnOk result ((pairs : List Pair) → length pairs ≡ place
        → HasPlaces pairs places.old.entries
        → HasPlaces (pairs ++ (host, description.now) ∷ []) places.new.entries) }
{
    places.entry((host, description))?.or_insert(place);
    Ok(())
}

/// The services of blocks by their hosts and descriptions. They take some 80 bytes each. Contracts see the list
/// of them: each by the number of its host, and its description.
#[derive(Drop)]
pub struct ServiceNumbers<'a> {
    pairs: Vec<(usize, &'a [u8])>,
    /// The place of each service: the first, where one stands there twice.
    places: IndexMap<(usize, &'a [u8]), usize>,
}

impl<'a> Model for ServiceNumbers<'a> {
    ghost use Rattle.std.specs.Prelude.{List};
    ghost use Rattle.object_services.specs.claims.Numbers.{Pair};
    ghost use Rattle.object_services.specs.Numbers.{HasPlaces, pairs_in};

    ghost Value = { List Pair };

    ghost view = { λ s. pairs_in s.pairs.items };

    ghost invariant = { λ s. HasPlaces (pairs_in s.pairs.items) s.places.entries };
}

impl<'a> ServiceNumbers<'a> {
    /// The services of the blocks with these descriptions and lists of hosts, in their order: block by block, and
    /// within a block host by host. A refused growth leaves nothing.
    pub fn new(
        alloc: Global,
        descriptions: &Names<'a>,
        lists: &ServiceHosts,
    ) -> Result<ServiceNumbers<'a>, AllocError>
        ensures { IfOk result (λ made. made ≡ pairs_of descriptions.now lists.now) }
    {
        let pairs = pairs_of(alloc, descriptions, lists)?;
        let mut places = IndexMap::with_capacity(alloc, pairs.len())?;
        for place in 0..pairs.len() {
            let pair = pairs[place];
            note(&mut places, pair.0, pair.1, place)?;
        }
        Ok(ServiceNumbers { pairs, places })
    }

    /// How many services there are.
    pub fn len(&self) -> usize
        ensures { result ≡ length self.now }
    {
        self.pairs.len()
    }

    /// The place of the service of that host and description among the services; the first, where there are several,
    /// and `None` where there is none. A service's number as an object is the number of the hosts and its place.
    pub fn find(&self, host: usize, description: &'a [u8]) -> Option<usize>
        ensures place { result ≡ service_number self.now host description.now }
        ensures within { IfSome result (λ place. place < length self.now) }
    {
        self.places.get(&(host, description)).copied()
    }
}
