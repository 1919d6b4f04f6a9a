//! The services that the members of service groups name.

ghost use Rattle.std.specs.Prelude.{◌≡◌, ◌++◌, filter_map, IfOk, OnOk};
ghost use Rattle.std.specs.Option.{option_to_list};
ghost use Rattle.object_pairs.specs.claims.Members.{place_of_pair, places_of};
ghost use Rattle.object_pairs.specs.Pairs.{pairs_in};
ghost use Rattle.object_values.specs.Values.{texts};

use crate::pairs::by_two;
use object_groups::names::Names;
use object_services::numbers::ServiceNumbers;
use std::alloc::{AllocError, Global};

/// The place of the service that a pair names.
fn place_of_pair<'a>(
    hosts: &Names<'a>,
    services: &ServiceNumbers<'a>,
    pair: (&'a [u8], &'a [u8]),
) -> Option<usize>
    ensures { result ≡ place_of_pair hosts.now services.now (pair.entry.0.now, pair.entry.1.now) }
{
    let host = hosts.find(pair.0)?;
    services.find(host, pair.1)
}

/// Adds the place of a service that is found.
fn push_place(places: &mut Vec<usize>, found: Option<usize>) -> Result<(), AllocError>
    ensures { OnOk result (places.new.items ≡ places.old.items ++ option_to_list found) }
{
    if let Some(place) = found {
        places.push(place)?;
    }
    Ok(())
}

/// The places of the services that the pairs name.
fn places_of_pairs<'a>(
    alloc: Global,
    hosts: &Names<'a>,
    services: &ServiceNumbers<'a>,
    pairs: &[(&'a [u8], &'a [u8])],
) -> Result<Vec<usize>, AllocError>
    ensures { IfOk result (λ places. places.items
        ≡ filter_map (place_of_pair hosts.now services.now) (pairs_in pairs.now)) }
{
    let mut places = Vec::new(alloc);
    for pair in pairs {
        push_place(&mut places, place_of_pair(hosts, services, *pair))?;
    }
    Ok(places)
}

/// The places, among the services, of those that a list of members names, hosts and services by turns, in the order of
/// the list: one that is named twice stands there twice. A pair that is no service adds nothing; where
/// an entry is left over there are none. A refused growth leaves nothing.
pub fn services_named<'a>(
    alloc: Global,
    hosts: &Names<'a>,
    services: &ServiceNumbers<'a>,
    members: &[&'a [u8]],
) -> Result<Vec<usize>, AllocError>
    ensures { IfOk result (λ places.
        places.items ≡ places_of hosts.now services.now (texts members.now)) }
{
    match by_two(alloc, members)? {
        None => Ok(Vec::new(alloc)),
        Some(pairs) => places_of_pairs(alloc, hosts, services, pairs.as_slice()),
    }
}
