//! Where objects of a configuration come from.

ghost use Rattle.std.specs.Prelude.{◌≡◌};

use object_groups::groups::{GroupKind, Groups};
use object_groups::objects::Objects;
use object_inheritance::templates::Templates;
use object_reader::block::BlockKind;
use object_services::blocks::ServiceBlocks;
use object_services::services::ServiceHosts;
use std::alloc::{AllocError, Global};

/// The hosts of each service block.
fn lists_of<'a>(
    alloc: Global,
    templates: &Templates<'a>,
    services: &ServiceBlocks<'a>,
) -> Result<ServiceHosts, AllocError>
    requires { services.now ≡ templates.now }
{
    let mut groups = Groups::new(alloc, templates, GroupKind::HostGroups)?;
    match ServiceHosts::new(alloc, services, &mut groups) {
        Ok(lists) => Ok(lists),
        Err(_) => Err(AllocError),
    }
}

/// Adds the place of a service block once for each of its hosts.
fn push_place(places: &mut Vec<usize>, place: usize, hosts: &[usize]) -> Result<(), AllocError> {
    for _host in hosts {
        places.push(place)?;
    }
    Ok(())
}

/// Adds the places of service blocks, of each once for each of its hosts.
fn push_services(
    places: &mut Vec<usize>,
    blocks: &[usize],
    lists: &ServiceHosts,
) -> Result<(), AllocError> {
    for number in 0..blocks.len() {
        push_place(places, blocks[number], lists.hosts(number))?;
    }
    Ok(())
}

/// The places of the blocks that give the services, in number order, after those of the hosts.
fn places_after(
    alloc: Global,
    templates: &Templates<'_>,
    hosts: &[usize],
) -> Result<Vec<usize>, AllocError> {
    let services = ServiceBlocks::new(alloc, templates)?;
    let lists = lists_of(alloc, templates, &services)?;
    let mut places = Vec::from_slice(alloc, hosts)?;
    push_services(&mut places, services.objects().places(), &lists)?;
    Ok(places)
}

/// The places of the blocks that give the hosts, and then the services, in number order.
pub(crate) fn object_places(
    alloc: Global,
    templates: &Templates<'_>,
) -> Result<Vec<usize>, AllocError> {
    let hosts = Objects::new(alloc, templates, BlockKind::Host)?;
    let places = places_after(alloc, templates, hosts.places())?;
    Ok(places)
}

/// The places of the blocks that give the periods, in number order.
pub(crate) fn period_places(
    alloc: Global,
    templates: &Templates<'_>,
) -> Result<Vec<usize>, AllocError> {
    let periods = Objects::new(alloc, templates, BlockKind::TimePeriod)?;
    let places = Vec::from_slice(alloc, periods.places())?;
    Ok(places)
}
