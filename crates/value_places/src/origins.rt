//! Which blocks an object comes from.

ghost use Rattle.std.specs.Prelude.{◌≡◌, ◌++◌, flat_map, length, map, IfErr, IfOk, OnOk};
ghost use Rattle.std.specs.List.{range_with_len};
ghost use Rattle.object_groups.specs.claims.Objects.{objects_in};
ghost use Rattle.object_reader.specs.declared.block.BlockKind.TheVariants.{Host, Service};
ghost use Rattle.object_services.specs.claims.Limits.{AreHostLists};
ghost use Rattle.object_services.specs.Limits.{IsRefusal};
ghost use Rattle.value_places.specs.Origins.{AreOrigins, host_origin, origins_of, service_origin, services_at};

use object_groups::groups::{GroupKind, Groups};
use object_groups::objects::Objects;
use object_inheritance::templates::Templates;
use object_reader::block::BlockKind;
use object_services::blocks::ServiceBlocks;
use object_services::services::{LimitFault, ServiceHosts};
use std::alloc::{AllocError, Global};

/// Where the blocks stand from which an object takes its values.
#[derive(Clone, Copy)]
pub(crate) struct Origin {
    /// Its own block.
    pub(crate) place: usize,
    /// The block of its host; a host's is its own.
    pub(crate) host: usize,
    /// Whether it is a service.
    pub(crate) is_service: bool,
}

/// The hosts whose blocks stand at the places.
fn host_origins(alloc: Global, places: &[usize]) -> Result<Vec<Origin>, AllocError>
    ensures { IfOk result (λ origins. origins.items ≡ map host_origin places.now) }
{
    let mut origins = Vec::with_capacity(alloc, places.len())?;
    for place in places {
        origins.push(Origin {
            place: *place,
            host: *place,
            is_service: false,
        })?;
    }
    Ok(origins)
}

/// The service that the block at the place gives on the host of that number, where the hosts' blocks stand at these.
fn service_origin(hosts: &[usize], place: usize, number: usize) -> Origin
    ensures { result ≡ service_origin hosts.now place number }
{
    let host = if number < hosts.len() {
        hosts[number]
    } else {
        0
    };
    Origin {
        place,
        host,
        is_service: true,
    }
}

/// Adds the services of the block at the place, one for each of its hosts.
fn push_services_at(
    origins: &mut Vec<Origin>,
    hosts: &[usize],
    place: usize,
    numbers: &[usize],
) -> Result<(), AllocError>
    ensures { OnOk result (origins.new.items
        ≡ origins.old.items ++ map (service_origin hosts.now place) numbers.now) }
{
    for number in numbers {
        origins.push(service_origin(hosts, place, *number))?;
    }
    Ok(())
}

/// Adds those of all service blocks, which stand at the places.
fn push_services(
    origins: &mut Vec<Origin>,
    hosts: &[usize],
    places: &[usize],
    lists: &ServiceHosts,
) -> Result<(), AllocError>
    ensures { OnOk result (origins.new.items ≡ origins.old.items
        ++ flat_map (services_at hosts.now places.now lists.now)
        (range_with_len 0 (length places.now))) }
{
    for (number, place) in places.iter().enumerate() {
        push_services_at(origins, hosts, *place, lists.hosts(number))?;
    }
    Ok(())
}

/// The hosts whose blocks stand at the first places, and then the services of the blocks at the others, which are on these hosts.
fn origins_in(
    alloc: Global,
    hosts: &[usize],
    places: &[usize],
    lists: &ServiceHosts,
) -> Result<Vec<Origin>, AllocError>
    ensures { IfOk result (λ origins. origins.items ≡ origins_of hosts.now places.now lists.now) }
{
    let mut origins = host_origins(alloc, hosts)?;
    push_services(&mut origins, hosts, places, lists)?;
    Ok(origins)
}

/// The objects of the blocks, where these are the hosts of each service block.
fn origins_with(
    alloc: Global,
    templates: &Templates<'_>,
    services: &ServiceBlocks<'_>,
    lists: &ServiceHosts,
) -> Result<Vec<Origin>, AllocError>
    requires { services.now ≡ templates.now }
    ensures { IfOk result (λ origins. origins.items
        ≡ origins_of (objects_in templates.now Host) (objects_in templates.now Service) lists.now) }
{
    let hosts = Objects::new(alloc, templates, BlockKind::Host)?;
    let at = hosts.places();
    let places = services.objects().places();
    origins_in(alloc, at, places, lists)
}

/// The hosts of each service block.
fn lists_of<'a>(
    alloc: Global,
    templates: &Templates<'a>,
    services: &ServiceBlocks<'a>,
) -> Result<ServiceHosts, LimitFault>
    requires { services.now ≡ templates.now }
    ensures lists { IfOk result (AreHostLists templates.now (objects_in templates.now Service)) }
    ensures fault { IfErr result (IsRefusal templates.now) }
{
    let mut groups = Groups::new(alloc, templates, GroupKind::HostGroups)?;
    ServiceHosts::new(alloc, services, &mut groups)
}

/// The objects of the blocks, in the order of their numbers.
pub(crate) fn origins_of(
    alloc: Global,
    templates: &Templates<'_>,
) -> Result<Vec<Origin>, LimitFault>
    ensures origins { IfOk result (λ origins. AreOrigins templates.now origins.items) }
    ensures fault { IfErr result (IsRefusal templates.now) }
{
    let services = ServiceBlocks::new(alloc, templates)?;
    let lists = lists_of(alloc, templates, &services)?;
    Ok(origins_with(alloc, templates, &services, &lists)?)
}
