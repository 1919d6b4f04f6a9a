//! The places of the services that lists of hosts, of descriptions and of groups reach.

ghost use Rattle.std.specs.Prelude.{◌≡◌, ◌≤◌, [], ◌∷◌, ◌++◌, ◌||◌};
ghost use Rattle.std.specs.Prelude.{ℕ, List, All, Contains, IfOk, IfSome};
ghost use Rattle.std.specs.Prelude.{OnOk, filter, is_some, length, slice_get};
ghost use Rattle.std.specs.Option.{option_to_list};
ghost use Rattle.object_reached.specs.Listed.{AddsMembers, is_named_at, IsNthOn, IsOn, OfSome};
ghost use Rattle.object_reached.specs.Services.{services_on};
ghost use Rattle.object_listing.specs.Listing.{Adds};
ghost use Rattle.object_values.specs.Values.{texts};

use crate::services::HostServices;
use object_groups::names::{Names, is_all};
use object_listing::numbers::shorten;
use object_service_groups::groups::ServiceGroups;
use std::alloc::{AllocError, Global};
use std::marker::Model;

/// A list of descriptions. Contracts see its entries.
#[derive(Drop)]
pub(crate) struct Descriptions<'a> {
    all: bool,
    names: Names<'a>,
}

impl<'a> Model for Descriptions<'a> {
    ghost use Rattle.std.specs.Prelude.{◌≡◌, ℕ, List};
    ghost use Rattle.object_groups.specs.claims.Names.{is_all};

    ghost Value = { List (List ℕ) };

    ghost view = { λ s. s.names };

    ghost invariant = { λ s. s.all ≡ is_all s.names };
}

impl<'a> Descriptions<'a> {
    /// The list with these entries.
    pub(crate) fn new(alloc: Global, entries: Vec<&'a [u8]>) -> Result<Descriptions<'a>, AllocError>
        ensures { IfOk result (λ made. made ≡ texts entries.entry.items) }
    {
        let all = is_all(entries.as_slice());
        let names = Names::new(alloc, entries)?;
        Ok(Descriptions { all, names })
    }

    /// Whether it names the description of the service at that place.
    fn has(&self, services: &HostServices<'a>, service: usize) -> bool
        ensures { result ≡ is_named_at services.now self.now service }
    {
        self.all || self.names.find(services.description(service)).is_some()
    }
}

/// Adds the service at that place, where the list names its description.
fn push_named<'a>(
    found: &mut Vec<usize>,
    services: &HostServices<'a>,
    descriptions: &Descriptions<'a>,
    service: usize,
) -> Result<(), AllocError>
    ensures { OnOk result (found.new.items ≡ found.old.items
        ++ filter (is_named_at services.now descriptions.now) (service ∷ [])) }
{
    if descriptions.has(services, service) {
        found.push(service)?;
    }
    Ok(())
}

/// Adds the services of a host whose descriptions the list names.
fn push_host<'a>(
    found: &mut Vec<usize>,
    services: &HostServices<'a>,
    descriptions: &Descriptions<'a>,
    host: usize,
) -> Result<(), AllocError>
    ensures { OnOk result (Adds (IsOn services.now descriptions.now host)
        found.old.items found.new.items) }
{
    for service in services.of_host(host) {
        push_named(found, services, descriptions, *service as usize)?;
    }
    Ok(())
}

/// Adds those of all these hosts, host by host.
fn push_each<'a>(
    found: &mut Vec<usize>,
    services: &HostServices<'a>,
    descriptions: &Descriptions<'a>,
    hosts: &[usize],
) -> Result<(), AllocError>
    ensures { OnOk result (Adds (OfSome (IsOn services.now descriptions.now) hosts.now)
        found.old.items found.new.items) }
{
    for host in hosts {
        push_host(found, services, descriptions, *host)?;
    }
    Ok(())
}

/// Adds the service at the place of the turn among those of a host, where the list names its description.
fn push_nth<'a>(
    found: &mut Vec<usize>,
    services: &HostServices<'a>,
    descriptions: &Descriptions<'a>,
    turn: usize,
    host: usize,
) -> Result<(), AllocError>
    ensures { OnOk result (found.new.items ≡ found.old.items
        ++ filter (is_named_at services.now descriptions.now)
        (option_to_list (slice_get (services_on services.now host) turn))) }
{
    let on = services.of_host(host);
    if turn < on.len() {
        push_named(found, services, descriptions, on[turn] as usize)?;
    }
    Ok(())
}

/// Adds those at the place of the turn of all these hosts.
fn push_turn<'a>(
    found: &mut Vec<usize>,
    services: &HostServices<'a>,
    descriptions: &Descriptions<'a>,
    hosts: &[usize],
    turn: usize,
) -> Result<(), AllocError>
    ensures { OnOk result (Adds (OfSome (IsNthOn services.now descriptions.now turn) hosts.now)
        found.old.items found.new.items) }
{
    for host in hosts {
        push_nth(found, services, descriptions, turn, *host)?;
    }
    Ok(())
}

/// Takes room for so many numbers more, where the list names every description.
fn reserve_all(
    found: &mut Vec<usize>,
    descriptions: &Descriptions,
    more: usize,
) -> Result<(), AllocError>
    ensures { OnOk result (found.new.items ≡ found.old.items) }
{
    if descriptions.all {
        found.reserve(more)?;
    }
    Ok(())
}

/// Adds those of all these hosts, of which none has more services than there are turns: the first of each host, then the
/// second of each, and so on. Where the hosts have their services from the same blocks, they come so in order.
fn push_by_turns<'a>(
    found: &mut Vec<usize>,
    services: &HostServices<'a>,
    descriptions: &Descriptions<'a>,
    hosts: &[usize],
    turns: usize,
) -> Result<(), AllocError>
    requires { All (λ host. length (services_on services.now host) ≤ turns) hosts.now }
    ensures { OnOk result (Adds (OfSome (IsOn services.now descriptions.now) hosts.now)
        found.old.items found.new.items) }
{
    reserve_all(found, descriptions, hosts.len().saturating_mul(turns))?;
    for turn in 0..turns {
        push_turn(found, services, descriptions, hosts, turn)?;
    }
    Ok(())
}

/// How many services the host that has the most has, where there are at least half as many for each of the hosts; none
/// where there are fewer, so that turns would find too little.
fn turns_of<'a>(services: &HostServices<'a>, hosts: &[usize]) -> Option<usize>
    ensures { IfSome result (λ turns.
        All (λ host. length (services_on services.now host) ≤ turns) hosts.now) }
{
    let mut most = 0;
    let mut all: usize = 0;
    for host in hosts {
        let count = services.of_host(*host).len();
        all = all.saturating_add(count);
        if most < count {
            most = count;
        }
    }
    if hosts.len().saturating_mul(most) / 2 <= all {
        Some(most)
    } else {
        None
    }
}

/// Adds those of all these hosts.
pub(crate) fn push_hosts<'a>(
    found: &mut Vec<usize>,
    services: &HostServices<'a>,
    descriptions: &Descriptions<'a>,
    hosts: &[usize],
) -> Result<(), AllocError>
    ensures { OnOk result (Adds (OfSome (IsOn services.now descriptions.now) hosts.now)
        found.old.items found.new.items) }
{
    match turns_of(services, hosts) {
        Some(turns) => push_by_turns(found, services, descriptions, hosts, turns),
        None => push_each(found, services, descriptions, hosts),
    }
}

/// Adds the members of a group. Where there are more than twice as many numbers as services they are put in
/// order, each once, so that what is kept grows with the services and not with the groups.
fn push_group(
    alloc: Global,
    numbers: &mut Vec<usize>,
    groups: &mut ServiceGroups,
    services: usize,
    group: usize,
) -> Result<(), AllocError>
    ensures same { groups.new ≡ groups.old }
    ensures added { OnOk result (AddsMembers groups.old (λ other. other ≡ group)
        numbers.old.items numbers.new.items) }
{
    let members = groups.members(alloc, group)?;
    numbers.extend_from_slice(members.as_slice())?;
    let many = numbers.len() / 2 > services;
    shorten(numbers, many)?;
    Ok(())
}

/// Adds the members of groups.
pub(crate) fn push_groups(
    alloc: Global,
    numbers: &mut Vec<usize>,
    groups: &mut ServiceGroups,
    services: usize,
    listed: &[usize],
) -> Result<(), AllocError>
    ensures same { groups.new ≡ groups.old }
    ensures added { OnOk result (AddsMembers groups.old (Contains listed.now)
        numbers.old.items numbers.new.items) }
{
    for group in listed {
        push_group(alloc, numbers, groups, services, *group)?;
    }
    Ok(())
}
