//! Stamps of hosts, by their numbers: a host has a stamp until it gets another, and 0 is none.

ghost use Rattle.std.specs.Prelude.{◌≡◌, ◌<◌, Contains, not, OnOk};
ghost use Rattle.std.specs.List.{list_any};
ghost use Rattle.object_groups.specs.declared.groups.GroupKind.TheVariants.{HostGroups};
ghost use Rattle.object_unknown_services.specs.Stamps.{is_stamped, IsHostOf, Stamped};

use object_groups::groups::Groups;
use object_services::blocks::ServiceBlocks;
use std::alloc::{AllocError, Global};

/// Stamps a host, if there is a stamp of it.
fn stamp_one(stamps: &mut [usize], stamp: usize, host: usize)
    ensures { Stamped (λ other. other ≡ host) stamp stamps.old stamps.new }
{
    if host >= stamps.len() {
        return;
    }
    stamps[host] = stamp;
}

/// Stamps hosts.
fn stamp_each(stamps: &mut [usize], stamp: usize, hosts: &[usize])
    ensures { Stamped (Contains hosts.now) stamp stamps.old stamps.new }
{
    for host in hosts {
        stamp_one(stamps, stamp, *host);
    }
}

/// Stamps the hosts of the service blocks at the places.
pub(crate) fn stamp_all<'a>(
    alloc: Global,
    services: &ServiceBlocks<'a>,
    hosts: &mut Groups<'a>,
    places: &[usize],
    stamps: &mut [usize],
    stamp: usize,
) -> Result<(), AllocError>
    requires { hosts.old ≡ record { blocks = services.now; kind = HostGroups } }
    ensures same { hosts.new ≡ hosts.old }
    ensures stamped { OnOk result
        (Stamped (IsHostOf services.now places.now) stamp stamps.old stamps.new) }
{
    for place in places {
        let found = services.hosts_at(alloc, hosts, *place)?;
        stamp_each(stamps, stamp, found.as_slice());
    }
    Ok(())
}

/// Whether the host has the stamp.
fn is_stamped(stamps: &[usize], stamp: usize, host: usize) -> bool
    requires { 0 < stamp }
    ensures { result ≡ is_stamped stamps.now stamp host }
{
    if host < stamps.len() {
        stamps[host] == stamp
    } else {
        false
    }
}

/// Whether one of the hosts doesn't have the stamp.
pub(crate) fn lacks_any(stamps: &[usize], stamp: usize, hosts: &[usize]) -> bool
    requires { 0 < stamp }
    ensures { result ≡ list_any (λ host. not (is_stamped stamps.now stamp host)) hosts.now }
{
    for host in hosts {
        if !is_stamped(stamps, stamp, *host) {
            return true;
        }
    }
    false
}
