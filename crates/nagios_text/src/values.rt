//! What values mean that only Nagios takes: none at all, and times of a day that end before they begin.

ghost use Rattle.std.specs.Prelude.{◌≡◌, ◌++◌, IfOk, OnOk};
ghost use Rattle.nagios_text.specs.claims.Values.{day_value, is_day, is_list_of_dependents, is_list_of_hosts};
ghost use Rattle.nagios_text.specs.claims.Values.{is_list_of_people, is_naming, is_period, range_said, takes_none};

use crate::lone::before;
use crate::names::is_word;
use object_groups::objects::name_directive;
use object_reader::block::BlockKind;
use object_values::ranges::{ends_before_it_begins, is_dated, weekday_of};
use std::alloc::{AllocError, Global};

/// Whether the directive names the block, or its templates.
pub(crate) fn is_naming(kind: BlockKind, name: &[u8]) -> bool
    ensures { result ≡ is_naming kind name.now }
{
    is_word(name, name_directive(kind)) || is_word(name, "name") || is_word(name, "use")
}

/// Whether the directive is a list of names, or a period.
pub(crate) fn takes_none(name: &[u8]) -> bool
    ensures { result ≡ takes_none name.now }
{
    is_list_of_hosts(name)
        || is_list_of_dependents(name)
        || is_list_of_people(name)
        || is_period(name)
}

/// Whether it is a list of hosts, services, or groups of them, or members of a group.
fn is_list_of_hosts(name: &[u8]) -> bool
    ensures { result ≡ is_list_of_hosts name.now }
{
    is_word(name, "host_name")
        || is_word(name, "hostgroup_name")
        || is_word(name, "hostgroups")
        || is_word(name, "hostgroup_members")
        || is_word(name, "service_description")
        || is_word(name, "servicegroup_name")
        || is_word(name, "servicegroups")
        || is_word(name, "servicegroup_members")
        || is_word(name, "members")
}

/// Whether it is one of those that depend.
fn is_list_of_dependents(name: &[u8]) -> bool
    ensures { result ≡ is_list_of_dependents name.now }
{
    is_word(name, "dependent_host_name")
        || is_word(name, "dependent_hostgroup_name")
        || is_word(name, "dependent_service_description")
        || is_word(name, "dependent_servicegroup_name")
}

/// Whether it is one of contacts, groups of them, or commands.
fn is_list_of_people(name: &[u8]) -> bool
    ensures { result ≡ is_list_of_people name.now }
{
    is_word(name, "contacts")
        || is_word(name, "contact_groups")
        || is_word(name, "contactgroups")
        || is_word(name, "contactgroup_members")
        || is_word(name, "host_notification_commands")
        || is_word(name, "service_notification_commands")
}

/// Whether it is a period, or a list of periods.
fn is_period(name: &[u8]) -> bool
    ensures { result ≡ is_period name.now }
{
    is_word(name, "notification_period")
        || is_word(name, "host_notification_period")
        || is_word(name, "service_notification_period")
        || is_word(name, "escalation_period")
        || is_word(name, "dependency_period")
        || is_word(name, "exclude")
}

/// Whether the directive of a time period is a day line.
pub(crate) fn is_day(name: &[u8]) -> bool
    ensures { result ≡ is_day name.now }
{
    weekday_of(name).is_some() || is_dated(name)
}

/// Adds a range: one that ends before it begins holds nothing.
fn push_range(value: &mut Vec<u8>, range: &[u8]) -> Result<(), AllocError>
    ensures { OnOk result (value.new.items ≡ value.old.items ++ range_said range.now) }
{
    if ends_before_it_begins(range) {
        value.extend_from_slice(b"00:00-00:00")
    } else {
        value.extend_from_slice(range)
    }
}

/// The value of a day line: a range of it that ends before it begins holds nothing.
pub(crate) fn day_value(alloc: Global, ranges: &[u8]) -> Result<Vec<u8>, AllocError>
    ensures { IfOk result (λ value. value.items ≡ day_value ranges.now) }
{
    let mut value = Vec::with_capacity(alloc, ranges.len())?;
    let mut rest = ranges;
    loop {
        let range = before(rest, b',');
        push_range(&mut value, range)?;
        if range.len() == rest.len() {
            return Ok(value);
        }
        value.push(b',')?;
        rest = &rest[range.len() + 1..];
    }
}
