//! The lists of names that blocks have, by the type of the block.

ghost use Rattle.std.specs.Prelude.{◌≡◌};
ghost use Rattle.object_faults.specs.Lists.{is_list_of, list_directive};
ghost use Rattle.object_inheritance.specs.Kinds.{has_contacts, is_contact, is_contact_group};
ghost use Rattle.object_inheritance.specs.Kinds.{is_dependency};
ghost use Rattle.object_inheritance.specs.claims.Kinds.{is_period};
ghost use Rattle.object_inheritance.specs.Kinds.{is_group, is_host, is_host_group};
ghost use Rattle.object_inheritance.specs.Kinds.{is_service};
ghost use Rattle.object_inheritance.specs.Kinds.{is_service_dependency, is_service_group};
ghost use Rattle.object_inheritance.specs.Kinds.{lists_hosts, lists_services};

use object_inheritance::kinds::{
    has_contacts, is_contact, is_contact_group, is_dependency, is_group, is_host, is_host_group,
    is_period, is_service, is_service_dependency, is_service_group, lists_hosts, lists_services,
};
use object_reader::block::BlockKind;

/// The directives that are lists of names, each with the types of block that have it.
#[derive(Clone, Copy)]
pub enum NameList {
    /// `hostgroups`.
    HostGroups,
    /// `servicegroups`.
    ServiceGroups,
    /// `contactgroups`.
    ContactGroups,
    /// `host_name`.
    HostNames,
    /// `hostgroup_name`.
    HostGroupNames,
    /// `service_description`.
    Descriptions,
    /// `servicegroup_name`.
    ServiceGroupNames,
    /// `dependent_host_name`.
    DependentHostNames,
    /// `dependent_hostgroup_name`.
    DependentHostGroupNames,
    /// `dependent_service_description`.
    DependentDescriptions,
    /// `dependent_servicegroup_name`.
    DependentServiceGroupNames,
    /// `contacts`.
    Contacts,
    /// `contact_groups`.
    GroupsOfContacts,
    /// `host_notification_commands`.
    HostCommands,
    /// `service_notification_commands`.
    ServiceCommands,
    /// `members`.
    Members,
    /// `hostgroup_members`.
    HostGroupMembers,
    /// `servicegroup_members`.
    ServiceGroupMembers,
    /// `contactgroup_members`.
    ContactGroupMembers,
    /// `exclude`.
    Excludes,
}

/// The name of a list.
pub(crate) fn list_directive(list: NameList) -> &'static str
    ensures { result.now ≡ list_directive list }
{
    match list {
        NameList::HostGroups => "hostgroups",
        NameList::ServiceGroups => "servicegroups",
        NameList::ContactGroups => "contactgroups",
        NameList::HostNames => "host_name",
        NameList::HostGroupNames => "hostgroup_name",
        NameList::Descriptions => "service_description",
        NameList::ServiceGroupNames => "servicegroup_name",
        NameList::DependentHostNames => "dependent_host_name",
        NameList::DependentHostGroupNames => "dependent_hostgroup_name",
        NameList::DependentDescriptions => "dependent_service_description",
        NameList::DependentServiceGroupNames => "dependent_servicegroup_name",
        NameList::Contacts => "contacts",
        NameList::GroupsOfContacts => "contact_groups",
        NameList::HostCommands => "host_notification_commands",
        NameList::ServiceCommands => "service_notification_commands",
        NameList::Members => "members",
        NameList::HostGroupMembers => "hostgroup_members",
        NameList::ServiceGroupMembers => "servicegroup_members",
        NameList::ContactGroupMembers => "contactgroup_members",
        NameList::Excludes => "exclude",
    }
}

/// Whether blocks of the type have the list.
pub(crate) fn is_list_of(list: NameList, kind: BlockKind) -> bool
    ensures { result ≡ is_list_of list kind }
{
    match list {
        NameList::HostGroups => is_host(kind),
        NameList::ServiceGroups => is_service(kind),
        NameList::ContactGroups => is_contact(kind),
        NameList::HostNames => lists_hosts(kind),
        NameList::HostGroupNames => lists_hosts(kind),
        NameList::Descriptions => lists_services(kind),
        NameList::ServiceGroupNames => lists_services(kind),
        NameList::DependentHostNames => is_dependency(kind),
        NameList::DependentHostGroupNames => is_dependency(kind),
        NameList::DependentDescriptions => is_service_dependency(kind),
        NameList::DependentServiceGroupNames => is_service_dependency(kind),
        NameList::Contacts => has_contacts(kind),
        NameList::GroupsOfContacts => has_contacts(kind),
        NameList::HostCommands => is_contact(kind),
        NameList::ServiceCommands => is_contact(kind),
        NameList::Members => is_group(kind),
        NameList::HostGroupMembers => is_host_group(kind),
        NameList::ServiceGroupMembers => is_service_group(kind),
        NameList::ContactGroupMembers => is_contact_group(kind),
        NameList::Excludes => is_period(kind),
    }
}
