//! The directives by which blocks name objects (chapters "Object Definitions", "Time Periods", "Notification
//! Escalations" and "Host and Service Dependencies").

ghost use Rattle.std.specs.Prelude.{◌≡◌};
ghost use Rattle.object_names.specs.claims.References.{directive_of, list_reading};
ghost use Rattle.object_names.specs.References.{is_reference_of};
ghost use Rattle.object_names.specs.claims.References.{is_period_name, named_of, reading_of};

use crate::named::NamedKind;
use object_inheritance::kinds::{
    has_contacts, is_contact, is_contact_group, is_dependency, is_escalation, is_host,
    is_host_group, is_host_or_service, is_period, is_service, is_service_dependency,
    is_service_group, lists_hosts, lists_services,
};
use object_reader::block::BlockKind;

/// How the value of a directive names objects.
#[derive(Clone, Copy)]
pub enum Reading {
    /// A list of names, in which `*` alone means all objects of the type.
    NamesOrAll,
    /// A list of names.
    Names,
    /// The name of a period, which may be empty.
    Period,
    /// A list of commands, each named by what stands before the first `!`.
    Commands,
}

/// The directives by which blocks name objects.
#[derive(Clone, Copy)]
pub enum Reference {
    /// `members` of a host group.
    HostMembers,
    /// `host_name` of a service, an escalation or a dependency.
    HostNames,
    /// `hostgroup_name` of the same.
    HostGroupNames,
    /// `hostgroups`.
    HostGroups,
    /// `hostgroup_members`.
    HostGroupMembers,
    /// `servicegroup_name` of an escalation or a dependency.
    ServiceGroupNames,
    /// `servicegroups`.
    ServiceGroups,
    /// `servicegroup_members`.
    ServiceGroupMembers,
    /// `dependent_host_name`.
    DependentHostNames,
    /// `dependent_hostgroup_name`.
    DependentHostGroupNames,
    /// `dependent_servicegroup_name`.
    DependentServiceGroupNames,
    /// `contacts`.
    Contacts,
    /// `contact_groups`.
    GroupsOfContacts,
    /// `contactgroups`.
    ContactGroups,
    /// `members` of a contact group.
    ContactMembers,
    /// `contactgroup_members`.
    ContactGroupMembers,
    /// `exclude`.
    Excludes,
    /// `notification_period`.
    NotificationPeriod,
    /// `host_notification_period`.
    HostPeriod,
    /// `service_notification_period`.
    ServicePeriod,
    /// `escalation_period`.
    EscalationPeriod,
    /// `dependency_period`.
    DependencyPeriod,
    /// `host_notification_commands`.
    HostCommands,
    /// `service_notification_commands`.
    ServiceCommands,
}

/// The name of the directive.
pub(crate) fn directive_of(reference: Reference) -> &'static str
    ensures { result.now ≡ directive_of reference }
{
    match reference {
        Reference::HostMembers => "members",
        Reference::HostNames => "host_name",
        Reference::HostGroupNames => "hostgroup_name",
        Reference::HostGroups => "hostgroups",
        Reference::HostGroupMembers => "hostgroup_members",
        Reference::ServiceGroupNames => "servicegroup_name",
        Reference::ServiceGroups => "servicegroups",
        Reference::ServiceGroupMembers => "servicegroup_members",
        Reference::DependentHostNames => "dependent_host_name",
        Reference::DependentHostGroupNames => "dependent_hostgroup_name",
        Reference::DependentServiceGroupNames => "dependent_servicegroup_name",
        Reference::Contacts => "contacts",
        Reference::GroupsOfContacts => "contact_groups",
        Reference::ContactGroups => "contactgroups",
        Reference::ContactMembers => "members",
        Reference::ContactGroupMembers => "contactgroup_members",
        Reference::Excludes => "exclude",
        Reference::NotificationPeriod => "notification_period",
        Reference::HostPeriod => "host_notification_period",
        Reference::ServicePeriod => "service_notification_period",
        Reference::EscalationPeriod => "escalation_period",
        Reference::DependencyPeriod => "dependency_period",
        Reference::HostCommands => "host_notification_commands",
        Reference::ServiceCommands => "service_notification_commands",
    }
}

/// The type of what it names.
pub(crate) fn named_of(reference: Reference) -> NamedKind
    ensures { result ≡ named_of reference }
{
    match reference {
        Reference::HostNames | Reference::DependentHostNames | Reference::HostMembers =>
            NamedKind::Host,
        Reference::HostGroupNames
        | Reference::DependentHostGroupNames
        | Reference::HostGroups
        | Reference::HostGroupMembers => NamedKind::HostGroup,
        Reference::ServiceGroupNames
        | Reference::DependentServiceGroupNames
        | Reference::ServiceGroups
        | Reference::ServiceGroupMembers => NamedKind::ServiceGroup,
        Reference::Contacts | Reference::ContactMembers => NamedKind::Contact,
        Reference::GroupsOfContacts | Reference::ContactGroups | Reference::ContactGroupMembers =>
            NamedKind::ContactGroup,
        Reference::HostCommands | Reference::ServiceCommands => NamedKind::Command,
        Reference::Excludes
        | Reference::NotificationPeriod
        | Reference::HostPeriod
        | Reference::ServicePeriod
        | Reference::EscalationPeriod
        | Reference::DependencyPeriod => NamedKind::TimePeriod,
    }
}

/// How a list of names of the type is read.
fn list_reading(kind: NamedKind) -> Reading
    ensures { result ≡ list_reading kind }
{
    match kind {
        NamedKind::Host | NamedKind::HostGroup | NamedKind::Contact | NamedKind::ContactGroup =>
            Reading::NamesOrAll,
        NamedKind::ServiceGroup | NamedKind::TimePeriod => Reading::Names,
        NamedKind::Command => Reading::Commands,
    }
}

/// Whether the value is the name of a period.
fn is_period_name(reference: Reference) -> bool
    ensures { result ≡ is_period_name reference }
{
    matches!(
        reference,
        Reference::NotificationPeriod
            | Reference::HostPeriod
            | Reference::ServicePeriod
            | Reference::EscalationPeriod
            | Reference::DependencyPeriod
    )
}

/// How the value is read.
pub(crate) fn reading_of(reference: Reference) -> Reading
    ensures { result ≡ reading_of reference }
{
    if is_period_name(reference) {
        Reading::Period
    } else {
        list_reading(named_of(reference))
    }
}

/// Whether blocks of the type have the directive, and name objects by it.
pub(crate) fn is_reference_of(reference: Reference, kind: BlockKind) -> bool
    ensures { result ≡ is_reference_of reference kind }
{
    match reference {
        Reference::HostMembers => is_host_group(kind),
        Reference::HostNames => lists_hosts(kind),
        Reference::HostGroupNames => lists_hosts(kind),
        Reference::HostGroups => is_host(kind),
        Reference::HostGroupMembers => is_host_group(kind),
        Reference::ServiceGroupNames => lists_services(kind),
        Reference::ServiceGroups => is_service(kind),
        Reference::ServiceGroupMembers => is_service_group(kind),
        Reference::DependentHostNames => is_dependency(kind),
        Reference::DependentHostGroupNames => is_dependency(kind),
        Reference::DependentServiceGroupNames => is_service_dependency(kind),
        Reference::Contacts => has_contacts(kind),
        Reference::GroupsOfContacts => has_contacts(kind),
        Reference::ContactGroups => is_contact(kind),
        Reference::ContactMembers => is_contact_group(kind),
        Reference::ContactGroupMembers => is_contact_group(kind),
        Reference::Excludes => is_period(kind),
        Reference::NotificationPeriod => is_host_or_service(kind),
        Reference::HostPeriod => is_contact(kind),
        Reference::ServicePeriod => is_contact(kind),
        Reference::EscalationPeriod => is_escalation(kind),
        Reference::DependencyPeriod => is_dependency(kind),
        Reference::HostCommands => is_contact(kind),
        Reference::ServiceCommands => is_contact(kind),
    }
}
