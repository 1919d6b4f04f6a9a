//! What blocks must be, row by row: the type of block, what it must be, and the directive by which it is.

ghost use Rattle.std.specs.Prelude.{◌≡◌, map};
ghost use Rattle.object_check.specs.Rows.{name_rows, said_by, value_rows};

use object_faults::column::Check;
use object_faults::needs::Side;
use object_names::named::NamedKind;
use object_names::references::Reading;
use object_reader::block::BlockKind;
use object_values::options::{CriteriaKind, OptionKind};

/// What a block must be.
#[derive(Clone, Copy)]
pub enum Must {
    /// What it has for the directive must be this.
    Be(Check),
    /// What it has for the directive must name objects of the type that are there, as it is read.
    Name(NamedKind, Reading),
    /// It must list hosts, or services, on the side; the directive is the first by which it may.
    List(Side),
    /// Each line of dates must have a word with a colon, a day and ranges. There is no one directive.
    HaveWholeLines,
    /// Each line of dates must say a day. There is no one directive.
    HaveDayLines,
}

/// The type of block, what it must be, and the name of the directive.
pub type Row = (BlockKind, Must, &'static str);

/// What each block must be by itself, in the order of the faults.
const VALUE_ROWS: [Row; 102] = [
    (BlockKind::Host, Must::Be(Check::Given), "host_name"),
    (
        BlockKind::HostGroup,
        Must::Be(Check::Given),
        "hostgroup_name",
    ),
    (
        BlockKind::Service,
        Must::Be(Check::Given),
        "service_description",
    ),
    (
        BlockKind::ServiceGroup,
        Must::Be(Check::Given),
        "servicegroup_name",
    ),
    (BlockKind::Contact, Must::Be(Check::Given), "contact_name"),
    (
        BlockKind::ContactGroup,
        Must::Be(Check::Given),
        "contactgroup_name",
    ),
    (
        BlockKind::TimePeriod,
        Must::Be(Check::Given),
        "timeperiod_name",
    ),
    (BlockKind::Command, Must::Be(Check::Given), "command_name"),
    (BlockKind::Service, Must::List(Side::Masters), "host_name"),
    (
        BlockKind::HostEscalation,
        Must::List(Side::Masters),
        "host_name",
    ),
    (
        BlockKind::ServiceEscalation,
        Must::List(Side::Masters),
        "host_name",
    ),
    (
        BlockKind::HostDependency,
        Must::List(Side::Masters),
        "host_name",
    ),
    (
        BlockKind::ServiceDependency,
        Must::List(Side::Masters),
        "host_name",
    ),
    (
        BlockKind::HostDependency,
        Must::List(Side::Dependents),
        "dependent_host_name",
    ),
    (
        BlockKind::ServiceDependency,
        Must::List(Side::Dependents),
        "dependent_host_name",
    ),
    (BlockKind::Host, Must::Be(Check::Number), "register"),
    (
        BlockKind::Host,
        Must::Be(Check::Number),
        "notification_interval",
    ),
    (
        BlockKind::Host,
        Must::Be(Check::Number),
        "notifications_enabled",
    ),
    (
        BlockKind::Host,
        Must::Be(Check::Number),
        "first_notification_delay",
    ),
    (BlockKind::HostGroup, Must::Be(Check::Number), "register"),
    (BlockKind::Service, Must::Be(Check::Number), "register"),
    (
        BlockKind::Service,
        Must::Be(Check::Number),
        "notification_interval",
    ),
    (
        BlockKind::Service,
        Must::Be(Check::Number),
        "notifications_enabled",
    ),
    (
        BlockKind::Service,
        Must::Be(Check::Number),
        "first_notification_delay",
    ),
    (BlockKind::Service, Must::Be(Check::Number), "is_volatile"),
    (BlockKind::ServiceGroup, Must::Be(Check::Number), "register"),
    (BlockKind::Contact, Must::Be(Check::Number), "register"),
    (
        BlockKind::Contact,
        Must::Be(Check::Number),
        "host_notifications_enabled",
    ),
    (
        BlockKind::Contact,
        Must::Be(Check::Number),
        "service_notifications_enabled",
    ),
    (BlockKind::ContactGroup, Must::Be(Check::Number), "register"),
    (BlockKind::TimePeriod, Must::Be(Check::Number), "register"),
    (BlockKind::Command, Must::Be(Check::Number), "register"),
    (
        BlockKind::HostEscalation,
        Must::Be(Check::Number),
        "register",
    ),
    (
        BlockKind::HostEscalation,
        Must::Be(Check::Number),
        "notification_interval",
    ),
    (
        BlockKind::HostEscalation,
        Must::Be(Check::Number),
        "first_notification",
    ),
    (
        BlockKind::HostEscalation,
        Must::Be(Check::Number),
        "last_notification",
    ),
    (
        BlockKind::ServiceEscalation,
        Must::Be(Check::Number),
        "register",
    ),
    (
        BlockKind::ServiceEscalation,
        Must::Be(Check::Number),
        "notification_interval",
    ),
    (
        BlockKind::ServiceEscalation,
        Must::Be(Check::Number),
        "first_notification",
    ),
    (
        BlockKind::ServiceEscalation,
        Must::Be(Check::Number),
        "last_notification",
    ),
    (
        BlockKind::HostDependency,
        Must::Be(Check::Number),
        "register",
    ),
    (
        BlockKind::HostDependency,
        Must::Be(Check::Number),
        "inherits_parent",
    ),
    (
        BlockKind::ServiceDependency,
        Must::Be(Check::Number),
        "register",
    ),
    (
        BlockKind::ServiceDependency,
        Must::Be(Check::Number),
        "inherits_parent",
    ),
    (
        BlockKind::Host,
        Must::Be(Check::Options(OptionKind::Host)),
        "notification_options",
    ),
    (
        BlockKind::Service,
        Must::Be(Check::Options(OptionKind::Service)),
        "notification_options",
    ),
    (
        BlockKind::Contact,
        Must::Be(Check::Options(OptionKind::Host)),
        "host_notification_options",
    ),
    (
        BlockKind::Contact,
        Must::Be(Check::Options(OptionKind::Service)),
        "service_notification_options",
    ),
    (
        BlockKind::HostEscalation,
        Must::Be(Check::Options(OptionKind::HostEscalation)),
        "escalation_options",
    ),
    (
        BlockKind::ServiceEscalation,
        Must::Be(Check::Options(OptionKind::ServiceEscalation)),
        "escalation_options",
    ),
    (
        BlockKind::HostDependency,
        Must::Be(Check::Criteria(CriteriaKind::OfHosts)),
        "notification_failure_criteria",
    ),
    (
        BlockKind::ServiceDependency,
        Must::Be(Check::Criteria(CriteriaKind::OfServices)),
        "notification_failure_criteria",
    ),
    (BlockKind::TimePeriod, Must::Be(Check::Ranges), "sunday"),
    (BlockKind::TimePeriod, Must::Be(Check::Ranges), "monday"),
    (BlockKind::TimePeriod, Must::Be(Check::Ranges), "tuesday"),
    (BlockKind::TimePeriod, Must::Be(Check::Ranges), "wednesday"),
    (BlockKind::TimePeriod, Must::Be(Check::Ranges), "thursday"),
    (BlockKind::TimePeriod, Must::Be(Check::Ranges), "friday"),
    (BlockKind::TimePeriod, Must::Be(Check::Ranges), "saturday"),
    (BlockKind::TimePeriod, Must::HaveWholeLines, ""),
    (BlockKind::Service, Must::Be(Check::Zero), "is_volatile"),
    (BlockKind::Host, Must::Be(Check::Names), "hostgroups"),
    (BlockKind::Host, Must::Be(Check::Names), "contacts"),
    (BlockKind::Host, Must::Be(Check::Names), "contact_groups"),
    (BlockKind::HostGroup, Must::Be(Check::Names), "members"),
    (
        BlockKind::HostGroup,
        Must::Be(Check::Names),
        "hostgroup_members",
    ),
    (BlockKind::Service, Must::Be(Check::Names), "servicegroups"),
    (BlockKind::Service, Must::Be(Check::Names), "host_name"),
    (BlockKind::Service, Must::Be(Check::Names), "hostgroup_name"),
    (BlockKind::Service, Must::Be(Check::Names), "contacts"),
    (BlockKind::Service, Must::Be(Check::Names), "contact_groups"),
    (BlockKind::ServiceGroup, Must::Be(Check::Names), "members"),
    (
        BlockKind::ServiceGroup,
        Must::Be(Check::Names),
        "servicegroup_members",
    ),
    (BlockKind::Contact, Must::Be(Check::Names), "contactgroups"),
    (
        BlockKind::Contact,
        Must::Be(Check::Names),
        "host_notification_commands",
    ),
    (
        BlockKind::Contact,
        Must::Be(Check::Names),
        "service_notification_commands",
    ),
    (BlockKind::ContactGroup, Must::Be(Check::Names), "members"),
    (
        BlockKind::ContactGroup,
        Must::Be(Check::Names),
        "contactgroup_members",
    ),
    (BlockKind::TimePeriod, Must::Be(Check::Names), "exclude"),
    (
        BlockKind::HostEscalation,
        Must::Be(Check::Names),
        "host_name",
    ),
    (
        BlockKind::HostEscalation,
        Must::Be(Check::Names),
        "hostgroup_name",
    ),
    (
        BlockKind::HostEscalation,
        Must::Be(Check::Names),
        "contacts",
    ),
    (
        BlockKind::HostEscalation,
        Must::Be(Check::Names),
        "contact_groups",
    ),
    (
        BlockKind::ServiceEscalation,
        Must::Be(Check::Names),
        "host_name",
    ),
    (
        BlockKind::ServiceEscalation,
        Must::Be(Check::Names),
        "hostgroup_name",
    ),
    (
        BlockKind::ServiceEscalation,
        Must::Be(Check::Names),
        "service_description",
    ),
    (
        BlockKind::ServiceEscalation,
        Must::Be(Check::Names),
        "servicegroup_name",
    ),
    (
        BlockKind::ServiceEscalation,
        Must::Be(Check::Names),
        "contacts",
    ),
    (
        BlockKind::ServiceEscalation,
        Must::Be(Check::Names),
        "contact_groups",
    ),
    (
        BlockKind::HostDependency,
        Must::Be(Check::Names),
        "host_name",
    ),
    (
        BlockKind::HostDependency,
        Must::Be(Check::Names),
        "hostgroup_name",
    ),
    (
        BlockKind::HostDependency,
        Must::Be(Check::Names),
        "dependent_host_name",
    ),
    (
        BlockKind::HostDependency,
        Must::Be(Check::Names),
        "dependent_hostgroup_name",
    ),
    (
        BlockKind::ServiceDependency,
        Must::Be(Check::Names),
        "host_name",
    ),
    (
        BlockKind::ServiceDependency,
        Must::Be(Check::Names),
        "hostgroup_name",
    ),
    (
        BlockKind::ServiceDependency,
        Must::Be(Check::Names),
        "service_description",
    ),
    (
        BlockKind::ServiceDependency,
        Must::Be(Check::Names),
        "servicegroup_name",
    ),
    (
        BlockKind::ServiceDependency,
        Must::Be(Check::Names),
        "dependent_host_name",
    ),
    (
        BlockKind::ServiceDependency,
        Must::Be(Check::Names),
        "dependent_hostgroup_name",
    ),
    (
        BlockKind::ServiceDependency,
        Must::Be(Check::Names),
        "dependent_service_description",
    ),
    (
        BlockKind::ServiceDependency,
        Must::Be(Check::Names),
        "dependent_servicegroup_name",
    ),
    (BlockKind::TimePeriod, Must::HaveDayLines, ""),
];

/// What each block must name, in the order of the directives.
const NAME_ROWS: [Row; 44] = [
    (
        BlockKind::Host,
        Must::Name(NamedKind::HostGroup, Reading::NamesOrAll),
        "hostgroups",
    ),
    (
        BlockKind::Host,
        Must::Name(NamedKind::Contact, Reading::NamesOrAll),
        "contacts",
    ),
    (
        BlockKind::Host,
        Must::Name(NamedKind::ContactGroup, Reading::NamesOrAll),
        "contact_groups",
    ),
    (
        BlockKind::Host,
        Must::Name(NamedKind::TimePeriod, Reading::Period),
        "notification_period",
    ),
    (
        BlockKind::HostGroup,
        Must::Name(NamedKind::Host, Reading::NamesOrAll),
        "members",
    ),
    (
        BlockKind::HostGroup,
        Must::Name(NamedKind::HostGroup, Reading::NamesOrAll),
        "hostgroup_members",
    ),
    (
        BlockKind::Service,
        Must::Name(NamedKind::Host, Reading::NamesOrAll),
        "host_name",
    ),
    (
        BlockKind::Service,
        Must::Name(NamedKind::HostGroup, Reading::NamesOrAll),
        "hostgroup_name",
    ),
    (
        BlockKind::Service,
        Must::Name(NamedKind::ServiceGroup, Reading::Names),
        "servicegroups",
    ),
    (
        BlockKind::Service,
        Must::Name(NamedKind::Contact, Reading::NamesOrAll),
        "contacts",
    ),
    (
        BlockKind::Service,
        Must::Name(NamedKind::ContactGroup, Reading::NamesOrAll),
        "contact_groups",
    ),
    (
        BlockKind::Service,
        Must::Name(NamedKind::TimePeriod, Reading::Period),
        "notification_period",
    ),
    (
        BlockKind::ServiceGroup,
        Must::Name(NamedKind::ServiceGroup, Reading::Names),
        "servicegroup_members",
    ),
    (
        BlockKind::Contact,
        Must::Name(NamedKind::ContactGroup, Reading::NamesOrAll),
        "contactgroups",
    ),
    (
        BlockKind::Contact,
        Must::Name(NamedKind::TimePeriod, Reading::Period),
        "host_notification_period",
    ),
    (
        BlockKind::Contact,
        Must::Name(NamedKind::TimePeriod, Reading::Period),
        "service_notification_period",
    ),
    (
        BlockKind::Contact,
        Must::Name(NamedKind::Command, Reading::Commands),
        "host_notification_commands",
    ),
    (
        BlockKind::Contact,
        Must::Name(NamedKind::Command, Reading::Commands),
        "service_notification_commands",
    ),
    (
        BlockKind::ContactGroup,
        Must::Name(NamedKind::Contact, Reading::NamesOrAll),
        "members",
    ),
    (
        BlockKind::ContactGroup,
        Must::Name(NamedKind::ContactGroup, Reading::NamesOrAll),
        "contactgroup_members",
    ),
    (
        BlockKind::TimePeriod,
        Must::Name(NamedKind::TimePeriod, Reading::Names),
        "exclude",
    ),
    (
        BlockKind::HostEscalation,
        Must::Name(NamedKind::Host, Reading::NamesOrAll),
        "host_name",
    ),
    (
        BlockKind::HostEscalation,
        Must::Name(NamedKind::HostGroup, Reading::NamesOrAll),
        "hostgroup_name",
    ),
    (
        BlockKind::HostEscalation,
        Must::Name(NamedKind::Contact, Reading::NamesOrAll),
        "contacts",
    ),
    (
        BlockKind::HostEscalation,
        Must::Name(NamedKind::ContactGroup, Reading::NamesOrAll),
        "contact_groups",
    ),
    (
        BlockKind::HostEscalation,
        Must::Name(NamedKind::TimePeriod, Reading::Period),
        "escalation_period",
    ),
    (
        BlockKind::ServiceEscalation,
        Must::Name(NamedKind::Host, Reading::NamesOrAll),
        "host_name",
    ),
    (
        BlockKind::ServiceEscalation,
        Must::Name(NamedKind::HostGroup, Reading::NamesOrAll),
        "hostgroup_name",
    ),
    (
        BlockKind::ServiceEscalation,
        Must::Name(NamedKind::ServiceGroup, Reading::Names),
        "servicegroup_name",
    ),
    (
        BlockKind::ServiceEscalation,
        Must::Name(NamedKind::Contact, Reading::NamesOrAll),
        "contacts",
    ),
    (
        BlockKind::ServiceEscalation,
        Must::Name(NamedKind::ContactGroup, Reading::NamesOrAll),
        "contact_groups",
    ),
    (
        BlockKind::ServiceEscalation,
        Must::Name(NamedKind::TimePeriod, Reading::Period),
        "escalation_period",
    ),
    (
        BlockKind::HostDependency,
        Must::Name(NamedKind::Host, Reading::NamesOrAll),
        "host_name",
    ),
    (
        BlockKind::HostDependency,
        Must::Name(NamedKind::HostGroup, Reading::NamesOrAll),
        "hostgroup_name",
    ),
    (
        BlockKind::HostDependency,
        Must::Name(NamedKind::Host, Reading::NamesOrAll),
        "dependent_host_name",
    ),
    (
        BlockKind::HostDependency,
        Must::Name(NamedKind::HostGroup, Reading::NamesOrAll),
        "dependent_hostgroup_name",
    ),
    (
        BlockKind::HostDependency,
        Must::Name(NamedKind::TimePeriod, Reading::Period),
        "dependency_period",
    ),
    (
        BlockKind::ServiceDependency,
        Must::Name(NamedKind::Host, Reading::NamesOrAll),
        "host_name",
    ),
    (
        BlockKind::ServiceDependency,
        Must::Name(NamedKind::HostGroup, Reading::NamesOrAll),
        "hostgroup_name",
    ),
    (
        BlockKind::ServiceDependency,
        Must::Name(NamedKind::ServiceGroup, Reading::Names),
        "servicegroup_name",
    ),
    (
        BlockKind::ServiceDependency,
        Must::Name(NamedKind::Host, Reading::NamesOrAll),
        "dependent_host_name",
    ),
    (
        BlockKind::ServiceDependency,
        Must::Name(NamedKind::HostGroup, Reading::NamesOrAll),
        "dependent_hostgroup_name",
    ),
    (
        BlockKind::ServiceDependency,
        Must::Name(NamedKind::ServiceGroup, Reading::Names),
        "dependent_servicegroup_name",
    ),
    (
        BlockKind::ServiceDependency,
        Must::Name(NamedKind::TimePeriod, Reading::Period),
        "dependency_period",
    ),
];

/// What each block must be by itself, in the order of the faults of a block.
pub fn value_rows() -> &'static [Row]
    ensures { map said_by result.now ≡ value_rows }
{
    &VALUE_ROWS
}

/// What each block must name, in the order of the directives.
pub fn name_rows() -> &'static [Row]
    ensures { map said_by result.now ≡ name_rows }
{
    &NAME_ROWS
}
