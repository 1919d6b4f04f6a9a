//! The directives of blocks that are read here (chapter "Object Definitions").

ghost use Rattle.std.specs.Prelude.{◌≡◌, map};
ghost use Rattle.object_warnings.specs.Tables.{read_here};

use object_reader::block::BlockKind;

const HOST: [&str; 12] = [
    "name",
    "use",
    "register",
    "host_name",
    "hostgroups",
    "contacts",
    "contact_groups",
    "notification_interval",
    "notification_period",
    "notification_options",
    "notifications_enabled",
    "first_notification_delay",
];

const HOST_GROUP: [&str; 6] = [
    "name",
    "use",
    "register",
    "hostgroup_name",
    "members",
    "hostgroup_members",
];

const SERVICE: [&str; 15] = [
    "name",
    "use",
    "register",
    "service_description",
    "host_name",
    "hostgroup_name",
    "servicegroups",
    "is_volatile",
    "contacts",
    "contact_groups",
    "notification_interval",
    "notification_period",
    "notification_options",
    "notifications_enabled",
    "first_notification_delay",
];

const SERVICE_GROUP: [&str; 6] = [
    "name",
    "use",
    "register",
    "servicegroup_name",
    "members",
    "servicegroup_members",
];

const CONTACT: [&str; 13] = [
    "name",
    "use",
    "register",
    "contact_name",
    "contactgroups",
    "host_notifications_enabled",
    "host_notification_period",
    "host_notification_options",
    "host_notification_commands",
    "service_notifications_enabled",
    "service_notification_period",
    "service_notification_options",
    "service_notification_commands",
];

const CONTACT_GROUP: [&str; 6] = [
    "name",
    "use",
    "register",
    "contactgroup_name",
    "members",
    "contactgroup_members",
];

const TIME_PERIOD: [&str; 5] = ["name", "use", "register", "timeperiod_name", "exclude"];

const COMMAND: [&str; 4] = ["name", "use", "register", "command_name"];

const HOST_ESCALATION: [&str; 12] = [
    "name",
    "use",
    "register",
    "host_name",
    "hostgroup_name",
    "contacts",
    "contact_groups",
    "first_notification",
    "last_notification",
    "notification_interval",
    "escalation_period",
    "escalation_options",
];

const SERVICE_ESCALATION: [&str; 14] = [
    "name",
    "use",
    "register",
    "host_name",
    "hostgroup_name",
    "service_description",
    "servicegroup_name",
    "contacts",
    "contact_groups",
    "first_notification",
    "last_notification",
    "notification_interval",
    "escalation_period",
    "escalation_options",
];

const HOST_DEPENDENCY: [&str; 10] = [
    "name",
    "use",
    "register",
    "host_name",
    "hostgroup_name",
    "dependent_host_name",
    "dependent_hostgroup_name",
    "notification_failure_criteria",
    "inherits_parent",
    "dependency_period",
];

const SERVICE_DEPENDENCY: [&str; 14] = [
    "name",
    "use",
    "register",
    "host_name",
    "hostgroup_name",
    "service_description",
    "servicegroup_name",
    "dependent_host_name",
    "dependent_hostgroup_name",
    "dependent_service_description",
    "dependent_servicegroup_name",
    "notification_failure_criteria",
    "inherits_parent",
    "dependency_period",
];

const HOST_EXT_INFO: [&str; 3] = ["name", "use", "register"];

const SERVICE_EXT_INFO: [&str; 3] = ["name", "use", "register"];

/// The directives of blocks of the type that are read here. Lines of days aren't among them.
pub fn read_here(kind: BlockKind) -> &'static [&'static str]
    ensures { map (λ text. text.now) result.now ≡ read_here kind }
{
    match kind {
        BlockKind::Host => &HOST,
        BlockKind::HostGroup => &HOST_GROUP,
        BlockKind::Service => &SERVICE,
        BlockKind::ServiceGroup => &SERVICE_GROUP,
        BlockKind::Contact => &CONTACT,
        BlockKind::ContactGroup => &CONTACT_GROUP,
        BlockKind::TimePeriod => &TIME_PERIOD,
        BlockKind::Command => &COMMAND,
        BlockKind::HostEscalation => &HOST_ESCALATION,
        BlockKind::ServiceEscalation => &SERVICE_ESCALATION,
        BlockKind::HostDependency => &HOST_DEPENDENCY,
        BlockKind::ServiceDependency => &SERVICE_DEPENDENCY,
        BlockKind::HostExtInfo => &HOST_EXT_INFO,
        BlockKind::ServiceExtInfo => &SERVICE_EXT_INFO,
    }
}
