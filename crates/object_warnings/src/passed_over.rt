//! The directives of blocks that Nagios reads and this program doesn't (chapter "Object Definitions").

ghost use Rattle.std.specs.Prelude.{◌≡◌, map};
ghost use Rattle.object_warnings.specs.Tables.{passed_over};

use object_reader::block::BlockKind;

const HOST: [&str; 44] = [
    "display_name",
    "alias",
    "address",
    "parents",
    "host_groups",
    "checks_enabled",
    "obsess_over_host",
    "check_command",
    "check_period",
    "check_interval",
    "normal_check_interval",
    "retry_interval",
    "retry_check_interval",
    "max_check_attempts",
    "active_checks_enabled",
    "passive_checks_enabled",
    "event_handler",
    "event_handler_enabled",
    "check_freshness",
    "freshness_threshold",
    "low_flap_threshold",
    "high_flap_threshold",
    "flap_detection_enabled",
    "flap_detection_options",
    "stalking_options",
    "process_perf_data",
    "failure_prediction_enabled",
    "failure_prediction_options",
    "retain_status_information",
    "retain_nonstatus_information",
    "obsess",
    "initial_state",
    "importance",
    "hourly_value",
    "notes",
    "notes_url",
    "action_url",
    "icon_image",
    "icon_image_alt",
    "vrml_image",
    "statusmap_image",
    "gd2_image",
    "2d_coords",
    "3d_coords",
];

const HOST_GROUP: [&str; 4] = ["alias", "notes", "notes_url", "action_url"];

const SERVICE: [&str; 42] = [
    "display_name",
    "parents",
    "host",
    "hosts",
    "hostgroup",
    "hostgroups",
    "service_groups",
    "description",
    "parallelize_check",
    "obsess_over_service",
    "check_command",
    "check_period",
    "check_interval",
    "normal_check_interval",
    "retry_interval",
    "retry_check_interval",
    "max_check_attempts",
    "active_checks_enabled",
    "passive_checks_enabled",
    "event_handler",
    "event_handler_enabled",
    "check_freshness",
    "freshness_threshold",
    "low_flap_threshold",
    "high_flap_threshold",
    "flap_detection_enabled",
    "flap_detection_options",
    "stalking_options",
    "process_perf_data",
    "failure_prediction_enabled",
    "failure_prediction_options",
    "retain_status_information",
    "retain_nonstatus_information",
    "obsess",
    "initial_state",
    "importance",
    "hourly_value",
    "notes",
    "notes_url",
    "action_url",
    "icon_image",
    "icon_image_alt",
];

const SERVICE_GROUP: [&str; 4] = ["alias", "notes", "notes_url", "action_url"];

const CONTACT: [&str; 15] = [
    "alias",
    "contact_groups",
    "email",
    "pager",
    "address1",
    "address2",
    "address3",
    "address4",
    "address5",
    "address6",
    "can_submit_commands",
    "retain_status_information",
    "retain_nonstatus_information",
    "minimum_importance",
    "minimum_value",
];

const CONTACT_GROUP: [&str; 1] = ["alias"];

const TIME_PERIOD: [&str; 1] = ["alias"];

const COMMAND: [&str; 1] = ["command_line"];

const HOST_ESCALATION: [&str; 3] = ["host", "hostgroup", "hostgroups"];

const SERVICE_ESCALATION: [&str; 6] = [
    "host",
    "hostgroup",
    "hostgroups",
    "servicegroup",
    "servicegroups",
    "description",
];

const HOST_DEPENDENCY: [&str; 11] = [
    "host",
    "master_host",
    "master_host_name",
    "hostgroup",
    "hostgroups",
    "dependent_host",
    "dependent_hostgroup",
    "dependent_hostgroups",
    "notification_failure_options",
    "execution_failure_criteria",
    "execution_failure_options",
];

const SERVICE_DEPENDENCY: [&str; 19] = [
    "host",
    "master_host",
    "master_host_name",
    "hostgroup",
    "hostgroups",
    "servicegroup",
    "servicegroups",
    "description",
    "master_description",
    "master_service_description",
    "dependent_host",
    "dependent_hostgroup",
    "dependent_hostgroups",
    "dependent_servicegroup",
    "dependent_servicegroups",
    "dependent_description",
    "notification_failure_options",
    "execution_failure_criteria",
    "execution_failure_options",
];

const HOST_EXT_INFO: [&str; 13] = [
    "host_name",
    "hostgroup",
    "hostgroup_name",
    "notes",
    "notes_url",
    "action_url",
    "icon_image",
    "icon_image_alt",
    "vrml_image",
    "statusmap_image",
    "gd2_image",
    "2d_coords",
    "3d_coords",
];

const SERVICE_EXT_INFO: [&str; 9] = [
    "host_name",
    "hostgroup",
    "hostgroup_name",
    "service_description",
    "notes",
    "notes_url",
    "action_url",
    "icon_image",
    "icon_image_alt",
];

/// The directives of blocks of the type that Nagios reads and this program doesn't; some are other names of ones that it does.
pub fn passed_over(kind: BlockKind) -> &'static [&'static str]
    ensures { map (λ text. text.now) result.now ≡ passed_over kind }
{
    match kind {
        BlockKind::Host => &HOST,
        BlockKind::HostGroup => &HOST_GROUP,
        BlockKind::Service => &SERVICE,
        BlockKind::ServiceGroup => &SERVICE_GROUP,
        BlockKind::Contact => &CONTACT,
        BlockKind::ContactGroup => &CONTACT_GROUP,
        BlockKind::TimePeriod => &TIME_PERIOD,
        BlockKind::Command => &COMMAND,
        BlockKind::HostEscalation => &HOST_ESCALATION,
        BlockKind::ServiceEscalation => &SERVICE_ESCALATION,
        BlockKind::HostDependency => &HOST_DEPENDENCY,
        BlockKind::ServiceDependency => &SERVICE_DEPENDENCY,
        BlockKind::HostExtInfo => &HOST_EXT_INFO,
        BlockKind::ServiceExtInfo => &SERVICE_EXT_INFO,
    }
}
