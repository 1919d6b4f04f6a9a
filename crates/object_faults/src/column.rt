//! The directives that are looked at, one after another: what each must be, by the type of the block.

ghost use Rattle.std.specs.Prelude.{◌≡◌};
ghost use Rattle.object_faults.specs.Columns.{check_of, criteria_check, directive_of};
ghost use Rattle.object_faults.specs.Columns.{escalation_check, fault_name, options_check, when};
ghost use Rattle.object_faults.specs.claims.Faults.{breaks};

use crate::fault::ValueFault;
use crate::lists::{NameList, is_list_of, list_directive};
use object_groups::objects::name_directive;
use object_inheritance::kinds::{
    has_contacts, is_contact, is_dependency, is_escalation, is_host_or_service, is_period,
    is_service, kind_number, means_nothing,
};
use object_reader::block::BlockKind;
use object_values::options::{CriteriaKind, OptionKind, criteria_in, options_in};
use object_values::ranges::are_ranges;
use object_values::values::number_in;

/// What a directive must be.
#[derive(Clone, Copy)]
pub enum Check {
    /// Given.
    Given,
    /// A number.
    Number,
    /// A list of notification options.
    Options(OptionKind),
    /// A list of states.
    Criteria(CriteriaKind),
    /// Ranges of times.
    Ranges,
    /// The number 0.
    Zero,
    /// A list of names, none of which leaves something out.
    Names,
}

/// The directives, in the order of the faults that they may have. `is_volatile` is among them twice: as a
/// number, and as one that must be 0.
#[derive(Clone, Copy)]
pub enum Column {
    /// The directive that names blocks of this type.
    Name(BlockKind),
    /// `register`.
    Register,
    /// `notification_interval`.
    Interval,
    /// `notifications_enabled`.
    Enabled,
    /// `first_notification_delay`.
    Delay,
    /// `is_volatile`.
    IsVolatile,
    /// `host_notifications_enabled`.
    HostEnabled,
    /// `service_notifications_enabled`.
    ServiceEnabled,
    /// `first_notification`.
    First,
    /// `last_notification`.
    Last,
    /// `inherits_parent`.
    Inherits,
    /// `notification_options`.
    NotificationOptions,
    /// `host_notification_options`.
    HostOptions,
    /// `service_notification_options`.
    ServiceOptions,
    /// `escalation_options`.
    EscalationOptions,
    /// `notification_failure_criteria`.
    FailureCriteria,
    /// `sunday`.
    Sunday,
    /// `monday`.
    Monday,
    /// `tuesday`.
    Tuesday,
    /// `wednesday`.
    Wednesday,
    /// `thursday`.
    Thursday,
    /// `friday`.
    Friday,
    /// `saturday`.
    Saturday,
    /// `is_volatile`, which must be 0.
    VolatileZero,
    /// A list of names.
    Listed(NameList),
}

/// The name of a directive.
pub(crate) fn directive_of(column: Column) -> &'static str
    ensures { result.now ≡ directive_of column }
{
    match column {
        Column::Name(kind) => name_directive(kind),
        Column::Register => "register",
        Column::Interval => "notification_interval",
        Column::Enabled => "notifications_enabled",
        Column::Delay => "first_notification_delay",
        Column::IsVolatile => "is_volatile",
        Column::HostEnabled => "host_notifications_enabled",
        Column::ServiceEnabled => "service_notifications_enabled",
        Column::First => "first_notification",
        Column::Last => "last_notification",
        Column::Inherits => "inherits_parent",
        Column::NotificationOptions => "notification_options",
        Column::HostOptions => "host_notification_options",
        Column::ServiceOptions => "service_notification_options",
        Column::EscalationOptions => "escalation_options",
        Column::FailureCriteria => "notification_failure_criteria",
        Column::Sunday => "sunday",
        Column::Monday => "monday",
        Column::Tuesday => "tuesday",
        Column::Wednesday => "wednesday",
        Column::Thursday => "thursday",
        Column::Friday => "friday",
        Column::Saturday => "saturday",
        Column::VolatileZero => "is_volatile",
        Column::Listed(list) => list_directive(list),
    }
}

/// A check, where blocks of the type have the directive.
fn when(has: bool, check: Check) -> Option<Check>
    ensures { result ≡ when has check }
{
    if has { Some(check) } else { None }
}

/// A number, where blocks of the type have the directive.
fn number_where(has: bool) -> Option<Check>
    ensures { result ≡ when has Check.Number }
{
    when(has, Check::Number)
}

/// What `notification_options` must be.
fn options_check(kind: BlockKind) -> Option<Check>
    ensures { result ≡ options_check kind }
{
    match kind {
        BlockKind::Host => Some(Check::Options(OptionKind::Host)),
        BlockKind::Service => Some(Check::Options(OptionKind::Service)),
        _ => None,
    }
}

/// What `escalation_options` must be.
fn escalation_check(kind: BlockKind) -> Option<Check>
    ensures { result ≡ escalation_check kind }
{
    match kind {
        BlockKind::HostEscalation => Some(Check::Options(OptionKind::HostEscalation)),
        BlockKind::ServiceEscalation => Some(Check::Options(OptionKind::ServiceEscalation)),
        _ => None,
    }
}

/// What `notification_failure_criteria` must be.
fn criteria_check(kind: BlockKind) -> Option<Check>
    ensures { result ≡ criteria_check kind }
{
    match kind {
        BlockKind::HostDependency => Some(Check::Criteria(CriteriaKind::OfHosts)),
        BlockKind::ServiceDependency => Some(Check::Criteria(CriteriaKind::OfServices)),
        _ => None,
    }
}

/// What a directive must be in blocks of the type; `None` where it says nothing there.
pub(crate) fn check_of(column: Column, kind: BlockKind) -> Option<Check>
    ensures { result ≡ check_of column kind }
{
    match column {
        Column::Name(named) => when(kind_number(kind) == kind_number(named), Check::Given),
        Column::Register => number_where(!means_nothing(kind)),
        Column::Interval => number_where(has_contacts(kind)),
        Column::Enabled => number_where(is_host_or_service(kind)),
        Column::Delay => number_where(is_host_or_service(kind)),
        Column::IsVolatile => number_where(is_service(kind)),
        Column::HostEnabled => number_where(is_contact(kind)),
        Column::ServiceEnabled => number_where(is_contact(kind)),
        Column::First => number_where(is_escalation(kind)),
        Column::Last => number_where(is_escalation(kind)),
        Column::Inherits => number_where(is_dependency(kind)),
        Column::NotificationOptions => options_check(kind),
        Column::HostOptions => when(is_contact(kind), Check::Options(OptionKind::Host)),
        Column::ServiceOptions => when(is_contact(kind), Check::Options(OptionKind::Service)),
        Column::EscalationOptions => escalation_check(kind),
        Column::FailureCriteria => criteria_check(kind),
        Column::Sunday => when(is_period(kind), Check::Ranges),
        Column::Monday => when(is_period(kind), Check::Ranges),
        Column::Tuesday => when(is_period(kind), Check::Ranges),
        Column::Wednesday => when(is_period(kind), Check::Ranges),
        Column::Thursday => when(is_period(kind), Check::Ranges),
        Column::Friday => when(is_period(kind), Check::Ranges),
        Column::Saturday => when(is_period(kind), Check::Ranges),
        Column::VolatileZero => when(is_service(kind), Check::Zero),
        Column::Listed(list) => when(is_list_of(list, kind), Check::Names),
    }
}

/// Whether a text isn't what a directive must be.
pub(crate) fn breaks(check: Check, text: &[u8]) -> bool
    ensures { result ≡ breaks check text.now }
{
    match check {
        Check::Number => number_in(text).is_none(),
        Check::Options(kind) => options_in(kind, text).is_none(),
        Check::Criteria(kind) => criteria_in(kind, text).is_none(),
        Check::Ranges => !are_ranges(text),
        Check::Zero => match number_in(text) {
            None => false,
            Some(number) => number != 0,
        },
        Check::Given => false,
        Check::Names => false,
    }
}

/// The fault of what isn't what a directive must be.
pub(crate) fn fault_name(check: Check) -> ValueFault
    ensures { result ≡ fault_name check }
{
    match check {
        Check::Given => ValueFault::MissingDirective,
        Check::Number => ValueFault::BadNumber,
        Check::Options(_) | Check::Criteria(_) => ValueFault::BadOption,
        Check::Ranges => ValueFault::BadRange,
        Check::Zero => ValueFault::Volatile,
        Check::Names => ValueFault::Exclusion,
    }
}
