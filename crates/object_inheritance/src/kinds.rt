//! The types of blocks: their numbers, which tell whether two blocks are of one type, and which types are of one kind.

ghost use Rattle.std.specs.Prelude.{◌≡◌};
ghost use Rattle.object_inheritance.specs.Kinds.{has_contacts, is_contact, is_contact_group};
ghost use Rattle.object_inheritance.specs.Kinds.{is_dependency};
ghost use Rattle.object_inheritance.specs.Kinds.{is_escalation, is_group, is_host, is_host_group};
ghost use Rattle.object_inheritance.specs.claims.Kinds.{is_period};
ghost use Rattle.object_inheritance.specs.Kinds.{is_host_or_service, is_service};
ghost use Rattle.object_inheritance.specs.Kinds.{is_service_dependency, is_service_group};
ghost use Rattle.object_inheritance.specs.Kinds.{lists_hosts};
ghost use Rattle.object_inheritance.specs.claims.Kinds.{means_nothing};
ghost use Rattle.object_inheritance.specs.Kinds.{lists_services};
ghost use Rattle.object_inheritance.specs.claims.Templates.{kind_number};

use object_reader::block::BlockKind;

/// The number of a type, from 0 to 13. No other type has it.
pub fn kind_number(kind: BlockKind) -> u8
    ensures { result ≡ kind_number kind }
{
    match kind {
        BlockKind::Host => 0,
        BlockKind::HostGroup => 1,
        BlockKind::Service => 2,
        BlockKind::ServiceGroup => 3,
        BlockKind::Contact => 4,
        BlockKind::ContactGroup => 5,
        BlockKind::TimePeriod => 6,
        BlockKind::Command => 7,
        BlockKind::HostEscalation => 8,
        BlockKind::ServiceEscalation => 9,
        BlockKind::HostDependency => 10,
        BlockKind::ServiceDependency => 11,
        BlockKind::HostExtInfo => 12,
        BlockKind::ServiceExtInfo => 13,
    }
}

/// Whether blocks of the type are hosts.
pub fn is_host(kind: BlockKind) -> bool
    ensures { result ≡ is_host kind }
{
    matches!(kind, BlockKind::Host)
}

/// Whether blocks of the type are services.
pub fn is_service(kind: BlockKind) -> bool
    ensures { result ≡ is_service kind }
{
    matches!(kind, BlockKind::Service)
}

/// Whether blocks of the type are hosts or services.
pub fn is_host_or_service(kind: BlockKind) -> bool
    ensures { result ≡ is_host_or_service kind }
{
    matches!(kind, BlockKind::Host | BlockKind::Service)
}

/// Whether blocks of the type are contacts.
pub fn is_contact(kind: BlockKind) -> bool
    ensures { result ≡ is_contact kind }
{
    matches!(kind, BlockKind::Contact)
}

/// Whether blocks of the type are host groups.
pub fn is_host_group(kind: BlockKind) -> bool
    ensures { result ≡ is_host_group kind }
{
    matches!(kind, BlockKind::HostGroup)
}

/// Whether blocks of the type are service groups.
pub fn is_service_group(kind: BlockKind) -> bool
    ensures { result ≡ is_service_group kind }
{
    matches!(kind, BlockKind::ServiceGroup)
}

/// Whether blocks of the type are contact groups.
pub fn is_contact_group(kind: BlockKind) -> bool
    ensures { result ≡ is_contact_group kind }
{
    matches!(kind, BlockKind::ContactGroup)
}

/// Whether blocks of the type are groups.
pub fn is_group(kind: BlockKind) -> bool
    ensures { result ≡ is_group kind }
{
    matches!(
        kind,
        BlockKind::HostGroup | BlockKind::ServiceGroup | BlockKind::ContactGroup
    )
}

/// Whether blocks of the type are time periods.
pub fn is_period(kind: BlockKind) -> bool
    ensures { result ≡ is_period kind }
{
    matches!(kind, BlockKind::TimePeriod)
}

/// Whether blocks of the type are escalations.
pub fn is_escalation(kind: BlockKind) -> bool
    ensures { result ≡ is_escalation kind }
{
    matches!(
        kind,
        BlockKind::HostEscalation | BlockKind::ServiceEscalation
    )
}

/// Whether blocks of the type are dependencies.
pub fn is_dependency(kind: BlockKind) -> bool
    ensures { result ≡ is_dependency kind }
{
    matches!(
        kind,
        BlockKind::HostDependency | BlockKind::ServiceDependency
    )
}

/// Whether blocks of the type are dependencies of services.
pub fn is_service_dependency(kind: BlockKind) -> bool
    ensures { result ≡ is_service_dependency kind }
{
    matches!(kind, BlockKind::ServiceDependency)
}

/// Whether blocks of the type have contacts and an interval.
pub fn has_contacts(kind: BlockKind) -> bool
    ensures { result ≡ has_contacts kind }
{
    is_host_or_service(kind) || is_escalation(kind)
}

/// Whether blocks of the type list hosts and host groups by their names.
pub fn lists_hosts(kind: BlockKind) -> bool
    ensures { result ≡ lists_hosts kind }
{
    is_service(kind) || is_escalation(kind) || is_dependency(kind)
}

/// Whether blocks of the type list services and service groups by their names.
pub fn lists_services(kind: BlockKind) -> bool
    ensures { result ≡ lists_services kind }
{
    matches!(
        kind,
        BlockKind::ServiceEscalation | BlockKind::ServiceDependency
    )
}

/// Whether blocks of the type say nothing of notifications. They are passed over.
pub fn means_nothing(kind: BlockKind) -> bool
    ensures { result ≡ means_nothing kind }
{
    matches!(kind, BlockKind::HostExtInfo | BlockKind::ServiceExtInfo)
}
