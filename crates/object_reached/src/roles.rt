//! The roles that objects have in blocks.

ghost use Rattle.std.specs.Prelude.{◌≡◌};
ghost use Rattle.object_reached.specs.claims.Roles.{host_kind, service_kind};

use object_reader::block::BlockKind;

/// The roles that objects have in the blocks that speak of them.
#[derive(Clone, Copy, Debug, PartialEq, Eq)]
pub enum Role {
    /// The objects that an escalation is for.
    Escalated,
    /// The objects on which those of a dependency depend.
    Master,
    /// The objects that depend on them.
    Dependent,
}

impl Role {
    /// The type of the blocks that speak of hosts.
    pub fn host_kind(self) -> BlockKind
        ensures { result ≡ host_kind self }
    {
        match self {
            Role::Escalated => BlockKind::HostEscalation,
            Role::Master => BlockKind::HostDependency,
            Role::Dependent => BlockKind::HostDependency,
        }
    }

    /// The type of the blocks that speak of services.
    pub fn service_kind(self) -> BlockKind
        ensures { result ≡ service_kind self }
    {
        match self {
            Role::Escalated => BlockKind::ServiceEscalation,
            Role::Master => BlockKind::ServiceDependency,
            Role::Dependent => BlockKind::ServiceDependency,
        }
    }
}
