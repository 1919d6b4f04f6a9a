//! The states of hosts and services.

/// A hard state of a host or a service (chapter "State Types").
#[derive(Clone, Copy, Debug, PartialEq, Eq)]
pub enum State {
    /// Nothing is known of the object yet.
    Pending,
    /// A host that is up.
    Up,
    /// A host that is down.
    Down,
    /// A host that is reached only by way of a host that is down.
    Unreachable,
    /// A service that is OK.
    Fine,
    /// A service in the state WARNING.
    Warning,
    /// A service in the state UNKNOWN.
    Unknown,
    /// A service in the state CRITICAL.
    Critical,
}

/// A set of states, as in `notification_failure_criteria` (chapter "Host and Service Dependencies").
#[derive(Clone, Copy, Debug, PartialEq, Eq)]
pub struct StateSet {
    pub pending: bool,
    pub up: bool,
    pub down: bool,
    pub unreachable: bool,
    pub fine: bool,
    pub warning: bool,
    pub unknown: bool,
    pub critical: bool,
}
