//! The letters of notification options.

/// What a notification is about, as a letter of an option list (chapter "Notifications").
#[derive(Clone, Copy, Debug, PartialEq, Eq)]
pub enum OptionLetter {
    /// `d`: a host is down.
    Down,
    /// `u` of a host: it is unreachable.
    Unreachable,
    /// `w`: a service is in the state WARNING.
    Warning,
    /// `u` of a service: its state is UNKNOWN.
    Unknown,
    /// `c`: a service is in the state CRITICAL.
    Critical,
    /// `r`: a recovery.
    Recovery,
    /// `f`: flapping starts or stops.
    Flapping,
    /// `s`: a downtime starts, ends or is cancelled.
    Downtime,
}

/// A set of letters, as `notification_options` gives it.
#[derive(Clone, Copy, Debug, PartialEq, Eq)]
pub struct OptionLetters {
    pub down: bool,
    pub unreachable: bool,
    pub warning: bool,
    pub unknown: bool,
    pub critical: bool,
    pub recovery: bool,
    pub flapping: bool,
    pub downtime: bool,
}

impl OptionLetters {
    /// Every letter.
    pub const ALL: OptionLetters = OptionLetters {
        down: true,
        unreachable: true,
        warning: true,
        unknown: true,
        critical: true,
        recovery: true,
        flapping: true,
        downtime: true,
    };
}
