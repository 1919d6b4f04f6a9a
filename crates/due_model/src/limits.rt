//! The limits: of what a configuration holds, of what is read, of a feed, and of what runs. Each stands here once.

/// How many hosts and services a configuration may have.
pub const MAX_OBJECTS: usize = 65_535;

/// How many contacts.
pub const MAX_CONTACTS: usize = 4_096;

/// How many lanes: notification commands that some contact uses.
pub const MAX_LANES: usize = 16;

/// How many time periods.
pub const MAX_PERIODS: usize = 4_096;

/// How many escalations.
pub const MAX_ESCALATIONS: usize = 1_000_000;

/// How many dependencies.
pub const MAX_DEPENDENCIES: usize = 1_000_000;

/// The greatest number of a directive.
pub const MAX_NUMBER: u32 = 1_000_000;

/// The greatest stamp of an event, in seconds since the epoch: the end of the year 2999 in UTC.
pub const LAST_MOMENT: u64 = 32_503_679_999;

/// How many seconds a day has.
pub const DAY: u32 = 86_400;

/// The most bytes of object text, newlines counted.
pub const TEXT_LIMIT: usize = 16_777_216;

/// The most bytes of a line of object text or of a feed, without its newline.
pub const LINE_LIMIT: usize = 4_096;

/// How many events a feed may have: 2^32.
pub const MAX_EVENTS: u64 = 4_294_967_296;

/// How many deciders may run.
pub const MAX_DECIDERS: u8 = 8;
