//! Why a line of the feed gives no event.

ghost use Rattle.std.specs.Prelude.{◌≡◌, Some};
ghost use Rattle.event_feed.specs.claims.Fault.{fault_name, stop_fault};

use std::fmt;
use text_lines::Stop;

/// Why a line of the feed gives no event, in the order in which the faults of one line are looked for.
/// The name of each is what a report prints.
#[derive(Clone, Copy, Debug, PartialEq, Eq)]
pub enum FeedFault {
    /// The line doesn't begin with a stamp in range.
    BadStamp,
    /// The name is none of the feed's.
    UnknownKind,
    /// No object has the name.
    UnknownObject,
    /// The number of arguments is wrong, or the last one isn't what this name takes.
    BadState,
    /// The line has over 4,096 bytes.
    LineTooLong,
    /// The line isn't UTF-8.
    NotUtf8,
    /// The line gives an event whose stamp is too far ahead of the machine's clock, for whoever sets such a limit. Only a line that
    /// would give an event else is refused so.
    Ahead,
    /// The input ended within the line. The feed is over.
    Cut,
    /// The reading stopped: the reader failed, or the line or the feed is past a limit. The feed is over.
    Read,
    /// A growth was refused. The feed is over.
    NoMemory,
    /// There are as many events as can be numbered. Whoever numbers them notes it, and no feeder does.
    Ended,
}

impl FeedFault {
    /// The name, as reports print it.
    pub fn name(self) -> &'static str
        ensures { result.now ≡ fault_name self }
    {
        match self {
            FeedFault::BadStamp => "BadStamp",
            FeedFault::UnknownKind => "UnknownKind",
            FeedFault::UnknownObject => "UnknownObject",
            FeedFault::BadState => "BadState",
            FeedFault::LineTooLong => "LineTooLong",
            FeedFault::NotUtf8 => "NotUtf8",
            FeedFault::Ahead => "Ahead",
            FeedFault::Cut => "Cut",
            FeedFault::Read => "Read",
            FeedFault::NoMemory => "NoMemory",
            FeedFault::Ended => "Ended",
        }
    }
}

impl fmt::Display for FeedFault {
    ghost output = { λ fault. Some (fault_name fault) };

    fn fmt<W: fmt::Write>(&self, f: &mut fmt::Formatter<W>) -> fmt::Result {
        f.write_str(self.name())
    }
}

/// A line of the feed that gives no event. Lines are numbered from 1, empty ones too.
#[derive(Clone, Copy, Debug, PartialEq, Eq)]
pub struct RefusedLine {
    pub line: u64,
    pub fault: FeedFault,
}

/// The fault that a report notes of why a feed is over: none where the input ended after a whole line.
pub fn stop_fault(stop: Stop) -> Option<FeedFault>
    ensures { result ≡ stop_fault stop }
{
    match stop {
        Stop::InputEnded => None,
        Stop::CutLine => Some(FeedFault::Cut),
        Stop::ReaderFailed | Stop::TooManyCalls | Stop::TooManyBytes | Stop::TooManyLines => Some(
            FeedFault::Read,
        ),
    }
}
