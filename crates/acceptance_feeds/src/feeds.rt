//! A feed in any pieces, up to each of its ends. What each line gives is seen through the program.

use acceptance_inputs::readers::{Exes, Pieces, in_pieces};
use acceptance_inputs::rows::{Rows, config_of};
use due_model::config::Config;
use due_model::event::{Event, EventKind};
use event_feed::{FeedFault, Feeder, Horizon, OpenHorizon, stop_fault};
use std::alloc::{AllocError, Global};
use std::io::Read;
use std::process::Abort;
use std::test::Fail;
use text_lines::{AnyReader, Input, LineReader, NextLine, Stop};

/// The number of a line, and what it gives.
type Answer = (u64, Result<Event, FeedFault>);

/// The next answer of a feed, if it isn't over.
fn next_answer<R: Input + Drop>(config: &Config, feeder: &mut Feeder<R>) -> Option<Answer> {
    match feeder.next(config) {
        Ok(None) => None,
        Ok(Some(event)) => Some((feeder.line(), Ok(event))),
        Err(fault) => Some((fault.line, Err(fault.fault))),
    }
}

/// Compares the next answers of a feed.
fn answers_are<R: Input + Drop>(
    rt: &impl Abort,
    config: &Config,
    feeder: &mut Feeder<R>,
    answers: &[Answer],
) {
    for answer in answers {
        assert_eq!(rt; next_answer(config, feeder), Some(*answer));
    }
}

/// A feed has no further answer, and this is why.
fn is_over<R: Input + Drop>(rt: &impl Abort, config: &Config, feeder: &mut Feeder<R>, why: Stop) {
    assert_eq!(rt;
        (next_answer(config, feeder), feeder.stop()),
        (None, Some(why))
    );
}

/// Compares the answers of a feed, and why it is over.
fn gives<R: Read + Drop>(
    rt: &impl Abort,
    alloc: Global,
    config: &Config,
    reader: R,
    answers: &[Answer],
    why: Stop,
) -> Result<(), Fail> {
    let mut feeder = Feeder::new(LineReader::new(alloc, AnyReader::new(reader))?);
    answers_are(rt, config, &mut feeder, answers);
    is_over(rt, config, &mut feeder, why);
    Ok(())
}

/// Empty lines, a refused line after a great stamp, and lines of 4,096, 4,097 and 60,004 bytes.
fn mixed_feed(alloc: Global) -> Result<Vec<u8>, AllocError> {
    let mut feed = b"\n\n[5] CLOCK\n[9] NOPE\n\n[4] DISABLE_NOTIFICATIONS\n[1] ".to_vec(alloc)?;
    for count in [4092usize, 4093, 60_000] {
        let exes = feed.len().saturating_add(count);
        feed.resize(exes, b'x')?;
        feed.extend_from_slice(b"\n[1] ")?;
    }
    feed.extend_from_slice(b"ENABLE_NOTIFICATIONS\n\n")?;
    Ok(feed)
}

const MIXED_ANSWERS: [Answer; 7] = [
    (
        3,
        Ok(Event {
            moment: 5,
            kind: EventKind::Clock,
        }),
    ),
    (4, Err(FeedFault::UnknownKind)),
    (
        6,
        Ok(Event {
            moment: 5,
            kind: EventKind::Program(false),
        }),
    ),
    (7, Err(FeedFault::UnknownKind)),
    (8, Err(FeedFault::LineTooLong)),
    (9, Err(FeedFault::LineTooLong)),
    (
        10,
        Ok(Event {
            moment: 5,
            kind: EventKind::Program(true),
        }),
    ),
];

/// The mixed feed in pieces of several sizes.
fn pieces_give(rt: &impl Abort, alloc: Global, config: &Config, feed: &[u8]) -> Result<(), Fail> {
    for size in [1usize, 7, 100_000] {
        let reader = in_pieces(feed, size);
        gives(rt, alloc, config, reader, &MIXED_ANSWERS, Stop::InputEnded)?;
    }
    Ok(())
}

/// The mixed feed in any pieces.
fn mixed_gives(rt: &impl Abort, alloc: Global, config: &Config) -> Result<(), Fail> {
    let feed = mixed_feed(alloc)?;
    pieces_give(rt, alloc, config, feed.as_slice())
}

const SHORT_FEED: &[u8] = b"[5] CLOCK\n\n[4] NOPE\n[3] CLOCK\n";

/// What the lines of the short feed give, where all of it comes.
const SHORT_ANSWERS: [Answer; 3] = [
    (
        1,
        Ok(Event {
            moment: 5,
            kind: EventKind::Clock,
        }),
    ),
    (3, Err(FeedFault::UnknownKind)),
    (
        4,
        Ok(Event {
            moment: 5,
            kind: EventKind::Clock,
        }),
    ),
];

/// Of the short feed, where so many of its bytes come: how many answers whole lines give, and the number of the line that is then begun or
/// comes next.
fn short_places(count: usize) -> (usize, u64) {
    match count {
        0..10 => (0, 1),
        10 => (1, 2),
        11..20 => (1, 3),
        20..30 => (2, 4),
        _ => (3, 5),
    }
}

/// Compares the answers of the short feed, whose reader fails after so many bytes.
fn fails_in<R: Input + Drop>(
    rt: &impl Abort,
    config: &Config,
    feeder: &mut Feeder<R>,
    count: usize,
) {
    let (whole, line) = short_places(count);
    answers_are(rt, config, feeder, &SHORT_ANSWERS[..whole.min(3)]);
    let last = Some((line, Err(FeedFault::Read)));
    assert_eq!(rt; next_answer(config, feeder), last);
    is_over(rt, config, feeder, Stop::ReaderFailed);
}

/// The reader of the short feed fails after each number of bytes.
fn fails_at_each(rt: &impl Abort, alloc: Global, config: &Config) -> Result<(), Fail> {
    for calls in 0..31usize {
        let reader = Pieces {
            bytes: SHORT_FEED,
            size: 1,
            calls,
        };
        let mut feeder = Feeder::new(LineReader::new(alloc, AnyReader::new(reader))?);
        fails_in(rt, config, &mut feeder, calls);
    }
    Ok(())
}

/// So many bytes, what comes after them, how many come at a call; the fault, and why the feed is over.
type Long = (usize, &'static [u8], usize, FeedFault, Stop);

const LONG_LINES: [Long; 4] = [
    (usize::MAX, b"\n", 1, FeedFault::Read, Stop::TooManyCalls),
    (usize::MAX, b"\n", 4096, FeedFault::Read, Stop::TooManyBytes),
    (4097, b"\n", 4096, FeedFault::LineTooLong, Stop::InputEnded),
    (1_048_576, b"", 4096, FeedFault::Cut, Stop::CutLine),
];

/// Compares the answers of a long line.
fn long_gives(rt: &impl Abort, alloc: Global, config: &Config, long: Long) -> Result<(), Fail> {
    let (left, after, size, fault, why) = long;
    let reader = Exes { left, after, size };
    gives(rt, alloc, config, reader, &[(1, Err(fault))], why)
}

/// Compares the answers of each long line.
fn each_long_gives(rt: &impl Abort, alloc: Global, config: &Config) -> Result<(), Fail> {
    for long in &LONG_LINES {
        long_gives(rt, alloc, config, *long)?;
    }
    Ok(())
}

/// A horizon at a moment.
#[derive(Clone, Copy)]
struct Until(u64);

impl Horizon for Until {
    ghost use Rattle.std.specs.Prelude.{◌≡◌, Some, false};

    ghost is_open = { λ s. false };

    ghost says = { λ s latest. latest ≡ Some s.0 };

    fn latest(&self) -> Option<u64> {
        Some(self.0)
    }
}

/// The next answer of a feed whose stamps may be as late as a horizon says.
fn next_within<R: Input + Drop, H: Horizon>(
    config: &Config,
    feeder: &mut Feeder<R>,
    horizon: &H,
) -> Option<Answer> {
    match feeder.next_within(config, horizon) {
        Ok(None) => None,
        Ok(Some(event)) => Some((feeder.line(), Ok(event))),
        Err(fault) => Some((fault.line, Err(fault.fault))),
    }
}

/// The answer of a line that tells the time.
fn clock(line: u64, moment: u64) -> Answer {
    let kind = EventKind::Clock;
    (line, Ok(Event { moment, kind }))
}

/// Stamps up to a horizon at 100, past it, and back; once more with a nearer one, which isn't asked of a raised stamp.
fn far_lines_are_refused(rt: &impl Abort, alloc: Global, config: &Config) -> Result<(), Fail> {
    let feed =
        b"[99] CLOCK\n[101] CLOCK\n[5] CLOCK\n[100] CLOCK\n[101] NOPE\n[7] CLOCK\n[8] CLOCK\n";
    let mut feeder = Feeder::new(LineReader::new(alloc, AnyReader::new(in_pieces(feed, 3)))?);
    let answers = [
        clock(1, 99),
        (2, Err(FeedFault::Ahead)),
        clock(3, 99),
        clock(4, 100),
        (5, Err(FeedFault::UnknownKind)),
    ];
    for answer in &answers {
        assert_eq!(rt;
            next_within(config, &mut feeder, &Until(100)),
            Some(*answer)
        );
    }
    assert_eq!(rt;
        next_within(config, &mut feeder, &Until(7)),
        Some(clock(6, 100))
    );
    assert_eq!(rt;
        next_within(config, &mut feeder, &Until(7)),
        Some((7, Err(FeedFault::Ahead)))
    );
    assert_eq!(rt; next_within(config, &mut feeder, &OpenHorizon), None);
    Ok(())
}

/// Compares the line that a feeder read last, and whether one more is at hand.
fn is_at<R: Input + Drop>(rt: &impl Abort, feeder: &Feeder<R>, line: u64, text: &[u8], more: bool) {
    assert_eq!(rt;
        (feeder.line(), feeder.text(), feeder.has_line()),
        (line, text, more)
    );
}

/// A feeder has no line at first; it gives an event and a fault, and the text of each.
fn gives_texts<R: Input + Drop>(rt: &impl Abort, config: &Config, feeder: &mut Feeder<R>) {
    assert!(rt; !feeder.has_line());
    let clock = Event {
        moment: 5,
        kind: EventKind::Clock,
    };
    answers_are(rt, config, feeder, &[(2, Ok(clock))]);
    is_at(rt, feeder, 2, b"[5] CLOCK", true);
    assert!(rt; feeder.next(config).is_err());
    is_at(rt, feeder, 4, b"%steps", true);
}

/// The line that was read is "post", and none is at hand behind it.
fn is_at_post<R: Input + Drop>(rt: &impl Abort, lines: &LineReader<R>) {
    assert_eq!(rt;
        (lines.line(), lines.has_line()),
        (b"post".as_slice(), false)
    );
}

/// A feed has no event, and one line.
fn is_one_empty_line<R: Input + Drop>(rt: &impl Abort, config: &Config, feeder: &mut Feeder<R>) {
    is_over(rt, config, feeder, Stop::InputEnded);
    assert_eq!(rt; feeder.line(), 1);
}

/// The lines after a feed have one line "post" and an empty one.
fn goes_on<R: Input + Drop>(rt: &impl Abort, config: &Config, lines: LineReader<R>) {
    let mut lines = lines;
    assert_eq!(rt; lines.next_line(), NextLine::Line);
    is_at_post(rt, &lines);
    let mut feeder = Feeder::new(lines);
    is_one_empty_line(rt, config, &mut feeder);
}

/// A feed with steps after it.
const WITH_STEPS: &[u8] = b"\n[5] CLOCK\n\n%steps\npost\n\n";

/// Compares each line and text of a feed, and the lines after it.
fn gives_all_texts(rt: &impl Abort, alloc: Global, config: &Config) -> Result<(), Fail> {
    let mut feeder = Feeder::new(LineReader::new(alloc, WITH_STEPS)?);
    gives_texts(rt, config, &mut feeder);
    goes_on(rt, config, feeder.into_lines());
    Ok(())
}

/// Feeds of a configuration: in any pieces, of a reader that fails, without an end, with their texts, and past a horizon.
fn all_give(rt: &impl Abort, alloc: Global, config: &Config) -> Result<(), Fail> {
    mixed_gives(rt, alloc, config)?;
    fails_at_each(rt, alloc, config)?;
    each_long_gives(rt, alloc, config)?;
    gives_all_texts(rt, alloc, config)?;
    far_lines_are_refused(rt, alloc, config)
}

/// This function alone owns a configuration: each that does takes long to prove.
#[test]
fn feeds(rt: HostRuntime) -> Result<(), Fail> {
    let config = config_of(rt.alloc(), Rows::NONE)?;
    all_give(&rt, rt.alloc(), &config)
}

#[test]
fn names_faults(rt: HostRuntime) -> Result<(), Fail> {
    let text = format!(in rt.alloc(); "{} {}", FeedFault::NotUtf8, FeedFault::NoMemory)?;
    assert_eq!(rt; text.as_str(), "NotUtf8 NoMemory");
    assert_eq!(rt; stop_fault(Stop::TooManyLines), Some(FeedFault::Read));
    Ok(())
}
