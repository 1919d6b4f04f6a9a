//! The feed of a trace: events up to a line `%steps`.

ghost use Rattle.std.specs.Prelude.{◌≡◌, ◌+◌, ◌<◌, ◌≤◌, ◌↔◌, ◌++◌, true};
ghost use Rattle.std.specs.Prelude.{IfErr, IfNone, IfOk, IfSome, None, Ok, Err, OnErr, OnOk};
ghost use Rattle.due_model.specs.claims.Proper.{IsProper};
ghost use Rattle.command_output.specs.claims.Outcome.{IsWriteFault};
ghost use Rattle.written.specs.claims.Written.{Leaves, WritesFront};
ghost use Rattle.event_feed.specs.claims.Feed.{feed_limit};
ghost use Rattle.text_lines.specs.claims.Lines.{Known};
ghost use Rattle.trace.specs.Feed.{IsMark, added, after_stop, events_after, is_over_after};
ghost use Rattle.trace.specs.FeedRun.{EndsFeed, GoesOn, ReadsFeed, ReadsFront, Unmoved};
ghost use Rattle.trace.specs.Run.{Fits};

use crate::run::Run;
use command_output::{CommandFault, Lines, OutputLine, Sink};
use due_model::event::Event;
use due_model::limits::MAX_EVENTS;
use event_feed::{FeedFault, Feeder, RefusedLine};
use text_lines::{Input, Stop};

/// The line that separates the feed from the step lines.
const MARK: &[u8] = b"%steps";

/// What comes after a feed.
#[derive(Clone, Copy, Debug, PartialEq, Eq)]
pub(crate) enum AfterFeed {
    /// Step lines.
    Steps,
    /// Nothing: the input ended after a whole line.
    Nothing,
    /// Nothing: the input ended within a line.
    Cut,
    /// What can't be read.
    Unread,
}

/// Reads a feed up to a line that is the mark, or to its end, keeps its events, and writes its refused lines. The
/// answer says what comes after it.
pub(crate) fn read_feed<R: Input + Drop, W: Sink>(
    lines: &mut Lines,
    writer: &mut W,
    run: &mut Run<'_>,
    feeder: &mut Feeder<R>,
) -> Result<AfterFeed, CommandFault>
    requires fits { Fits run.old }
    requires open { feeder.old.stop ≡ None }
    requires limit { feeder.old.line ≤ feed_limit + 1 }
    ensures fits { Fits run.new }
    ensures unmoved { Unmoved run.old run.new }
    ensures feed { IfOk result (λ after. Known feeder.old.bytes feeder.new.bytes (λ bytes rest.
        ReadsFeed R.can_fail run.old feeder.old bytes after run.new rest
        (W.contents writer.old) (W.contents writer.new) lines.old lines.new)) }
    ensures front { OnErr result (IfSome feeder.old.bytes (λ bytes.
        ReadsFront R.can_fail run.old feeder.old bytes
        (W.contents writer.old) (W.contents writer.new) lines.old)) }
    ensures fault { IfErr result (λ fault. IsWriteFault W.can_fail fault) }
{
    loop {
        if let Some(after) = read_feed_line(lines, writer, run, feeder)? {
            return Ok(after);
        }
    }
}

/// Reads the next line of the feed that says something: its event is kept, and its refusal written. After an event
/// that can't be numbered nothing is kept or written. The answer says what comes after the feed, once it is over.
fn read_feed_line<R: Input + Drop, W: Sink>(
    lines: &mut Lines,
    writer: &mut W,
    run: &mut Run<'_>,
    feeder: &mut Feeder<R>,
) -> Result<Option<AfterFeed>, CommandFault>
    requires fits { Fits run.old }
    requires open { feeder.old.stop ≡ None }
    ensures fits { Fits run.new }
    ensures unmoved { Unmoved run.old run.new }
    ensures goes_on { IfOk result (λ end. IfNone end
        ((feeder.old.line < feeder.new.line) × (feeder.new.stop ≡ None))) }
    ensures limit { feeder.new.line ≤ feed_limit + 1 }
    ensures next { IfOk result (λ end. IfNone end (Known feeder.old.bytes feeder.new.bytes
        (λ bytes rest. GoesOn run.old feeder.old bytes run.new feeder.new rest
        (W.contents writer.old) (W.contents writer.new) lines.old lines.new))) }
    ensures last { IfOk result (λ end. IfSome end (λ after. Known feeder.old.bytes feeder.new.bytes
        (λ bytes rest. EndsFeed R.can_fail run.old feeder.old bytes after run.new rest
        (W.contents writer.old) (W.contents writer.new) lines.old lines.new))) }
    ensures front { OnErr result (IfSome feeder.old.bytes (λ bytes.
        ReadsFront R.can_fail run.old feeder.old bytes
        (W.contents writer.old) (W.contents writer.new) lines.old)) }
    ensures fault { IfErr result (λ fault. IsWriteFault W.can_fail fault) }
{
    match feeder.next(run.config) {
        Ok(None) => Ok(Some(AfterFeed::Nothing)),
        Ok(Some(event)) => {
            let line = feeder.line();
            keep_event(lines, writer, run, event, line)?;
            Ok(None)
        }
        Err(refusal) => {
            if is_mark(refusal.fault, feeder.text()) {
                return Ok(Some(AfterFeed::Steps));
            }
            write_refusal(lines, writer, run, refusal)?;
            match feeder.stop() {
                None => Ok(None),
                Some(stop) => Ok(Some(after_stop(stop))),
            }
        }
    }
}

/// What comes after a feed that stopped at a line.
fn after_stop(stop: Stop) -> AfterFeed
    ensures { result ≡ after_stop stop }
{
    match stop {
        Stop::CutLine => AfterFeed::Cut,
        Stop::InputEnded
        | Stop::ReaderFailed
        | Stop::TooManyCalls
        | Stop::TooManyBytes
        | Stop::TooManyLines => AfterFeed::Unread,
    }
}

/// Whether a refused line is the mark: it is no line of a feed.
fn is_mark(fault: FeedFault, text: &[u8]) -> bool
    ensures { result ≡ true ↔ IsMark fault text.now }
{
    fault == FeedFault::BadStamp && text == MARK
}

/// Writes a refused line, unless an event before couldn't be numbered.
fn write_refusal<W: Sink>(
    lines: &mut Lines,
    writer: &mut W,
    run: &Run<'_>,
    refusal: RefusedLine,
) -> Result<(), CommandFault>
    ensures ok { OnOk result (Leaves (W.contents writer.old) (W.contents writer.new)
        (lines.old ++ added run.now.events.items run.now.is_over refusal.line (Err refusal.fault))
        lines.new) }
    ensures front { WritesFront (W.contents writer.old) (W.contents writer.new)
        (lines.old
        ++ added run.now.events.items run.now.is_over refusal.line (Err refusal.fault)) }
    ensures fault { IfErr result (λ fault. IsWriteFault W.can_fail fault) }
{
    if run.is_over {
        return Ok(());
    }
    let line = OutputLine::Refused {
        line: refusal.line,
        fault: refusal.fault,
    };
    lines.write(writer, run.config, &line)
}

/// Keeps the event of a line of the feed, if it can be numbered.
fn keep_event<W: Sink>(
    lines: &mut Lines,
    writer: &mut W,
    run: &mut Run<'_>,
    event: Event,
    line: u64,
) -> Result<(), CommandFault>
    requires fits { Fits run.old }
    requires proper { IsProper run.old.config.now event }
    ensures fits { Fits run.new }
    ensures unmoved { Unmoved run.old run.new }
    ensures events { OnOk result (run.new.events.items
        ≡ events_after run.old.events.items run.old.is_over (Ok event)) }
    ensures over { OnOk result (run.new.is_over
        ≡ is_over_after run.old.events.items run.old.is_over (Ok event)) }
    ensures ok { OnOk result (Leaves (W.contents writer.old) (W.contents writer.new)
        (lines.old ++ added run.old.events.items run.old.is_over line (Ok event)) lines.new) }
    ensures front { WritesFront (W.contents writer.old) (W.contents writer.new)
        (lines.old ++ added run.old.events.items run.old.is_over line (Ok event)) }
    ensures fault { IfErr result (λ fault. IsWriteFault W.can_fail fault) }
{
    if run.is_over {
        return Ok(());
    }
    if run.events.len() as u64 == MAX_EVENTS {
        run.is_over = true;
        let refusal = OutputLine::Refused {
            line,
            fault: FeedFault::Ended,
        };
        return lines.write(writer, run.config, &refusal);
    }
    match run.events.push(event) {
        Ok(()) => Ok(()),
        Err(_) => Err(lines.out_of_memory(writer)),
    }
}
