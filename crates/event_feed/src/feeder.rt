//! The events of a feed, in order, from a reader of lines.

ghost use Rattle.std.specs.Prelude.{◌≡◌, ◌≢◌, ◌+◌, ◌-◌, ◌*◌, ℕ, Bool};
ghost use Rattle.std.specs.Prelude.{◌≤◌, ◌∷◌, [], false, true, IsSome};
ghost use Rattle.std.specs.Prelude.{None, Some, Ok, Err, IfOk, IfErr, IfSome, IfNone, OnSome, IsTrue};
ghost use Rattle.due_model.specs.claims.Proper.{IsProper};
ghost use Rattle.event_feed.specs.claims.Fault.{is_ahead};
ghost use Rattle.event_feed.specs.claims.Feed.{AreGivenBy, ComesToEnd, GivesEvent, GivesFault, GivesNone};
ghost use Rattle.event_feed.specs.claims.Feed.{AreGivenByWithin, GivesEventWithin, GivesFaultWithin};
ghost use Rattle.event_feed.specs.claims.Feed.{GivesNoneWithin, held_back};
ghost use Rattle.event_feed.specs.Feed.{IsFar, IsNear};
ghost use Rattle.event_feed.specs.claims.Feed.{feed_limit, lines_asked, raised, refusal};
ghost use Rattle.event_feed.specs.Feed.{feed_of};
ghost use Rattle.event_feed.specs.Feeder.{CountsLine, GoesToLine, begun_lines, stop_of};
ghost use Rattle.event_feed.specs.claims.Line.{line_reading};
ghost use Rattle.text_lines.specs.claims.CountedReader.{calls_after};
ghost use Rattle.text_lines.specs.claims.LineReader.{call_limit};
ghost use Rattle.text_lines.specs.claims.Lines.{has_line};

use crate::fault::{FeedFault, RefusedLine, stop_fault};
use crate::horizon::{Horizon, OpenHorizon};
use crate::line::read_line;
use due_model::config::Config;
use due_model::event::Event;
use std::io::Read;
use std::marker::Model;
use text_lines::{Input, LineReader, NextLine, Stop};

/// The most lines of a feed, empty ones counted.
pub const FEED_LIMIT: u64 = 8_589_934_592;

/// A feed that is read by a reader of lines. Contracts see the bytes to come, where the reader tells them, and those of
/// them that are held; the text and the number of the last line read; the calls of the reader; the greatest moment so
/// far; and why the feed is over, if it is.
#[derive(Drop)]
pub struct Feeder<R: Read> {
    lines: LineReader<R>,
    line: u64,
    last: u64,
    stop: Option<Stop>,
}

impl<R: Read> Model for Feeder<R> {
    ghost use Rattle.std.specs.Prelude.{◌≤◌, ◌+◌, if◌then◌else◌, is_some};
    ghost use Rattle.due_model.specs.claims.Limits.{last_moment};
    ghost use Rattle.event_feed.specs.claims.Feed.{Feed, feed_limit};
    ghost use Rattle.event_feed.specs.Feed.{feed_of};

    ghost Value = { Feed };

    ghost view = { λ s. feed_of s.lines s.line s.last s.stop };

    ghost invariant = { λ s. (s.line ≤ feed_limit + (if is_some s.stop then 1 else 0))
        × (s.last ≤ last_moment) };
}

impl<R: Input + Drop> Feeder<R> {
    /// A feed whose first line is the next of this reader. It takes no memory.
    pub fn new(lines: LineReader<R>) -> Self
        ensures { result ≡ feed_of lines 0 0 None }
    {
        Feeder {
            lines,
            line: 0,
            last: 0,
            stop: None,
        }
    }

    /// The number of the last line read, empty ones counted; 0 at first.
    pub fn line(&self) -> u64
        ensures { result ≡ self.now.line }
    {
        self.line
    }

    /// The text of the last line read, without its newline: of the line that gave the last event, or of one that was
    /// refused by what it says. Of a cut line it is what there is, and nothing where that is over 4,096 bytes.
    pub fn text(&self) -> &[u8]
        ensures { result.now ≡ self.now.text }
    {
        self.lines.line()
    }

    /// Why the feed is over, if it is.
    pub fn stop(&self) -> Option<Stop>
        ensures { result ≡ self.now.stop }
    {
        self.stop
    }

    /// Whether a line that isn't empty is held whole, so that `next` calls no reader.
    pub fn has_line(&self) -> bool
        ensures { result ≡ has_line self.now.held }
    {
        self.lines.has_line()
    }

    /// What follows the last line read, for whoever reads other lines: a feed ends where its user says, and so
    /// at a line that is no event.
    pub fn into_lines(self) -> LineReader<R>
        ensures { self ≡ feed_of result self.line self.last self.stop }
    {
        let Feeder { lines, .. } = self;
        lines
    }

    /// The next event, or the next line that gives none. Empty lines are passed over, and a stamp below the
    /// last moment is raised to it. A line with another fault than Cut and Read is read over, and the feed
    /// goes on after it; after Cut and Read, and at the end of the input, it is over, and the answer is
    /// `Ok(None)` from then on. It takes no memory, and calls no reader where `has_line` says so; else it calls the
    /// reader at most 65,536 times for a line, and for the end of the input.
    pub fn next(&mut self, config: &Config) -> Result<Option<Event>, RefusedLine>
        ensures over { OnSome self.old.stop ((result ≡ Ok None) × (self.new ≡ self.old)) }
        ensures event { IfOk result (λ found. IfSome found (λ event.
            GivesEvent config.now self.old event self.new)) }
        ensures none { IfOk result (λ found.
            IfNone found (GivesNone config.now.objects self.old self.new)) }
        ensures ended { IfNone self.old.stop (IfOk result (λ found.
            IfNone found (ComesToEnd self.old self.new))) }
        ensures fault { IfErr result (λ fault.
            GivesFault config.now.objects self.old fault self.new) }
        ensures last { IfErr result (λ fault. IsSome self.new.stop
            → AreGivenBy R.can_fail config.now.objects self.old (refusal fault ∷ [])) }
        ensures limit { self.new.line ≤ feed_limit + 1 }
        ensures held { IsTrue (has_line self.old.held) → self.new.calls ≡ self.old.calls }
        ensures few { self.new.calls ≤ self.old.calls
            + call_limit * lines_asked self.new.stop (self.new.line - self.old.line) }
        ensures many { IfNone self.old.stop (self.new.stop ≡ Some Stop.TooManyCalls
            → calls_after self.old.calls call_limit ≤ self.new.calls) }
        ensures sure { R.can_fail ≡ false
            → IfNone self.old.stop (self.new.stop ≢ Some Stop.ReaderFailed) }
    {
        self.next_within(config, &OpenHorizon)
    }

    /// The same, but a line that would give an event is refused as `Ahead` where its stamp is past what the horizon says once the
    /// line was read. It is read over, and raises no later stamp. Of a line that gives no event the horizon isn't asked.
    pub fn next_within<H: Horizon>(
        &mut self,
        config: &Config,
        horizon: &H,
    ) -> Result<Option<Event>, RefusedLine>
        ensures over { OnSome self.old.stop ((result ≡ Ok None) × (self.new ≡ self.old)) }
        // It answers as a feed does, of whose lines this one is too far ahead just where it is refused as Ahead;
        ensures event { IfOk result (λ found. IfSome found (λ event. (far : ℕ → Bool)
            → far self.new.line ≡ false
            → GivesEventWithin far config.now self.old event self.new)) }
        ensures none { IfOk result (λ found. IfNone found ((far : ℕ → Bool)
            → GivesNoneWithin far config.now.objects self.old self.new)) }
        ensures ended { IfNone self.old.stop (IfOk result (λ found.
            IfNone found (ComesToEnd self.old self.new))) }
        ensures fault { IfErr result (λ fault. (far : ℕ → Bool)
            → far fault.line ≡ is_ahead fault.fault
            → GivesFaultWithin far config.now.objects self.old fault self.new) }
        ensures last { IfErr result (λ fault. IsSome self.new.stop → (far : ℕ → Bool)
            → AreGivenByWithin far R.can_fail config.now.objects self.old (refusal fault ∷ [])) }
        // and that is where its stamp, which isn't raised yet, is past what the horizon says.
        ensures near { IfOk result (λ found. IfSome found (λ event.
            IsNear (H.says horizon.now) (line_reading config.now.objects self.new.text))) }
        ensures far { IfErr result (λ fault. is_ahead fault.fault ≡ true
            → IsFar (H.says horizon.now) (line_reading config.now.objects self.new.text)) }
        ensures no_limit { IfErr result (λ fault. H.is_open horizon.now ≡ true
            → is_ahead fault.fault ≡ false) }
        ensures limit { self.new.line ≤ feed_limit + 1 }
        ensures held { IsTrue (has_line self.old.held) → self.new.calls ≡ self.old.calls }
        ensures few { self.new.calls ≤ self.old.calls
            + call_limit * lines_asked self.new.stop (self.new.line - self.old.line) }
        ensures many { IfNone self.old.stop (self.new.stop ≡ Some Stop.TooManyCalls
            → calls_after self.old.calls call_limit ≤ self.new.calls) }
        ensures sure { R.can_fail ≡ false
            → IfNone self.old.stop (self.new.stop ≢ Some Stop.ReaderFailed) }
    {
        if self.stop.is_some() {
            return Ok(None);
        }
        let how = next_line(&mut self.lines, &mut self.line);
        let line = self.line;
        match how {
            NextLine::Line => match read_within(config, self.lines.line(), horizon) {
                Ok(event) => {
                    let event = raise(event, self.last);
                    self.last = event.moment;
                    Ok(Some(event))
                }
                Err(fault) => Err(RefusedLine { line, fault }),
            },
            NextLine::Long => Err(RefusedLine {
                line,
                fault: FeedFault::LineTooLong,
            }),
            NextLine::Over(stop) => {
                self.stop = Some(stop);
                match stop_fault(stop) {
                    None => Ok(None),
                    Some(fault) => Err(RefusedLine { line, fault }),
                }
            }
        }
    }
}

/// The event that a line says, where its stamp isn't past what a horizon says, or the first reason why it gives none.
fn read_within<H: Horizon>(config: &Config, line: &[u8], horizon: &H) -> Result<Event, FeedFault>
    ensures event { IfOk result (λ event. line_reading config.now.objects line.now ≡ Ok event) }
    ensures proper { IfOk result (IsProper config.now) }
    ensures fault { IfErr result (λ fault.
        held_back (is_ahead fault) (line_reading config.now.objects line.now) ≡ Err fault) }
    ensures near { IfOk result (λ event.
        IsNear (H.says horizon.now) (line_reading config.now.objects line.now)) }
    ensures far { IfErr result (λ fault. is_ahead fault ≡ true
        → IsFar (H.says horizon.now) (line_reading config.now.objects line.now)) }
    ensures no_limit { IfErr result (λ fault. H.is_open horizon.now ≡ true
        → is_ahead fault ≡ false) }
{
    let event = read_line(config, line)?;
    match horizon.latest() {
        Some(latest) if event.moment > latest => Err(FeedFault::Ahead),
        _ => Ok(event),
    }
}

/// Goes to the next line that isn't empty, and counts.
fn next_line<R: Input + Drop>(lines: &mut LineReader<R>, line: &mut u64) -> NextLine
    requires { line.old ≤ feed_limit }
    ensures goes { GoesToLine lines.old line.old result lines.new line.new }
    ensures counts { CountsLine line.old result line.new }
    ensures held { IsTrue (has_line lines.old.held) → lines.new.calls ≡ lines.old.calls }
    ensures few { lines.new.calls ≤ lines.old.calls
        + call_limit * lines_asked (stop_of result) (line.new - line.old) }
    ensures many { result ≡ NextLine.Over Stop.TooManyCalls
        → calls_after lines.old.calls call_limit ≤ lines.new.calls }
    ensures sure { R.can_fail ≡ false → result ≢ NextLine.Over Stop.ReaderFailed }
{
    for read in *line..FEED_LIMIT {
        match lines.next_line() {
            NextLine::Line => {
                *line = read + 1;
                if !lines.line().is_empty() {
                    return NextLine::Line;
                }
            }
            NextLine::Long => {
                *line = read + 1;
                return NextLine::Long;
            }
            NextLine::Over(stop) => {
                *line = read + begun_lines(stop);
                return NextLine::Over(stop);
            }
        }
    }
    *line += 1;
    NextLine::Over(Stop::TooManyLines)
}

/// How many lines are begun where the reading is over: none where the input ended after a whole line, else one.
fn begun_lines(stop: Stop) -> u64
    ensures lines { result ≡ begun_lines stop }
    ensures few { result ≤ 1 }
{
    match stop {
        Stop::InputEnded => 0,
        Stop::CutLine
        | Stop::ReaderFailed
        | Stop::TooManyCalls
        | Stop::TooManyBytes
        | Stop::TooManyLines => 1,
    }
}

/// The event, its moment raised to the last one.
fn raise(event: Event, last: u64) -> Event
    ensures { Ok result ≡ raised last (Ok event) }
{
    Event {
        moment: event.moment.max(last),
        kind: event.kind,
    }
}
