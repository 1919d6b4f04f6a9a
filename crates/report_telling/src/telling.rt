//! The telling of a report under way, line by line as it comes.

ghost use Rattle.std.specs.Prelude.{◌≡◌, ◌+◌, ◌≤◌, ◌∷◌, [], List};
ghost use Rattle.std.specs.Prelude.{filter, length, false, true, IfErr, IfNone, IfOk, IfSome, None};
ghost use Rattle.std.specs.Prelude.{◌++◌, Ok, OnOk};
ghost use Rattle.command_output.specs.claims.Outcome.{IsWriteFault};
ghost use Rattle.written.specs.claims.Written.{Leaves, WritesFront};
ghost use Rattle.decider.specs.claims.Fits.{Fits, core_kept, settings};
ghost use Rattle.due_model.specs.claims.Accepted.{IsAccepted};
ghost use Rattle.due_model.specs.claims.Proper.{IsProper};
ghost use Rattle.due_model.specs.declared.event.Event.{Event};
ghost use Rattle.event_feed.specs.claims.Feed.{feed_limit};
ghost use Rattle.event_feed.specs.Feed.{feed_of};
ghost use Rattle.replay.specs.claims.Report.{is_ended};
ghost use Rattle.replay.specs.Report.{is_sent, whole_share};
ghost use Rattle.report_telling.specs.Lines.{answer_lines, given_lines, refusal_line};
ghost use Rattle.report_telling.specs.Telling.{Ends, GoesOn, TellsPart, TellsFeed, TellsFeedFront};
ghost use Rattle.report_telling.specs.Told.{after_all, form_of, told_all, told_report};
ghost use Rattle.text_lines.specs.claims.Lines.{has_line};

use crate::tellers::Teller;
use crate::told_lines::ToldLines;
use command_output::{CommandFault, Ending, Sink};
use decider::{DecideFault, EventDecider, Share};
use due_model::config::Config;
use due_model::event::Event;
use due_model::zone::Zone;
use event_feed::{FeedFault, Feeder, RefusedLine};
use line_forms::ReportLine;
use messages::entries::Entry;
use progress::{Progress, Watcher};
use std::alloc::{AllocError, Global};
use std::io::Read;
use text_lines::{Input, LineReader};
use zone_times::clock::ZoneClock;

/// The share of the one decider: all objects.
const WHOLE: Share = Share {
    decider: 0,
    deciders: 1,
};

/// The telling of a report under way: the feed that is read, the decider of its events, and the teller with what it has
/// written.
#[derive(Drop)]
pub(crate) struct Telling<'a, R: Read, T: Teller> {
    config: &'a Config,
    clock: ZoneClock<'a>,
    feeder: Feeder<R>,
    decider: EventDecider<'a>,
    lines: ToldLines<T>,
    progress: Progress,
    ghost settings: { settings (core_kept decider) ≡ (config.now, clock, whole_share) },
}

impl<'a, R: Input + Drop, T: Teller> Telling<'a, R, T> {
    /// A telling of which nothing is done yet. A refused growth is the only error.
    pub(crate) fn new(
        alloc: Global,
        config: &'a Config,
        zone: &'a Zone,
        teller: T,
        lines: LineReader<R>,
    ) -> Result<Self, AllocError>
        requires accepted { IsAccepted config.now }
        ensures config { IfOk result (λ telling. telling.config.now ≡ config.now) }
        ensures zone { IfOk result (λ telling. telling.clock ≡ zone.now) }
        ensures feed { IfOk result (λ telling. telling.feeder ≡ feed_of lines 0 0 None) }
        ensures fits { IfOk result (λ telling. Fits (core_kept telling.decider) []) }
        ensures teller { IfOk result (λ telling. telling.lines.teller ≡ teller) }
        ensures held { IfOk result (λ telling. telling.lines.buffer ≡ []) }
    {
        Ok(Telling {
            config,
            clock: ZoneClock::new(zone),
            feeder: Feeder::new(lines),
            decider: EventDecider::new(alloc, config, zone, WHOLE)?,
            lines: ToldLines::new(alloc, teller)?,
            progress: Progress::new(),
        })
    }

    /// Tells the report of the feed from its beginning, and tells a watcher how far it is, in events and in messages that
    /// are due.
    pub(crate) fn write<W: Sink, P: Watcher>(
        &mut self,
        writer: &mut W,
        watcher: &mut P,
    ) -> Result<Ending, CommandFault>
        requires goes_on { self.old.feeder.stop ≡ None }
        requires fits { Fits (core_kept self.old.decider) [] }
        requires held { self.old.lines.buffer ≡ [] }
        ensures ok { IfOk result (λ ending. TellsFeed (form_of T.told T.after T.ended) R.can_fail
            self.old.config.now self.old.clock self.old.feeder self.old.lines.teller ending
            (W.contents writer.old) (W.contents writer.new)) }
        ensures front { TellsFeedFront (form_of T.told T.after T.ended) R.can_fail
            self.old.config.now self.old.clock self.old.feeder self.old.lines.teller
            (W.contents writer.old) (W.contents writer.new) }
        ensures fault { IfErr result (λ fault. IsWriteFault W.can_fail fault) }
    {
        loop {
            let progress = self.progress;
            write_before_wait(&mut self.lines, &self.feeder, writer, watcher, progress)?;
            match self.take_line(writer)? {
                None => {}
                Some(ending) => {
                    watcher.make_way();
                    self.lines.finish(writer, self.config, &self.clock)?;
                    return Ok(ending);
                }
            }
        }
    }

    /// Reads the next line of the feed that says something, and tells the lines of what it gives. The answer says
    /// how the feed ended, once it has.
    fn take_line<W: Sink>(&mut self, writer: &mut W) -> Result<Option<Ending>, CommandFault>
        requires goes_on { self.old.feeder.stop ≡ None }
        requires fits { (past : List Event) × Fits (core_kept self.old.decider) past }
        ensures config { self.new.config.now ≡ self.old.config.now }
        ensures zone { self.new.clock ≡ self.old.clock }
        ensures goes_on { IfOk result (λ ended. IfNone ended (GoesOn (form_of T.told T.after T.ended)
            self.old.config.now self.old.clock (core_kept self.old.decider) self.old.feeder
            self.old.lines.teller (W.contents writer.old) self.old.lines.buffer
            (core_kept self.new.decider) self.new.feeder self.new.lines.teller
            (W.contents writer.new) self.new.lines.buffer)) }
        ensures ends { IfOk result (λ ended. IfSome ended (λ ending.
            Ends (form_of T.told T.after T.ended) R.can_fail
            self.old.config.now self.old.clock (core_kept self.old.decider) self.old.feeder
            self.old.lines.teller (W.contents writer.old) self.old.lines.buffer ending
            self.new.lines.teller (W.contents writer.new) self.new.lines.buffer)) }
        ensures front { TellsPart (form_of T.told T.after T.ended) R.can_fail
            self.old.config.now self.old.clock (core_kept self.old.decider) self.old.feeder
            self.old.lines.teller (W.contents writer.old) self.old.lines.buffer
            (W.contents writer.new) }
        ensures limit { self.new.feeder.line ≤ feed_limit + 1 }
        ensures fault { IfErr result (λ fault. IsWriteFault W.can_fail fault) }
    {
        match self.feeder.next(self.config) {
            Ok(None) => Ok(Some(Ending::Whole)),
            Ok(Some(event)) => {
                let line = self.feeder.line();
                self.decide_event(writer, event, line)
            }
            Err(refusal) => {
                self.lines.tell(
                    writer,
                    self.config,
                    &self.clock,
                    &ReportLine::Refused(refusal),
                )?;
                match self.feeder.stop() {
                    None => Ok(None),
                    Some(_) => Ok(Some(Ending::Short)),
                }
            }
        }
    }

    /// Decides the event of this line, and tells its lines. An event that would have the number 2^32 is
    /// refused, and the answer is `Short`.
    fn decide_event<W: Sink>(
        &mut self,
        writer: &mut W,
        event: Event,
        line: u64,
    ) -> Result<Option<Ending>, CommandFault>
        requires proper { IsProper self.old.config.now event }
        requires fits { (past : List Event) × Fits (core_kept self.old.decider) past }
        ensures config { self.new.config.now ≡ self.old.config.now }
        ensures zone { self.new.clock ≡ self.old.clock }
        ensures feed { self.new.feeder ≡ self.old.feeder }
        ensures goes_on { IfOk result (λ ended. IfNone ended ((past : List Event)
            → Fits (core_kept self.old.decider) past
            → (is_ended past (Ok event) ≡ false)
            × Fits (core_kept self.new.decider) (event ∷ past)
            × Leaves (W.contents writer.old) (W.contents writer.new)
            (self.old.lines.buffer
            ++ told_all (form_of T.told T.after T.ended self.old.config.now self.old.clock)
            self.old.lines.teller
            (given_lines self.old.config.now self.old.clock past line (Ok event)))
            self.new.lines.buffer
            × (self.new.lines.teller
            ≡ after_all (form_of T.told T.after T.ended self.old.config.now self.old.clock)
            self.old.lines.teller
            (given_lines self.old.config.now self.old.clock past line (Ok event))))) }
        ensures ends { IfOk result (λ ended. IfSome ended (λ ending. (past : List Event)
            → Fits (core_kept self.old.decider) past
            → (is_ended past (Ok event) ≡ true) × (ending ≡ Ending.Short)
            × Leaves (W.contents writer.old) (W.contents writer.new)
            (self.old.lines.buffer ++ T.told self.old.lines.teller self.old.config.now
            self.old.clock (refusal_line line FeedFault.Ended)) self.new.lines.buffer
            × (self.new.lines.teller ≡ T.after self.old.lines.teller self.old.config.now
            self.old.clock (refusal_line line FeedFault.Ended)))) }
        ensures front { (past : List Event) → Fits (core_kept self.old.decider) past
            → WritesFront (W.contents writer.old) (W.contents writer.new)
            (self.old.lines.buffer
            ++ told_all (form_of T.told T.after T.ended self.old.config.now self.old.clock)
            self.old.lines.teller (answer_lines self.old.config.now self.old.clock past
            (record { line = line; given = Ok event }))) }
        ensures fault { IfErr result (λ fault. IsWriteFault W.can_fail fault) }
    {
        self.clock.move_to(event.moment);
        match self.decider.decide(event) {
            Ok(()) => {
                let entries = self.decider.entries();
                let messages = count_messages(entries);
                self.lines
                    .tell_entries(writer, self.config, &self.clock, entries)?;
                self.progress = self.progress.with_event().with_messages(messages);
                Ok(None)
            }
            Err(DecideFault::Ended) => {
                let refused = ReportLine::Refused(RefusedLine {
                    line,
                    fault: FeedFault::Ended,
                });
                self.lines.tell(writer, self.config, &self.clock, &refused)?;
                Ok(Some(Ending::Short))
            }
            Err(DecideFault::NoMemory) => Err(self.lines.out_of_memory(writer)),
        }
    }
}

/// Writes all that was told, and tells how far it is, unless a line of the feed is there to be read: else the next call of
/// the reader may wait.
fn write_before_wait<R: Input + Drop, W: Sink, P: Watcher, T: Teller>(
    lines: &mut ToldLines<T>,
    feeder: &Feeder<R>,
    writer: &mut W,
    watcher: &mut P,
    progress: Progress,
) -> Result<(), CommandFault>
    ensures ok { OnOk result (Leaves (W.contents writer.old) (W.contents writer.new)
        lines.old.buffer lines.new.buffer) }
    ensures teller { lines.new.teller ≡ lines.old.teller }
    ensures all { OnOk result (has_line feeder.now.held ≡ false → lines.new.buffer ≡ []) }
    ensures front { WritesFront (W.contents writer.old) (W.contents writer.new) lines.old.buffer }
    ensures fault { IfErr result (λ fault. IsWriteFault W.can_fail fault) }
{
    watcher.make_way();
    if feeder.has_line() {
        Ok(())
    } else {
        let flushed = lines.flush(writer);
        watcher.tell(progress);
        flushed
    }
}

/// How many messages are among entries.
fn count_messages(entries: &[Entry]) -> usize
    ensures { result ≡ length (filter is_sent entries.now) }
{
    let sent = entries
        .iter()
        .filter(|entry| matches!(entry, Entry::Sent(_)));
    sent.count()
}
