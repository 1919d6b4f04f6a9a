//! The report of a feed, line by line as it comes.

ghost use Rattle.std.specs.Prelude.{◌≡◌, ◌+◌, ◌<◌, ◌≤◌, ◌∷◌, ◌++◌, [], List};
ghost use Rattle.std.specs.Prelude.{filter, length, false, true, IfErr, IfNone, IfOk, IfSome, None};
ghost use Rattle.std.specs.Prelude.{Ok, OnOk};
ghost use Rattle.command_output.specs.claims.Outcome.{IsWriteFault};
ghost use Rattle.written.specs.claims.Written.{Leaves, WritesFront};
ghost use Rattle.command_output.specs.claims.OutputLine.{entries_text};
ghost use Rattle.command_output.specs.claims.ReportLine.{refused_line};
ghost use Rattle.messages.specs.claims.Entries.{event_entries};
ghost use Rattle.decider.specs.claims.Fits.{Fits, core_kept, settings};
ghost use Rattle.decider.specs.Fits.{last_entries};
ghost use Rattle.due_model.specs.claims.Accepted.{IsAccepted};
ghost use Rattle.due_model.specs.claims.Proper.{IsProper};
ghost use Rattle.due_model.specs.declared.event.Event.{Event};
ghost use Rattle.event_feed.specs.claims.Feed.{feed_limit};
ghost use Rattle.event_feed.specs.Feed.{feed_of};
ghost use Rattle.replay.specs.Report.{Ends, GoesOn, WritesPart, WritesReport, WritesReportFront};
ghost use Rattle.replay.specs.claims.Report.{answer_text, is_ended};
ghost use Rattle.replay.specs.Report.{is_sent, whole_share};
ghost use Rattle.text_lines.specs.claims.Lines.{has_line};

use command_output::{CommandFault, Ending, Lines, OutputLine, Sink};
use decider::{DecideFault, EventDecider, Share};
use due_model::config::Config;
use due_model::event::Event;
use due_model::zone::Zone;
use event_feed::{FeedFault, Feeder};
use messages::entries::Entry;
use progress::{Progress, Watcher};
use std::alloc::{AllocError, Global};
use std::io::Read;
use text_lines::{Input, LineReader};

/// The share of the one decider of a replay: all objects.
const WHOLE: Share = Share {
    decider: 0,
    deciders: 1,
};

/// A report under way: the feed that is read, the decider of its events, and the lines on their way to the writer.
#[derive(Drop)]
pub(crate) struct Report<'a, R: Read> {
    config: &'a Config,
    zone: &'a Zone,
    feeder: Feeder<R>,
    decider: EventDecider<'a>,
    lines: Lines,
    progress: Progress,
    ghost settings: { settings (core_kept decider) ≡ (config.now, zone.now, whole_share) },
}

impl<'a, R: Input + Drop> Report<'a, R> {
    /// A report of which nothing is made yet. A refused growth is the only error.
    pub(crate) fn new(
        alloc: Global,
        config: &'a Config,
        zone: &'a Zone,
        lines: LineReader<R>,
    ) -> Result<Self, AllocError>
        requires accepted { IsAccepted config.now }
        ensures config { IfOk result (λ report. report.config.now ≡ config.now) }
        ensures zone { IfOk result (λ report. report.zone.now ≡ zone.now) }
        ensures feed { IfOk result (λ report. report.feeder ≡ feed_of lines 0 0 None) }
        ensures fits { IfOk result (λ report. Fits (core_kept report.decider) []) }
        ensures held { IfOk result (λ report. report.lines ≡ []) }
    {
        Ok(Report {
            config,
            zone,
            feeder: Feeder::new(lines),
            decider: EventDecider::new(alloc, config, zone, WHOLE)?,
            lines: Lines::new(alloc)?,
            progress: Progress::new(),
        })
    }

    /// Writes the report of the feed from its beginning, and tells how far it is, in events and in messages that are due.
    pub(crate) fn write<W: Sink, P: Watcher>(
        &mut self,
        writer: &mut W,
        watcher: &mut P,
    ) -> Result<Ending, CommandFault>
        requires goes_on { self.old.feeder.stop ≡ None }
        requires fits { Fits (core_kept self.old.decider) [] }
        requires held { self.old.lines ≡ [] }
        ensures ok { IfOk result (λ ending. WritesReport R.can_fail
            self.old.config.now self.old.zone.now
            self.old.feeder ending (W.contents writer.old) (W.contents writer.new)) }
        ensures front { WritesReportFront R.can_fail self.old.config.now self.old.zone.now
            self.old.feeder (W.contents writer.old) (W.contents writer.new) }
        ensures fault { IfErr result (λ fault. IsWriteFault W.can_fail fault) }
    {
        loop {
            let progress = self.progress;
            write_before_wait(&mut self.lines, &self.feeder, writer, watcher, progress)?;
            match self.take_line(writer)? {
                None => {}
                Some(ending) => {
                    watcher.make_way();
                    self.lines.flush(writer)?;
                    return Ok(ending);
                }
            }
        }
    }

    /// Reads the next line of the feed that says something, and makes the lines of what it gives. The answer says
    /// how the feed ended, once it has.
    fn take_line<W: Sink>(&mut self, writer: &mut W) -> Result<Option<Ending>, CommandFault>
        requires goes_on { self.old.feeder.stop ≡ None }
        requires fits { (past : List Event) × Fits (core_kept self.old.decider) past }
        ensures config { self.new.config.now ≡ self.old.config.now }
        ensures zone { self.new.zone.now ≡ self.old.zone.now }
        ensures goes_on { IfOk result (λ ended. IfNone ended (GoesOn
            self.old.config.now self.old.zone.now (core_kept self.old.decider) self.old.feeder
            (W.contents writer.old) self.old.lines
            (core_kept self.new.decider) self.new.feeder (W.contents writer.new) self.new.lines)) }
        ensures ends { IfOk result (λ ended. IfSome ended (λ ending. Ends R.can_fail
            self.old.config.now self.old.zone.now (core_kept self.old.decider) self.old.feeder
            (W.contents writer.old) self.old.lines ending (W.contents writer.new) self.new.lines)) }
        ensures front { WritesPart R.can_fail
            self.old.config.now self.old.zone.now (core_kept self.old.decider) self.old.feeder
            (W.contents writer.old) self.old.lines (W.contents writer.new) }
        ensures limit { self.new.feeder.line ≤ feed_limit + 1 }
        ensures fault { IfErr result (λ fault. IsWriteFault W.can_fail fault) }
    {
        match self.feeder.next(self.config) {
            Ok(None) => Ok(Some(Ending::Whole)),
            Ok(Some(event)) => {
                let line = self.feeder.line();
                self.decide_event(writer, event, line)
            }
            Err(refusal) => {
                let refused = OutputLine::Refused {
                    line: refusal.line,
                    fault: refusal.fault,
                };
                self.lines.write(writer, self.config, &refused)?;
                match self.feeder.stop() {
                    None => Ok(None),
                    Some(_) => Ok(Some(Ending::Short)),
                }
            }
        }
    }

    /// Decides the event of this line, and makes its lines. An event that would have the number 2^32 is
    /// refused, and the answer is `Short`.
    fn decide_event<W: Sink>(
        &mut self,
        writer: &mut W,
        event: Event,
        line: u64,
    ) -> Result<Option<Ending>, CommandFault>
        requires proper { IsProper self.old.config.now event }
        requires fits { (past : List Event) × Fits (core_kept self.old.decider) past }
        ensures config { self.new.config.now ≡ self.old.config.now }
        ensures zone { self.new.zone.now ≡ self.old.zone.now }
        ensures feed { self.new.feeder ≡ self.old.feeder }
        ensures goes_on { IfOk result (λ ended. IfNone ended ((past : List Event)
            → Fits (core_kept self.old.decider) past
            → (is_ended past (Ok event) ≡ false)
            × Fits (core_kept self.new.decider) (event ∷ past)
            × Leaves (W.contents writer.old) (W.contents writer.new)
            (self.old.lines ++ entries_text self.old.config.now
            (event_entries self.old.config.now self.old.zone.now event past))
            self.new.lines)) }
        ensures ends { IfOk result (λ ended. IfSome ended (λ ending. (past : List Event)
            → Fits (core_kept self.old.decider) past
            → (is_ended past (Ok event) ≡ true) × (ending ≡ Ending.Short)
            × Leaves (W.contents writer.old) (W.contents writer.new)
            (self.old.lines ++ refused_line line FeedFault.Ended)
            self.new.lines)) }
        ensures front { (past : List Event) → Fits (core_kept self.old.decider) past
            → WritesFront (W.contents writer.old) (W.contents writer.new)
            (self.old.lines ++ answer_text self.old.config.now self.old.zone.now past
            (record { line = line; given = Ok event })) }
        ensures fault { IfErr result (λ fault. IsWriteFault W.can_fail fault) }
    {
        match self.decider.decide(event) {
            Ok(()) => {
                let entries = self.decider.entries();
                let messages = count_messages(entries);
                self.lines.write_entries(writer, self.config, entries)?;
                self.progress = self.progress.with_event().with_messages(messages);
                Ok(None)
            }
            Err(DecideFault::Ended) => {
                let refused = OutputLine::Refused {
                    line,
                    fault: FeedFault::Ended,
                };
                self.lines.write(writer, self.config, &refused)?;
                Ok(Some(Ending::Short))
            }
            Err(DecideFault::NoMemory) => Err(self.lines.out_of_memory(writer)),
        }
    }
}

/// Writes all lines, and tells how far it is, unless a line of the feed is there to be read: else the next call of the
/// reader may wait.
fn write_before_wait<R: Input + Drop, W: Sink, P: Watcher>(
    lines: &mut Lines,
    feeder: &Feeder<R>,
    writer: &mut W,
    watcher: &mut P,
    progress: Progress,
) -> Result<(), CommandFault>
    ensures ok { OnOk result
        (Leaves (W.contents writer.old) (W.contents writer.new) lines.old lines.new) }
    ensures all { OnOk result (has_line feeder.now.held ≡ false → lines.new ≡ []) }
    ensures front { WritesFront (W.contents writer.old) (W.contents writer.new) lines.old }
    ensures fault { IfErr result (λ fault. IsWriteFault W.can_fail fault) }
{
    watcher.make_way();
    if feeder.has_line() {
        Ok(())
    } else {
        let flushed = lines.flush(writer);
        watcher.tell(progress);
        flushed
    }
}

/// How many messages are among entries.
fn count_messages(entries: &[Entry]) -> usize
    ensures { result ≡ length (filter is_sent entries.now) }
{
    let sent = entries
        .iter()
        .filter(|entry| matches!(entry, Entry::Sent(_)));
    sent.count()
}
