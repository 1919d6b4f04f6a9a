//! A report and a picture under way, line by line of the feed as it comes.

ghost use Rattle.std.specs.Prelude.{◌≡◌, ◌+◌, ◌≤◌, ◌∷◌, [], ◌++◌, List, map};
ghost use Rattle.std.specs.Prelude.{filter, length, false, true, IfErr, IfNone, IfOk, IfSome, None};
ghost use Rattle.std.specs.Prelude.{Ok, OnOk};
ghost use Rattle.command_output.specs.claims.Outcome.{IsWriteFault};
ghost use Rattle.command_output.specs.declared.outcome.CommandFault.TheVariants.{NoMemory};
ghost use Rattle.decider.specs.claims.Fits.{Fits, core_kept, settings};
ghost use Rattle.due_model.specs.claims.Accepted.{IsAccepted};
ghost use Rattle.due_model.specs.claims.Proper.{IsProper};
ghost use Rattle.due_model.specs.declared.event.Event.{Event};
ghost use Rattle.event_feed.specs.claims.Feed.{feed_limit};
ghost use Rattle.event_feed.specs.Feed.{feed_of};
ghost use Rattle.line_forms.specs.declared.report_line.ReportLine.TheVariants.{Decided};
ghost use Rattle.night_marks.specs.Night.{nothing_heard};
ghost use Rattle.replay.specs.claims.Report.{is_ended};
ghost use Rattle.replay.specs.Report.{is_sent, whole_share};
ghost use Rattle.report_picture.specs.Drawing.{DrawsFeed, Ends, GoesOn, IsDrawn};
ghost use Rattle.report_picture.specs.Nights.{night_given};
ghost use Rattle.report_telling.specs.Lines.{given_lines, refusal_line};
ghost use Rattle.report_telling.specs.Telling.{TellsFeedFront};
ghost use Rattle.report_telling.specs.Told.{after_all, form_of, told_all};
ghost use Rattle.written.specs.claims.Written.{Leaves, WritesFront};

use crate::output::{write_all, write_before_wait};
use command_output::{CommandFault, Ending, Sink};
use decider::{DecideFault, EventDecider, Share};
use due_model::config::Config;
use due_model::event::Event;
use due_model::zone::Zone;
use event_feed::{FeedFault, Feeder, RefusedLine};
use line_forms::ReportLine;
use messages::entries::Entry;
use night_marks::Night;
use night_picture::{left_out, push_picture};
use progress::{Progress, Watcher};
use report_telling::Teller;
use std::alloc::{AllocError, Global};
use std::io::Read;
use text_lines::{Input, LineReader};
use zone_times::clock::ZoneClock;

/// The share of the one decider: all objects.
const WHOLE: Share = Share {
    decider: 0,
    deciders: 1,
};

/// A picture.
#[derive(Drop)]
pub struct Picture {
    /// Its text, as SVG.
    pub text: Vec<u8>,
    /// How many marks of the feed aren't in it.
    pub left_out: u64,
}

impl Picture {
    /// No picture yet.
    pub fn new(alloc: Global) -> Picture
        ensures text { result.text.items ≡ [] }
        ensures left { result.left_out ≡ 0 }
    {
        Picture {
            text: Vec::new(alloc),
            left_out: 0,
        }
    }
}

/// A report and a picture under way: the feed that is read, the decider of its events, the teller with what
/// it has written, and what is kept for the picture.
#[derive(Drop)]
pub(crate) struct Drawing<'a, R: Read, T: Teller> {
    alloc: Global,
    config: &'a Config,
    clock: ZoneClock<'a>,
    feeder: Feeder<R>,
    decider: EventDecider<'a>,
    teller: T,
    night: Night,
    /// What the teller has written that is held back.
    text: Vec<u8>,
    progress: Progress,
    ghost settings: { settings (core_kept decider) ≡ (config.now, clock, whole_share) },
}

impl<'a, R: Input + Drop, T: Teller> Drawing<'a, R, T> {
    /// One of which nothing is done yet. A refused growth is the only error.
    pub(crate) fn new(
        alloc: Global,
        config: &'a Config,
        zone: &'a Zone,
        teller: T,
        lines: LineReader<R>,
    ) -> Result<Self, AllocError>
        requires accepted { IsAccepted config.now }
        ensures config { IfOk result (λ drawing. drawing.config.now ≡ config.now) }
        ensures zone { IfOk result (λ drawing. drawing.clock ≡ zone.now) }
        ensures feed { IfOk result (λ drawing. drawing.feeder ≡ feed_of lines 0 0 None) }
        ensures fits { IfOk result (λ drawing. Fits (core_kept drawing.decider) []) }
        ensures teller { IfOk result (λ drawing. drawing.teller ≡ teller) }
        ensures night { IfOk result (λ drawing. drawing.night ≡ nothing_heard) }
        ensures text { IfOk result (λ drawing. drawing.text.items ≡ []) }
    {
        Ok(Drawing {
            alloc,
            config,
            clock: ZoneClock::new(zone),
            feeder: Feeder::new(lines),
            decider: EventDecider::new(alloc, config, zone, WHOLE)?,
            teller,
            night: Night::new(alloc)?,
            text: Vec::new(alloc),
            progress: Progress::new(),
        })
    }

    /// Tells the report of the feed from its beginning, and draws its picture at the end. A watcher is told
    /// how far it is, in events and in messages that are due.
    pub(crate) fn write<W: Sink, P: Watcher>(
        &mut self,
        picture: &mut Picture,
        writer: &mut W,
        watcher: &mut P,
    ) -> Result<Ending, CommandFault>
        requires goes_on { self.old.feeder.stop ≡ None }
        requires fits { Fits (core_kept self.old.decider) [] }
        requires night { self.old.night ≡ nothing_heard }
        requires text { self.old.text.items ≡ [] }
        ensures ok { IfOk result (λ ending. DrawsFeed (form_of T.told T.after T.ended) R.can_fail
            self.old.config.now self.old.clock self.old.feeder self.old.teller ending
            (W.contents writer.old) (W.contents writer.new) picture.old picture.new) }
        ensures front { TellsFeedFront (form_of T.told T.after T.ended) R.can_fail
            self.old.config.now self.old.clock self.old.feeder self.old.teller
            (W.contents writer.old) (W.contents writer.new) }
        ensures fault { IfErr result (λ fault. IsWriteFault W.can_fail fault) }
    {
        loop {
            let progress = self.progress;
            write_before_wait(&mut self.text, &self.feeder, writer, watcher, progress)?;
            match self.take_line()? {
                None => {}
                Some(ending) => {
                    watcher.make_way();
                    self.finish(picture, writer)?;
                    return Ok(ending);
                }
            }
        }
    }

    /// Reads the next line of the feed that says something, tells the lines of what it gives, and keeps it.
    /// The answer says how the feed ended, once it has. After `Err` it isn't to be used.
    fn take_line(&mut self) -> Result<Option<Ending>, CommandFault>
        requires goes_on { self.old.feeder.stop ≡ None }
        requires fits { (past : List Event) × Fits (core_kept self.old.decider) past }
        ensures config { self.new.config.now ≡ self.old.config.now }
        ensures zone { self.new.clock ≡ self.old.clock }
        ensures goes_on { IfOk result (λ ended. IfNone ended (GoesOn (form_of T.told T.after T.ended)
            self.old.config.now self.old.clock (core_kept self.old.decider) self.old.feeder
            self.old.teller self.old.night self.old.text.items
            (core_kept self.new.decider) self.new.feeder self.new.teller self.new.night
            self.new.text.items)) }
        ensures ends { IfOk result (λ ended. IfSome ended (λ ending.
            Ends (form_of T.told T.after T.ended) R.can_fail
            self.old.config.now self.old.clock (core_kept self.old.decider) self.old.feeder
            self.old.teller self.old.night self.old.text.items ending
            self.new.teller self.new.night self.new.text.items)) }
        ensures limit { self.new.feeder.line ≤ feed_limit + 1 }
        ensures fault { IfErr result (λ fault. fault ≡ NoMemory) }
    {
        match self.feeder.next(self.config) {
            Ok(None) => Ok(Some(Ending::Whole)),
            Ok(Some(event)) => {
                let line = self.feeder.line();
                self.decide_event(event, line)
            }
            Err(refusal) => {
                self.refuse(refusal)?;
                match self.feeder.stop() {
                    None => Ok(None),
                    Some(_) => Ok(Some(Ending::Short)),
                }
            }
        }
    }

    /// Tells that a line is refused.
    fn refuse(&mut self, refusal: RefusedLine) -> Result<(), CommandFault>
        ensures config { self.new.config.now ≡ self.old.config.now }
        ensures zone { self.new.clock ≡ self.old.clock }
        ensures feed { self.new.feeder ≡ self.old.feeder }
        ensures decider { self.new.decider ≡ self.old.decider }
        ensures night { self.new.night ≡ self.old.night }
        ensures text { OnOk result (self.new.text.items ≡ self.old.text.items
            ++ T.told self.old.teller self.old.config.now self.old.clock
            (refusal_line refusal.line refusal.fault)) }
        ensures teller { OnOk result (self.new.teller ≡ T.after self.old.teller
            self.old.config.now self.old.clock (refusal_line refusal.line refusal.fault)) }
        ensures fault { IfErr result (λ fault. fault ≡ NoMemory) }
    {
        let line = ReportLine::Refused(refusal);
        self.teller
            .tell(self.config, &self.clock, &line, &mut self.text)?;
        Ok(())
    }

    /// Decides the event of this line, tells its lines, and keeps it. An event that would have the number
    /// 2^32 is refused, and the answer is `Short`.
    fn decide_event(&mut self, event: Event, line: u64) -> Result<Option<Ending>, CommandFault>
        requires proper { IsProper self.old.config.now event }
        requires fits { (past : List Event) × Fits (core_kept self.old.decider) past }
        ensures config { self.new.config.now ≡ self.old.config.now }
        ensures zone { self.new.clock ≡ self.old.clock }
        ensures feed { self.new.feeder ≡ self.old.feeder }
        ensures goes_on { IfOk result (λ ended. IfNone ended ((past : List Event)
            → Fits (core_kept self.old.decider) past
            → (is_ended past (Ok event) ≡ false)
            × Fits (core_kept self.new.decider) (event ∷ past)
            × (self.new.text.items ≡ self.old.text.items
            ++ told_all (form_of T.told T.after T.ended self.old.config.now self.old.clock)
            self.old.teller (given_lines self.old.config.now self.old.clock past line (Ok event)))
            × (self.new.teller
            ≡ after_all (form_of T.told T.after T.ended self.old.config.now self.old.clock)
            self.old.teller (given_lines self.old.config.now self.old.clock past line (Ok event)))
            × (self.new.night ≡ night_given self.old.config.now self.old.clock past
            self.old.night (Ok event)))) }
        ensures ends { IfOk result (λ ended. IfSome ended (λ ending. (past : List Event)
            → Fits (core_kept self.old.decider) past
            → (is_ended past (Ok event) ≡ true) × (ending ≡ Ending.Short)
            × (self.new.text.items ≡ self.old.text.items
            ++ T.told self.old.teller self.old.config.now self.old.clock
            (refusal_line line FeedFault.Ended))
            × (self.new.teller ≡ T.after self.old.teller self.old.config.now
            self.old.clock (refusal_line line FeedFault.Ended))
            × (self.new.night ≡ self.old.night))) }
        ensures fault { IfErr result (λ fault. fault ≡ NoMemory) }
    {
        self.clock.move_to(event.moment);
        match self.decider.decide(event) {
            Ok(()) => {
                let entries = self.decider.entries();
                let messages = count_messages(entries);
                tell_entries(
                    &mut self.teller,
                    self.config,
                    &self.clock,
                    entries,
                    &mut self.text,
                )?;
                self.night.hear(self.alloc, event)?;
                self.night.tell(self.alloc, entries)?;
                self.progress = self.progress.with_event().with_messages(messages);
                Ok(None)
            }
            Err(DecideFault::Ended) => {
                self.refuse(RefusedLine {
                    line,
                    fault: FeedFault::Ended,
                })?;
                Ok(Some(Ending::Short))
            }
            Err(DecideFault::NoMemory) => Err(CommandFault::NoMemory),
        }
    }

    /// Tells the end, writes all, and draws the picture.
    fn finish<W: Sink>(&mut self, picture: &mut Picture, writer: &mut W) -> Result<(), CommandFault>
        ensures ok { OnOk result (Leaves (W.contents writer.old) (W.contents writer.new)
            (self.old.text.items
            ++ T.ended self.old.teller self.old.config.now self.old.clock) []) }
        ensures drawn { OnOk result
            (IsDrawn self.old.config.now self.old.clock self.old.night picture.old picture.new) }
        ensures front { WritesFront (W.contents writer.old) (W.contents writer.new)
            (self.old.text.items
            ++ T.ended self.old.teller self.old.config.now self.old.clock) }
        ensures fault { IfErr result (λ fault. IsWriteFault W.can_fail fault) }
    {
        self.teller.end(self.config, &self.clock, &mut self.text)?;
        write_all(&mut self.text, writer)?;
        draw(self.alloc, picture, self.config, &self.clock, &self.night)?;
        Ok(())
    }
}

/// Draws the picture of what is kept. A refused growth is the only error.
fn draw(
    alloc: Global,
    picture: &mut Picture,
    config: &Config,
    clock: &ZoneClock<'_>,
    night: &Night,
) -> Result<(), AllocError>
    ensures { OnOk result (IsDrawn config.now clock.now night.now picture.old picture.new) }
{
    push_picture(alloc, &mut picture.text, config, clock, night)?;
    picture.left_out = left_out(alloc, night)?;
    Ok(())
}

/// Tells the lines of entries, in order.
fn tell_entries<T: Teller>(
    teller: &mut T,
    config: &Config,
    clock: &ZoneClock<'_>,
    entries: &[Entry],
    text: &mut Vec<u8>,
) -> Result<(), AllocError>
    ensures text { OnOk result (text.new.items ≡ text.old.items
        ++ told_all (form_of T.told T.after T.ended config.now clock.now) teller.old
        (map Decided entries.now)) }
    ensures teller { OnOk result (teller.new
        ≡ after_all (form_of T.told T.after T.ended config.now clock.now) teller.old
        (map Decided entries.now)) }
{
    for entry in entries {
        teller.tell(config, clock, &ReportLine::Decided(*entry), text)?;
    }
    Ok(())
}

/// How many messages are among entries.
fn count_messages(entries: &[Entry]) -> usize
    ensures { result ≡ length (filter is_sent entries.now) }
{
    let sent = entries
        .iter()
        .filter(|entry| matches!(entry, Entry::Sent(_)));
    sent.count()
}
