//! What a run says at once on standard error: a line of the feed that is refused, a channel that failed for good, a lane that
//! closed since its last channel has, or that has none, and want of memory. And what it writes to its log, and counts for its metrics, if it
//! has them.

use crate::run_log::RunLog;
use crate::run_metrics::RunMetrics;
use channel::Fault;
use channel::letter::Letter;
use command_output::OutputLine;
use due_model::config::{Config, LaneId};
use due_model::notice::Notice;
use notice_text::texts::lane_name;
use progress::Counts;
use std::alloc::{AllocError, Global};
use std::io::{Eprint, IsTerminal};
use std::sync::Arc;
use std::sync::atomic::{AtomicBool, Ordering};

/// What takes the line that shows how far a run is away.
const EMPTY: &str = "\r\x1b[K";

/// What is said where memory ran out.
const WANTING: &str = "notify-run: memory: some of what comes now stays undecided or undelivered\n";

/// What says lines on standard error, from any thread, and each by one call; what can't be written is left out. And what writes lines of the run's log,
/// and counts for its metrics.
#[derive(Drop)]
pub struct Teller {
    rt: HostRuntime,
    counts: Arc<Counts, Global>,
    /// Whether nothing is said.
    is_quiet: bool,
    /// What stands before each line.
    begin: &'static str,
    /// Whether it was said that memory ran out.
    was_wanting: AtomicBool,
    log: Option<RunLog>,
    metrics: Option<RunMetrics>,
}

impl Teller {
    /// A teller beside what shows these counts, or one that says nothing; with the log and the metrics of the run, if it has them.
    pub fn new(
        rt: &HostRuntime,
        counts: Arc<Counts, Global>,
        is_quiet: bool,
        log: Option<RunLog>,
        metrics: Option<RunMetrics>,
    ) -> Teller {
        let begin = if rt.stderr().is_terminal() { EMPTY } else { "" };
        Teller {
            rt: *rt,
            counts,
            is_quiet,
            begin,
            was_wanting: AtomicBool::new(false),
            log,
            metrics,
        }
    }

    /// Says a line.
    pub fn say(&self, text: &str) {
        if self.is_quiet {
            return;
        }
        let begin = self.begin;
        let Ok(line) = format!(in self.rt.alloc(); "{begin}notify-run: {text}\n") else {
            return;
        };
        let _ = self.rt.eprint(line.as_str());
        self.counts.say();
    }

    /// Says that lines of the log can't be written, where it is so for the first time.
    fn say_log(&self, is_well: bool) {
        if !is_well {
            self.say("log: a line can't be written; what comes now goes out all the same");
        }
    }

    /// Writes a line of the report to the log, if there is one.
    pub fn log_line(&self, line: &OutputLine<'_>) {
        if let Some(log) = &self.log {
            self.say_log(log.write(line));
        }
    }

    /// Writes whole lines to the log. False: they are lost.
    pub(crate) fn log_lines(&self, text: &[u8]) -> bool {
        let Some(log) = &self.log else {
            return false;
        };
        let is_written = log.put(text);
        if !is_written {
            self.say_log(log.lose());
        }
        is_written
    }

    /// How many lines of the log were lost.
    pub fn lost(&self) -> u64 {
        match &self.log {
            Some(log) => log.lost(),
            None => 0,
        }
    }

    /// Whether it counts for metrics.
    pub(crate) fn is_metered(&self) -> bool {
        self.metrics.is_some()
    }

    /// Counts that a decider holds so many notices of a lane.
    pub fn count_held(&self, decider: u8, lane: LaneId, notices: u64) {
        if let Some(metrics) = &self.metrics {
            metrics.meters.hold(decider, lane, notices);
        }
    }

    /// Counts that a decider has put one of them into the lane's queue.
    pub fn count_queued(&self, decider: u8, lane: LaneId) {
        if let Some(metrics) = &self.metrics {
            metrics.meters.queue(decider, lane);
        }
    }

    /// Counts a notice that a lane gives up, and writes it to the log, if there is one.
    pub fn give_up(&self, notice: &Notice) {
        if let Some(metrics) = &self.metrics {
            metrics.meters.give_up(notice.lane);
        }
        self.log_line(&OutputLine::Undelivered {
            lane: notice.lane,
            notice: *notice,
        });
    }

    /// Writes the metrics, if there are any. Where their file can't be written, that is said once.
    pub fn write_metrics(&self) {
        if let Some(metrics) = &self.metrics {
            if !metrics.write(self.counts.progress().events) {
                self.say("metrics: the file can't be written; the run goes on");
            }
        }
    }

    /// The metrics, if there are any.
    pub fn metrics(&self) -> Option<&RunMetrics> {
        self.metrics.as_ref()
    }

    /// Says that a line of the feed is refused, and writes it to the log, if there is one.
    pub fn say_refused(&self, line: u64, fault: &str) {
        if let Some(log) = &self.log {
            self.say_log(log.write_refused(line, fault));
        }
        if let Ok(text) = format!(in self.rt.alloc(); "line {line}: {fault}") {
            self.say(text.as_str());
        }
    }

    /// Says that no channel is for a lane.
    fn say_without_channel(&self, lane: &str) {
        let text = format!(in self.rt.alloc();
            "{lane}: closed (NoChannel): all its letters are undelivered"
        );
        if let Ok(text) = text {
            self.say(text.as_str());
        }
    }

    /// Says once that memory ran out. It takes none.
    pub fn say_wanting(&self) {
        if self.is_quiet || self.was_wanting.swap(true, Ordering::SeqCst) {
            return;
        }
        let _ = self.rt.eprint(self.begin);
        let _ = self.rt.eprint(WANTING);
        self.counts.say();
    }

    /// Says which commands of a site no channel is for, where channels are for these lanes.
    pub fn say_unserved(&self, config: &Config, lanes: &[LaneId]) {
        for number in 0..=u8::MAX {
            let lane = LaneId(number);
            let is_there = usize::from(number) < config.lanes.len();
            if is_there && !is_among(lanes, lane) {
                self.say_without_channel(name_of(config, lane));
            }
        }
    }
}

/// Whether a lane is one of these.
fn is_among(lanes: &[LaneId], lane: LaneId) -> bool {
    let mut is_found = false;
    for other in lanes {
        is_found = is_found || other.0 == lane.0;
    }
    is_found
}

/// The name of a lane's command.
fn name_of(config: &Config, lane: LaneId) -> &str {
    std::str::from_utf8(lane_name(config, lane)).unwrap_or("")
}

/// What is said of the channel at a place, which is for the lane at that place: of those for that lane it comes after those at earlier
/// places. A refused growth is the only error.
pub fn teller_of(
    alloc: Global,
    config: &Config,
    lanes: &[LaneId],
    place: usize,
    teller: Arc<Teller, Global>,
) -> Result<LaneTeller, AllocError> {
    let lane = lanes.get(place).copied().unwrap_or(LaneId(0));
    let mut before = 0usize;
    let mut has_next = false;
    for (at, other) in lanes.iter().enumerate() {
        if other.0 == lane.0 && at < place {
            before = before.saturating_add(1);
        }
        if other.0 == lane.0 && at > place {
            has_next = true;
        }
    }
    let name = String::from_str(alloc, name_of(config, lane))?;
    Ok(LaneTeller::new(teller, lane, name, before, has_next))
}

/// What is said of one channel of a lane.
#[derive(Drop)]
pub struct LaneTeller {
    teller: Arc<Teller, Global>,
    /// Its command, and the name of that.
    lane: LaneId,
    name: String,
    /// Which channel of the lane it is, the first 0.
    place: usize,
    /// Whether another stands by.
    has_next: bool,
    /// The letter that failed last, unless one was taken since, or there was no memory for it.
    failed: Option<String>,
}

impl LaneTeller {
    /// Of a channel that has taken nothing.
    pub fn new(
        teller: Arc<Teller, Global>,
        lane: LaneId,
        name: String,
        place: usize,
        has_next: bool,
    ) -> LaneTeller {
        LaneTeller {
            teller,
            lane,
            name,
            place,
            has_next,
            failed: None,
        }
    }

    /// A letter was taken: that is counted, and written to the log, if there is one.
    pub fn taken(&mut self, letter: &Letter) {
        self.failed = None;
        if let Some(metrics) = &self.teller.metrics {
            metrics.meters.take(self.lane);
        }
        self.teller.log_line(&OutputLine::Taken {
            lane: self.lane,
            notice: letter.notice,
        });
    }

    /// A try of a letter has failed: where it was the device that did, that is counted.
    pub fn failed(&mut self, letter: &Letter, fault: Fault) {
        if fault == Fault::Device {
            if let Some(metrics) = &self.teller.metrics {
                metrics.meters.fail(self.lane);
            }
        }
        if self.failed.is_none() {
            self.failed = named(self.teller.rt.alloc(), letter);
        }
    }

    /// The channel is closed: where its last letter failed, that is said, and what becomes of it.
    pub fn closed(&mut self) {
        if let Some(letter) = self.failed.take() {
            let _ = self.say_end(letter.as_str());
        }
    }

    /// Says that the channel failed for good at that letter, and what becomes of this. A refused growth is the only error.
    fn say_end(&self, letter: &str) -> Result<(), AllocError> {
        let alloc = self.teller.rt.alloc();
        let lane = self.name.as_str();
        let place = self.place;
        let next = place.saturating_add(1);
        let text = if self.has_next {
            format!(in alloc;
                "{lane}: channel {place} failed, channel {next} takes over with {letter}"
            )?
        } else {
            format!(in alloc;
                "{lane}: closed (Failed): {letter} and all later ones are undelivered"
            )?
        };
        self.teller.say(text.as_str());
        Ok(())
    }
}

/// A letter as lines name it: `event 12 of web for ann`. None where a growth is refused.
fn named(alloc: Global, letter: &Letter) -> Option<String> {
    let text = letter.text.as_slice();
    let contact = value_after(text, b"To: ")?;
    let object = value_after(text, b"\nObject: ")?;
    let event = letter.notice.event;
    format!(in alloc; "event {event} of {object} for {contact}").ok()
}

/// What follows these bytes in a text, up to the end of the line.
fn value_after<'a>(text: &'a [u8], front: &[u8]) -> Option<&'a str> {
    let text = std::str::from_utf8(text).ok()?;
    let front = std::str::from_utf8(front).ok()?;
    let (_before, after) = text.split_once(front)?;
    let (value, _rest) = after.split_once('\n')?;
    Some(value)
}
