//! What filters of an object stop in a row.

ghost use Rattle.std.specs.Prelude.{◌≡◌, ◌++◌, length, replicate, slice_set, IfOk, None, OnOk};
ghost use Rattle.line_forms.specs.Picks.{line_object};
ghost use Rattle.pretty_lines.specs.Runs.{added, all_rest, continues, first_of, grown, no_runs, one_more};
ghost use Rattle.pretty_lines.specs.Runs.{rest_text, run_after, run_at, run_text, runs_after, same_stop, text_after};
ghost use Rattle.pretty_lines.specs.Runs.{withheld_after, withheld_continues};

use crate::columns::Look;
use crate::lines::{push_line, push_stopped};
use due_model::config::{Config, ObjectId};
use due_model::notice::Suppression;
use line_forms::ReportLine;
use messages::entries::Entry;
use notice_text::names::{filter_name, kind_name, state_name};
use std::alloc::{AllocError, Global};
use std::marker::Model;
use zone_times::clock::ZoneClock;

/// How many numbers objects may have.
const NUMBERS: usize = 65_536;

/// A filter of an object stopped the same in a row.
#[derive(Clone, Copy, Debug)]
pub struct Run {
    /// How often after the first time.
    pub more: u64,
    /// The last time.
    pub last: Suppression,
}

/// Whether the same filter stops the same kind of message about the same state.
fn same_stop(first: &Suppression, second: &Suppression) -> bool
    ensures { result ≡ same_stop first.now second.now }
{
    filter_name(first.filter).as_bytes() == filter_name(second.filter).as_bytes()
        && kind_name(first.kind).as_bytes() == kind_name(second.kind).as_bytes()
        && state_name(first.state).as_bytes() == state_name(second.state).as_bytes()
}

/// One more, if there is a greater number.
fn one_more(count: u64) -> u64
    ensures { result ≡ one_more count }
{
    if count < 18_446_744_073_709_551_615 {
        count + 1
    } else {
        count
    }
}

/// The row of which this is the first.
fn first_of(stop: Suppression) -> Run
    ensures { result ≡ first_of stop }
{
    Run {
        more: 0,
        last: stop,
    }
}

/// The row with one more, or a new one.
fn grown(run: Option<Run>, stop: Suppression) -> Run
    ensures { result ≡ grown run stop }
{
    match run {
        Some(run) => {
            if same_stop(&run.last, &stop) {
                Run {
                    more: one_more(run.more),
                    last: stop,
                }
            } else {
                first_of(stop)
            }
        }
        None => first_of(stop),
    }
}

/// The row that goes on after a suppression of its object.
fn withheld_after(run: Option<Run>, stop: Suppression) -> Option<Run>
    ensures { result ≡ withheld_after run stop stop.contact }
{
    match stop.contact {
        None => Some(grown(run, stop)),
        Some(_) => None,
    }
}

/// The row that goes on after a line of its object.
pub(crate) fn run_after(run: Option<Run>, line: &ReportLine) -> Option<Run>
    ensures { result ≡ run_after run line.now }
{
    match line {
        ReportLine::Decided(Entry::Sent(_)) => None,
        ReportLine::Decided(Entry::Withheld(stop)) => withheld_after(run, *stop),
        ReportLine::Refused(_) => None,
    }
}

/// Whether a suppression of its object goes on with a row.
fn withheld_continues(run: &Run, stop: &Suppression) -> bool
    ensures { result ≡ withheld_continues run.now stop.now stop.now.contact }
{
    match stop.contact {
        None => same_stop(&run.last, stop),
        Some(_) => false,
    }
}

/// Whether a line of its object does.
fn continues(run: &Run, line: &ReportLine) -> bool
    ensures { result ≡ continues run.now line.now }
{
    match line {
        ReportLine::Decided(Entry::Sent(_)) => false,
        ReportLine::Decided(Entry::Withheld(stop)) => withheld_continues(run, stop),
        ReportLine::Refused(_) => false,
    }
}

/// Adds how a row went on after its first line, if it did.
fn push_run(
    alloc: Global,
    text: &mut Vec<u8>,
    config: &Config,
    clock: &ZoneClock<'_>,
    look: Look,
    run: &Run,
) -> Result<(), AllocError>
    ensures { OnOk result
        (text.new.items ≡ text.old.items ++ run_text config.now clock.now look run.now) }
{
    if run.more == 0 {
        return Ok(());
    }
    push_stopped(alloc, text, config, clock, look, &run.last, run.more)
}

/// Adds a line of an object with this row: nothing where it goes on with the row.
pub(crate) fn push_after(
    alloc: Global,
    text: &mut Vec<u8>,
    config: &Config,
    clock: &ZoneClock<'_>,
    look: Look,
    run: Option<Run>,
    line: &ReportLine,
) -> Result<(), AllocError>
    ensures { OnOk result (text.new.items
        ≡ text.old.items ++ text_after config.now clock.now look run line.now) }
{
    let Some(run) = run else {
        return push_line(alloc, text, config, clock, look, line);
    };
    if continues(&run, line) {
        return Ok(());
    }
    push_run(alloc, text, config, clock, look, &run)?;
    push_line(alloc, text, config, clock, look, line)
}

/// Adds how a row went on that still does.
fn push_rest(
    alloc: Global,
    text: &mut Vec<u8>,
    config: &Config,
    clock: &ZoneClock<'_>,
    look: Look,
    run: Option<Run>,
) -> Result<(), AllocError>
    ensures { OnOk result
        (text.new.items ≡ text.old.items ++ rest_text config.now clock.now look run) }
{
    match run {
        Some(run) => push_run(alloc, text, config, clock, look, &run),
        None => Ok(()),
    }
}

/// The rows of all objects, by their numbers. Contracts see them as a list of so many.
#[derive(Drop)]
pub struct Runs {
    runs: Vec<Option<Run>>,
}

impl Model for Runs {
    ghost use Rattle.std.specs.Prelude.{◌≡◌, List, Option, length};
    ghost use Rattle.pretty_lines.specs.declared.runs.Run.{Run};

    ghost Value = { List (Option Run) };

    ghost view = { λ s. s.runs.items };

    ghost invariant = { λ s. length s.runs.items ≡ 65536 };
}

/// So many places with nothing in them.
fn nothing(alloc: Global, count: usize) -> Result<Vec<Option<Run>>, AllocError>
    ensures items { IfOk result (λ places. places.items ≡ replicate count None) }
    ensures length { IfOk result (λ places. length places.items ≡ count) }
{
    vec![in alloc; None; count]
}

impl Runs {
    /// No rows. They take all their memory now: some 6 MB.
    #[tactic(auto, unfolding(crate::specs::Runs::no_runs))]
    pub fn new(alloc: Global) -> Result<Runs, AllocError>
        ensures { IfOk result (λ runs. runs ≡ no_runs) }
    {
        Ok(Runs {
            runs: nothing(alloc, NUMBERS)?,
        })
    }

    /// The row of an object.
    pub(crate) fn get(&self, object: ObjectId) -> Option<Run>
        ensures { result ≡ run_at self.now object.0 }
    {
        self.runs[usize::from(object.0)]
    }

    /// Puts another in its place.
    pub(crate) fn set(&mut self, object: ObjectId, run: Option<Run>)
        ensures { self.new ≡ slice_set self.old object.0 run }
    {
        self.runs[usize::from(object.0)] = run;
    }

    /// Adds all rows that go on at the end, by the numbers of their objects.
    pub fn push_all(
        &self,
        alloc: Global,
        text: &mut Vec<u8>,
        config: &Config,
        clock: &ZoneClock<'_>,
        look: Look,
    ) -> Result<(), AllocError>
        ensures { OnOk result
            (text.new.items ≡ text.old.items ++ all_rest config.now clock.now look self.now) }
    {
        push_rests(alloc, text, config, clock, look, &self.runs)
    }
}

/// Adds rows that go on at the end.
fn push_rests(
    alloc: Global,
    text: &mut Vec<u8>,
    config: &Config,
    clock: &ZoneClock<'_>,
    look: Look,
    runs: &[Option<Run>],
) -> Result<(), AllocError>
    ensures { OnOk result
        (text.new.items ≡ text.old.items ++ all_rest config.now clock.now look runs.now) }
{
    for run in runs {
        push_rest(alloc, text, config, clock, look, *run)?;
    }
    Ok(())
}

/// The object that a line tells of.
fn line_object(line: &ReportLine) -> Option<ObjectId>
    ensures { result ≡ line_object line.now }
{
    match line {
        ReportLine::Decided(Entry::Sent(notice)) => Some(notice.object),
        ReportLine::Decided(Entry::Withheld(withheld)) => Some(withheld.object),
        ReportLine::Refused(_) => None,
    }
}

/// Adds what a line adds, after these rows, and puts the row of its object on. A refused growth is the only error.
pub fn add_line(
    alloc: Global,
    text: &mut Vec<u8>,
    config: &Config,
    clock: &ZoneClock<'_>,
    look: Look,
    runs: &mut Runs,
    line: &ReportLine,
) -> Result<(), AllocError>
    ensures text { OnOk result (text.new.items
        ≡ text.old.items ++ added config.now clock.now look runs.old line.now) }
    ensures runs { OnOk result (runs.new ≡ runs_after runs.old line.now) }
{
    let Some(object) = line_object(line) else {
        return push_line(alloc, text, config, clock, look, line);
    };
    let run = runs.get(object);
    runs.set(object, run_after(run, line));
    push_after(alloc, text, config, clock, look, run, line)
}
