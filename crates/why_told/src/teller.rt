//! The teller that writes of an object's attempts what became of each.

ghost use Rattle.std.specs.Prelude.{◌≡◌, ◌&&◌, false, IfOk, None, OnOk};
ghost use Rattle.why_told.specs.Attempts.{nothing_open};
ghost use Rattle.why_told.specs.Teller.{after_other, is_before, is_between, is_early, is_of};

use crate::attempts::Open;
use crate::places::Places;
use crate::text::{push_ending, push_line};
use due_model::config::Config;
use line_forms::{Picks, ReportLine};
use messages::entries::Entry;
use report_telling::Teller;
use std::alloc::{AllocError, Global};
use who_missed::RowForm;
use zone_times::clock::ZoneClock;

/// What is asked of a report: why each message about an object went to whom it did, and to nobody else.
#[derive(Clone, Copy)]
pub struct Asked<'a> {
    /// The object: `host` or `host/service`.
    pub object: &'a str,
    /// The contact of which it is asked; none is each.
    pub contact: Option<&'a str>,
    /// The first moment, in seconds since the epoch.
    pub from: u64,
    /// The last moment.
    pub to: u64,
    /// How it is written.
    pub form: RowForm,
    /// Where the values stand that filters go by.
    pub places: &'a Places,
}

/// Writes of each attempt on an object its filters, and whom it goes to.
#[derive(Drop)]
pub struct Reasons<'a> {
    alloc: Global,
    asked: Asked<'a>,
    /// The last line of the object before the span.
    before: Option<ReportLine>,
    current: Open,
}

impl<'a> Reasons<'a> {
    /// One that was told no line yet.
    pub(crate) fn new(alloc: Global, asked: Asked<'a>) -> Reasons<'a>
        ensures asked { result.asked ≡ asked.entry }
        ensures before { result.before ≡ None }
        ensures current { result.current ≡ nothing_open }
    {
        Reasons {
            alloc,
            asked,
            before: None,
            current: Open::new(alloc),
        }
    }

    /// Goes on after a line that isn't of what is asked. A refused growth is the only error.
    fn pass_over(&mut self, config: &Config, line: &ReportLine) -> Result<(), AllocError>
        ensures { OnOk result (self.new ≡ after_other self.old config.now line.now) }
    {
        if is_early(self.alloc, self.asked, config, line)? {
            self.before = Some(*line);
        }
        Ok(())
    }
}

/// Whether a line is of a moment from one up to another.
fn is_between(from: u64, to: u64, line: &ReportLine) -> bool
    ensures { result ≡ is_between from to line.now }
{
    match line {
        ReportLine::Decided(Entry::Sent(notice)) => from <= notice.moment && notice.moment <= to,
        ReportLine::Decided(Entry::Withheld(withheld)) => {
            from <= withheld.moment && withheld.moment <= to
        }
        ReportLine::Refused(_) => false,
    }
}

/// Whether it is of an earlier one.
fn is_before(from: u64, line: &ReportLine) -> bool
    ensures { result ≡ is_before from line.now }
{
    match line {
        ReportLine::Decided(Entry::Sent(notice)) => notice.moment < from,
        ReportLine::Decided(Entry::Withheld(withheld)) => withheld.moment < from,
        ReportLine::Refused(_) => false,
    }
}

/// Whether a line of a report is of what is asked. A refused growth is the only error.
fn is_of(
    alloc: Global,
    asked: Asked<'_>,
    config: &Config,
    line: &ReportLine,
) -> Result<bool, AllocError>
    ensures { IfOk result (λ is. is ≡ is_of asked.entry config.now line.now) }
{
    if !is_between(asked.from, asked.to, line) {
        return Ok(false);
    }
    let picks = Picks {
        only: None,
        object: Some(asked.object),
        contact: None,
    };
    picks.is_picked(alloc, config, line)
}

/// Whether it is of the object, before the span. A refused growth is the only error.
fn is_early(
    alloc: Global,
    asked: Asked<'_>,
    config: &Config,
    line: &ReportLine,
) -> Result<bool, AllocError>
    ensures { IfOk result (λ is. is ≡ is_early asked.entry config.now line.now) }
{
    if !is_before(asked.from, line) {
        return Ok(false);
    }
    let picks = Picks {
        only: None,
        object: Some(asked.object),
        contact: None,
    };
    picks.is_picked(alloc, config, line)
}

impl Teller for Reasons<'_> {
    ghost use Rattle.why_told.specs.Teller.{after_told, ended_text, told_line};

    ghost told = { λ reasons config zone line. told_line reasons config zone line };

    ghost after = { λ reasons config _ line. after_told reasons config line };

    ghost ended = { λ reasons config zone. ended_text reasons config zone };

    fn tell(
        &mut self,
        config: &Config,
        clock: &ZoneClock<'_>,
        line: &ReportLine,
        text: &mut Vec<u8>,
    ) -> Result<(), AllocError> {
        let (alloc, asked) = (self.alloc, self.asked);
        if !is_of(alloc, asked, config, line)? {
            self.pass_over(config, line)?;
            return Ok(());
        }
        push_line(alloc, text, config, clock, asked, &self.current, line)?;
        self.current.go_on(line)
    }

    fn end(
        &mut self,
        config: &Config,
        clock: &ZoneClock<'_>,
        text: &mut Vec<u8>,
    ) -> Result<(), AllocError> {
        let (alloc, asked) = (self.alloc, self.asked);
        push_ending(
            alloc,
            text,
            config,
            clock,
            asked,
            self.before,
            &self.current,
        )
    }
}
