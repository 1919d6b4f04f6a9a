//! What is open of an object's attempts: a row of what a filter stops, or an attempt that goes out.

ghost use Rattle.std.specs.Prelude.{◌≡◌, ◌==◌, ◌++◌, ◌∷◌, [], IfOk, OnOk};
ghost use Rattle.std.specs.List.{list_any};
ghost use Rattle.why_told.specs.Attempts.{after_line, after_out, after_stop, after_withheld, goes_on, has_event};
ghost use Rattle.why_told.specs.Attempts.{is_of_event, nothing_open, one_more, same_stop};

use due_model::notice::Suppression;
use line_forms::ReportLine;
use messages::entries::Entry;
use notice_text::names::{filter_name, kind_name, state_name};
use std::alloc::{AllocError, Global};
use std::marker::Model;

/// The lines of an attempt that goes out. Contracts see them as a list.
#[derive(Drop)]
pub struct Met {
    lines: Vec<ReportLine>,
}

impl Model for Met {
    ghost use Rattle.std.specs.Prelude.{List};
    ghost use Rattle.line_forms.specs.declared.report_line.ReportLine.{ReportLine};

    ghost Value = { List ReportLine };

    ghost view = { λ s. s.lines.items };
}

impl Met {
    /// None.
    fn new(alloc: Global) -> Met
        ensures { result ≡ [] }
    {
        Met {
            lines: Vec::new(alloc),
        }
    }

    /// These lines.
    pub(crate) fn as_slice(&self) -> &[ReportLine]
        ensures { result.now ≡ self.now }
    {
        self.lines.as_slice()
    }

    /// Leaves none.
    fn clear(&mut self)
        ensures { self.new ≡ [] }
    {
        self.lines.clear();
    }

    /// Adds one. A refused growth is the only error.
    fn push(&mut self, line: ReportLine) -> Result<(), AllocError>
        ensures { OnOk result (self.new ≡ self.old ++ line ∷ []) }
    {
        self.lines.push(line)?;
        Ok(())
    }
}

/// What is open.
#[derive(Drop)]
pub struct Open {
    /// The last that a filter of the object stopped in a row.
    pub(crate) stopped: Option<Suppression>,
    /// How often after the first of the row.
    pub(crate) more: u64,
    /// The lines of an attempt that goes out.
    pub(crate) met: Met,
}

/// Whether the same filter stops the same kind of message about the same state.
fn same_stop(first: &Suppression, second: &Suppression) -> bool
    ensures { result ≡ same_stop first.now second.now }
{
    filter_name(first.filter).as_bytes() == filter_name(second.filter).as_bytes()
        && kind_name(first.kind).as_bytes() == kind_name(second.kind).as_bytes()
        && state_name(first.state).as_bytes() == state_name(second.state).as_bytes()
}

/// One more, if there is a greater number.
fn one_more(count: u64) -> u64
    ensures { result ≡ one_more count }
{
    if count < 18_446_744_073_709_551_615 {
        count + 1
    } else {
        count
    }
}

/// Whether a line is of this event.
fn is_of_event(event: u64, line: &ReportLine) -> bool
    ensures { result ≡ is_of_event event line.now }
{
    match line {
        ReportLine::Decided(Entry::Sent(notice)) => notice.event == event,
        ReportLine::Decided(Entry::Withheld(withheld)) => withheld.event == event,
        ReportLine::Refused(_) => false,
    }
}

impl Open {
    /// Nothing is.
    pub(crate) fn new(alloc: Global) -> Open
        ensures { result ≡ nothing_open }
    {
        Open {
            stopped: None,
            more: 0,
            met: Met::new(alloc),
        }
    }

    /// Whether what a filter of the object stops goes on with the row that is open.
    pub(crate) fn goes_on(&self, stop: &Suppression) -> bool
        ensures { result ≡ goes_on self.now stop.now }
    {
        match &self.stopped {
            None => false,
            Some(before) => same_stop(before, stop),
        }
    }

    /// Whether the attempt of an event is open.
    pub(crate) fn has_event(&self, event: u64) -> bool
        ensures { result ≡ has_event self.now event }
    {
        self.met
            .as_slice()
            .iter()
            .any(|line| is_of_event(event, line))
    }

    /// Goes on after what a filter of the object stopped.
    fn stop(&mut self, stop: Suppression)
        ensures { self.new ≡ after_stop self.old stop }
    {
        self.more = if self.goes_on(&stop) {
            one_more(self.more)
        } else {
            0
        };
        self.stopped = Some(stop);
        self.met.clear();
    }

    /// Goes on after a line of an attempt that went out, of this event. A refused growth is the only error.
    fn go_out(&mut self, event: u64, line: ReportLine) -> Result<(), AllocError>
        ensures { OnOk result (self.new ≡ after_out self.old event line) }
    {
        if !self.has_event(event) {
            self.met.clear();
        }
        self.stopped = None;
        self.more = 0;
        self.met.push(line)
    }

    /// Goes on after a suppression. A refused growth is the only error.
    fn withhold(&mut self, withheld: Suppression, line: ReportLine) -> Result<(), AllocError>
        ensures { OnOk result (self.new ≡ after_withheld self.old withheld withheld.contact line) }
    {
        match withheld.contact {
            None => {
                self.stop(withheld);
                Ok(())
            }
            Some(_) => self.go_out(withheld.event, line),
        }
    }

    /// Goes on after a line of the object's report. A refused growth is the only error.
    pub(crate) fn go_on(&mut self, line: &ReportLine) -> Result<(), AllocError>
        ensures { OnOk result (self.new ≡ after_line self.old line.now) }
    {
        match *line {
            ReportLine::Decided(Entry::Sent(notice)) => self.go_out(notice.event, *line),
            ReportLine::Decided(Entry::Withheld(withheld)) => self.withhold(withheld, *line),
            ReportLine::Refused(_) => Ok(()),
        }
    }
}
