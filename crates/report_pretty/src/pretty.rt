//! The teller that writes the lines of a report for people.

ghost use Rattle.std.specs.Prelude.{◌≡◌, None, IfOk};
ghost use Rattle.pretty_lines.specs.Runs.{no_runs};

use due_model::config::Config;
use line_forms::{Picks, ReportLine};
use pretty_lines::{Look, Runs, Widths, add_line, widths_in};
use report_telling::Teller;
use std::alloc::{AllocError, Global};
use zone_times::clock::ZoneClock;

/// Writes the lines that are wanted for people. Of what a filter of an object stops in a row the first is a line, and the others
/// are one line with their number, before the next line of that object, or at the end.
#[derive(Drop)]
pub struct PrettyLines<'a> {
    alloc: Global,
    picks: Picks<'a>,
    coloured: bool,
    /// How wide the columns are, once a line was told.
    widths: Option<Widths>,
    runs: Runs,
}

impl<'a> PrettyLines<'a> {
    /// One that was told no line yet. A refused growth is the only error.
    pub fn new(
        alloc: Global,
        picks: Picks<'a>,
        coloured: bool,
    ) -> Result<PrettyLines<'a>, AllocError>
        ensures picks { IfOk result (λ pretty. pretty.picks ≡ picks.entry) }
        ensures coloured { IfOk result (λ pretty. pretty.coloured ≡ coloured) }
        ensures widths { IfOk result (λ pretty. pretty.widths ≡ None) }
        ensures runs { IfOk result (λ pretty. pretty.runs ≡ no_runs) }
    {
        Ok(PrettyLines {
            alloc,
            picks,
            coloured,
            widths: None,
            runs: Runs::new(alloc)?,
        })
    }
}

impl Teller for PrettyLines<'_> {
    ghost use Rattle.report_pretty.specs.Teller.{after_line, ended_lines, told_line};

    ghost told = { λ pretty config zone line. told_line pretty config zone line };

    ghost after = { λ pretty config _ line. after_line pretty config line };

    ghost ended = { λ pretty config zone. ended_lines pretty config zone };

    fn tell(
        &mut self,
        config: &Config,
        clock: &ZoneClock<'_>,
        line: &ReportLine,
        text: &mut Vec<u8>,
    ) -> Result<(), AllocError> {
        if !self.picks.is_picked(self.alloc, config, line)? {
            return Ok(());
        }
        let widths = widths_in(self.alloc, config, self.widths)?;
        self.widths = Some(widths);
        let look = Look {
            widths,
            coloured: self.coloured,
        };
        add_line(self.alloc, text, config, clock, look, &mut self.runs, line)
    }

    fn end(
        &mut self,
        config: &Config,
        clock: &ZoneClock<'_>,
        text: &mut Vec<u8>,
    ) -> Result<(), AllocError> {
        let widths = widths_in(self.alloc, config, self.widths)?;
        let look = Look {
            widths,
            coloured: self.coloured,
        };
        self.runs.push_all(self.alloc, text, config, clock, look)
    }
}
