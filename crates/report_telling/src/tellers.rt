//! Who writes the lines of a report in a form of its own.

ghost use Rattle.std.specs.Prelude.{◌≡◌, ◌++◌, OnOk};

use due_model::config::Config;
use line_forms::ReportLine;
use std::alloc::AllocError;
use zone_times::clock::ZoneClock;

/// Who is told the lines of a report, in order, and writes of each what it wants. It may remember what it was told.
pub trait Teller: Drop {
    ghost use Rattle.std.specs.Prelude.{ℕ, List};
    ghost use Rattle.due_model.specs.declared.config.Config.{Config};
    ghost use Rattle.due_model.specs.declared.zone.Zone.{Zone};
    ghost use Rattle.line_forms.specs.declared.report_line.ReportLine.{ReportLine};

    // What it writes of a line.
    ghost told: { Self → Config → Zone → ReportLine → List ℕ };

    // What it is after the line.
    ghost after: { Self → Config → Zone → ReportLine → Self };

    // What it writes once the report is over.
    ghost ended: { Self → Config → Zone → List ℕ };

    /// Adds what it writes of a line to a text. A refused growth is the only error.
    fn tell(
        &mut self,
        config: &Config,
        clock: &ZoneClock<'_>,
        line: &ReportLine,
        text: &mut Vec<u8>,
    ) -> Result<(), AllocError>
        ensures told { OnOk result
            (text.new.items ≡ text.old.items ++ told self.old config.now clock.now line.now) }
        ensures after { OnOk result (self.new ≡ after self.old config.now clock.now line.now) };

    /// Adds what it writes at the end to a text. A refused growth is the only error.
    fn end(
        &mut self,
        config: &Config,
        clock: &ZoneClock<'_>,
        text: &mut Vec<u8>,
    ) -> Result<(), AllocError>
        ensures { OnOk result
            (text.new.items ≡ text.old.items ++ ended self.old config.now clock.now) };
}
