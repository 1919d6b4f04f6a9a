//! The teller that keeps the lines of a report, and says at its end who is missing.

ghost use Rattle.std.specs.Prelude.{◌≡◌, ◌++◌, [], ◌∷◌, OnOk};

use due_model::config::Config;
use line_forms::ReportLine;
use report_telling::Teller;
use std::alloc::{AllocError, Global};
use std::marker::Model;
use who_missed::{Form, push_missed};
use zone_times::clock::ZoneClock;

/// Lines of a report, in order. Contracts see them as a list.
#[derive(Drop)]
pub struct Lines {
    lines: Vec<ReportLine>,
}

impl Model for Lines {
    ghost use Rattle.std.specs.Prelude.{List};
    ghost use Rattle.line_forms.specs.declared.report_line.ReportLine.{ReportLine};

    ghost Value = { List ReportLine };

    ghost view = { λ s. s.lines.items };
}

impl Lines {
    /// None yet.
    pub(crate) fn new(alloc: Global) -> Lines
        ensures { result ≡ [] }
    {
        Lines {
            lines: Vec::new(alloc),
        }
    }

    /// Adds a line. A refused growth is the only error.
    pub(crate) fn push(&mut self, line: ReportLine) -> Result<(), AllocError>
        ensures { OnOk result (self.new ≡ self.old ++ line ∷ []) }
    {
        self.lines.push(line)?;
        Ok(())
    }

    pub(crate) fn as_slice(&self) -> &[ReportLine]
        ensures { result.now ≡ self.now }
    {
        &self.lines
    }
}

/// Keeps the lines of a report, and writes at its end, for each contact that the configuration names for an object and that
/// no notice up to a moment went to, a line: why not, and when it is told later on.
#[derive(Drop)]
pub struct Missed<'a> {
    /// The host, or the host of the service.
    pub host: &'a str,
    /// The description of the service; none where it is the host itself.
    pub service: Option<&'a str>,
    /// Up to this moment notices count, in seconds since the epoch.
    pub until: u64,
    /// How the lines are written.
    form: Form,
    lines: Lines,
}

impl<'a> Missed<'a> {
    /// One that was told no line yet.
    pub(crate) fn new(form: Form, host: &'a str, service: Option<&'a str>, until: u64) -> Missed<'a>
        ensures host { result.host.now ≡ host.now }
        ensures service { result.service ≡ service.entry }
        ensures until { result.until ≡ until }
        ensures form { result.form.form ≡ form.form }
        ensures lines { result.lines ≡ [] }
    {
        Missed {
            host,
            service,
            until,
            form,
            lines: Lines::new(form.alloc),
        }
    }
}

impl Teller for Missed<'_> {
    ghost use Rattle.std.specs.Prelude.{[], ◌∷◌, ◌++◌};
    ghost use Rattle.std.specs.Option.{option_copied};
    ghost use Rattle.who_missed.specs.Missed.{missed_text};

    ghost told = { λ _ _ _ _. [] };

    ghost after = { λ missed _ _ line. record missed { lines = missed.lines ++ line ∷ [] } };

    ghost ended = { λ missed config zone. missed_text missed.form.form config zone
        missed.host.now (option_copied missed.service) missed.until missed.lines };

    fn tell(
        &mut self,
        _config: &Config,
        _clock: &ZoneClock<'_>,
        line: &ReportLine,
        _text: &mut Vec<u8>,
    ) -> Result<(), AllocError> {
        self.lines.push(*line)
    }

    fn end(
        &mut self,
        config: &Config,
        clock: &ZoneClock<'_>,
        text: &mut Vec<u8>,
    ) -> Result<(), AllocError> {
        push_missed(
            self.form,
            text,
            config,
            clock,
            self.host,
            self.service,
            self.until,
            self.lines.as_slice(),
        )
    }
}
