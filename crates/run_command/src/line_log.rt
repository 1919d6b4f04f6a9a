//! A decider's log whose lines are written as they are told.

ghost use Rattle.std.specs.Prelude.{◌≡◌, ◌++◌, [], false, true, IfOk, OnOk};
ghost use Rattle.std.specs.Arc.{arc_value};
ghost use Rattle.command_output.specs.claims.ReportLine.{suppression_line};
ghost use Rattle.run_command.specs.claims.Report.{log_text};
ghost use Rattle.written.specs.claims.Written.{Leaves};

use crate::repeats::{Repeat, Repeats, Step};
use command_output::{CommandFault, Lines, OutputLine, Sink};
use due_model::config::Config;
use due_model::notice::Suppression;
use engine::DeciderLog;
use itoa::Buffer;
use std::alloc::{AllocError, Global};
use std::marker::Model;
use std::sync::Arc;

/// The log of a decider whose lines go to a writer as soon as each event is decided, each by itself. One that can't be written is lost
/// and counted, so that the decider keeps nothing. Contracts see the configuration, what the writer holds, and how many were lost.
#[derive(Drop)]
pub struct LineLog<W: Sink + Drop> {
    config: Arc<Config, Global>,
    writer: W,
    lines: Lines,
    /// How many lines were lost, up to the greatest `u64`.
    lost: u64,
    /// What was repeated, where lines are folded.
    repeats: Option<Repeats>,
}

impl<W: Sink + Drop> Model for LineLog<W> {
    ghost use Rattle.std.specs.Arc.{arc_value};
    ghost use Rattle.std.specs.Prelude.{◌≡◌, [], false, is_some};
    ghost use Rattle.run_command.specs.Logged.{Logged};

    ghost Value = { Logged };

    ghost view = { λ s. record {
      config = arc_value s.config;
      contents = W.contents s.writer;
      lost = s.lost;
      folds = is_some s.repeats;
    } };

    // Nothing is held back, unless a line was lost.
    ghost invariant = { λ s. is_some s.repeats ≡ false → s.lost ≡ 0 → s.lines ≡ [] };
}

impl<W: Sink + Drop> LineLog<W> {
    /// A log that has lost nothing. It takes all its memory now; a refused growth is the only error.
    pub fn new(
        alloc: Global,
        config: Arc<Config, Global>,
        writer: W,
    ) -> Result<LineLog<W>, AllocError>
        ensures { IfOk result (λ log. log
            ≡ record { config = arc_value config; contents = W.contents writer; lost = 0; folds = false }) }
    {
        let lines = Lines::new(alloc)?;
        Ok(LineLog {
            config,
            writer,
            lines,
            lost: 0,
            repeats: None,
        })
    }

    /// The log of one of so many deciders, that has lost nothing, and that folds lines: an `S` line that differs from the one before of its
    /// object in its event and moment alone isn't written, but the last of such lines, with how many they were, before another `S` line of the object or at `finish`.
    /// It takes all its memory now; a refused growth is the only error.
    pub fn folding(
        alloc: Global,
        config: Arc<Config, Global>,
        deciders: u8,
        writer: W,
    ) -> Result<LineLog<W>, AllocError>
        ensures { IfOk result (λ log. log
            ≡ record { config = arc_value config; contents = W.contents writer; lost = 0; folds = true }) }
    {
        let lines = Lines::new(alloc)?;
        let repeats = Repeats::new(alloc, config.objects.as_slice().len(), deciders)?;
        Ok(LineLog {
            config,
            writer,
            lines,
            lost: 0,
            repeats: Some(repeats),
        })
    }

    /// Writes what was folded last of each object.
    pub fn finish(&mut self)
        ensures config { self.new.config ≡ self.old.config }
        ensures kept { self.old.folds ≡ false → self.new ≡ self.old }
    {
        let Some(repeats) = &mut self.repeats else {
            return;
        };
        let more = write_rest(repeats, &mut self.lines, &mut self.writer, &self.config);
        self.lost = self.lost.saturating_add(more);
    }

    /// How many lines were lost, up to the greatest `u64`.
    pub fn lost(&self) -> u64
        ensures { result ≡ self.now.lost }
    {
        self.lost
    }
}

/// Writes the line of a suppression, and all that is held back. An error says that some of it is lost.
fn write_line<W: Sink>(
    lines: &mut Lines,
    writer: &mut W,
    config: &Config,
    suppression: &Suppression,
) -> Result<(), CommandFault>
    ensures ok { OnOk result (Leaves (W.contents writer.old) (W.contents writer.new)
        (lines.old ++ suppression_line config.now suppression.now) lines.new) }
    ensures empty { OnOk result (lines.new ≡ []) }
{
    lines.write(writer, config, &OutputLine::Suppression(*suppression))?;
    lines.flush(writer)
}

/// Writes the line of a suppression by itself. It gives how many lines are lost then, where so many were before, up to the greatest `u64`.
fn write_next<W: Sink>(
    lines: &mut Lines,
    writer: &mut W,
    config: &Config,
    suppression: &Suppression,
    lost: u64,
) -> u64
    ensures kept { result ≡ 0 → lost ≡ 0 }
    ensures written { result ≡ 0 → Leaves (W.contents writer.old) (W.contents writer.new)
        (lines.old ++ suppression_line config.now suppression.now) lines.new }
    ensures empty { result ≡ 0 → lines.new ≡ [] }
{
    match write_line(lines, writer, config, suppression) {
        Ok(()) => lost,
        Err(_) => lost.saturating_add(1),
    }
}

/// Writes the line of each suppression by itself, in order. It gives how many were lost, up to the greatest `u64`.
fn write_each<W: Sink>(
    lines: &mut Lines,
    writer: &mut W,
    config: &Config,
    told: &[Suppression],
) -> u64
    ensures written { result ≡ 0 → Leaves (W.contents writer.old) (W.contents writer.new)
        (lines.old ++ log_text config.now told.now) lines.new }
    ensures empty { result ≡ 0 → lines.old ≡ [] → lines.new ≡ [] }
{
    let mut lost = 0u64;
    for suppression in told {
        lost = write_next(lines, writer, config, suppression, lost);
    }
    lost
}

/// Writes the last line of those that were folded, with how many they were. False: it is lost.
fn write_counted<W: Sink>(
    alloc: Global,
    lines: &mut Lines,
    writer: &mut W,
    config: &Config,
    repeat: &Repeat,
) -> bool {
    let Ok(mut line) = made_line(alloc, lines, config, &repeat.last) else {
        return false;
    };
    let _newline = line.pop();
    let mut buffer = Buffer::new();
    let count = buffer.format(repeat.count);
    if line.extend_from_slice(b";").is_err() {
        return false;
    }
    if line.extend_from_slice(count.as_bytes()).is_err() {
        return false;
    }
    if line.extend_from_slice(b"\n").is_err() {
        return false;
    }
    match writer.write_some(line.as_slice()) {
        Ok(count) => count == line.len(),
        Err(_) => false,
    }
}

/// The line of a suppression. Want of memory is the only error.
fn made_line(
    alloc: Global,
    lines: &mut Lines,
    config: &Config,
    suppression: &Suppression,
) -> Result<Vec<u8>, CommandFault> {
    let mut line = Vec::new(alloc);
    write_line(lines, &mut line, config, suppression)?;
    Ok(line)
}

/// Writes what a suppression gives where lines are folded. It gives how many lines were lost.
fn write_step<W: Sink>(
    repeats: &mut Repeats,
    lines: &mut Lines,
    writer: &mut W,
    config: &Config,
    suppression: &Suppression,
) -> u64 {
    let step = repeats.step(suppression);
    let mut lost = 0u64;
    if let Step::Changed(repeat) = step {
        if !write_counted(repeats.alloc(), lines, writer, config, &repeat) {
            lost = lost.saturating_add(1);
        }
    }
    if matches!(step, Step::Repeated) {
        return lost;
    }
    write_next(lines, writer, config, suppression, lost)
}

/// Writes what suppressions give where lines are folded, in order. It gives how many lines were lost, up to the greatest `u64`.
fn write_folded<W: Sink>(
    repeats: &mut Repeats,
    lines: &mut Lines,
    writer: &mut W,
    config: &Config,
    told: &[Suppression],
) -> u64 {
    let mut lost = 0u64;
    for suppression in told {
        let more = write_step(repeats, lines, writer, config, suppression);
        lost = lost.saturating_add(more);
    }
    lost
}

/// Writes what was folded last of each object. It gives how many lines were lost, up to the greatest `u64`.
fn write_rest<W: Sink>(
    repeats: &mut Repeats,
    lines: &mut Lines,
    writer: &mut W,
    config: &Config,
) -> u64 {
    let mut lost = 0u64;
    for place in 0..repeats.len() {
        if let Some(repeat) = repeats.take(place) {
            if !write_counted(repeats.alloc(), lines, writer, config, &repeat) {
                lost = lost.saturating_add(1);
            }
        }
    }
    lost
}

impl<W: Sink + Drop + Send> DeciderLog for LineLog<W> {
    ghost use Rattle.std.specs.Prelude.{false};
    ghost use Rattle.run_command.specs.Logged.{HasLogged};
    ghost use Rattle.run_command.specs.LoggedLaws.{logs_more, logs_none};

    ghost tells = { λ a told b. HasLogged a told b };

    // It takes all.
    ghost failed = { λ _. false };

    ghost stays = { λ s. logs_none s };

    ghost follows = { λ a b c xs ys one two. logs_more a b c xs ys one two };

    fn tell(&mut self, told: &[Suppression]) -> bool {
        let lost = match &mut self.repeats {
            None => write_each(&mut self.lines, &mut self.writer, &self.config, told),
            Some(repeats) => write_folded(
                repeats,
                &mut self.lines,
                &mut self.writer,
                &self.config,
                told,
            ),
        };
        self.lost = self.lost.saturating_add(lost);
        true
    }
}
