//! The step lines of a trace, done in order.

ghost use Rattle.std.specs.Prelude.{◌≡◌, IfErr, IfNone, IfOk, IfSome, OnErr};
ghost use Rattle.command_output.specs.claims.Outcome.{IsWriteFault};
ghost use Rattle.text_lines.specs.LineReader.{to_come};
ghost use Rattle.text_lines.specs.claims.Lines.{Known};
ghost use Rattle.world_steps.specs.claims.Views.{world_setup};
ghost use Rattle.trace.specs.Run.{Fits, run_state};
ghost use Rattle.trace.specs.StepLines.{DoesLast, DoesNext, NextFront, StepsFront, WritesSteps};

use crate::refusal::refuse;
use crate::run::{Run, do_line};
use command_output::{CommandFault, Lines, Sink, StepRefusal};
use event_feed::FEED_LIMIT;
use text_lines::{Input, LineReader, NextLine, Stop};

/// Does the steps of all step lines, numbered from 1, and writes the lines of those that are refused. The answer
/// says whether they were read to their end.
pub(crate) fn do_steps<R: Input + Drop, W: Sink>(
    lines: &mut Lines,
    writer: &mut W,
    run: &mut Run<'_>,
    source: &mut LineReader<R>,
) -> Result<bool, CommandFault>
    requires fits { Fits run.old }
    ensures fits { Fits run.new }
    ensures steps { IfOk result (λ all. IfSome (to_come source.old) (λ bytes.
        WritesSteps R.can_fail run.old.config.now run.old.deciders (world_setup run.old.world)
        bytes all (run_state run.old) (run_state run.new)
        (W.contents writer.old) (W.contents writer.new) lines.old lines.new)) }
    ensures front { OnErr result (IfSome (to_come source.old) (λ bytes.
        StepsFront run.old.config.now run.old.deciders (world_setup run.old.world)
        bytes (run_state run.old) (W.contents writer.old) (W.contents writer.new) lines.old)) }
    ensures fault { IfErr result (λ fault. IsWriteFault W.can_fail fault) }
    ensures setup { world_setup run.new.world ≡ world_setup run.old.world }
    ensures config { run.new.config ≡ run.old.config }
    ensures deciders { run.new.deciders ≡ run.old.deciders }
    ensures over { run.new.is_over ≡ run.old.is_over }
{
    for before in 0..FEED_LIMIT {
        if let Some(all) = do_next_line(lines, writer, run, source, before + 1)? {
            return Ok(all);
        }
    }
    Ok(false)
}

/// Reads the next step line, of this number, and does its step or writes its refusal. Once no line is left, the answer
/// says whether all were read.
fn do_next_line<R: Input + Drop, W: Sink>(
    lines: &mut Lines,
    writer: &mut W,
    run: &mut Run<'_>,
    source: &mut LineReader<R>,
    number: u64,
) -> Result<Option<bool>, CommandFault>
    requires fits { Fits run.old }
    ensures fits { Fits run.new }
    ensures next { IfOk result (λ end. IfNone end (Known (to_come source.old) (to_come source.new)
        (λ bytes rest. DoesNext run.old.config.now run.old.deciders (world_setup run.old.world)
        number bytes rest (run_state run.old) (run_state run.new)
        (W.contents writer.old) (W.contents writer.new) lines.old lines.new))) }
    ensures last { IfOk result (λ end. IfSome end (λ all. IfSome (to_come source.old)
        (λ bytes. DoesLast R.can_fail run.old.config.now run.old.deciders
        (world_setup run.old.world) number bytes all (run_state run.old) (run_state run.new)
        (W.contents writer.old) (W.contents writer.new) lines.old lines.new))) }
    ensures front { OnErr result (IfSome (to_come source.old) (λ bytes.
        NextFront run.old.config.now run.old.deciders (world_setup run.old.world) number
        bytes (run_state run.old) (W.contents writer.old) (W.contents writer.new) lines.old)) }
    ensures fault { IfErr result (λ fault. IsWriteFault W.can_fail fault) }
    ensures setup { world_setup run.new.world ≡ world_setup run.old.world }
    ensures config { run.new.config ≡ run.old.config }
    ensures deciders { run.new.deciders ≡ run.old.deciders }
    ensures over { run.new.is_over ≡ run.old.is_over }
{
    match source.next_line() {
        NextLine::Line => {
            do_line(lines, writer, run, number, source.line())?;
            Ok(None)
        }
        NextLine::Long => {
            refuse(lines, writer, run.config, number, StepRefusal::BadStep)?;
            Ok(None)
        }
        NextLine::Over(Stop::InputEnded) => Ok(Some(true)),
        NextLine::Over(Stop::CutLine) => {
            do_line(lines, writer, run, number, source.line())?;
            Ok(Some(true))
        }
        NextLine::Over(
            Stop::ReaderFailed | Stop::TooManyCalls | Stop::TooManyBytes | Stop::TooManyLines,
        ) => Ok(Some(false)),
    }
}
