//! What is written after the feed of a trace, and how it ends.

ghost use Rattle.std.specs.Prelude.{◌≡◌, ◌++◌, List, ℕ, IfErr, IfOk, IfSome, OnErr};
ghost use Rattle.command_output.specs.claims.Outcome.{IsWriteFault};
ghost use Rattle.written.specs.claims.Written.{Leaves};
ghost use Rattle.text_lines.specs.LineReader.{to_come};
ghost use Rattle.world_steps.specs.claims.Views.{world_setup};
ghost use Rattle.trace.specs.Run.{Fits, run_state};
ghost use Rattle.trace.specs.Trace.{EndFront, WritesEnd, ending_of};

use crate::feed::AfterFeed;
use crate::lanes::write_lanes;
use crate::run::Run;
use crate::step_lines::do_steps;
use command_output::{CommandFault, Ending, Lines, Sink};
use std::alloc::Global;
use text_lines::{Input, LineReader};

/// Does the steps that come after a feed, and writes their refused lines, and then what the lanes hold, where all was
/// read.
pub(crate) fn write_end<R: Input + Drop, W: Sink>(
    alloc: Global,
    lines: &mut Lines,
    writer: &mut W,
    run: &mut Run<'_>,
    after: AfterFeed,
    source: &mut LineReader<R>,
) -> Result<Ending, CommandFault>
    requires fits { Fits run.old }
    ensures ok { IfOk result (λ ending. IfSome (to_come source.old) (λ rest.
        WritesEnd R.can_fail run.old.config.now run.old.deciders (world_setup run.old.world)
        (run_state run.old) run.old.is_over after rest ending
        (W.contents writer.old) (W.contents writer.new) lines.old lines.new)) }
    ensures front { OnErr result (IfSome (to_come source.old) (λ rest.
        EndFront R.can_fail run.old.config.now run.old.deciders (world_setup run.old.world)
        (run_state run.old) run.old.is_over after rest
        (W.contents writer.old) (W.contents writer.new) lines.old)) }
    ensures fault { IfErr result (λ fault. IsWriteFault W.can_fail fault) }
{
    match after {
        AfterFeed::Steps => write_steps(alloc, lines, writer, run, source),
        AfterFeed::Nothing => {
            write_lanes(alloc, lines, writer, run)?;
            Ok(ending_of(run.is_over))
        }
        AfterFeed::Cut => {
            write_lanes(alloc, lines, writer, run)?;
            Ok(Ending::Short)
        }
        AfterFeed::Unread => Ok(Ending::Short),
    }
}

/// Does the steps, and writes what the lanes hold, where all of them were read.
fn write_steps<R: Input + Drop, W: Sink>(
    alloc: Global,
    lines: &mut Lines,
    writer: &mut W,
    run: &mut Run<'_>,
    source: &mut LineReader<R>,
) -> Result<Ending, CommandFault>
    requires fits { Fits run.old }
    ensures ok { IfOk result (λ ending. IfSome (to_come source.old) (λ rest.
        WritesEnd R.can_fail run.old.config.now run.old.deciders (world_setup run.old.world)
        (run_state run.old) run.old.is_over AfterFeed.Steps rest ending
        (W.contents writer.old) (W.contents writer.new) lines.old lines.new)) }
    ensures front { OnErr result (IfSome (to_come source.old) (λ rest.
        EndFront R.can_fail run.old.config.now run.old.deciders (world_setup run.old.world)
        (run_state run.old) run.old.is_over AfterFeed.Steps rest
        (W.contents writer.old) (W.contents writer.new) lines.old)) }
    ensures fault { IfErr result (λ fault. IsWriteFault W.can_fail fault) }
{
    if !do_steps(lines, writer, run, source)? {
        return Ok(Ending::Short);
    }
    write_lanes(alloc, lines, writer, run)?;
    Ok(ending_of(run.is_over))
}

/// How a trace ends that was read to its end: before, where the feed has more events than can be numbered.
fn ending_of(is_over: bool) -> Ending
    ensures { result ≡ ending_of is_over }
{
    if is_over {
        Ending::Short
    } else {
        Ending::Whole
    }
}
