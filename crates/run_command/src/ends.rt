//! The lines of the ends of lanes: what standard output has of a run whose other lines went to a log.

ghost use Rattle.std.specs.Prelude.{◌++◌, IfErr, OnOk};
ghost use Rattle.command_output.specs.claims.Outcome.{IsWriteFault};
ghost use Rattle.written.specs.claims.Written.{Leaves, WritesFront};
ghost use Rattle.run_command.specs.Report.{end_lines, ends_text};

use crate::lanes::write_channels;
use command_output::{CommandFault, Lines, OutputLine, Sink};
use due_model::config::Config;
use engine::LaneEnd;

/// Makes the lines of the end of each lane, in order.
pub(crate) fn write_ends<W: Sink>(
    lines: &mut Lines,
    writer: &mut W,
    config: &Config,
    lanes: &[LaneEnd],
) -> Result<(), CommandFault>
    ensures ok { OnOk result (Leaves (W.contents writer.old) (W.contents writer.new)
        (lines.old ++ ends_text config.now lanes.now) lines.new) }
    ensures front { WritesFront (W.contents writer.old) (W.contents writer.new)
        (lines.old ++ ends_text config.now lanes.now) }
    ensures fault { IfErr result (λ fault. IsWriteFault W.can_fail fault) }
{
    for lane in lanes {
        write_end(lines, writer, config, lane)?;
    }
    Ok(())
}

/// Makes the lines of how many each of several channels of a lane has taken, and why it is closed.
fn write_end<W: Sink>(
    lines: &mut Lines,
    writer: &mut W,
    config: &Config,
    lane: &LaneEnd,
) -> Result<(), CommandFault>
    ensures ok { OnOk result (Leaves (W.contents writer.old) (W.contents writer.new)
        (lines.old ++ end_lines config.now lane.now) lines.new) }
    ensures front { WritesFront (W.contents writer.old) (W.contents writer.new)
        (lines.old ++ end_lines config.now lane.now) }
    ensures fault { IfErr result (λ fault. IsWriteFault W.can_fail fault) }
{
    let number = lane.lane();
    let why = lane.why();
    write_channels(lines, writer, config, lane)?;
    let closed = OutputLine::Closed { lane: number, why };
    lines.write(writer, config, &closed)?;
    Ok(())
}
