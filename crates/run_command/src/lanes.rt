//! The lines of lanes at the end of a run.

ghost use Rattle.std.specs.Prelude.{◌≡◌, ◌++◌, IfErr, OnOk};
ghost use Rattle.command_output.specs.claims.Outcome.{IsWriteFault};
ghost use Rattle.written.specs.claims.Written.{Leaves, WritesFront};
ghost use Rattle.run_command.specs.claims.Report.{channel_lines, channels_text, has_undelivered, lane_lines};
ghost use Rattle.run_command.specs.claims.Report.{lanes_text, letters_text, taken_text};
ghost use Rattle.command_output.specs.claims.RunLine.{taken_line, undelivered_line};

use command_output::{CommandFault, Lines, OutputLine, Sink};
use due_model::config::{Config, LaneId};
use due_model::notice::Notice;
use engine::LaneEnd;

/// Makes the lines of lanes, lane by lane.
pub(crate) fn write_lanes<W: Sink>(
    lines: &mut Lines,
    writer: &mut W,
    config: &Config,
    lanes: &[LaneEnd],
) -> Result<(), CommandFault>
    ensures ok { OnOk result (Leaves (W.contents writer.old) (W.contents writer.new)
        (lines.old ++ lanes_text config.now lanes.now) lines.new) }
    ensures front { WritesFront (W.contents writer.old) (W.contents writer.new)
        (lines.old ++ lanes_text config.now lanes.now) }
    ensures fault { IfErr result (λ fault. IsWriteFault W.can_fail fault) }
{
    for lane in lanes {
        write_lane(lines, writer, config, lane)?;
    }
    Ok(())
}

/// Makes the lines of a lane: what its channels have taken, what it gave up, how many each of several channels has taken, and why it is
/// closed.
fn write_lane<W: Sink>(
    lines: &mut Lines,
    writer: &mut W,
    config: &Config,
    lane: &LaneEnd,
) -> Result<(), CommandFault>
    ensures ok { OnOk result (Leaves (W.contents writer.old) (W.contents writer.new)
        (lines.old ++ lane_lines config.now lane.now) lines.new) }
    ensures front { WritesFront (W.contents writer.old) (W.contents writer.new)
        (lines.old ++ lane_lines config.now lane.now) }
    ensures fault { IfErr result (λ fault. IsWriteFault W.can_fail fault) }
{
    let number = lane.lane();
    let undelivered = lane.undelivered();
    let why = lane.why();
    write_records(lines, writer, config, lane)?;
    write_undelivered(lines, writer, config, number, undelivered)?;
    write_channels(lines, writer, config, lane)?;
    let closed = OutputLine::Closed { lane: number, why };
    lines.write(writer, config, &closed)?;
    Ok(())
}

/// Makes the lines of what a lane's channels have taken, one after another.
fn write_records<W: Sink>(
    lines: &mut Lines,
    writer: &mut W,
    config: &Config,
    lane: &LaneEnd,
) -> Result<(), CommandFault>
    ensures ok { OnOk result (Leaves (W.contents writer.old) (W.contents writer.new)
        (lines.old ++ taken_text config.now lane.now) lines.new) }
    ensures front { WritesFront (W.contents writer.old) (W.contents writer.new)
        (lines.old ++ taken_text config.now lane.now) }
    ensures fault { IfErr result (λ fault. IsWriteFault W.can_fail fault) }
{
    let of_lane = lane.lane();
    for number in 0..lane.served() {
        let Some(taken) = lane.record(number) else {
            unreachable!()
        };
        write_taken(lines, writer, config, of_lane, taken)?;
    }
    Ok(())
}

/// Makes the lines of how many each channel of a lane has taken, where it was given several.
pub(crate) fn write_channels<W: Sink>(
    lines: &mut Lines,
    writer: &mut W,
    config: &Config,
    lane: &LaneEnd,
) -> Result<(), CommandFault>
    ensures ok { OnOk result (Leaves (W.contents writer.old) (W.contents writer.new)
        (lines.old ++ channels_text config.now lane.now) lines.new) }
    ensures front { WritesFront (W.contents writer.old) (W.contents writer.new)
        (lines.old ++ channels_text config.now lane.now) }
    ensures fault { IfErr result (λ fault. IsWriteFault W.can_fail fault) }
{
    if lane.channels() > 1 {
        write_each_channel(lines, writer, config, lane)
    } else {
        Ok(())
    }
}

/// Makes the line of each channel of a lane that served.
fn write_each_channel<W: Sink>(
    lines: &mut Lines,
    writer: &mut W,
    config: &Config,
    lane: &LaneEnd,
) -> Result<(), CommandFault>
    ensures ok { OnOk result (Leaves (W.contents writer.old) (W.contents writer.new)
        (lines.old ++ channel_lines config.now lane.now) lines.new) }
    ensures front { WritesFront (W.contents writer.old) (W.contents writer.new)
        (lines.old ++ channel_lines config.now lane.now) }
    ensures fault { IfErr result (λ fault. IsWriteFault W.can_fail fault) }
{
    let of_lane = lane.lane();
    for number in 0..lane.served() {
        let Some(taken) = lane.record(number) else {
            unreachable!()
        };
        let line = OutputLine::Box {
            lane: of_lane,
            number: number as u64,
            count: taken.len() as u64,
        };
        lines.write(writer, config, &line)?;
    }
    Ok(())
}

/// Makes the lines of what a lane's channel has taken.
fn write_taken<W: Sink>(
    lines: &mut Lines,
    writer: &mut W,
    config: &Config,
    lane: LaneId,
    taken: &[Notice],
) -> Result<(), CommandFault>
    ensures ok { OnOk result (Leaves (W.contents writer.old) (W.contents writer.new)
        (lines.old ++ letters_text (taken_line config.now lane.0) taken.now) lines.new) }
    ensures front { WritesFront (W.contents writer.old) (W.contents writer.new)
        (lines.old ++ letters_text (taken_line config.now lane.0) taken.now) }
    ensures fault { IfErr result (λ fault. IsWriteFault W.can_fail fault) }
{
    for notice in taken {
        let line = OutputLine::Taken {
            lane,
            notice: *notice,
        };
        lines.write(writer, config, &line)?;
    }
    Ok(())
}

/// Makes the lines of what a lane gave up.
fn write_undelivered<W: Sink>(
    lines: &mut Lines,
    writer: &mut W,
    config: &Config,
    lane: LaneId,
    undelivered: &[Notice],
) -> Result<(), CommandFault>
    ensures ok { OnOk result (Leaves (W.contents writer.old) (W.contents writer.new)
        (lines.old ++ letters_text (undelivered_line config.now lane.0) undelivered.now)
        lines.new) }
    ensures front { WritesFront (W.contents writer.old) (W.contents writer.new)
        (lines.old ++ letters_text (undelivered_line config.now lane.0) undelivered.now) }
    ensures fault { IfErr result (λ fault. IsWriteFault W.can_fail fault) }
{
    for notice in undelivered {
        let line = OutputLine::Undelivered {
            lane,
            notice: *notice,
        };
        lines.write(writer, config, &line)?;
    }
    Ok(())
}

/// Whether a lane gave something up.
pub(crate) fn has_undelivered(lanes: &[LaneEnd]) -> bool
    ensures { result ≡ has_undelivered lanes.now }
{
    lanes.iter().any(|lane| !lane.undelivered().is_empty())
}
