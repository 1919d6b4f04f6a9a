//! What the lanes of a world hold, line by line.

ghost use Rattle.std.specs.Prelude.{◌++◌, ◌<◌, length, IfErr, OnErr, OnOk};
ghost use Rattle.command_output.specs.claims.Outcome.{IsWriteFault};
ghost use Rattle.written.specs.claims.Written.{Leaves, WritesFront};
ghost use Rattle.world_steps.specs.claims.Views.{world_setup, world_state};
ghost use Rattle.trace.specs.LaneLines.{held_text, lane_lines, world_text};
ghost use Rattle.trace.specs.Run.{Fits};

use crate::run::Run;
use command_output::{CommandFault, LaneLine, Lines, OutputLine, Sink};
use due_model::config::{LaneId, ObjectId};
use std::alloc::Global;

/// Writes what each lane holds of each object, lane by lane.
pub(crate) fn write_lanes<W: Sink>(
    alloc: Global,
    lines: &mut Lines,
    writer: &mut W,
    run: &Run<'_>,
) -> Result<(), CommandFault>
    requires fits { Fits run.now }
    ensures ok { OnOk result (Leaves (W.contents writer.old) (W.contents writer.new)
        (lines.old ++ world_text (world_setup run.now.world) (world_state run.now.world))
        lines.new) }
    ensures front { OnErr result (WritesFront (W.contents writer.old) (W.contents writer.new)
        (lines.old ++ world_text (world_setup run.now.world) (world_state run.now.world))) }
    ensures fault { IfErr result (λ fault. IsWriteFault W.can_fail fault) }
{
    for lane in 0..run.config.lanes.len() {
        write_lane(alloc, lines, writer, run, LaneId(lane as u8))?;
    }
    Ok(())
}

/// Writes what a lane holds of each object, in order.
fn write_lane<W: Sink>(
    alloc: Global,
    lines: &mut Lines,
    writer: &mut W,
    run: &Run<'_>,
    lane: LaneId,
) -> Result<(), CommandFault>
    requires fits { Fits run.now }
    requires lane { lane.0 < length run.now.config.now.lanes }
    ensures ok { OnOk result (Leaves (W.contents writer.old) (W.contents writer.new)
        (lines.old ++ lane_lines (world_setup run.now.world) (world_state run.now.world) lane.0)
        lines.new) }
    ensures front { OnErr result (WritesFront (W.contents writer.old) (W.contents writer.new)
        (lines.old
        ++ lane_lines (world_setup run.now.world) (world_state run.now.world) lane.0)) }
    ensures fault { IfErr result (λ fault. IsWriteFault W.can_fail fault) }
{
    for object in 0..run.config.objects.len() {
        write_object(alloc, lines, writer, run, lane, ObjectId(object as u16))?;
    }
    Ok(())
}

/// Writes what a lane holds of an object.
fn write_object<W: Sink>(
    alloc: Global,
    lines: &mut Lines,
    writer: &mut W,
    run: &Run<'_>,
    lane: LaneId,
    object: ObjectId,
) -> Result<(), CommandFault>
    requires fits { Fits run.now }
    requires lane { lane.0 < length run.now.config.now.lanes }
    requires object { object.0 < length run.now.config.now.objects }
    ensures ok { OnOk result (Leaves (W.contents writer.old) (W.contents writer.new)
        (lines.old ++ held_text (world_setup run.now.world) (world_state run.now.world)
        lane.0 object.0) lines.new) }
    ensures front { WritesFront (W.contents writer.old) (W.contents writer.new)
        (lines.old ++ held_text (world_setup run.now.world) (world_state run.now.world)
        lane.0 object.0) }
    ensures fault { IfErr result (λ fault. IsWriteFault W.can_fail fault) }
{
    match run.world.line(alloc, lane, object) {
        Ok(parts) => {
            let line = OutputLine::Held(LaneLine {
                lane,
                object,
                taken: &parts.taken,
                hand: &parts.hand,
                undelivered: &parts.undelivered,
                queue: &parts.queue,
                outbox: &parts.outbox,
            });
            lines.write(writer, run.config, &line)
        }
        Err(_) => Err(lines.out_of_memory(writer)),
    }
}
