//! The command `trace`: the steps of a list, done one by one in a world of steps.
#![tactic(auto)]

ghost use Rattle.std.specs.Prelude.{◌≡◌, ◌<◌, false, IfErr, IfOk, IfSome, IsErrOf, OnErr};
ghost use Rattle.due_model.specs.claims.Accepted.{IsAccepted};
ghost use Rattle.due_model.specs.declared.zone.Zone.{Zone};
ghost use Rattle.due_model.specs.Choices.{own};
ghost use Rattle.command_output.specs.claims.Outcome.{IsWriteFault};
ghost use Rattle.steps.specs.Settings.{max_channels};
ghost use Rattle.text_lines.specs.LineReader.{to_come};
ghost use Rattle.trace.specs.Trace.{FailsWith, Traces, TracesFeed, TracesFront, TracesIn};

mod ending;
mod feed;
mod lanes;
mod refusal;
mod run;
mod step_line;
mod step_lines;

use command_input::read_objects;
use command_output::{CommandFault, Ending, Lines, Sink};
use due_model::config::{Choices, Config};
use due_model::zone::Zone;
use ending::write_end;
use event_feed::Feeder;
use feed::read_feed;
use run::Run;
use std::alloc::Global;
use text_lines::{Input, LineReader};
use world_steps::{Settings, World};

/// Reads object text up to a line `%events`, a feed up to a line `%steps`, and step lines, and does the steps in a
/// world in which all lanes serve, each with so many channels that stand by: fewer than `MAX_CHANNELS`. It writes the refused lines of the feed, then those of the steps, and then what
/// each lane holds of each object. A feed ends as a replay's does, and where it or the step lines can't be read to
/// their end, what the lanes hold isn't written. Where the object text is refused nothing is written; where the output
/// fails or memory runs out, a front of all that was.
pub fn trace<R: Input + Drop, W: Sink>(
    alloc: Global,
    settings: Settings,
    standbys: u8,
    reader: R,
    writer: &mut W,
) -> Result<Ending, CommandFault>
    requires standbys { standbys < max_channels }
    // What is written is what the input makes of the steps, and nothing else.
    ensures traces { IfSome (R.remaining reader) (λ bytes. IfOk result (λ ending.
        Traces own R.can_fail settings standbys bytes ending (W.contents writer.old) (W.contents writer.new))) }
    // A fault says what was wrong, and what was written.
    ensures fault { IfSome (R.remaining reader) (λ bytes. IfErr result (λ fault.
        FailsWith own R.can_fail Zone.Utc settings standbys bytes fault
        (W.contents writer.old) (W.contents writer.new))) }
    // The output failed only where a call of the writer did.
    ensures sure { W.can_fail ≡ false → ¬ IsErrOf result CommandFault.Output }
{
    let zone = Zone::Utc;
    trace_in(
        alloc,
        Choices::own(),
        &zone,
        settings,
        standbys,
        reader,
        writer,
    )
}

/// The same, by these choices, for local times of a zone.
pub fn trace_in<R: Input + Drop, W: Sink>(
    alloc: Global,
    choices: Choices,
    zone: &Zone,
    settings: Settings,
    standbys: u8,
    reader: R,
    writer: &mut W,
) -> Result<Ending, CommandFault>
    requires standbys { standbys < max_channels }
    ensures traces { IfSome (R.remaining reader) (λ bytes. IfOk result (λ ending.
        TracesIn choices R.can_fail zone.now settings standbys bytes ending
        (W.contents writer.old) (W.contents writer.new))) }
    ensures fault { IfSome (R.remaining reader) (λ bytes. IfErr result (λ fault.
        FailsWith choices R.can_fail zone.now settings standbys bytes fault
        (W.contents writer.old) (W.contents writer.new))) }
    ensures sure { W.can_fail ≡ false → ¬ IsErrOf result CommandFault.Output }
{
    let mut lines = LineReader::new(alloc, reader)?;
    let config = read_objects(alloc, choices, &mut lines)?;
    trace_feed(alloc, zone, settings, standbys, &config, lines, writer)
}

/// Traces a feed and the steps after it.
fn trace_feed<R: Input + Drop, W: Sink>(
    alloc: Global,
    zone: &Zone,
    settings: Settings,
    standbys: u8,
    config: &Config,
    source: LineReader<R>,
    writer: &mut W,
) -> Result<Ending, CommandFault>
    requires accepted { IsAccepted config.now }
    requires standbys { standbys < max_channels }
    ensures traces { IfOk result (λ ending. IfSome (to_come source) (λ bytes.
        TracesFeed R.can_fail config.now zone.now settings standbys bytes ending
        (W.contents writer.old) (W.contents writer.new))) }
    ensures front { OnErr result (IfSome (to_come source) (λ bytes.
        TracesFront R.can_fail config.now zone.now settings standbys bytes
        (W.contents writer.old) (W.contents writer.new))) }
    ensures fault { IfErr result (λ fault. IsWriteFault W.can_fail fault) }
{
    let served = vec![in alloc; standbys + 1; config.lanes.len()]?;
    let mut run = Run {
        config,
        deciders: settings.deciders,
        world: World::new(alloc, config, zone, settings, &served)?,
        events: Vec::new(alloc),
        posted: 0,
        is_over: false,
    };
    let mut lines = Lines::new(alloc)?;
    let mut feeder = Feeder::new(source);
    let after = read_feed(&mut lines, writer, &mut run, &mut feeder)?;
    let mut source = feeder.into_lines();
    let ending = write_end(alloc, &mut lines, writer, &mut run, after, &mut source)?;
    lines.flush(writer)?;
    Ok(ending)
}
