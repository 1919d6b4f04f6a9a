//! The command `replay`: object text and a feed of events, and of each event what the rules make due.
#![tactic(auto)]

ghost use Rattle.std.specs.Prelude.{◌≡◌, false, IfErr, IfOk, IfSome, IsErrOf};
ghost use Rattle.replay.specs.claims.Replay.{FailsOf, ReportsOf};
ghost use Rattle.replay.specs.Replay.{FailsWith, Reports};
ghost use Rattle.due_model.specs.declared.zone.Zone.{Zone};
ghost use Rattle.due_model.specs.Choices.{own};

mod report;

use command_input::{read_object_file, read_objects};
use command_output::{CommandFault, Ending, Sink};
use due_model::config::Choices;
use due_model::zone::Zone;
use progress::{Unwatched, Watcher};
use report::Report;
use std::alloc::Global;
use text_lines::{Input, LineReader};

/// Reads object text up to a line `%events`, and then a feed, and writes the report of the feed. The feed is read and
/// the report written as it comes: what an event adds is written before the reader is called for more, and memory grows
/// with the configuration alone. This project's rules decide. Where the object text is refused nothing is written; where the output fails or memory
/// runs out, a front of the report was.
pub fn replay<R: Input + Drop, W: Sink>(
    alloc: Global,
    reader: R,
    writer: &mut W,
) -> Result<Ending, CommandFault>
    // What is written is the report of the bytes read, and nothing else.
    ensures report { IfSome (R.remaining reader) (λ bytes. IfOk result (λ ending.
        Reports own R.can_fail bytes Zone.Utc ending (W.contents writer.old) (W.contents writer.new))) }
    // A fault says what was wrong, and what was written.
    ensures fault { IfSome (R.remaining reader) (λ bytes. IfErr result (λ fault.
        FailsWith own R.can_fail bytes Zone.Utc fault
        (W.contents writer.old) (W.contents writer.new))) }
    // The output failed only where a call of the writer did.
    ensures sure { W.can_fail ≡ false → ¬ IsErrOf result CommandFault.Output }
{
    let zone = Zone::Utc;
    replay_in(alloc, Choices::own(), &zone, reader, writer, &mut Unwatched)
}

/// The same, by these choices, for local times of a zone. A watcher is told how far it is whenever the feed may be waited for: how many events
/// were decided, and how many messages they made due.
pub fn replay_in<R: Input + Drop, W: Sink, P: Watcher>(
    alloc: Global,
    choices: Choices,
    zone: &Zone,
    reader: R,
    writer: &mut W,
    watcher: &mut P,
) -> Result<Ending, CommandFault>
    ensures report { IfSome (R.remaining reader) (λ bytes. IfOk result (λ ending.
        Reports choices R.can_fail bytes zone.now ending (W.contents writer.old) (W.contents writer.new))) }
    ensures fault { IfSome (R.remaining reader) (λ bytes. IfErr result (λ fault.
        FailsWith choices R.can_fail bytes zone.now fault
        (W.contents writer.old) (W.contents writer.new))) }
    // The output failed only where a call of the writer did.
    ensures sure { W.can_fail ≡ false → ¬ IsErrOf result CommandFault.Output }
{
    let mut lines = LineReader::new(alloc, reader)?;
    let config = read_objects(alloc, choices, &mut lines)?;
    let mut report = Report::new(alloc, &config, zone, lines)?;
    report.write(writer, watcher)
}

/// The same, where the object text is one input, all of it, and the feed another. The feed isn't read before the object
/// text is accepted.
pub fn replay_files<O: Input + Drop, R: Input + Drop, W: Sink, P: Watcher>(
    alloc: Global,
    choices: Choices,
    zone: &Zone,
    objects: O,
    feed: R,
    writer: &mut W,
    watcher: &mut P,
) -> Result<Ending, CommandFault>
    ensures report { IfSome (O.remaining objects) (λ text. IfSome (R.remaining feed) (λ bytes.
        IfOk result (λ ending. ReportsOf choices R.can_fail text bytes zone.now ending
        (W.contents writer.old) (W.contents writer.new)))) }
    ensures fault { IfSome (O.remaining objects) (λ text. IfSome (R.remaining feed) (λ bytes.
        IfErr result (λ fault. FailsOf choices O.can_fail R.can_fail text bytes zone.now fault
        (W.contents writer.old) (W.contents writer.new)))) }
    ensures sure { W.can_fail ≡ false → ¬ IsErrOf result CommandFault.Output }
{
    let config = read_object_file(alloc, choices, objects)?;
    let lines = LineReader::new(alloc, feed)?;
    let mut report = Report::new(alloc, &config, zone, lines)?;
    report.write(writer, watcher)
}
