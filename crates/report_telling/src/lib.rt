//! The report of a feed in any form: a teller is told its lines one by one, as they come, and writes what it wants of
//! them. What the lines are is `replay`'s report; how they are written is the teller's.
#![tactic(auto)]

ghost use Rattle.std.specs.Prelude.{◌≡◌, ◌∷◌, false, IfErr, IfOk, IfSome, IsErrOf};
ghost use Rattle.command_output.specs.claims.Outcome.{IsWriteFault};
ghost use Rattle.due_model.specs.claims.Accepted.{IsAccepted};
ghost use Rattle.report_telling.specs.Tells.{FailsOf, FailsWith, Tells, TellsFor, TellsFrontFor, TellsOf};
ghost use Rattle.report_telling.specs.Told.{form_of};

mod laws;
mod output;
mod tellers;
mod telling;
mod told_lines;

use command_input::{read_object_file, read_objects};
use command_output::{CommandFault, Ending, Sink};
use due_model::config::{Choices, Config};
use due_model::zone::Zone;
pub use laws::lines_are_the_report;
use progress::Watcher;
use std::alloc::Global;
pub use tellers::Teller;
use telling::Telling;
use text_lines::{Input, LineReader};

/// Reads object text up to a line `%events`, and then a feed, and tells the lines of the feed's report to a teller. What
/// that writes is written as it comes: what an event adds is written before the reader is called for more. A watcher is
/// told how far it is whenever the feed may be waited for. Where the object text is refused nothing is written; where the
/// output fails or memory runs out, a front of what the teller writes was.
pub fn tell_in<R: Input + Drop, W: Sink, P: Watcher, T: Teller>(
    alloc: Global,
    choices: Choices,
    zone: &Zone,
    reader: R,
    teller: T,
    writer: &mut W,
    watcher: &mut P,
) -> Result<Ending, CommandFault>
    // What is written is what the teller writes of the lines of the report, and nothing else.
    ensures report { IfSome (R.remaining reader) (λ bytes. IfOk result (λ ending.
        Tells choices (form_of T.told T.after T.ended) teller R.can_fail bytes zone.now ending
        (W.contents writer.old) (W.contents writer.new))) }
    // A fault says what was wrong, and what was written.
    ensures fault { IfSome (R.remaining reader) (λ bytes. IfErr result (λ fault.
        FailsWith choices (form_of T.told T.after T.ended) teller R.can_fail bytes zone.now fault
        (W.contents writer.old) (W.contents writer.new))) }
    // The output failed only where a call of the writer did.
    ensures sure { W.can_fail ≡ false → ¬ IsErrOf result CommandFault.Output }
{
    let mut lines = LineReader::new(alloc, reader)?;
    let config = read_objects(alloc, choices, &mut lines)?;
    let mut telling = Telling::new(alloc, &config, zone, teller, lines)?;
    telling.write(writer, watcher)
}

/// The same, where the object text is one input, all of it, and the feed another. The feed isn't read before the object
/// text is accepted.
pub fn tell_files<O: Input + Drop, R: Input + Drop, W: Sink, P: Watcher, T: Teller>(
    alloc: Global,
    choices: Choices,
    zone: &Zone,
    objects: O,
    feed: R,
    teller: T,
    writer: &mut W,
    watcher: &mut P,
) -> Result<Ending, CommandFault>
    ensures report { IfSome (O.remaining objects) (λ text. IfSome (R.remaining feed) (λ bytes.
        IfOk result (λ ending. TellsOf choices (form_of T.told T.after T.ended) teller R.can_fail text bytes
        zone.now ending (W.contents writer.old) (W.contents writer.new)))) }
    ensures fault { IfSome (O.remaining objects) (λ text. IfSome (R.remaining feed) (λ bytes.
        IfErr result (λ fault. FailsOf choices (form_of T.told T.after T.ended) teller O.can_fail R.can_fail
        text bytes zone.now fault (W.contents writer.old) (W.contents writer.new)))) }
    ensures sure { W.can_fail ≡ false → ¬ IsErrOf result CommandFault.Output }
{
    let config = read_object_file(alloc, choices, objects)?;
    let lines = LineReader::new(alloc, feed)?;
    let mut telling = Telling::new(alloc, &config, zone, teller, lines)?;
    telling.write(writer, watcher)
}

/// The same of a feed alone, for a configuration. Where the output fails or memory runs out, a front of what the teller
/// writes was written.
pub fn tell_feed<R: Input + Drop, W: Sink, P: Watcher, T: Teller>(
    alloc: Global,
    config: &Config,
    zone: &Zone,
    feed: R,
    teller: T,
    writer: &mut W,
    watcher: &mut P,
) -> Result<Ending, CommandFault>
    requires accepted { IsAccepted config.now }
    ensures report { IfSome (R.remaining feed) (λ bytes. IfOk result (λ ending.
        TellsFor (form_of T.told T.after T.ended) teller R.can_fail config.now bytes zone.now ending
        (W.contents writer.old) (W.contents writer.new))) }
    ensures front { IfSome (R.remaining feed) (λ bytes.
        TellsFrontFor (form_of T.told T.after T.ended) teller R.can_fail config.now bytes zone.now
        (W.contents writer.old) (W.contents writer.new)) }
    ensures fault { IfErr result (λ fault. IsWriteFault W.can_fail fault) }
{
    let reader = LineReader::new(alloc, feed)?;
    let mut telling = Telling::new(alloc, config, zone, teller, reader)?;
    telling.write(writer, watcher)
}
