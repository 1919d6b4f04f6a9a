//! Who would be told: the notices of the report of a made feed, as a table; and who wouldn't, though the configuration names
//! them.
#![tactic(auto)]

ghost use Rattle.std.specs.Prelude.{◌≡◌, ◌<◌, ◌^◌, false, IfErr, IfOk, IfSome, IsErrOf};
ghost use Rattle.command_output.specs.claims.Outcome.{IsWriteFault};
ghost use Rattle.due_model.specs.claims.Accepted.{IsAccepted};
ghost use Rattle.who_told.specs.Who.{FailsFor, FailsOf, TellsBoth, TellsBothFront, TellsKnown, TellsMissing};
ghost use Rattle.who_told.specs.Who.{TellsMissingFront, TellsTable, TellsTableFront, TellsWho};

mod fault;
mod missed;
mod names;
mod rows;

use command_input::read_object_file;
use command_output::{CommandFault, Ending, Sink};
use due_model::config::{Choices, Config};
use due_model::zone::Zone;
pub use fault::WhoFault;
use made_feed::{Supposed, make_feed};
use missed::Missed;
use names::unknown_in;
pub use names::{Unknown, object_parts};
use progress::Unwatched;
use report_telling::tell_feed;
use rows::Rows;
use std::alloc::Global;
use text_lines::Input;
use who_missed::{Form, RowForm};

/// How many minutes the feed has by which it is seen when those are told who aren't: a week's.
const WEEK: u32 = 10_080;

/// Writes who is told of what is supposed, and when, by the configuration of an object text: a row for each notice of the
/// report of the feed that is made of it, in the report's order, or that nobody is told. A line of that feed that is refused
/// stands among them as in the report: all names are known, so it is one past the last moment. Then comes a line for each
/// contact that the configuration names for the object and that isn't told: why not, and when it is, if that is within a
/// week. As JSON each is an object. Where the object text is refused, or a name or the state isn't known, nothing is written; where the output fails or
/// memory runs out, a front of that was.
pub fn who<'a, O: Input + Drop, W: Sink>(
    alloc: Global,
    choices: Choices,
    zone: &Zone,
    objects: O,
    supposed: &Supposed<'a>,
    form: RowForm,
    writer: &mut W,
) -> Result<Ending, WhoFault<'a>>
    requires { supposed.now.moment < 2 ^ 40 }
    // All names are known. What is written is the table of that report, and who is missing in it, and nothing else.
    ensures table { IfSome (O.remaining objects) (λ text. IfOk result (λ ending.
        TellsWho choices form supposed.now text zone.now ending (W.contents writer.old) (W.contents writer.new))) }
    // A fault says what was wrong, and what was written.
    ensures fault { IfSome (O.remaining objects) (λ text. IfErr result (λ fault.
        FailsOf choices form supposed.now O.can_fail text zone.now fault
        (W.contents writer.old) (W.contents writer.new))) }
    // The output failed only where a call of the writer did.
    ensures sure { W.can_fail ≡ false
        → ¬ IsErrOf result (WhoFault.Command CommandFault.Output) }
{
    let config = read_object_file(alloc, choices, objects)?;
    tell_known(alloc, &config, zone, supposed, form, writer)
}

/// The same for a configuration.
#[tactic(auto, using(written::specs::WrittenLaws::keeps_same))]
fn tell_known<'a, W: Sink>(
    alloc: Global,
    config: &Config,
    zone: &Zone,
    supposed: &Supposed<'a>,
    form: RowForm,
    writer: &mut W,
) -> Result<Ending, WhoFault<'a>>
    requires accepted { IsAccepted config.now }
    requires moment { supposed.now.moment < 2 ^ 40 }
    ensures ok { IfOk result (λ ending. TellsKnown form supposed.now config.now zone.now ending
        (W.contents writer.old) (W.contents writer.new)) }
    ensures fault { IfErr result (λ fault. FailsFor form W.can_fail supposed.now config.now zone.now fault
        (W.contents writer.old) (W.contents writer.new)) }
{
    match unknown_in(config, supposed) {
        Some(unknown) => Err(WhoFault::Unknown(unknown)),
        None => match tell_both(alloc, config, zone, supposed, form, writer) {
            Ok(ending) => Ok(ending),
            Err(fault) => Err(WhoFault::Command(fault)),
        },
    }
}

/// The same where all names are known.
fn tell_both<W: Sink>(
    alloc: Global,
    config: &Config,
    zone: &Zone,
    supposed: &Supposed<'_>,
    form: RowForm,
    writer: &mut W,
) -> Result<Ending, CommandFault>
    requires accepted { IsAccepted config.now }
    requires moment { supposed.now.moment < 2 ^ 40 }
    ensures ok { IfOk result (λ ending. TellsBoth form supposed.now config.now zone.now ending
        (W.contents writer.old) (W.contents writer.new)) }
    ensures front { TellsBothFront form supposed.now config.now zone.now
        (W.contents writer.old) (W.contents writer.new) }
    ensures fault { IfErr result (λ fault. IsWriteFault W.can_fail fault) }
{
    let ending = tell_table(alloc, config, zone, supposed, form, writer)?;
    tell_missing(alloc, config, zone, supposed, form, writer)?;
    Ok(ending)
}

/// Writes the rows.
fn tell_table<W: Sink>(
    alloc: Global,
    config: &Config,
    zone: &Zone,
    supposed: &Supposed<'_>,
    form: RowForm,
    writer: &mut W,
) -> Result<Ending, CommandFault>
    requires accepted { IsAccepted config.now }
    requires moment { supposed.now.moment < 2 ^ 40 }
    ensures ok { IfOk result (λ ending. TellsTable form supposed.now config.now zone.now ending
        (W.contents writer.old) (W.contents writer.new)) }
    ensures front { TellsTableFront form supposed.now config.now zone.now
        (W.contents writer.old) (W.contents writer.new) }
    ensures fault { IfErr result (λ fault. IsWriteFault W.can_fail fault) }
{
    let feed = make_feed(alloc, supposed)?;
    let feed = feed.as_slice();
    let rows = Rows::new(alloc, config, form)?;
    tell_feed(alloc, config, zone, feed, rows, writer, &mut Unwatched)
}

/// Writes who is missing.
fn tell_missing<W: Sink>(
    alloc: Global,
    config: &Config,
    zone: &Zone,
    supposed: &Supposed<'_>,
    form: RowForm,
    writer: &mut W,
) -> Result<Ending, CommandFault>
    requires accepted { IsAccepted config.now }
    requires moment { supposed.now.moment < 2 ^ 40 }
    ensures ok { IfOk result (λ _. TellsMissing form supposed.now config.now zone.now
        (W.contents writer.old) (W.contents writer.new)) }
    ensures front { TellsMissingFront form supposed.now config.now zone.now
        (W.contents writer.old) (W.contents writer.new) }
    ensures fault { IfErr result (λ fault. IsWriteFault W.can_fail fault) }
{
    let week = Supposed {
        minutes: WEEK,
        ..*supposed
    };
    let feed = make_feed(alloc, &week)?;
    let feed = feed.as_slice();
    let until = supposed.moment + 60 * u64::from(supposed.minutes);
    let made = Form { alloc, form };
    let missed = Missed::new(made, supposed.host, supposed.service, until);
    tell_feed(alloc, config, zone, feed, missed, writer, &mut Unwatched)
}
