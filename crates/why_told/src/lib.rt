//! Why an object's messages went to whom they did, and to nobody else: of each attempt the filters that passed, the one that stopped it, and of each contact
//! that the configuration names whether it was told, by which filter it was refused, or why it is no receiver.
#![tactic(auto)]

ghost use Rattle.std.specs.Prelude.{◌≡◌, false, IfErr, IfOk, IfSome, IsErrOf};
ghost use Rattle.command_output.specs.claims.Outcome.{IsWriteFault};
ghost use Rattle.due_model.specs.claims.Accepted.{IsAccepted};
ghost use Rattle.why_told.specs.Report.{TellsWhy, TellsWhyFront};

mod attempts;
mod missing;
mod nothing;
mod places;
mod rows;
mod teller;
mod text;

use command_output::{CommandFault, Ending, Sink};
use due_model::config::Config;
use due_model::zone::Zone;
pub use places::Places;
use progress::Watcher;
use report_telling::tell_feed;
use std::alloc::Global;
pub use teller::Asked;
use teller::Reasons;
use text_lines::Input;

/// Reads a feed for a configuration, and writes of each attempt on an object what became of it, as the lines of the feed's report have it. Repeated attempts
/// that the same filter stops are one, with their number and the last moment; as JSON each stands by itself. Where there was no attempt that is said, and which
/// was the last before. What is written comes with the line of the report that ends it. Where the output
/// fails or memory runs out, a front of it was written.
pub fn why<R: Input + Drop, W: Sink, P: Watcher>(
    alloc: Global,
    config: &Config,
    zone: &Zone,
    feed: R,
    asked: Asked<'_>,
    writer: &mut W,
    watcher: &mut P,
) -> Result<Ending, CommandFault>
    requires accepted { IsAccepted config.now }
    // What is written is what the lines of the report of the object say, and nothing else.
    ensures report { IfSome (R.remaining feed) (λ bytes. IfOk result (λ ending.
        TellsWhy asked.entry R.can_fail config.now bytes zone.now ending
        (W.contents writer.old) (W.contents writer.new))) }
    ensures front { IfSome (R.remaining feed) (λ bytes.
        TellsWhyFront asked.entry R.can_fail config.now bytes zone.now
        (W.contents writer.old) (W.contents writer.new)) }
    ensures fault { IfErr result (λ fault. IsWriteFault W.can_fail fault) }
{
    let reasons = Reasons::new(alloc, asked);
    tell_feed(alloc, config, zone, feed, reasons, writer, watcher)
}
