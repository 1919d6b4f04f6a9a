//! What a change of a configuration does to the notices of a feed. Two deciders side by side decide its
//! events; the notices that one of them alone gives are written, and at the end what each contact was told in all.
#![tactic(auto)]

ghost use Rattle.std.specs.Prelude.{IfErr, IfOk, IfSome};
ghost use Rattle.command_output.specs.claims.Outcome.{IsWriteFault};
ghost use Rattle.due_model.specs.claims.Accepted.{IsAccepted};
ghost use Rattle.notices_compared.specs.Compares.{ComparesFor, ComparesFrontFor};

mod comparison;
mod side;
mod stream;

use changed_notices::ChangeForm;
use command_output::{CommandFault, Ending, Sink};
use comparison::Comparison;
use due_model::config::Config;
use due_model::zone::Zone;
use paired_feed::PairedFeed;
use std::alloc::Global;
use stream::write_changes;
use text_lines::{Input, LineReader};

/// Writes what the change from one configuration to another does to the notices of a feed: for each of its lines, after a minus
/// the notices that the first alone gives, and after a plus those that the second alone gives; once the feed is over, the table of
/// the contacts: how many messages each was told, how many at night, and the longest silence of a problem, by each. What a line adds is written before the reader is called for more. A line of the feed that a configuration
/// refuses gives no notice by it. Where the output fails or memory runs out, a front of that was written.
pub fn compare<R: Input + Drop, W: Sink>(
    alloc: Global,
    before: &Config,
    after: &Config,
    zone: &Zone,
    feed: R,
    form: ChangeForm,
    writer: &mut W,
) -> Result<Ending, CommandFault>
    requires before { IsAccepted before.now }
    requires after { IsAccepted after.now }
    // What is written is the changes from the one report of the feed to the other, the table, and nothing else.
    ensures changes { IfSome (R.remaining feed) (λ bytes. IfOk result (λ ending.
        ComparesFor form R.can_fail before.now after.now bytes zone.now ending
        (W.contents writer.old) (W.contents writer.new))) }
    ensures front { IfSome (R.remaining feed) (λ bytes.
        ComparesFrontFor form R.can_fail before.now after.now bytes zone.now
        (W.contents writer.old) (W.contents writer.new)) }
    ensures fault { IfErr result (λ fault. IsWriteFault W.can_fail fault) }
{
    let lines = LineReader::new(alloc, feed)?;
    let mut paired = PairedFeed::new(lines);
    let mut both = Comparison::new(alloc, before, after, zone, form)?;
    write_changes(alloc, &mut paired, &mut both, writer)
}
