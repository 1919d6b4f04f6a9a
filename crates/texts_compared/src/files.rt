//! The comparison of object texts, each of an input of its own.

ghost use Rattle.std.specs.Prelude.{◌≡◌, false, IfErr, IfOk, IfSome, IsErrOf};
ghost use Rattle.command_output.specs.declared.outcome.CommandFault.TheVariants.{Output};
ghost use Rattle.due_model.specs.claims.Accepted.{IsAccepted};
ghost use Rattle.command_input.specs.Objects.{IsFileOf};
ghost use Rattle.texts_compared.specs.Files.{ComparesOf, FailsOf, SecondFails};
ghost use Rattle.texts_compared.specs.declared.fault.CompareFault.TheVariants.{Command};

use crate::fault::{CompareFault, fault_of_second};
use changed_notices::ChangeForm;
use command_input::read_object_file;
use command_output::{Ending, Sink};
use due_model::config::{Choices, Config};
use due_model::zone::Zone;
use notices_compared::compare;
use std::alloc::Global;
use text_lines::Input;

/// Reads two object texts, each all of an input, and then a feed, and writes what the change from the one to the other does to the
/// notices of the feed, as `compare` does. The feed isn't read before both texts are accepted. Where either is refused nothing is
/// written.
pub fn compare_files<O: Input + Drop, S: Input + Drop, R: Input + Drop, W: Sink>(
    alloc: Global,
    choices: Choices,
    zone: &Zone,
    before: O,
    after: S,
    feed: R,
    form: ChangeForm,
    writer: &mut W,
) -> Result<Ending, CompareFault>
    ensures changes { IfSome (O.remaining before) (λ first. IfSome (S.remaining after) (λ second.
        IfSome (R.remaining feed) (λ bytes. IfOk result (λ ending.
        ComparesOf choices form R.can_fail first second bytes zone.now ending
        (W.contents writer.old) (W.contents writer.new))))) }
    // A fault says what was wrong, of which text, and what was written.
    ensures fault { IfSome (O.remaining before) (λ first. IfSome (S.remaining after) (λ second.
        IfSome (R.remaining feed) (λ bytes. IfErr result (λ fault.
        FailsOf choices form O.can_fail S.can_fail R.can_fail first second bytes zone.now fault
        (W.contents writer.old) (W.contents writer.new))))) }
    // The output failed only where a call of the writer did.
    ensures sure { W.can_fail ≡ false → ¬ IsErrOf result (Command Output) }
{
    let first = read_object_file(alloc, choices, before)?;
    let second = read_second(alloc, choices, after)?;
    match compare(alloc, &first, &second, zone, feed, form, writer) {
        Ok(ending) => Ok(ending),
        Err(fault) => Err(CompareFault::Command(fault)),
    }
}

/// Reads the second object text.
fn read_second<S: Input + Drop>(
    alloc: Global,
    choices: Choices,
    after: S,
) -> Result<Config, CompareFault>
    ensures accepted { IfOk result (λ config. IsAccepted config) }
    ensures config { IfOk result (λ config. IsFileOf choices config (S.remaining after)) }
    ensures fault { IfErr result (λ fault. SecondFails choices S.can_fail fault (S.remaining after)) }
{
    match read_object_file(alloc, choices, after) {
        Ok(config) => Ok(config),
        Err(fault) => Err(fault_of_second(fault)),
    }
}
