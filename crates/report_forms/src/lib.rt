//! The forms of a report: as `replay` writes it, as JSON, or for people, all of it or the lines that are asked for.
#![tactic(auto)]

ghost use Rattle.std.specs.Prelude.{◌≡◌, false, IfErr, IfOk, IfSome, IsErrOf};
ghost use Rattle.report_forms.specs.Shown.{FailsOf, FailsWith, Shows, ShowsOf};

mod shown;

use command_output::{CommandFault, Ending, Sink};
use due_model::config::Choices;
use due_model::zone::Zone;
use progress::Watcher;
use report_telling::{tell_files, tell_in};
pub use shown::{LineForm, ShownLines};
use std::alloc::Global;
use text_lines::Input;

/// Reads object text up to a line `%events`, and then a feed, and writes the lines of the feed's report that are asked for, in
/// the form that is asked for. The feed is read and the lines written as they come. A watcher is told how far it is. Where the object
/// text is refused nothing is written; where the output fails or memory runs out, a front of those lines was.
pub fn show_in<R: Input + Drop, W: Sink, P: Watcher>(
    alloc: Global,
    choices: Choices,
    zone: &Zone,
    reader: R,
    shown: ShownLines<'_>,
    writer: &mut W,
    watcher: &mut P,
) -> Result<Ending, CommandFault>
    // What is written is those lines of the report of the bytes read, and nothing else.
    ensures report { IfSome (R.remaining reader) (λ bytes. IfOk result (λ ending.
        Shows choices shown.entry R.can_fail bytes zone.now ending
        (W.contents writer.old) (W.contents writer.new))) }
    // A fault says what was wrong, and what was written.
    ensures fault { IfSome (R.remaining reader) (λ bytes. IfErr result (λ fault.
        FailsWith choices shown.entry R.can_fail bytes zone.now fault
        (W.contents writer.old) (W.contents writer.new))) }
    // The output failed only where a call of the writer did.
    ensures sure { W.can_fail ≡ false → ¬ IsErrOf result CommandFault.Output }
{
    tell_in(alloc, choices, zone, reader, shown, writer, watcher)
}

/// The same, where the object text is one input, all of it, and the feed another. The feed isn't read before the object
/// text is accepted.
pub fn show_files<O: Input + Drop, R: Input + Drop, W: Sink, P: Watcher>(
    alloc: Global,
    choices: Choices,
    zone: &Zone,
    objects: O,
    feed: R,
    shown: ShownLines<'_>,
    writer: &mut W,
    watcher: &mut P,
) -> Result<Ending, CommandFault>
    ensures report { IfSome (O.remaining objects) (λ text. IfSome (R.remaining feed) (λ bytes.
        IfOk result (λ ending. ShowsOf choices shown.entry R.can_fail text bytes zone.now ending
        (W.contents writer.old) (W.contents writer.new)))) }
    ensures fault { IfSome (O.remaining objects) (λ text. IfSome (R.remaining feed) (λ bytes.
        IfErr result (λ fault. FailsOf choices shown.entry O.can_fail R.can_fail text bytes zone.now fault
        (W.contents writer.old) (W.contents writer.new)))) }
    ensures sure { W.can_fail ≡ false → ¬ IsErrOf result CommandFault.Output }
{
    tell_files(alloc, choices, zone, objects, feed, shown, writer, watcher)
}
