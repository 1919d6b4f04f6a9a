//! A report for people: local time with the clock's offset, names in columns, colours for a terminal, and what a filter of an
//! object stops in a row as its first line and a number.
#![tactic(auto)]

ghost use Rattle.std.specs.Prelude.{◌≡◌, false, IfErr, IfOk, IfSome, IsErrOf};
ghost use Rattle.report_pretty.specs.Pretty.{FailsOf, FailsWith, IsPretty, PrettyOf};

mod pretty;

use command_output::{CommandFault, Ending, Sink};
use due_model::config::Choices;
use due_model::zone::Zone;
use line_forms::Picks;
pub use pretty::PrettyLines;
use progress::Watcher;
use report_telling::{tell_files, tell_in};
use std::alloc::Global;
use text_lines::Input;

/// Which lines are wanted, and whether they are coloured.
#[derive(Clone, Copy)]
pub struct Wanted<'a> {
    pub picks: Picks<'a>,
    pub coloured: bool,
}

/// Reads object text up to a line `%events`, and then a feed, and writes the lines of the feed's report that are wanted, for
/// people. Each is written as it comes; of what a filter of an object stops in a row the first is, and how often more it did comes
/// before the next line of the object, or at the end. A watcher is told how far it is. Where the object text is refused nothing is written; where the output fails or
/// memory runs out, a front of those lines was.
pub fn pretty_in<R: Input + Drop, W: Sink, P: Watcher>(
    alloc: Global,
    choices: Choices,
    zone: &Zone,
    reader: R,
    wanted: Wanted<'_>,
    writer: &mut W,
    watcher: &mut P,
) -> Result<Ending, CommandFault>
    // What is written is those lines of the report of the bytes read, and nothing else.
    ensures report { IfSome (R.remaining reader) (λ bytes. IfOk result (λ ending.
        IsPretty choices wanted.entry.picks wanted.entry.coloured R.can_fail bytes zone.now ending
        (W.contents writer.old) (W.contents writer.new))) }
    // A fault says what was wrong, and what was written.
    ensures fault { IfSome (R.remaining reader) (λ bytes. IfErr result (λ fault.
        FailsWith choices wanted.entry.picks wanted.entry.coloured R.can_fail bytes zone.now fault
        (W.contents writer.old) (W.contents writer.new))) }
    // The output failed only where a call of the writer did.
    ensures sure { W.can_fail ≡ false → ¬ IsErrOf result CommandFault.Output }
{
    let pretty = PrettyLines::new(alloc, wanted.picks, wanted.coloured)?;
    tell_in(alloc, choices, zone, reader, pretty, writer, watcher)
}

/// The same, where the object text is one input, all of it, and the feed another. The feed isn't read before the object
/// text is accepted.
pub fn pretty_files<O: Input + Drop, R: Input + Drop, W: Sink, P: Watcher>(
    alloc: Global,
    choices: Choices,
    zone: &Zone,
    objects: O,
    feed: R,
    wanted: Wanted<'_>,
    writer: &mut W,
    watcher: &mut P,
) -> Result<Ending, CommandFault>
    ensures report { IfSome (O.remaining objects) (λ text. IfSome (R.remaining feed) (λ bytes.
        IfOk result (λ ending. PrettyOf choices wanted.entry.picks wanted.entry.coloured R.can_fail text bytes zone.now ending
        (W.contents writer.old) (W.contents writer.new)))) }
    ensures fault { IfSome (O.remaining objects) (λ text. IfSome (R.remaining feed) (λ bytes.
        IfErr result (λ fault. FailsOf choices wanted.entry.picks wanted.entry.coloured O.can_fail R.can_fail text bytes
        zone.now fault (W.contents writer.old) (W.contents writer.new)))) }
    ensures sure { W.can_fail ≡ false → ¬ IsErrOf result CommandFault.Output }
{
    let pretty = PrettyLines::new(alloc, wanted.picks, wanted.coloured)?;
    tell_files(alloc, choices, zone, objects, feed, pretty, writer, watcher)
}
