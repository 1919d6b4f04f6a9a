//! The report of a feed in any form, and beside it the picture of the feed: a teller is told the lines of the
//! report, as they come, and once the feed is over its picture is drawn.
#![tactic(auto)]

ghost use Rattle.std.specs.Prelude.{◌≡◌, false, IfErr, IfOk, IfSome, IsErrOf};
ghost use Rattle.report_telling.specs.Tells.{FailsOf, FailsWith};
ghost use Rattle.report_telling.specs.Told.{form_of};
ghost use Rattle.report_picture.specs.Draws.{Draws, DrawsOf};

mod drawing;
mod laws;
mod output;

use command_input::{read_object_file, read_objects};
use command_output::{CommandFault, Ending, Sink};
use drawing::Drawing;
pub use drawing::Picture;
use due_model::config::Choices;
use due_model::zone::Zone;
pub use laws::what_is_drawn;
use progress::Watcher;
use report_telling::Teller;
use std::alloc::Global;
use text_lines::{Input, LineReader};

/// Whose rules decide, and the zone of local times.
#[derive(Clone, Copy)]
pub struct Site<'z> {
    pub choices: Choices,
    pub zone: &'z Zone,
}

/// Reads object text up to a line `%events`, and then a feed, tells the lines of the feed's report to a
/// teller, whose text is written as it comes, and draws the picture of the feed once it is over. Where the
/// object text is refused nothing is written; where the output fails or memory runs out, a front of what the
/// teller writes was, and the picture isn't to be used.
pub fn draw_in<R: Input + Drop, W: Sink, P: Watcher, T: Teller>(
    alloc: Global,
    site: Site<'_>,
    reader: R,
    teller: T,
    picture: &mut Picture,
    writer: &mut W,
    watcher: &mut P,
) -> Result<Ending, CommandFault>
    // What is written is what the teller writes of the lines of the report, and the picture is that of the
    // same feed.
    ensures drawn { IfSome (R.remaining reader) (λ bytes. IfOk result (λ ending.
        Draws site.entry.choices (form_of T.told T.after T.ended) teller R.can_fail bytes
        site.entry.zone.now ending
        (W.contents writer.old) (W.contents writer.new) picture.old picture.new)) }
    // A fault says what was wrong, and what was written.
    ensures fault { IfSome (R.remaining reader) (λ bytes. IfErr result (λ fault.
        FailsWith site.entry.choices (form_of T.told T.after T.ended) teller R.can_fail bytes
        site.entry.zone.now fault
        (W.contents writer.old) (W.contents writer.new))) }
    // The output failed only where a call of the writer did.
    ensures sure { W.can_fail ≡ false → ¬ IsErrOf result CommandFault.Output }
{
    let mut lines = LineReader::new(alloc, reader)?;
    let config = read_objects(alloc, site.choices, &mut lines)?;
    let mut drawing = Drawing::new(alloc, &config, site.zone, teller, lines)?;
    drawing.write(picture, writer, watcher)
}

/// The same, where the object text is one input, all of it, and the feed another. The feed isn't read before
/// the object text is accepted.
pub fn draw_files<O: Input + Drop, R: Input + Drop, W: Sink, P: Watcher, T: Teller>(
    alloc: Global,
    site: Site<'_>,
    objects: O,
    feed: R,
    teller: T,
    picture: &mut Picture,
    writer: &mut W,
    watcher: &mut P,
) -> Result<Ending, CommandFault>
    ensures drawn { IfSome (O.remaining objects) (λ text. IfSome (R.remaining feed) (λ bytes.
        IfOk result (λ ending. DrawsOf site.entry.choices (form_of T.told T.after T.ended) teller
        R.can_fail text bytes site.entry.zone.now ending (W.contents writer.old) (W.contents writer.new) picture.old picture.new))) }
    ensures fault { IfSome (O.remaining objects) (λ text. IfSome (R.remaining feed) (λ bytes.
        IfErr result (λ fault. FailsOf site.entry.choices (form_of T.told T.after T.ended) teller
        O.can_fail R.can_fail text bytes site.entry.zone.now fault (W.contents writer.old) (W.contents writer.new)))) }
    ensures sure { W.can_fail ≡ false → ¬ IsErrOf result CommandFault.Output }
{
    let config = read_object_file(alloc, site.choices, objects)?;
    let lines = LineReader::new(alloc, feed)?;
    let mut drawing = Drawing::new(alloc, &config, site.zone, teller, lines)?;
    drawing.write(picture, writer, watcher)
}
