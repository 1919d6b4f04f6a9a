//! The object text at the head of an input, or of a file.

ghost use Rattle.std.specs.Prelude.{◌≡◌, ◌<◌, IfErr, IfOk};
ghost use Rattle.std.specs.Option.{option_copied};
ghost use Rattle.due_model.specs.claims.Accepted.{IsAccepted};
ghost use Rattle.command_input.specs.Objects.{FileFails, GivesObjects, GivesText, IsFileOf};
ghost use Rattle.command_input.specs.Objects.{ObjectsFail};
ghost use Rattle.command_input.specs.Objects.{TextFails};
ghost use Rattle.text_lines.specs.LineReader.{to_come};
ghost use Rattle.text_lines.specs.Text.{mark_length, text_limit};

use command_output::CommandFault;
use due_model::config::{Choices, Config};
use object_faults::load_fault::LoadFault;
use object_resolve::load;
use std::alloc::Global;
use text_lines::{Input, LineReader, TextFault};

/// The line that ends object text.
const MARK: &[u8] = b"%events";

/// Reads object text up to its mark, and makes its configuration, by these choices.
fn read_config<R: Input + Drop>(
    alloc: Global,
    choices: Choices,
    lines: &mut LineReader<R>,
    mark: Option<&[u8]>,
) -> Result<Config, CommandFault>
    requires { mark_length (option_copied mark) < text_limit }
    ensures accepted { IfOk result (λ config. IsAccepted config) }
    ensures choices { IfOk result (λ config. config.choices ≡ choices) }
    ensures config { IfOk result (λ config.
        GivesText (option_copied mark.entry) choices config (to_come lines.old) (to_come lines.new)) }
    ensures fault { IfErr result (λ fault.
        TextFails choices R.can_fail (option_copied mark.entry) fault (to_come lines.old)) }
{
    match lines.read_text(alloc, mark) {
        Ok(text) => Ok(load(alloc, choices, text)?),
        Err(TextFault::Unreadable) => Err(CommandFault::Unreadable),
        Err(TextFault::TooLarge) => Err(CommandFault::Objects(LoadFault::TooLarge)),
        Err(TextFault::NoMemory) => Err(CommandFault::NoMemory),
    }
}

/// Reads object text up to its mark, a line `%events`, and makes its configuration, by these choices. What follows the mark stays to be
/// read. The text is dropped. A fault is the text's (`Objects`), the reader's (`Unreadable`: it failed or took too
/// many calls), or want of memory; after one the rest of the input isn't to be read.
pub fn read_objects<R: Input + Drop>(
    alloc: Global,
    choices: Choices,
    lines: &mut LineReader<R>,
) -> Result<Config, CommandFault>
    ensures accepted { IfOk result (λ config. IsAccepted config) }
    ensures choices { IfOk result (λ config. config.choices ≡ choices) }
    ensures config { IfOk result (λ config.
        GivesObjects choices config (to_come lines.old) (to_come lines.new)) }
    ensures fault { IfErr result (λ fault. ObjectsFail choices R.can_fail fault (to_come lines.old)) }
{
    read_config(alloc, choices, lines, Some(MARK))
}

/// Reads object text that is all of an input, as that of a file of its own, and makes its configuration, by these choices. A line `%events`
/// is a line like another there. A fault is one of those of `read_objects`.
pub fn read_object_file<R: Input + Drop>(
    alloc: Global,
    choices: Choices,
    reader: R,
) -> Result<Config, CommandFault>
    ensures accepted { IfOk result (λ config. IsAccepted config) }
    ensures choices { IfOk result (λ config. config.choices ≡ choices) }
    ensures config { IfOk result (λ config. IsFileOf choices config (R.remaining reader)) }
    ensures fault { IfErr result (λ fault. FileFails choices R.can_fail fault (R.remaining reader)) }
{
    let mut lines = LineReader::new(alloc, reader)?;
    read_config(alloc, choices, &mut lines, None)
}
