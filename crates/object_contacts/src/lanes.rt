//! The lanes of a configuration: the notification commands that contacts name.

ghost use Rattle.std.specs.Prelude.{◌≡◌, ◌<◌, length, map, slice_index_or, [], IfOk, IfSome, OnOk};
ghost use Rattle.object_contacts.specs.claims.Lanes.{AreLanes, IsLane, command_named};
ghost use Rattle.object_contacts.specs.Lanes.{AreRead};
ghost use Rattle.object_contacts.specs.claims.Lanes.{NamesCommand};
ghost use Rattle.object_contacts.specs.Marks.{Marks, OfSome};
ghost use Rattle.object_groups.specs.claims.Objects.{list_at};
ghost use Rattle.object_reader.specs.declared.block.BlockKind.TheVariants.{Command, Contact};
ghost use Rattle.object_values.specs.Values.{texts};

use crate::marks::{is_marked, mark, marked_numbers};
use due_model::config::Lane;
use due_model::short_list::Text;
use object_groups::names::Names;
use object_groups::objects::{Objects, list_at};
use object_inheritance::inherited::Values;
use object_inheritance::templates::Templates;
use object_values::values::command_name;
use std::alloc::{AllocError, Global};

/// The command that an entry of a list of notification commands names.
pub(crate) fn command_named<'a>(commands: &Names<'a>, entry: &'a [u8]) -> Option<usize>
    ensures number { result ≡ command_named commands.now entry.now }
    ensures within { IfSome result (λ number. number < length commands.now) }
{
    commands.find(command_name(entry))
}

/// Marks the commands that a list names.
fn mark_used<'a>(marks: &mut [bool], commands: &Names<'a>, entries: &[&'a [u8]])
    requires { length marks.old ≡ length commands.now }
    ensures long { length marks.new ≡ length marks.old }
    ensures marked { Marks (NamesCommand commands.now (texts entries.now)) marks.old marks.new }
{
    for entry in entries {
        mark(marks, command_named(commands, *entry));
    }
}

/// Marks the commands that the list names which the block at the place has for the directive of the values.
fn mark_used_at<'a>(
    alloc: Global,
    marks: &mut [bool],
    commands: &Names<'a>,
    values: &Values<'a>,
    place: usize,
) -> Result<(), AllocError>
    requires { length marks.old ≡ length commands.now }
    ensures long { length marks.new ≡ length marks.old }
    ensures marked { OnOk result (Marks
        (NamesCommand commands.now (list_at values.now.blocks values.now.directive place))
        marks.old marks.new) }
{
    let entries = list_at(alloc, values, place)?;
    mark_used(marks, commands, entries.as_slice());
    Ok(())
}

/// The same, read once for all blocks that take from one block what they have. `read` marks the blocks that give what
/// was read.
fn mark_used_once<'a>(
    alloc: Global,
    marks: &mut [bool],
    commands: &Names<'a>,
    values: &Values<'a>,
    read: &mut Vec<bool>,
    place: usize,
) -> Result<(), AllocError>
    requires long { length marks.old ≡ length commands.now }
    requires read { AreRead commands.now values.now read.old.items marks.old }
    ensures long { length marks.new ≡ length marks.old }
    ensures read { OnOk result (AreRead commands.now values.now read.new.items marks.new) }
    ensures marked { OnOk result (Marks
        (NamesCommand commands.now (list_at values.now.blocks values.now.directive place))
        marks.old marks.new) }
{
    let origin = values.origin(place);
    if is_marked(read.as_slice(), origin) {
        return Ok(());
    }
    mark_used_at(alloc, marks, commands, values, place)?;
    if origin < read.len() {
        read[origin] = true;
    }
    Ok(())
}

/// Marks the commands that the lists name which the blocks at the places have for the directive of the values, where
/// `count` is how many blocks there are.
fn mark_used_for<'a>(
    alloc: Global,
    marks: &mut [bool],
    commands: &Names<'a>,
    values: &Values<'a>,
    places: &[usize],
    count: usize,
) -> Result<(), AllocError>
    requires { length marks.old ≡ length commands.now }
    ensures long { length marks.new ≡ length marks.old }
    ensures marked { OnOk result (Marks (OfSome
        (λ place. NamesCommand commands.now (list_at values.now.blocks values.now.directive place))
        places.now) marks.old marks.new) }
{
    let mut read = vec![in alloc; false; count]?;
    for place in places {
        mark_used_once(alloc, marks, commands, values, &mut read, *place)?;
    }
    Ok(())
}

/// The lanes: the commands that a registered contact names in `host_notification_commands` or
/// `service_notification_commands`, by their numbers among the commands, each once and in the order of their
/// blocks. A command's name in such a list is all before the first `!`; a name that no command has adds
/// nothing. `contacts` and `commands` are those of the same blocks. The time grows with the blocks, their directives, the
/// templates that they use, and the entries of the contacts' lists: a list that several contacts take from one block is
/// read once. A refused growth leaves nothing.
pub fn lanes_of<'a>(
    alloc: Global,
    templates: &Templates<'a>,
    contacts: &Objects<'a>,
    commands: &Objects<'a>,
) -> Result<Vec<usize>, AllocError>
    requires contacts { contacts.now ≡ record { blocks = templates.now; kind = Contact } }
    requires commands { commands.now ≡ record { blocks = templates.now; kind = Command } }
    ensures { IfOk result (λ lanes. AreLanes (IsLane templates.now) lanes.items) }
{
    let places = contacts.places();
    let names = commands.names();
    let hosts = Values::new(alloc, templates, "host_notification_commands".as_bytes())?;
    let services = Values::new(alloc, templates, "service_notification_commands".as_bytes())?;
    let count = templates.blocks().len();
    let mut marks = vec![in alloc; false; names.len()]?;
    mark_used_for(alloc, marks.as_mut_slice(), names, &hosts, places, count)?;
    mark_used_for(alloc, marks.as_mut_slice(), names, &services, places, count)?;
    marked_numbers(alloc, marks.as_slice())
}

/// A copy of a name.
pub(crate) fn text_of(alloc: Global, name: &[u8]) -> Result<Text, AllocError>
    ensures { IfOk result (λ text. text ≡ name.now) }
{
    Text::new(alloc, name)
}

/// The lanes of a configuration, with their names, where `lanes` are their commands by number. A refused growth
/// leaves nothing.
pub fn named_lanes(
    alloc: Global,
    commands: &Names,
    lanes: &[usize],
) -> Result<Vec<Lane>, AllocError>
    ensures { IfOk result (λ made. map (λ lane. lane.name) made.items
        ≡ map (λ command. slice_index_or commands.now command []) lanes.now) }
{
    let mut made = Vec::new(alloc);
    for command in lanes {
        let name = text_of(alloc, commands.name(*command))?;
        made.push(Lane { name })?;
    }
    Ok(made)
}
