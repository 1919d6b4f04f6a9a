//! What contacts are notified of, and by which lanes.

ghost use Rattle.std.specs.Prelude.{◌≡◌, ◌≤◌, ◌<◌, length, map, IfOk, IfSome};
ghost use Rattle.due_model.specs.claims.Limits.{max_lanes, max_periods};
ghost use Rattle.object_contacts.specs.claims.Contacts.{AreRightsOf, commands_directive};
ghost use Rattle.object_contacts.specs.Contacts.{AreRightsValues};
ghost use Rattle.object_contacts.specs.claims.Contacts.{enabled_directive, letters_unlisted, option_kind};
ghost use Rattle.object_contacts.specs.claims.Contacts.{options_directive, period_directive};
ghost use Rattle.object_contacts.specs.claims.Lanes.{AreLanes, lane_named, lane_of, NamesLane};
ghost use Rattle.object_contacts.specs.Marks.{Marks};
ghost use Rattle.object_groups.specs.claims.Objects.{names_in};
ghost use Rattle.object_reader.specs.declared.block.BlockKind.TheVariants.{Command, TimePeriod};
ghost use Rattle.object_values.specs.Values.{texts};

use crate::lanes::command_named;
use crate::marks::{lane_ids, mark, marked_numbers};
use due_model::config::{LaneId, Rights};
use due_model::options::OptionLetters;
use due_model::sequence::Sequence;
use object_groups::names::Names;
use object_groups::objects::{Objects, list_at};
use object_inheritance::inherited::Values;
use object_inheritance::templates::Templates;
use object_listing::readings::{is_on, letters_or, period_at};
use object_values::options::OptionKind;
use std::alloc::{AllocError, Global};

/// The kinds of object for which a contact has rights of its own.
#[derive(Clone, Copy)]
pub enum RightsKind {
    /// Hosts.
    OfHosts,
    /// Services.
    OfServices,
}

/// The directive that enables notifications.
fn enabled_directive(kind: RightsKind) -> &'static str
    ensures { result.now ≡ enabled_directive kind }
{
    match kind {
        RightsKind::OfHosts => "host_notifications_enabled",
        RightsKind::OfServices => "service_notifications_enabled",
    }
}

/// The directive that lists options.
fn options_directive(kind: RightsKind) -> &'static str
    ensures { result.now ≡ options_directive kind }
{
    match kind {
        RightsKind::OfHosts => "host_notification_options",
        RightsKind::OfServices => "service_notification_options",
    }
}

/// The directive that names a period.
fn period_directive(kind: RightsKind) -> &'static str
    ensures { result.now ≡ period_directive kind }
{
    match kind {
        RightsKind::OfHosts => "host_notification_period",
        RightsKind::OfServices => "service_notification_period",
    }
}

/// The directive that lists commands.
fn commands_directive(kind: RightsKind) -> &'static str
    ensures { result.now ≡ commands_directive kind }
{
    match kind {
        RightsKind::OfHosts => "host_notification_commands",
        RightsKind::OfServices => "service_notification_commands",
    }
}

/// The kind of the option list.
fn option_kind(kind: RightsKind) -> OptionKind
    ensures { result ≡ option_kind kind }
{
    match kind {
        RightsKind::OfHosts => OptionKind::Host,
        RightsKind::OfServices => OptionKind::Service,
    }
}

/// The letters of a contact that lists no options, by this project's rule or the daemon's.
fn letters_unlisted(daemons: bool) -> OptionLetters
    ensures { result ≡ letters_unlisted daemons }
{
    if daemons {
        OptionLetters::NONE
    } else {
        OptionLetters::ALL
    }
}

/// The lane of a command, where `lanes` are the commands of the lanes.
fn lane_of(lanes: &[usize], command: usize) -> Option<usize>
    ensures lane { result ≡ lane_of lanes.now command }
    ensures within { IfSome result (λ lane. lane < length lanes.now) }
{
    lanes.iter().position(|other| *other == command)
}

/// The lane that an entry of a list of notification commands names.
fn lane_named<'a>(commands: &Names<'a>, lanes: &[usize], entry: &'a [u8]) -> Option<usize>
    ensures lane { result ≡ lane_named commands.now lanes.now entry.now }
    ensures within { IfSome result (λ lane. lane < length lanes.now) }
{
    match command_named(commands, entry) {
        None => None,
        Some(command) => lane_of(lanes, command),
    }
}

/// Marks the lanes that a list names.
fn mark_lanes<'a>(marks: &mut [bool], commands: &Names<'a>, lanes: &[usize], entries: &[&'a [u8]])
    requires { length marks.old ≡ length lanes.now }
    ensures long { length marks.new ≡ length marks.old }
    ensures marked { Marks (NamesLane commands.now lanes.now (texts entries.now))
        marks.old marks.new }
{
    for entry in entries {
        mark(marks, lane_named(commands, lanes, *entry));
    }
}

/// The lanes that a list names, each once and in order.
fn lanes_listed<'a>(
    alloc: Global,
    commands: &Names<'a>,
    lanes: &[usize],
    entries: &[&'a [u8]],
) -> Result<Vec<LaneId>, AllocError>
    requires { length lanes.now ≤ max_lanes }
    ensures { IfOk result (λ ids. AreLanes (NamesLane commands.now lanes.now (texts entries.now))
        (map (λ id. id.0) ids.items)) }
{
    let mut marks = vec![in alloc; false; lanes.len()]?;
    mark_lanes(marks.as_mut_slice(), commands, lanes, entries);
    let numbers = marked_numbers(alloc, marks.as_slice())?;
    lane_ids(alloc, numbers.as_slice())
}

/// What all blocks have for the directives of one kind of rights.
#[derive(Drop)]
pub(crate) struct RightsValues<'a> {
    enabled: Values<'a>,
    options: Values<'a>,
    period: Values<'a>,
    commands: Values<'a>,
}

impl<'a> RightsValues<'a> {
    /// What the blocks have. It takes some 128 bytes a block. A refused growth leaves nothing.
    pub(crate) fn new(
        alloc: Global,
        templates: &Templates<'a>,
        kind: RightsKind,
    ) -> Result<RightsValues<'a>, AllocError>
        ensures { IfOk result (AreRightsValues templates.now kind) }
    {
        Ok(RightsValues {
            enabled: Values::new(alloc, templates, enabled_directive(kind).as_bytes())?,
            options: Values::new(alloc, templates, options_directive(kind).as_bytes())?,
            period: Values::new(alloc, templates, period_directive(kind).as_bytes())?,
            commands: Values::new(alloc, templates, commands_directive(kind).as_bytes())?,
        })
    }

    /// The rights of the contact whose block stands at the place, where `lanes` are the commands of the lanes; what it has
    /// where it lists no options, by this project's rule or the daemon's. A refused growth leaves nothing.
    pub(crate) fn rights_at(
        &self,
        alloc: Global,
        daemons: bool,
        kind: RightsKind,
        periods: &Objects<'a>,
        commands: &Objects<'a>,
        lanes: &[usize],
        place: usize,
    ) -> Result<Rights, AllocError>
        requires values { AreRightsValues commands.now.blocks kind self.now }
        requires commands { commands.now.kind ≡ Command }
        requires periods { periods.now
            ≡ record { blocks = commands.now.blocks; kind = TimePeriod } }
        requires few_periods { length (names_in commands.now.blocks TimePeriod) ≤ max_periods }
        requires few_lanes { length lanes.now ≤ max_lanes }
        ensures { IfOk result (AreRightsOf daemons commands.now.blocks lanes.now kind place) }
    {
        let entries = list_at(alloc, &self.commands, place)?;
        let listed = lanes_listed(alloc, commands.names(), lanes, entries.as_slice())?;
        Ok(Rights {
            enabled: is_on(&self.enabled, true, place),
            options: letters_or(
                &self.options,
                option_kind(kind),
                letters_unlisted(daemons),
                place,
            ),
            period: period_at(periods.names(), &self.period, place),
            lanes: Sequence::new(listed),
        })
    }
}
