//! The contacts of a configuration.

ghost use Rattle.std.specs.Prelude.{◌≡◌, ◌≤◌, length, IfOk};
ghost use Rattle.due_model.specs.claims.Limits.{max_lanes, max_periods};
ghost use Rattle.object_contacts.specs.claims.Contacts.{AreContactsOf, IsContactOf};
ghost use Rattle.object_contacts.specs.Contacts.{AreContactValues};
ghost use Rattle.object_groups.specs.claims.Objects.{name_at, names_in};
ghost use Rattle.object_reader.specs.declared.block.BlockKind.TheVariants as blocks;

use crate::lanes::text_of;
use crate::rights::{RightsKind, RightsValues};
use due_model::config::Contact;
use object_groups::objects::Objects;
use object_inheritance::templates::Templates;
use std::alloc::{AllocError, Global};

/// What all blocks have for the directives of contacts.
#[derive(Drop)]
pub(crate) struct ContactValues<'a> {
    hosts: RightsValues<'a>,
    services: RightsValues<'a>,
}

impl<'a> ContactValues<'a> {
    /// What the blocks have. A refused growth leaves nothing.
    fn new(alloc: Global, templates: &Templates<'a>) -> Result<ContactValues<'a>, AllocError>
        ensures { IfOk result (AreContactValues templates.now) }
    {
        Ok(ContactValues {
            hosts: RightsValues::new(alloc, templates, RightsKind::OfHosts)?,
            services: RightsValues::new(alloc, templates, RightsKind::OfServices)?,
        })
    }

    /// The contact of that name, whose block stands at the place; what it has where it lists no options, by this project's
    /// rule or the daemon's.
    fn contact_at(
        &self,
        alloc: Global,
        daemons: bool,
        name: &[u8],
        periods: &Objects<'a>,
        commands: &Objects<'a>,
        lanes: &[usize],
        place: usize,
    ) -> Result<Contact, AllocError>
        requires values { AreContactValues commands.now.blocks self.now }
        requires name { name.now ≡ name_at commands.now.blocks blocks.Contact place }
        requires commands { commands.now.kind ≡ blocks.Command }
        requires periods { periods.now
            ≡ record { blocks = commands.now.blocks; kind = blocks.TimePeriod } }
        requires few_periods { length (names_in commands.now.blocks blocks.TimePeriod)
            ≤ max_periods }
        requires few_lanes { length lanes.now ≤ max_lanes }
        ensures { IfOk result (IsContactOf daemons commands.now.blocks lanes.now place) }
    {
        let of_hosts = RightsKind::OfHosts;
        let of_services = RightsKind::OfServices;
        Ok(Contact {
            name: text_of(alloc, name)?,
            hosts: self
                .hosts
                .rights_at(alloc, daemons, of_hosts, periods, commands, lanes, place)?,
            services: self.services.rights_at(
                alloc,
                daemons,
                of_services,
                periods,
                commands,
                lanes,
                place,
            )?,
        })
    }
}

/// The contacts, in file order, where `lanes` are the commands of the lanes, by their numbers among the commands:
/// the name of each, and for hosts and for services whether it is notified, of what, when, and by which lanes. One that lists no
/// options is notified of everything, or by the daemon's rule of nothing. `contacts`, `commands` and `periods` are those of the same blocks. The time grows with the blocks, their directives, the
/// templates that they use, and the entries of the contacts' lists; for each entry at most 16 lanes are looked at. It takes
/// some 256 bytes a block while it runs. A refused growth leaves nothing.
pub fn contacts_of<'a>(
    alloc: Global,
    daemons: bool,
    templates: &Templates<'a>,
    contacts: &Objects<'a>,
    commands: &Objects<'a>,
    periods: &Objects<'a>,
    lanes: &[usize],
) -> Result<Vec<Contact>, AllocError>
    requires contacts { contacts.now ≡ record { blocks = templates.now; kind = blocks.Contact } }
    requires commands { commands.now ≡ record { blocks = templates.now; kind = blocks.Command } }
    requires periods { periods.now ≡ record { blocks = templates.now; kind = blocks.TimePeriod } }
    requires few_periods { length (names_in templates.now blocks.TimePeriod) ≤ max_periods }
    requires few_lanes { length lanes.now ≤ max_lanes }
    ensures { IfOk result (λ made. AreContactsOf daemons templates.now lanes.now made.items) }
{
    let values = ContactValues::new(alloc, templates)?;
    let names = contacts.names();
    let mut made = Vec::new(alloc);
    for (number, place) in contacts.places().iter().enumerate() {
        let name = names.name(number);
        let contact = values.contact_at(alloc, daemons, name, periods, commands, lanes, *place)?;
        made.push(contact)?;
    }
    Ok(made)
}
