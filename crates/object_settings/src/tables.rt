//! What all blocks have for the directives of notification settings.

ghost use Rattle.std.specs.Prelude.{◌≡◌, IfOk};
ghost use Rattle.object_listing.specs.Contacts.{IsAsked};
ghost use Rattle.object_listing.specs.Periods.{ArePeriods};
ghost use Rattle.object_listing.specs.claims.Readings.{letters_at};
ghost use Rattle.object_settings.specs.Own.{AreFilters, AreRead, AreTimes, IsOwn, options_of};

use crate::own::Own;
use due_model::options::OptionLetters;
use object_groups::names::Names;
use object_inheritance::inherited::{Values, values_of};
use object_inheritance::templates::Templates;
use object_listing::contacts::ContactListing;
use object_listing::readings::{is_on, letters_at, number_at, own_number, own_period};
use object_reader::block::Block;
use object_values::options::OptionKind;
use std::alloc::{AllocError, Global};
use std::marker::Model;

/// What all blocks have for the directives that say when notices are sent.
#[derive(Drop)]
pub(crate) struct Times<'a> {
    intervals: Values<'a>,
    periods: Values<'a>,
    delays: Values<'a>,
}

/// What all blocks have for the directives that say of what notices are sent.
#[derive(Drop)]
pub(crate) struct Filters<'a> {
    options: Values<'a>,
    flags: Values<'a>,
    /// Of the name that only other readings of a text give.
    volatiles: Values<'a>,
}

/// What all blocks have for the directives of notification settings. Contracts see the blocks, and the flags of those
/// whose contacts were asked for.
#[derive(Drop)]
pub(crate) struct Tables<'a> {
    blocks: &'a [Block],
    contacts: &'a ContactListing<'a>,
    times: Times<'a>,
    filters: Filters<'a>,
}

impl<'a> Model for Tables<'a> {
    ghost use Rattle.object_listing.specs.Contacts.{AskedContacts};
    ghost use Rattle.object_settings.specs.Own.{AreTables};

    ghost Value = { AskedContacts };

    ghost view = { λ s. record { blocks = s.blocks.now; asked = s.contacts.now.asked } };

    ghost invariant = { λ s. AreTables s.blocks.now s.contacts.now.blocks s.times s.filters };
}

/// What the blocks have for the directives that say when.
fn times_of<'a>(alloc: Global, templates: &Templates<'a>) -> Result<Times<'a>, AllocError>
    ensures { IfOk result (AreTimes templates.now) }
{
    Ok(Times {
        intervals: values_of(alloc, templates, "notification_interval")?,
        periods: values_of(alloc, templates, "notification_period")?,
        delays: values_of(alloc, templates, "first_notification_delay")?,
    })
}

/// What the blocks have for the directives that say of what.
fn filters_of<'a>(alloc: Global, templates: &Templates<'a>) -> Result<Filters<'a>, AllocError>
    ensures { IfOk result (AreFilters templates.now) }
{
    Ok(Filters {
        options: values_of(alloc, templates, "notification_options")?,
        flags: values_of(alloc, templates, "notifications_enabled")?,
        volatiles: values_of(alloc, templates, "is volatile")?,
    })
}

/// The options that the block at the place has, read once for all blocks that take them from one. `read` is what was
/// read so far, by the places of the blocks that give it.
fn letters_once(
    values: &Values,
    kind: OptionKind,
    read: &mut Vec<Option<OptionLetters>>,
    place: usize,
) -> OptionLetters
    requires { AreRead values.now kind read.old.items }
    ensures read { AreRead values.now kind read.new.items }
    ensures letters { result ≡ letters_at values.now.blocks values.now.directive kind place }
{
    let origin = values.origin(place);
    if let Some(Some(letters)) = read.get(origin) {
        return *letters;
    }
    let letters = letters_at(values, kind, place);
    if origin < read.len() {
        read[origin] = Some(letters);
    }
    letters
}

impl<'a> Tables<'a> {
    /// What the blocks have for these directives, where `contacts` are the contacts that they list.
    pub(crate) fn new(
        alloc: Global,
        templates: &Templates<'a>,
        contacts: &'a ContactListing<'a>,
    ) -> Result<Tables<'a>, AllocError>
        requires { contacts.now.blocks ≡ templates.now }
        ensures { IfOk result (λ tables.
            tables ≡ record { blocks = templates.now; asked = contacts.now.asked }) }
    {
        Ok(Tables {
            blocks: templates.blocks(),
            contacts,
            times: times_of(alloc, templates)?,
            filters: filters_of(alloc, templates)?,
        })
    }

    /// Room for the options that the blocks give, of which none is read.
    pub(crate) fn none_read(&self, alloc: Global) -> Result<Vec<Option<OptionLetters>>, AllocError>
        ensures { IfOk result (λ read. (kind : OptionKind)
            → AreRead (options_of self.now.blocks) kind read.items) }
    {
        vec![in alloc; None; self.blocks.len()]
    }

    /// What the block at the place, whose contacts were asked for, gives, with the name of its objects. `read` is what was
    /// read of the options so far.
    pub(crate) fn own_at(
        &self,
        periods: &Names<'a>,
        kind: OptionKind,
        read: &mut Vec<Option<OptionLetters>>,
        name: &'a [u8],
        place: usize,
    ) -> Own<'a>
        requires asked { IsAsked self.now.asked place }
        requires periods { ArePeriods self.now.blocks periods.now }
        requires read { AreRead (options_of self.now.blocks) kind read.old.items }
        ensures read { AreRead (options_of self.now.blocks) kind read.new.items }
        ensures own { IsOwn self.now.blocks kind name.now place result }
    {
        Own {
            name,
            lacks_contacts: self.contacts.gives_neither(place),
            contacts: self.contacts.contacts_at(place),
            interval: own_number(&self.times.intervals, place),
            period: own_period(periods, &self.times.periods, place),
            options: letters_once(&self.filters.options, kind, read, place),
            enabled: is_on(&self.filters.flags, true, place),
            volatile: is_on(&self.filters.volatiles, false, place),
            delay: number_at(&self.times.delays, 0, place),
        }
    }
}
