//! What escalation blocks give, by themselves or by their templates.

ghost use Rattle.std.specs.Prelude.{◌≡◌, IfOk};
ghost use Rattle.object_escalations.specs.Given.{AreFilters, AreTimes, IsGiven};
ghost use Rattle.object_listing.specs.Contacts.{IsAsked};
ghost use Rattle.object_listing.specs.Periods.{ArePeriods};

use due_model::config::{ContactId, PeriodId};
use due_model::options::OptionLetters;
use object_groups::names::Names;
use object_inheritance::inherited::{Values, values_of};
use object_inheritance::templates::Templates;
use object_listing::contacts::ContactListing;
use object_listing::readings::{letters_at, number_at, own_number, own_period};
use object_reader::block::Block;
use object_values::options::OptionKind;
use std::alloc::{AllocError, Global};
use std::marker::Model;

/// What all blocks have for the directives that are numbers.
#[derive(Drop)]
pub(crate) struct Times<'a> {
    firsts: Values<'a>,
    lasts: Values<'a>,
    intervals: Values<'a>,
}

/// What all blocks have for the directives that say when an escalation holds, and of which states.
#[derive(Drop)]
pub(crate) struct Filters<'a> {
    periods: Values<'a>,
    options: Values<'a>,
}

/// What all blocks have for the directives of escalations. Contracts see the blocks, and the flags of those whose
/// contacts were asked for.
#[derive(Drop)]
pub(crate) struct Tables<'a> {
    blocks: &'a [Block],
    contacts: &'a ContactListing<'a>,
    times: Times<'a>,
    filters: Filters<'a>,
}

impl<'a> Model for Tables<'a> {
    ghost use Rattle.object_escalations.specs.Given.{AreTables};
    ghost use Rattle.object_listing.specs.Contacts.{AskedContacts};

    ghost Value = { AskedContacts };

    ghost view = { λ s. record { blocks = s.blocks.now; asked = s.contacts.now.asked } };

    ghost invariant = { λ s. AreTables s.blocks.now s.contacts.now.blocks s.times s.filters };
}

/// What an escalation block gives, by itself or by its templates.
#[derive(Drop)]
pub(crate) struct Given<'a> {
    /// Whether it gives neither contacts nor contact groups.
    pub(crate) lacks_contacts: bool,
    /// The contacts, each once and in number order.
    pub(crate) contacts: &'a [ContactId],
    pub(crate) first: u32,
    pub(crate) last: u32,
    /// The interval, in units of 60 seconds; none where it has none.
    pub(crate) interval: Option<u32>,
    /// The period; none where it has none, and `Some(None)` is always.
    pub(crate) period: Option<Option<PeriodId>>,
    pub(crate) options: OptionLetters,
}

/// What the blocks have for the directives that are numbers.
fn times_of<'a>(alloc: Global, templates: &Templates<'a>) -> Result<Times<'a>, AllocError>
    ensures { IfOk result (AreTimes templates.now) }
{
    Ok(Times {
        firsts: values_of(alloc, templates, "first_notification")?,
        lasts: values_of(alloc, templates, "last_notification")?,
        intervals: values_of(alloc, templates, "notification_interval")?,
    })
}

/// What the blocks have for the directives that say when an escalation holds, and of which states.
fn filters_of<'a>(alloc: Global, templates: &Templates<'a>) -> Result<Filters<'a>, AllocError>
    ensures { IfOk result (AreFilters templates.now) }
{
    Ok(Filters {
        periods: values_of(alloc, templates, "escalation_period")?,
        options: values_of(alloc, templates, "escalation_options")?,
    })
}

impl<'a> Tables<'a> {
    /// What the blocks have for these directives, where `contacts` are the contacts that they list.
    pub(crate) fn new(
        alloc: Global,
        templates: &Templates<'a>,
        contacts: &'a ContactListing<'a>,
    ) -> Result<Tables<'a>, AllocError>
        requires { contacts.now.blocks ≡ templates.now }
        ensures { IfOk result (λ tables.
            tables ≡ record { blocks = templates.now; asked = contacts.now.asked }) }
    {
        Ok(Tables {
            blocks: templates.blocks(),
            contacts,
            times: times_of(alloc, templates)?,
            filters: filters_of(alloc, templates)?,
        })
    }

    /// What the block at the place, whose contacts were asked for, gives, where its option list is of that kind.
    pub(crate) fn given_at(&self, periods: &Names<'a>, kind: OptionKind, place: usize) -> Given<'a>
        requires asked { IsAsked self.now.asked place }
        requires periods { ArePeriods self.now.blocks periods.now }
        ensures { IsGiven self.now.blocks kind place result }
    {
        Given {
            lacks_contacts: self.contacts.gives_neither(place),
            contacts: self.contacts.contacts_at(place),
            first: number_at(&self.times.firsts, 0, place),
            last: number_at(&self.times.lasts, 0, place),
            interval: own_number(&self.times.intervals, place),
            period: own_period(periods, &self.filters.periods, place),
            options: letters_at(&self.filters.options, kind, place),
        }
    }
}
