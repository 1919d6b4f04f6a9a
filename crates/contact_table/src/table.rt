//! The table, of the contacts of two configurations.

ghost use Rattle.std.specs.Prelude.{◌≡◌, ◌++◌, OnOk};
ghost use Rattle.contact_table.specs.Table.{contact_named, first_row, first_rows, second_row};
ghost use Rattle.contact_table.specs.Table.{second_rows, table_text, told_at, told_to};

use crate::rows::push_row;
use changed_notices::ChangeForm;
use contact_tallies::Tally;
use due_model::config::Contact;
use std::alloc::AllocError;

/// What nobody was told.
const NONE: Tally = Tally {
    pages: 0,
    at_night: 0,
    silence: 0,
};

/// The contacts of a configuration and what they were told, by their numbers.
#[derive(Clone, Copy)]
pub struct ToldBy<'a> {
    pub contacts: &'a [Contact],
    pub tallies: &'a [Tally],
}

/// The number of the contact of this name.
fn find(contacts: &[Contact], name: &[u8]) -> Option<usize>
    ensures { result ≡ contact_named contacts.now name.now }
{
    contacts
        .iter()
        .position(|contact| contact.name.as_slice() == name)
}

/// What the contact of a number was told.
fn told_at(tallies: &[Tally], contact: usize) -> Tally
    ensures { result ≡ told_at tallies.now contact }
{
    match tallies.get(contact) {
        Some(tally) => *tally,
        None => NONE,
    }
}

/// What the contact of this name was told.
fn told_to(told: ToldBy<'_>, name: &[u8]) -> Tally
    ensures { result ≡ told_to told.entry.contacts.now told.entry.tallies.now name.now }
{
    match find(told.contacts, name) {
        Some(contact) => told_at(told.tallies, contact),
        None => NONE,
    }
}

/// Adds the line of the first's contact of a number.
fn push_first(
    form: ChangeForm,
    text: &mut Vec<u8>,
    a: ToldBy<'_>,
    b: ToldBy<'_>,
    number: usize,
) -> Result<(), AllocError>
    ensures { OnOk result (text.new.items ≡ text.old.items
        ++ first_row form a.entry.contacts.now a.entry.tallies.now b.entry.contacts.now
        b.entry.tallies.now number) }
{
    match a.contacts.get(number) {
        Some(contact) => {
            let name = contact.name.as_slice();
            push_row(
                form,
                text,
                name,
                &told_at(a.tallies, number),
                &told_to(b, name),
            )
        }
        None => Ok(()),
    }
}

/// Adds the line of the second's contact of a number, where the first has none of its name.
fn push_second(
    form: ChangeForm,
    text: &mut Vec<u8>,
    a: ToldBy<'_>,
    b: ToldBy<'_>,
    number: usize,
) -> Result<(), AllocError>
    ensures { OnOk result (text.new.items ≡ text.old.items
        ++ second_row form a.entry.contacts.now b.entry.contacts.now b.entry.tallies.now number) }
{
    let Some(contact) = b.contacts.get(number) else {
        return Ok(());
    };
    let name = contact.name.as_slice();
    if find(a.contacts, name).is_some() {
        return Ok(());
    }
    push_row(form, text, name, &NONE, &told_at(b.tallies, number))
}

/// Adds the lines of the first's contacts, so many.
fn push_firsts(
    form: ChangeForm,
    text: &mut Vec<u8>,
    a: ToldBy<'_>,
    b: ToldBy<'_>,
    count: usize,
) -> Result<(), AllocError>
    ensures { OnOk result (text.new.items ≡ text.old.items
        ++ first_rows form a.entry.contacts.now a.entry.tallies.now b.entry.contacts.now
        b.entry.tallies.now count) }
{
    for number in 0..count {
        push_first(form, text, a, b, number)?;
    }
    Ok(())
}

/// Adds those of the second's alone, so many.
fn push_seconds(
    form: ChangeForm,
    text: &mut Vec<u8>,
    a: ToldBy<'_>,
    b: ToldBy<'_>,
    count: usize,
) -> Result<(), AllocError>
    ensures { OnOk result (text.new.items ≡ text.old.items
        ++ second_rows form a.entry.contacts.now b.entry.contacts.now b.entry.tallies.now count) }
{
    for number in 0..count {
        push_second(form, text, a, b, number)?;
    }
    Ok(())
}

/// Adds the table: the contacts of the first configuration, and then those that the second has beside them. A refused growth is
/// the only error.
#[tactic(auto, unfolding(crate::specs::Table::table_text))]
pub fn push_table(
    form: ChangeForm,
    text: &mut Vec<u8>,
    a: ToldBy<'_>,
    b: ToldBy<'_>,
) -> Result<(), AllocError>
    ensures { OnOk result (text.new.items ≡ text.old.items
        ++ table_text form a.entry.contacts.now a.entry.tallies.now b.entry.contacts.now
        b.entry.tallies.now) }
{
    push_firsts(form, text, a, b, a.contacts.len())?;
    push_seconds(form, text, a, b, b.contacts.len())
}
