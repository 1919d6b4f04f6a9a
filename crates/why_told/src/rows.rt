//! The rows of an attempt: when it is and of what, whom it goes to, who is refused, and what stopped it.

ghost use Rattle.std.specs.Prelude.{◌≡◌, ◌++◌, OnOk};
ghost use Rattle.std.specs.Option.{option_copied};
ghost use Rattle.why_told.specs.Rows.{head_text, is_asked, more_row, notice_number, refused_form, refused_of};
ghost use Rattle.why_told.specs.Rows.{refused_row, refused_text, stopped_row, stopped_text, told_form, told_of};
ghost use Rattle.why_told.specs.Rows.{told_row, told_text};

use crate::places::{Places, contact_place, object_place};
use crate::teller::Asked;
use due_model::config::{Config, ContactId};
use due_model::notice::{Kind, Notice, Suppression};
use due_model::state::State;
use filter_values::{push_contact_filter, push_decimal, push_filter_after};
use line_forms::{ReportLine, push_json};
use local_text::push_local;
use messages::entries::Entry;
use notice_text::names::{kind_name, state_name};
use notice_text::texts::{contact_name, lane_name};
use pretty_lines::push_paint;
use std::alloc::{AllocError, Global};
use who_missed::{is_coloured, is_json, push_row_end};
use zone_times::clock::ZoneClock;

/// Adds the number of a notice, where it has one.
fn push_number(text: &mut Vec<u8>, number: u64) -> Result<(), AllocError>
    ensures { OnOk result (text.new.items ≡ text.old.items ++ notice_number number) }
{
    if number == 0 {
        return Ok(());
    }
    text.extend_from_slice(b", notice ")?;
    push_decimal(text, number)
}

/// Adds when an attempt is, and of what.
pub(crate) fn push_head(
    text: &mut Vec<u8>,
    clock: &ZoneClock<'_>,
    moment: u64,
    kind: Kind,
    state: State,
    number: u64,
) -> Result<(), AllocError>
    ensures { OnOk result
        (text.new.items ≡ text.old.items ++ head_text clock.now moment kind state number) }
{
    push_local(text, clock, moment)?;
    text.extend_from_slice(b"  ")?;
    text.extend_from_slice(kind_name(kind).as_bytes())?;
    text.extend_from_slice(b" ")?;
    text.extend_from_slice(state_name(state).as_bytes())?;
    push_number(text, number)?;
    text.extend_from_slice(b"\n")?;
    Ok(())
}

/// Whether something is written of a contact.
pub(crate) fn is_asked(config: &Config, asked: Option<&str>, contact: ContactId) -> bool
    ensures { result ≡ is_asked config.now (option_copied asked.entry) contact.0 }
{
    match asked {
        None => true,
        Some(name) => contact_name(config, contact) == name.as_bytes(),
    }
}

/// Adds whom a notice goes to.
#[tactic(auto, unfolding(crate::specs::Rows::told_row))]
fn push_told_row(text: &mut Vec<u8>, config: &Config, notice: &Notice) -> Result<(), AllocError>
    ensures { OnOk result (text.new.items ≡ text.old.items ++ told_row config.now notice.now) }
{
    text.extend_from_slice(b"    told         ")?;
    text.extend_from_slice(contact_name(config, notice.contact))?;
    text.extend_from_slice(b"  ")?;
    text.extend_from_slice(lane_name(config, notice.lane))
}

/// The same as a row, with its colour.
#[tactic(auto, unfolding(crate::specs::Rows::told_text))]
fn push_told_text(
    text: &mut Vec<u8>,
    coloured: bool,
    config: &Config,
    notice: &Notice,
) -> Result<(), AllocError>
    ensures { OnOk result
        (text.new.items ≡ text.old.items ++ told_text coloured config.now notice.now) }
{
    push_paint(text, coloured, b"32")?;
    push_told_row(text, config, notice)?;
    push_row_end(text, coloured)
}

/// The same in the form that is asked for.
fn push_told_form(
    alloc: Global,
    text: &mut Vec<u8>,
    config: &Config,
    clock: &ZoneClock<'_>,
    asked: Asked<'_>,
    notice: &Notice,
) -> Result<(), AllocError>
    ensures { OnOk result (text.new.items
        ≡ text.old.items ++ told_form asked.entry.form config.now clock.now notice.now) }
{
    if is_json(asked.form) {
        let line = ReportLine::Decided(Entry::Sent(*notice));
        push_json(alloc, text, config, clock, &line)
    } else {
        push_told_text(text, is_coloured(asked.form), config, notice)
    }
}

/// The same, where it is asked for.
pub(crate) fn push_told(
    alloc: Global,
    text: &mut Vec<u8>,
    config: &Config,
    clock: &ZoneClock<'_>,
    asked: Asked<'_>,
    notice: &Notice,
) -> Result<(), AllocError>
    ensures { OnOk result
        (text.new.items ≡ text.old.items ++ told_of asked.entry config.now clock.now notice.now) }
{
    if is_asked(config, asked.contact, notice.contact) {
        push_told_form(alloc, text, config, clock, asked, notice)
    } else {
        Ok(())
    }
}

/// Adds by which filter a contact is refused.
#[tactic(auto, unfolding(crate::specs::Rows::refused_row))]
fn push_refused_row(
    text: &mut Vec<u8>,
    config: &Config,
    withheld: &Suppression,
    contact: ContactId,
) -> Result<(), AllocError>
    ensures { OnOk result (text.new.items
        ≡ text.old.items ++ refused_row config.now withheld.now contact.0) }
{
    text.extend_from_slice(b"    refused      ")?;
    text.extend_from_slice(contact_name(config, contact))?;
    text.extend_from_slice(b"  ")?;
    push_contact_filter(text, config, withheld.object, contact, withheld.filter)?;
    Ok(())
}

/// The same as a row, with its colour.
#[tactic(auto, unfolding(crate::specs::Rows::refused_text))]
fn push_refused_text(
    text: &mut Vec<u8>,
    coloured: bool,
    places: &Places,
    config: &Config,
    withheld: &Suppression,
    contact: ContactId,
) -> Result<(), AllocError>
    ensures { OnOk result (text.new.items ≡ text.old.items
        ++ refused_text coloured places.now config.now withheld.now contact.0) }
{
    push_paint(text, coloured, b"33")?;
    push_refused_row(text, config, withheld, contact)?;
    places.push(text, contact_place(contact, withheld.filter))?;
    push_row_end(text, coloured)
}

/// The same in the form that is asked for.
fn push_refused_form(
    alloc: Global,
    text: &mut Vec<u8>,
    config: &Config,
    clock: &ZoneClock<'_>,
    asked: Asked<'_>,
    withheld: &Suppression,
    contact: ContactId,
) -> Result<(), AllocError>
    ensures { OnOk result (text.new.items ≡ text.old.items
        ++ refused_form asked.entry config.now clock.now withheld.now contact.0) }
{
    if is_json(asked.form) {
        let line = ReportLine::Decided(Entry::Withheld(*withheld));
        push_json(alloc, text, config, clock, &line)
    } else {
        let coloured = is_coloured(asked.form);
        push_refused_text(text, coloured, asked.places, config, withheld, contact)
    }
}

/// The same, where it is asked for.
pub(crate) fn push_refused(
    alloc: Global,
    text: &mut Vec<u8>,
    config: &Config,
    clock: &ZoneClock<'_>,
    asked: Asked<'_>,
    withheld: &Suppression,
    contact: ContactId,
) -> Result<(), AllocError>
    ensures { OnOk result (text.new.items ≡ text.old.items
        ++ refused_of asked.entry config.now clock.now withheld.now contact.0) }
{
    if is_asked(config, asked.contact, contact) {
        push_refused_form(alloc, text, config, clock, asked, withheld, contact)
    } else {
        Ok(())
    }
}

/// Adds by which filter the object is stopped.
#[tactic(auto, unfolding(crate::specs::Rows::stopped_row))]
fn push_stopped_row(
    text: &mut Vec<u8>,
    config: &Config,
    stop: &Suppression,
) -> Result<(), AllocError>
    ensures { OnOk result (text.new.items ≡ text.old.items ++ stopped_row config.now stop.now) }
{
    push_filter_after(text, b"    stopped      ", config, stop.object, stop.filter)
}

/// The same as a row, with its colour.
#[tactic(auto, unfolding(crate::specs::Rows::stopped_text))]
pub(crate) fn push_stopped_text(
    text: &mut Vec<u8>,
    coloured: bool,
    places: &Places,
    config: &Config,
    stop: &Suppression,
) -> Result<(), AllocError>
    ensures { OnOk result
        (text.new.items ≡ text.old.items ++ stopped_text coloured places.now config.now stop.now) }
{
    push_paint(text, coloured, b"31")?;
    push_stopped_row(text, config, stop)?;
    places.push(text, object_place(stop.filter))?;
    push_row_end(text, coloured)
}

/// Adds how a row of what a filter stopped went on.
pub(crate) fn push_more(
    text: &mut Vec<u8>,
    clock: &ZoneClock<'_>,
    moment: u64,
    more: u64,
) -> Result<(), AllocError>
    ensures { OnOk result (text.new.items ≡ text.old.items ++ more_row clock.now moment more) }
{
    text.extend_from_slice(b"    and again    ")?;
    push_decimal(text, more)?;
    text.extend_from_slice(b" times, up to ")?;
    push_local(text, clock, moment)?;
    text.extend_from_slice(b"\n")?;
    Ok(())
}
