//! The titles of marks, and the colours of a picture.

ghost use Rattle.std.specs.Prelude.{◌≡◌, ◌++◌, OnOk};
ghost use Rattle.night_picture.specs.Titles.{condition_text, contact_colour, for_contact};
ghost use Rattle.night_picture.specs.Titles.{number_part, receiver_text};
ghost use Rattle.night_picture.specs.Titles.{state_colour, stopped_front, stopped_title, time_text};
ghost use Rattle.night_picture.specs.Titles.{told_title};

use crate::shapes::{push_decimal, push_text};
use due_model::config::{Config, ContactId};
use due_model::notice::{Kind, Notice, Suppression};
use due_model::state::State;
use local_text::push_iso;
use notice_text::names::{filter_name, kind_name, state_name};
use notice_text::texts::{contact_name, lane_name};
use std::alloc::AllocError;
use zone_times::clock::ZoneClock;

/// The colour of a state.
pub(crate) fn state_colour(state: State) -> &'static [u8]
    ensures { result.now ≡ state_colour state }
{
    match state {
        State::Pending => b"#dddddd",
        State::Up => b"#2e9e4f",
        State::Down => b"#d0342c",
        State::Unreachable => b"#e07b39",
        State::Fine => b"#2e9e4f",
        State::Warning => b"#e6b800",
        State::Unknown => b"#e07b39",
        State::Critical => b"#d0342c",
    }
}

/// The colour of a contact, by its number.
#[tactic(auto, unfolding(crate::specs::Titles::contact_colour))]
pub(crate) fn contact_colour(contact: ContactId) -> &'static [u8]
    ensures { result.now ≡ contact_colour contact.0 }
{
    let place = contact.0 % 8;
    if place == 0 {
        b"#1f4e9e"
    } else if place == 1 {
        b"#d9480f"
    } else if place == 2 {
        b"#0b7a75"
    } else if place == 3 {
        b"#9c36b5"
    } else if place == 4 {
        b"#5c4033"
    } else if place == 5 {
        b"#111111"
    } else if place == 6 {
        b"#c2255c"
    } else {
        b"#4dabf7"
    }
}

/// Adds when something is.
#[tactic(auto, unfolding(crate::specs::Titles::time_text))]
fn push_time(text: &mut Vec<u8>, clock: &ZoneClock<'_>, moment: u64) -> Result<(), AllocError>
    ensures { OnOk result (text.new.items ≡ text.old.items ++ time_text clock.now moment) }
{
    push_iso(text, clock, moment)?;
    text.extend_from_slice(b" ")
}

/// Adds what it is of.
#[tactic(auto, unfolding(crate::specs::Titles::condition_text))]
fn push_condition(text: &mut Vec<u8>, kind: Kind, state: State) -> Result<(), AllocError>
    ensures { OnOk result (text.new.items ≡ text.old.items ++ condition_text kind state) }
{
    text.extend_from_slice(kind_name(kind).as_bytes())?;
    text.extend_from_slice(b" ")?;
    text.extend_from_slice(state_name(state).as_bytes())
}

/// Adds the number of the notice, where it has one.
#[tactic(auto, unfolding(crate::specs::Titles::number_part))]
fn push_number(text: &mut Vec<u8>, number: u64) -> Result<(), AllocError>
    ensures { OnOk result (text.new.items ≡ text.old.items ++ number_part number) }
{
    if number == 0 {
        return Ok(());
    }
    text.extend_from_slice(b", notice ")?;
    push_decimal(text, number)
}

/// Adds whom a notice goes to, and how.
#[tactic(auto, unfolding(crate::specs::Titles::receiver_text))]
fn push_receiver(text: &mut Vec<u8>, config: &Config, notice: &Notice) -> Result<(), AllocError>
    ensures { OnOk result (text.new.items ≡ text.old.items ++ receiver_text config.now notice.now) }
{
    text.extend_from_slice(b", to ")?;
    push_text(text, contact_name(config, notice.contact))?;
    text.extend_from_slice(b" by ")?;
    push_text(text, lane_name(config, notice.lane))
}

/// Adds the title of a notice.
#[tactic(auto, unfolding(crate::specs::Titles::told_title))]
pub(crate) fn push_told_title(
    text: &mut Vec<u8>,
    config: &Config,
    clock: &ZoneClock<'_>,
    notice: &Notice,
) -> Result<(), AllocError>
    ensures { OnOk result
        (text.new.items ≡ text.old.items ++ told_title config.now clock.now notice.now) }
{
    push_time(text, clock, notice.moment)?;
    push_condition(text, notice.kind, notice.state)?;
    push_number(text, notice.number)?;
    push_receiver(text, config, notice)
}

/// Adds the filter that stopped something, and when.
#[tactic(auto, unfolding(crate::specs::Titles::stopped_front))]
fn push_stopped_front(
    text: &mut Vec<u8>,
    clock: &ZoneClock<'_>,
    withheld: &Suppression,
) -> Result<(), AllocError>
    ensures { OnOk result
        (text.new.items ≡ text.old.items ++ stopped_front clock.now withheld.now) }
{
    text.extend_from_slice(filter_name(withheld.filter).as_bytes())?;
    text.extend_from_slice(b": ")?;
    push_time(text, clock, withheld.moment)
}

/// Adds for which contact, if it is a contact's filter.
#[tactic(auto, unfolding(crate::specs::Titles::for_contact))]
fn push_for_contact(
    text: &mut Vec<u8>,
    config: &Config,
    contact: Option<ContactId>,
) -> Result<(), AllocError>
    ensures { OnOk result (text.new.items ≡ text.old.items ++ for_contact config.now contact) }
{
    let Some(contact) = contact else {
        return Ok(());
    };
    text.extend_from_slice(b", for ")?;
    push_text(text, contact_name(config, contact))
}

/// Adds the title of a suppression.
#[tactic(auto, unfolding(crate::specs::Titles::stopped_title))]
pub(crate) fn push_stopped_title(
    text: &mut Vec<u8>,
    config: &Config,
    clock: &ZoneClock<'_>,
    withheld: &Suppression,
) -> Result<(), AllocError>
    ensures { OnOk result
        (text.new.items ≡ text.old.items ++ stopped_title config.now clock.now withheld.now) }
{
    push_stopped_front(text, clock, withheld)?;
    push_condition(text, withheld.kind, withheld.state)?;
    push_number(text, withheld.number)?;
    push_for_contact(text, config, withheld.contact)
}
