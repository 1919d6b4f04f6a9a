//! The filters of an object and of a contact, each with the value of the configuration that it goes by.

ghost use Rattle.std.specs.Prelude.{◌≡◌, ◌++◌, decimal, flat_map, is_some, OnOk};
ghost use Rattle.std.specs.List.{range_with_len};
ghost use Rattle.due_model.specs.claims.Receivers.{rights_for};
ghost use Rattle.filter_values.specs.Values.{contact_filter_text, contact_value, filter_at, filter_text};
ghost use Rattle.filter_values.specs.Values.{daemons_filter_at, filter_count, own_filter_at, placed};
ghost use Rattle.filter_values.specs.Values.{host_letters, letter_text, letters_text, other_letters, passed_at, passed_text, period_name, period_text, service_letters};
ghost use Rattle.filter_values.specs.Values.{contact_period_of, object_value, period_of, place_of, right_of, right_period};
ghost use Rattle.filter_values.specs.Values.{value_of};

use due_model::config::{Choices, Config, Contact, ContactId, Object, ObjectId, PeriodId, Rights};
use due_model::notice::Filter;
use due_model::options::OptionLetters;
use itoa::Buffer;
use notice_text::names::filter_name;
use std::alloc::AllocError;

/// How many filters of an object are tried: that which asks for the host of a service is one where it can fail.
pub fn filter_count(choices: Choices) -> usize
    ensures { result ≡ filter_count choices }
{
    if choices.host_down { 12 } else { 11 }
}

/// A place in the order in which filters are tried, or in the daemon's.
fn placed(choices: Choices, own: usize, daemons: usize) -> usize
    ensures { result ≡ placed choices own daemons }
{
    if choices.order { daemons } else { own }
}

/// How many filters of an object are tried before this one; before those of a contact all of them are.
pub fn place_of(choices: Choices, filter: Filter) -> usize
    ensures { result ≡ place_of choices filter }
{
    match filter {
        Filter::Program => 0,
        Filter::Disabled => placed(choices, 1, 2),
        Filter::Downtime => placed(choices, 2, 9),
        Filter::Flapping => placed(choices, 3, 8),
        Filter::Options => placed(choices, 4, 5),
        Filter::NoProblem => placed(choices, 5, 6),
        Filter::Period => placed(choices, 6, 1),
        Filter::Dependency => placed(choices, 7, 4),
        Filter::Acknowledged => placed(choices, 8, 3),
        Filter::FirstDelay => placed(choices, 9, 7),
        Filter::Interval => 10,
        Filter::HostDown => 11,
        Filter::ContactDisabled => filter_count(choices),
        Filter::ContactOptions => filter_count(choices),
        Filter::ContactPeriod => filter_count(choices),
        Filter::ContactNotTold => filter_count(choices),
    }
}

/// The filter of an object at a place.
fn own_filter_at(place: usize) -> Filter
    ensures { result ≡ own_filter_at place }
{
    if place == 0 {
        Filter::Program
    } else if place == 1 {
        Filter::Disabled
    } else if place == 2 {
        Filter::Downtime
    } else if place == 3 {
        Filter::Flapping
    } else if place == 4 {
        Filter::Options
    } else if place == 5 {
        Filter::NoProblem
    } else if place == 6 {
        Filter::Period
    } else if place == 7 {
        Filter::Dependency
    } else if place == 8 {
        Filter::Acknowledged
    } else if place == 9 {
        Filter::FirstDelay
    } else if place == 10 {
        Filter::Interval
    } else {
        Filter::HostDown
    }
}

/// The same in the daemon's order.
fn daemons_filter_at(place: usize) -> Filter
    ensures { result ≡ daemons_filter_at place }
{
    if place == 0 {
        Filter::Program
    } else if place == 1 {
        Filter::Period
    } else if place == 2 {
        Filter::Disabled
    } else if place == 3 {
        Filter::Acknowledged
    } else if place == 4 {
        Filter::Dependency
    } else if place == 5 {
        Filter::Options
    } else if place == 6 {
        Filter::NoProblem
    } else if place == 7 {
        Filter::FirstDelay
    } else if place == 8 {
        Filter::Flapping
    } else if place == 9 {
        Filter::Downtime
    } else if place == 10 {
        Filter::Interval
    } else {
        Filter::HostDown
    }
}

/// The filter of an object at a place, in the order that is chosen.
pub(crate) fn filter_at(choices: Choices, place: usize) -> Filter
    ensures { result ≡ filter_at choices place }
{
    if choices.order {
        daemons_filter_at(place)
    } else {
        own_filter_at(place)
    }
}

/// Adds a number in decimal digits. A refused growth is the only error.
pub fn push_decimal(text: &mut Vec<u8>, number: u64) -> Result<(), AllocError>
    ensures { OnOk result (text.new.items ≡ text.old.items ++ decimal number) }
{
    let mut buffer = Buffer::new();
    text.extend_from_slice(buffer.format(number).as_bytes())
}

/// Adds a number of minutes after a name.
fn push_minutes(text: &mut Vec<u8>, name: &[u8], minutes: u32) -> Result<(), AllocError>
    ensures { OnOk result (text.new.items ≡ text.old.items ++ (name.now ++ decimal minutes)) }
{
    text.extend_from_slice(name)?;
    push_decimal(text, u64::from(minutes))
}

/// Adds a letter, where it is in the set.
fn push_letter(text: &mut Vec<u8>, given: bool, letter: &[u8]) -> Result<(), AllocError>
    ensures { OnOk result (text.new.items ≡ text.old.items ++ letter_text given letter.now) }
{
    if given {
        text.extend_from_slice(letter)
    } else {
        Ok(())
    }
}

/// Adds the letters of a set that are of problems of services.
#[tactic(auto, unfolding(crate::specs::Values::service_letters))]
fn push_service_letters(text: &mut Vec<u8>, letters: OptionLetters) -> Result<(), AllocError>
    ensures { OnOk result (text.new.items ≡ text.old.items ++ service_letters letters) }
{
    push_letter(text, letters.warning, b" w")?;
    push_letter(text, letters.unknown, b" u")?;
    push_letter(text, letters.critical, b" c")
}

/// Adds those of problems of hosts.
#[tactic(auto, unfolding(crate::specs::Values::host_letters))]
fn push_host_letters(text: &mut Vec<u8>, letters: OptionLetters) -> Result<(), AllocError>
    ensures { OnOk result (text.new.items ≡ text.old.items ++ host_letters letters) }
{
    push_letter(text, letters.down, b" d")?;
    push_letter(text, letters.unreachable, b" u")
}

/// Adds those of other kinds.
#[tactic(auto, unfolding(crate::specs::Values::other_letters))]
fn push_other_letters(text: &mut Vec<u8>, letters: OptionLetters) -> Result<(), AllocError>
    ensures { OnOk result (text.new.items ≡ text.old.items ++ other_letters letters) }
{
    push_letter(text, letters.recovery, b" r")?;
    push_letter(text, letters.flapping, b" f")?;
    push_letter(text, letters.downtime, b" s")
}

/// Adds the letters of a set that such an object can have.
#[tactic(auto, unfolding(crate::specs::Values::letters_text))]
fn push_letters(text: &mut Vec<u8>, service: bool, letters: OptionLetters) -> Result<(), AllocError>
    ensures { OnOk result (text.new.items ≡ text.old.items ++ letters_text service letters) }
{
    if service {
        push_service_letters(text, letters)?;
    } else {
        push_host_letters(text, letters)?;
    }
    push_other_letters(text, letters)
}

/// Adds the same after a name.
fn push_options(
    text: &mut Vec<u8>,
    name: &[u8],
    service: bool,
    letters: OptionLetters,
) -> Result<(), AllocError>
    ensures { OnOk result
        (text.new.items ≡ text.old.items ++ (name.now ++ letters_text service letters)) }
{
    text.extend_from_slice(name)?;
    push_letters(text, service, letters)
}

/// The name of a period; empty for a number that no period has.
fn period_name(config: &Config, period: PeriodId) -> &[u8]
    ensures { result.now ≡ period_name config.now period.0 }
{
    match config.periods.as_slice().get(usize::from(period.0)) {
        Some(period) => period.name.as_slice(),
        None => b"",
    }
}

/// Adds the name of a period, or that there is none.
fn push_period(
    text: &mut Vec<u8>,
    config: &Config,
    period: Option<PeriodId>,
) -> Result<(), AllocError>
    ensures { OnOk result (text.new.items ≡ text.old.items ++ period_text config.now period) }
{
    match period {
        None => text.extend_from_slice(b" none"),
        Some(period) => {
            text.extend_from_slice(b" ")?;
            text.extend_from_slice(period_name(config, period))
        }
    }
}

/// Adds what an object has for a filter.
fn push_value(
    text: &mut Vec<u8>,
    config: &Config,
    object: &Object,
    filter: Filter,
) -> Result<(), AllocError>
    ensures { OnOk result
        (text.new.items ≡ text.old.items ++ value_of config.now object.now filter) }
{
    match filter {
        Filter::Options => {
            let service = object.host.is_some();
            push_options(text, b" notification_options", service, object.options)
        }
        Filter::Period => {
            text.extend_from_slice(b" notification_period")?;
            push_period(text, config, object.period)
        }
        Filter::FirstDelay => { push_minutes(text, b" first_notification_delay ", object.delay) }
        Filter::Interval => { push_minutes(text, b" notification_interval ", object.interval) }
        _ => Ok(()),
    }
}

/// Adds what the object of a number has for a filter.
fn push_object_value(
    text: &mut Vec<u8>,
    config: &Config,
    object: ObjectId,
    filter: Filter,
) -> Result<(), AllocError>
    ensures { OnOk result
        (text.new.items ≡ text.old.items ++ object_value config.now object.0 filter) }
{
    match config.objects.as_slice().get(usize::from(object.0)) {
        Some(object) => push_value(text, config, object, filter),
        None => Ok(()),
    }
}

/// Adds a filter of an object, with its value.
#[tactic(auto, unfolding(crate::specs::Values::filter_text))]
pub(crate) fn push_filter(
    text: &mut Vec<u8>,
    config: &Config,
    object: ObjectId,
    filter: Filter,
) -> Result<(), AllocError>
    ensures { OnOk result
        (text.new.items ≡ text.old.items ++ filter_text config.now object.0 filter) }
{
    text.extend_from_slice(filter_name(filter).as_bytes())?;
    push_object_value(text, config, object, filter)
}

/// The same after a text. A refused growth is the only error.
pub fn push_filter_after(
    text: &mut Vec<u8>,
    front: &[u8],
    config: &Config,
    object: ObjectId,
    filter: Filter,
) -> Result<(), AllocError>
    ensures { OnOk result (text.new.items
        ≡ text.old.items ++ (front.now ++ filter_text config.now object.0 filter)) }
{
    text.extend_from_slice(front)?;
    push_filter(text, config, object, filter)
}

/// Adds what a contact has for a filter.
fn push_right(
    text: &mut Vec<u8>,
    config: &Config,
    service: bool,
    rights: &Rights,
    filter: Filter,
) -> Result<(), AllocError>
    ensures { OnOk result
        (text.new.items ≡ text.old.items ++ right_of config.now service rights.now filter) }
{
    match filter {
        Filter::ContactOptions => {
            push_options(text, b" notification_options", service, rights.options)
        }
        Filter::ContactPeriod => {
            text.extend_from_slice(b" notification_period")?;
            push_period(text, config, rights.period)
        }
        _ => Ok(()),
    }
}

/// What a contact is notified of, for the kind of an object.
fn rights_for<'a>(object: &Object, contact: &'a Contact) -> &'a Rights
    ensures { result.now ≡ rights_for object.now contact.now }
{
    if object.host.is_some() {
        &contact.services
    } else {
        &contact.hosts
    }
}

/// Adds what a contact has for a filter, for such an object.
fn push_contact_value(
    text: &mut Vec<u8>,
    config: &Config,
    object: ObjectId,
    contact: ContactId,
    filter: Filter,
) -> Result<(), AllocError>
    ensures { OnOk result (text.new.items
        ≡ text.old.items ++ contact_value config.now object.0 contact.0 filter) }
{
    let Some(object) = config.objects.as_slice().get(usize::from(object.0)) else {
        return Ok(());
    };
    match config.contacts.as_slice().get(usize::from(contact.0)) {
        Some(contact) => {
            let service = object.host.is_some();
            push_right(text, config, service, rights_for(object, contact), filter)
        }
        None => Ok(()),
    }
}

/// Adds a filter of a contact, with its value for such an object. A refused growth is the only error.
pub fn push_contact_filter(
    text: &mut Vec<u8>,
    config: &Config,
    object: ObjectId,
    contact: ContactId,
    filter: Filter,
) -> Result<(), AllocError>
    ensures { OnOk result (text.new.items
        ≡ text.old.items ++ contact_filter_text config.now object.0 contact.0 filter) }
{
    text.extend_from_slice(filter_name(filter).as_bytes())?;
    push_contact_value(text, config, object, contact, filter)
}

/// The period that a filter of an object goes by; none of those that go by none.
pub fn period_of(config: &Config, object: ObjectId, filter: Filter) -> Option<PeriodId>
    ensures { result ≡ period_of config.now object.0 filter }
{
    match filter {
        Filter::Period => match config.objects.as_slice().get(usize::from(object.0)) {
            Some(object) => object.period,
            None => None,
        },
        _ => None,
    }
}

/// The period in which a contact is notified, for such an object.
fn right_period(config: &Config, object: ObjectId, contact: ContactId) -> Option<PeriodId>
    ensures { result ≡ right_period config.now object.0 contact.0 }
{
    let Some(object) = config.objects.as_slice().get(usize::from(object.0)) else {
        return None;
    };
    match config.contacts.as_slice().get(usize::from(contact.0)) {
        Some(contact) => rights_for(object, contact).period,
        None => None,
    }
}

/// The period that a filter of a contact goes by, for such an object; none of those that go by none.
pub fn contact_period_of(
    config: &Config,
    object: ObjectId,
    contact: ContactId,
    filter: Filter,
) -> Option<PeriodId>
    ensures { result ≡ contact_period_of config.now object.0 contact.0 filter }
{
    match filter {
        Filter::ContactPeriod => right_period(config, object, contact),
        _ => None,
    }
}

/// Adds the filter of an object at a place, after a comma where it isn't the first.
fn push_passed_at(
    text: &mut Vec<u8>,
    config: &Config,
    object: ObjectId,
    place: usize,
) -> Result<(), AllocError>
    ensures { OnOk result
        (text.new.items ≡ text.old.items ++ passed_at config.now object.0 place) }
{
    let filter = filter_at(config.choices, place);
    if place == 0 {
        push_filter_after(text, b"    passed       ", config, object, filter)
    } else {
        push_filter_after(text, b", ", config, object, filter)
    }
}

/// Adds the first filters of an object.
fn push_first_passed(
    text: &mut Vec<u8>,
    config: &Config,
    object: ObjectId,
    count: usize,
) -> Result<(), AllocError>
    ensures { OnOk result (text.new.items ≡ text.old.items
        ++ flat_map (passed_at config.now object.0) (range_with_len 0 count)) }
{
    for place in 0..count {
        push_passed_at(text, config, object, place)?;
    }
    Ok(())
}

/// Adds those that passed as a line of text: the first ones, so many; nothing, where none did. A refused growth is the only error.
pub fn push_passed(
    text: &mut Vec<u8>,
    config: &Config,
    object: ObjectId,
    count: usize,
) -> Result<(), AllocError>
    ensures { OnOk result
        (text.new.items ≡ text.old.items ++ passed_text config.now object.0 count) }
{
    if count == 0 {
        return Ok(());
    }
    push_first_passed(text, config, object, count)?;
    text.extend_from_slice(b"\n")
}
