//! The values that a block has: its own, or those that it takes from a template.

ghost use Rattle.std.specs.Prelude.{◌≡◌, ◌≤◌, length};
ghost use Rattle.due_model.specs.claims.Limits.{max_periods};
ghost use Rattle.object_listing.specs.claims.Readings.{is_on, letters_at, letters_or, number_at};
ghost use Rattle.object_listing.specs.claims.Readings.{own_number};
ghost use Rattle.object_listing.specs.claims.Readings.{own_period};
ghost use Rattle.object_listing.specs.claims.Readings.{own_states, period_at, period_named};

use due_model::config::PeriodId;
use due_model::options::OptionLetters;
use due_model::state::StateSet;
use object_groups::names::Names;
use object_inheritance::inherited::Values;
use object_values::options::{CriteriaKind, OptionKind, criteria_in, options_in};
use object_values::values::number_in;

/// The number that the block at the place has for the directive of the values, of 0 to 1,000,000; none where it has none,
/// or what it has is no number.
pub fn own_number(values: &Values, place: usize) -> Option<u32>
    ensures { result ≡ own_number values.now.blocks values.now.directive place }
{
    match values.value(place) {
        None => None,
        Some(text) => number_in(text),
    }
}

/// The same, and `other` where it has none.
pub fn number_at(values: &Values, other: u32, place: usize) -> u32
    ensures { result ≡ number_at values.now.blocks values.now.directive other place }
{
    match own_number(values, place) {
        None => other,
        Some(number) => number,
    }
}

/// Whether the flag that the block at the place has for the directive of the values is on: it is a number other than 0.
/// Where it has none it is as by default.
pub fn is_on(values: &Values, by_default: bool, place: usize) -> bool
    ensures { result ≡ is_on values.now.blocks values.now.directive by_default place }
{
    match own_number(values, place) {
        None => by_default,
        Some(number) => number != 0,
    }
}

/// The notification options that the block at the place has for the directive of the values, which is a list of that
/// kind; every letter where it has none, or the list has a word that is no option (chapter "Notifications").
pub fn letters_at(values: &Values, kind: OptionKind, place: usize) -> OptionLetters
    ensures { result ≡ letters_at values.now.blocks values.now.directive kind place }
{
    letters_or(values, kind, OptionLetters::ALL, place)
}

/// The same, and `unlisted` where it has none, or the list has a word that is no option.
pub fn letters_or(
    values: &Values,
    kind: OptionKind,
    unlisted: OptionLetters,
    place: usize,
) -> OptionLetters
    ensures { result ≡ letters_or values.now.blocks values.now.directive kind unlisted place }
{
    let Some(text) = values.value(place) else {
        return unlisted;
    };
    match options_in(kind, text) {
        None => unlisted,
        Some(letters) => letters,
    }
}

/// The states that the failure criteria name which the block at the place has for the directive of the values. `None` where
/// it has none, or they have a word that is no state; criteria with `n`, or without entries, are given and
/// name no state (chapter "Host and Service Dependencies").
pub fn own_states(values: &Values, kind: CriteriaKind, place: usize) -> Option<StateSet>
    ensures { result ≡ own_states values.now.blocks values.now.directive kind place }
{
    match values.value(place) {
        None => None,
        Some(text) => criteria_in(kind, text),
    }
}

/// The period of that name; `None`, which is always, where the name is empty, or no period has it.
fn period_named<'a>(periods: &Names<'a>, name: &'a [u8]) -> Option<PeriodId>
    requires { length periods.now ≤ max_periods }
    ensures { result ≡ period_named periods.now name.now }
{
    if name.is_empty() {
        return None;
    }
    match periods.find(name) {
        None => None,
        Some(number) => Some(PeriodId(number as u16)),
    }
}

/// The period that the block at the place has for the directive of the values: `None` where it doesn't say, `Some(None)`
/// where it says always, by `null` (chapter "Time Periods").
pub fn own_period<'a>(
    periods: &Names<'a>,
    values: &Values<'a>,
    place: usize,
) -> Option<Option<PeriodId>>
    requires { length periods.now ≤ max_periods }
    ensures { result ≡ own_period periods.now values.now.blocks values.now.directive place }
{
    match values.name(place) {
        None => None,
        Some(name) => Some(period_named(periods, name)),
    }
}

/// The same, and always where it doesn't say; `None` is always.
pub fn period_at<'a>(periods: &Names<'a>, values: &Values<'a>, place: usize) -> Option<PeriodId>
    requires { length periods.now ≤ max_periods }
    ensures { result ≡ period_at periods.now values.now.blocks values.now.directive place }
{
    match own_period(periods, values, place) {
        None => None,
        Some(period) => period,
    }
}
