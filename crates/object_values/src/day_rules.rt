//! The days that the names of lines of dates say (chapter "Time Periods", "Time Range Exceptions").

ghost use Rattle.std.specs.Prelude.{◌≡◌, ℕ, ◌≤◌, ◌==◌, not, pos, length, nat_le, Some, None};
ghost use Rattle.std.specs.Prelude.{if◌then◌else◌};
ghost use Rattle.std.specs.Option.{option_map};
ghost use Rattle.due_model.specs.declared.config.DayRule.TheVariants.{OfEachMonth, OfMonth};
ghost use Rattle.due_model.specs.declared.config.DayRule.TheVariants.{WeekdayOfEachMonth};
ghost use Rattle.due_model.specs.declared.config.DayRule.TheVariants.{WeekdayOfMonth};
ghost use Rattle.object_values.specs.claims.DayRules.{back_from, by_month, by_weekday, counted_in, date_in};
ghost use Rattle.object_values.specs.claims.DayRules.{date_of, day_named, of_weekday, part_in, ruled, signed_in};
ghost use Rattle.object_values.specs.claims.DayRules.{year_in};

use crate::ranges::{after, before, month_of, weekday_of};
use crate::values::{are_digits, equals, number_in};
use due_model::config::DayRule;
use object_reader::day_line::begins_with_digit;

/// What the name of a line of dates says.
#[derive(Clone, Copy, Debug, PartialEq, Eq)]
pub enum DayName {
    /// The days of a rule.
    Day(DayRule),
    /// A day, a place or a month with a number that none has.
    NoDay,
    /// Something else: a range of days, a step, or no day at all.
    Other,
}

/// The number that digits write, from 1 to the most; 0 where it is none of these.
fn counted_in(text: &[u8], most: u8) -> Option<u8>
    ensures { result ≡ counted_in most text.now }
{
    if text.is_empty() || !are_digits(text) {
        return None;
    }
    match number_in(text) {
        Some(number) if number <= u32::from(most) => Some(number as u8),
        _ => Some(0),
    }
}

/// So many from the end.
fn back_from(number: u8) -> i8
    requires { number ≤ 31 }
    ensures { result ≡ back_from number }
{
    -(number as i8)
}

/// The same with a minus sign, which counts from the end.
fn signed_in(text: &[u8], most: u8) -> Option<i8>
    requires { most ≤ 31 }
    ensures { result ≡ signed_in most text.now }
{
    match text {
        [] => None,
        [b'-', rest @ ..] => Some(back_from(counted_in(rest, most)?)),
        _ => Some(counted_in(text, most)? as i8),
    }
}

/// A day of each month.
fn of_each_month(day: Option<i8>) -> DayName
    ensures { result ≡ ruled (λ day. OfEachMonth day) day }
{
    match day {
        None => DayName::Other,
        Some(0) => DayName::NoDay,
        Some(day) => DayName::Day(DayRule::OfEachMonth { day }),
    }
}

/// A day of one month.
fn of_month(month: u8, day: Option<i8>) -> DayName
    ensures { result ≡ ruled (λ day. OfMonth month day) day }
{
    match day {
        None => DayName::Other,
        Some(0) => DayName::NoDay,
        Some(day) => DayName::Day(DayRule::OfMonth { month, day }),
    }
}

/// A weekday at a place in each month.
fn weekday_of_each_month(weekday: u8, place: Option<i8>) -> DayName
    ensures { result ≡ ruled (λ n. WeekdayOfEachMonth weekday n) place }
{
    match place {
        None => DayName::Other,
        Some(0) => DayName::NoDay,
        Some(place) => DayName::Day(DayRule::WeekdayOfEachMonth { weekday, place }),
    }
}

/// A weekday at a place in one month.
fn weekday_of_month(weekday: u8, month: u8, place: Option<i8>) -> DayName
    ensures { result ≡ ruled (λ n. WeekdayOfMonth weekday n month) place }
{
    match place {
        None => DayName::Other,
        Some(0) => DayName::NoDay,
        Some(place) => DayName::Day(DayRule::WeekdayOfMonth {
            weekday,
            place,
            month,
        }),
    }
}

/// What a place among the days of a weekday says, of a month or of each.
fn of_weekday(weekday: u8, place: &[u8], month: &[u8]) -> DayName
    ensures { result ≡ of_weekday weekday place.now month.now }
{
    let number = signed_in(place, 5);
    if month.is_empty() {
        return weekday_of_each_month(weekday, number);
    }
    match month_of(month) {
        None => DayName::Other,
        Some(month) => weekday_of_month(weekday, month, number),
    }
}

/// A part of a date, of one digit or two.
fn part_in(text: &[u8], most: u8) -> Option<u8>
    ensures { result ≡ part_in most text.now }
{
    if text.len() <= 2 {
        counted_in(text, most)
    } else {
        None
    }
}

/// A year, of four digits.
fn year_in(text: &[u8]) -> Option<i16>
    ensures { result ≡ year_in text.now }
{
    if text.len() != 4 {
        return None;
    }
    let year = number_in(text)?;
    if year <= 9999 {
        Some(year as i16)
    } else {
        Some(0)
    }
}

/// The date of this year, month and day, if all are there.
fn date_of(year: Option<i16>, month: Option<u8>, day: Option<u8>) -> DayName
    ensures { result ≡ date_of year month day }
{
    match (year, month, day) {
        (Some(year), Some(month), Some(day)) => {
            if month == 0 || day == 0 {
                DayName::NoDay
            } else {
                DayName::Day(DayRule::Date { year, month, day })
            }
        }
        _ => DayName::Other,
    }
}

/// The date that a text is: a year, a month and a day, with a dash between each two.
fn date_in(text: &[u8]) -> DayName
    ensures { result ≡ date_in text.now }
{
    let first = before(text, b'-');
    let rest = after(text, b'-');
    let second = before(rest, b'-');
    let last = after(rest, b'-');
    let year = year_in(first);
    let month = part_in(second, 12);
    let day = part_in(last, 31);
    date_of(year, month, day)
}

/// What a name says that begins with this weekday, if it is one.
fn by_weekday(weekday: Option<u8>, rest: &[u8]) -> DayName
    ensures { result ≡ by_weekday weekday rest.now }
{
    match weekday {
        None => DayName::Other,
        Some(weekday) => of_weekday(weekday, before(rest, b' '), after(rest, b' ')),
    }
}

/// What a name says that begins with this month, if its first word is one.
fn by_month(month: Option<u8>, first: &[u8], rest: &[u8]) -> DayName
    ensures { result ≡ by_month month first.now rest.now }
{
    match month {
        None => by_weekday(weekday_of(first), rest),
        Some(month) => of_month(month, signed_in(rest, 31)),
    }
}

/// What the name of a line of dates says, whose words have one space between each two: the day of one date, a day of a
/// month or of each, the n-th weekday of a month or of each; a number that no day, place or month has; or something else.
#[tactic(auto, unfolding(crate::specs::claims::DayRules::day_named))]
pub fn day_named(name: &[u8]) -> DayName
    ensures { result ≡ day_named name.now }
{
    let first = before(name, b' ');
    let rest = after(name, b' ');
    if begins_with_digit(name) {
        return if rest.is_empty() {
            date_in(first)
        } else {
            DayName::Other
        };
    }
    if equals(first, "day") {
        return of_each_month(signed_in(rest, 31));
    }
    by_month(month_of(first), first, rest)
}
