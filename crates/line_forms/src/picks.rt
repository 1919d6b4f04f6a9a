//! Which lines of a report are wanted.

ghost use Rattle.std.specs.Prelude.{◌≡◌, ◌==◌, IfOk, IfSome, Some};
ghost use Rattle.std.specs.Option.{option_copied};
ghost use Rattle.std.specs.List.{list_any};
ghost use Rattle.line_forms.specs.Picks.{has_letter, is_of_contact};
ghost use Rattle.line_forms.specs.Picks.{is_of_object, is_picked, letter_of, line_contact};
ghost use Rattle.line_forms.specs.Picks.{line_object};

use crate::report_line::ReportLine;
use due_model::config::{Config, ContactId, ObjectId};
use messages::entries::Entry;
use notice_text::texts::{contact_name, push_object};
use std::alloc::{AllocError, Global};

/// Which lines of a report are wanted: those that meet each condition that is given.
#[derive(Clone, Copy, Debug)]
pub struct Picks<'a> {
    /// Its letter, N, S, C or R, is one of these.
    pub only: Option<&'a str>,
    /// It tells of the object of this name: `host` or `host/service`.
    pub object: Option<&'a str>,
    /// It tells of the contact of this name: a notice to it, or that it was refused.
    pub contact: Option<&'a str>,
}

impl Picks<'_> {
    /// Whether a line is wanted. A refused growth is the only error.
    pub fn is_picked(
        &self,
        alloc: Global,
        config: &Config,
        line: &ReportLine,
    ) -> Result<bool, AllocError>
        ensures { IfOk result (λ picked. picked ≡ is_picked self.now config.now line.now) }
    {
        let is_of_both = has_letter(self.only, letter_of(line))
            && is_of_contact(config, self.contact, line);
        let is_of_object = is_of_object(alloc, config, self.object, line)?;
        Ok(is_of_both && is_of_object)
    }
}

/// The letter of a line.
fn letter_of(line: &ReportLine) -> u8
    ensures { result ≡ letter_of line.now }
{
    match line {
        ReportLine::Decided(Entry::Sent(_)) => b'N',
        ReportLine::Decided(Entry::Withheld(suppression)) => match suppression.contact {
            None => b'S',
            Some(_) => b'C',
        },
        ReportLine::Refused(_) => b'R',
    }
}

/// Whether a letter is one of these.
fn is_among(letters: &str, letter: u8) -> bool
    ensures { result ≡ list_any (λ byte. byte == letter) letters.now }
{
    letters.as_bytes().iter().any(|byte| *byte == letter)
}

/// Whether a letter is one of these, if any are given.
fn has_letter(only: Option<&str>, letter: u8) -> bool
    ensures { result ≡ has_letter (option_copied only.entry) letter }
{
    let Some(letters) = only else {
        return true;
    };
    is_among(letters, letter)
}

/// The object that a line tells of.
fn line_object(line: &ReportLine) -> Option<ObjectId>
    ensures { result ≡ line_object line.now }
{
    match line {
        ReportLine::Decided(Entry::Sent(notice)) => Some(notice.object),
        ReportLine::Decided(Entry::Withheld(suppression)) => Some(suppression.object),
        ReportLine::Refused(_) => None,
    }
}

/// The contact that a line tells of.
fn line_contact(line: &ReportLine) -> Option<ContactId>
    ensures { result ≡ line_contact line.now }
{
    match line {
        ReportLine::Decided(Entry::Sent(notice)) => Some(notice.contact),
        ReportLine::Decided(Entry::Withheld(suppression)) => suppression.contact,
        ReportLine::Refused(_) => None,
    }
}

/// Whether a line tells of the object of this name, if one is given. A refused growth is the only error.
fn is_of_object(
    alloc: Global,
    config: &Config,
    name: Option<&str>,
    line: &ReportLine,
) -> Result<bool, AllocError>
    ensures { IfOk result (λ is. is ≡ is_of_object config.now (option_copied name.entry) line.now) }
{
    let Some(name) = name else {
        return Ok(true);
    };
    let Some(object) = line_object(line) else {
        return Ok(false);
    };
    let mut text = Vec::new(alloc);
    push_object(&mut text, config, object)?;
    Ok(text.as_slice() == name.as_bytes())
}

/// Whether a line tells of the contact of this name, if one is given.
fn is_of_contact(config: &Config, name: Option<&str>, line: &ReportLine) -> bool
    ensures { result ≡ is_of_contact config.now (option_copied name.entry) line.now }
{
    let Some(name) = name else {
        return true;
    };
    match line_contact(line) {
        None => false,
        Some(contact) => contact_name(config, contact) == name.as_bytes(),
    }
}
