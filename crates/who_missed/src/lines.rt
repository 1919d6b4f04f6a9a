//! What a line of a report is of.

ghost use Rattle.std.specs.Prelude.{◌≡◌};
ghost use Rattle.who_missed.specs.Missed.{comes_to, counts, is_later, is_within, refuses, stops, tells};

use due_model::config::{ContactId, ObjectId};
use due_model::notice::Kind;
use line_forms::ReportLine;
use messages::entries::Entry;

/// Whether a line is of an object, and of a moment up to this one.
pub(crate) fn is_within(object: ObjectId, until: u64, line: &ReportLine) -> bool
    ensures { result ≡ is_within object.0 until line.now }
{
    match line {
        ReportLine::Decided(Entry::Sent(notice)) => {
            notice.object.0 == object.0 && notice.moment <= until
        }
        ReportLine::Decided(Entry::Withheld(withheld)) => {
            withheld.object.0 == object.0 && withheld.moment <= until
        }
        ReportLine::Refused(_) => false,
    }
}

/// Whether it is a notice of the object to a contact, after that moment.
pub(crate) fn is_later(object: ObjectId, contact: ContactId, until: u64, line: &ReportLine) -> bool
    ensures { result ≡ is_later object.0 contact.0 until line.now }
{
    match line {
        ReportLine::Decided(Entry::Sent(notice)) => {
            notice.object.0 == object.0 && notice.contact.0 == contact.0 && until < notice.moment
        }
        _ => false,
    }
}

/// Whether it is a notice to a contact.
pub fn tells(contact: ContactId, line: &ReportLine) -> bool
    ensures { result ≡ tells contact.0 line.now }
{
    match line {
        ReportLine::Decided(Entry::Sent(notice)) => notice.contact.0 == contact.0,
        _ => false,
    }
}

/// Whether a filter of the contact stopped it.
pub fn refuses(contact: ContactId, line: &ReportLine) -> bool
    ensures { result ≡ refuses contact.0 line.now }
{
    match line {
        ReportLine::Decided(Entry::Withheld(withheld)) => match withheld.contact {
            Some(other) => other.0 == contact.0,
            None => false,
        },
        _ => false,
    }
}

/// Whether a filter of the object stopped it.
pub(crate) fn stops(line: &ReportLine) -> bool
    ensures { result ≡ stops line.now }
{
    match line {
        ReportLine::Decided(Entry::Withheld(withheld)) => withheld.contact.is_none(),
        _ => false,
    }
}

/// Whether a notice of this kind and number is matched with the escalations that begin with this one, or a later one: that of a
/// problem by its own number, and a recovery by the one before.
fn counts(kind: Kind, first: u64, number: u64) -> bool
    ensures { result ≡ counts kind first number }
{
    match kind {
        Kind::Problem => first <= number,
        Kind::Recovery => first < number,
        Kind::FlappingStart => false,
        Kind::FlappingStop => false,
        Kind::DowntimeStart => false,
        Kind::DowntimeEnd => false,
        Kind::DowntimeCancelled => false,
        Kind::Acknowledgement => false,
    }
}

/// Whether it is of a notice of a problem, or of a recovery, that passed the filters of the object and is matched with escalations
/// from this number on.
pub(crate) fn comes_to(first: u32, line: &ReportLine) -> bool
    ensures { result ≡ comes_to first line.now }
{
    let first = u64::from(first);
    match line {
        ReportLine::Decided(Entry::Sent(notice)) => counts(notice.kind, first, notice.number),
        ReportLine::Decided(Entry::Withheld(withheld)) => {
            withheld.contact.is_some() && counts(withheld.kind, first, withheld.number)
        }
        ReportLine::Refused(_) => false,
    }
}
