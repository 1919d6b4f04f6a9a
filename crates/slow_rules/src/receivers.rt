//! Whom a notice goes to, and whether it counts.

ghost use Rattle.std.specs.Prelude.{◌≡◌, ◌≤◌, ◌&&◌, ◌||◌, IfOk, length, map};
ghost use Rattle.std.specs.List.{list_any};
ghost use Rattle.due_model.specs.claims.Accepted.{IsAccepted};
ghost use Rattle.due_model.specs.claims.Escalations.{contacts_with, has_contact, reach};
ghost use Rattle.due_model.specs.claims.Limits.{last_moment, max_contacts};
ghost use Rattle.due_model.specs.claims.Readings.{is_problem_state};
ghost use Rattle.due_model.specs.claims.Receivers.{is_heard, others, passes, receivers, rights_for};
ghost use Rattle.slow_rules.specs.Notices.{number_of_contact};

use crate::escalations::{Numbered, named};
use crate::filters::contact_failing;
use crate::subject::Subject;
use due_model::config::{Choices, Config, Contact, ContactId, Object, Rights};
use due_model::notice::Kind;
use due_model::options::OptionLetters;
use due_model::rules::Attempt;
use due_model::state::State;
use std::alloc::{AllocError, Global};

/// What a contact is notified of, for the kind of this object.
pub(crate) fn rights_for<'a>(settings: &Object, contact: &'a Contact) -> &'a Rights
    ensures { result.now ≡ rights_for settings.now contact.now }
{
    if settings.host.is_some() {
        &contact.services
    } else {
        &contact.hosts
    }
}

/// Whether a contact is among these.
fn is_among(named: &[ContactId], contact: ContactId) -> bool
    ensures { result ≡ has_contact named.now contact.0 }
{
    named.iter().any(|other| other.0 == contact.0)
}

/// The contacts of a list, each once, in number order.
fn contacts_with(
    alloc: Global,
    config: &Config,
    named: &[ContactId],
) -> Result<Vec<ContactId>, AllocError>
    requires { length config.now.contacts ≤ max_contacts }
    ensures { IfOk result
        (λ v. map number_of_contact v.items ≡ contacts_with config.now (has_contact named.now)) }
{
    let mut found = Vec::new(alloc);
    for number in 0..config.contacts.len() {
        let contact = ContactId(number as u16);
        if is_among(named, contact) {
            found.push(contact)?;
        }
    }
    Ok(found)
}

/// The contacts that escalations name for a notification, or the object's own where none matches, each once, in
/// number order.
fn reached(
    alloc: Global,
    subject: &Subject<'_>,
    notification: Numbered,
) -> Result<Vec<ContactId>, AllocError>
    requires accepted { IsAccepted subject.now.config.now }
    requires moment { notification.moment ≤ last_moment }
    ensures { IfOk result (λ v. map number_of_contact v.items
        ≡ reach subject.now.config.now subject.now.zone.now subject.now.id.0 subject.now.object.now
        notification.number notification.letter notification.moment) }
{
    let named = named(alloc, subject, notification)?;
    contacts_with(alloc, subject.config, named.as_slice())
}

/// The contacts that flapping and downtimes go to, with so many notices of the problem before: the object's own; by the
/// daemon's rule, in a problem state, those that the last of them reaches.
fn others(
    alloc: Global,
    subject: &Subject<'_>,
    attempt: Attempt,
    standing: u64,
) -> Result<Vec<ContactId>, AllocError>
    requires accepted { IsAccepted subject.now.config.now }
    requires moment { attempt.moment ≤ last_moment }
    ensures { IfOk result (λ v. map number_of_contact v.items
        ≡ others subject.now.config.now subject.now.zone.now subject.now.id.0
        subject.now.object.now attempt
        standing) }
{
    if !is_escalated(subject.config.choices, attempt.state) {
        return contacts_with(alloc, subject.config, subject.object.contacts.as_slice());
    }
    let notification = Numbered {
        number: standing,
        letter: attempt.state.letter(),
        moment: attempt.moment,
    };
    reached(alloc, subject, notification)
}

/// Whether flapping and downtimes are escalated in this state.
fn is_escalated(choices: Choices, state: State) -> bool
    ensures { result ≡ (choices.esc_other && is_problem_state state) }
{
    choices.esc_other && state.is_problem()
}

/// The contacts that a notice goes to, each once, in number order: a recovery goes to those that the last problem
/// notice's number reaches.
pub(crate) fn receivers(
    alloc: Global,
    subject: &Subject<'_>,
    attempt: Attempt,
    number: u64,
    standing: u64,
) -> Result<Vec<ContactId>, AllocError>
    requires accepted { IsAccepted subject.now.config.now }
    requires moment { attempt.moment ≤ last_moment }
    ensures { IfOk result (λ v. map number_of_contact v.items
        ≡ receivers subject.now.config.now subject.now.zone.now subject.now.id.0
        subject.now.object.now attempt
        number standing) }
{
    let letter = attempt.kind.letter(attempt.state);
    let moment = attempt.moment;
    let number = match attempt.kind {
        Kind::Problem => number,
        Kind::Recovery => number.saturating_sub(1),
        _ => return others(alloc, subject, attempt, standing),
    };
    let notification = Numbered {
        number,
        letter,
        moment,
    };
    reached(alloc, subject, notification)
}

/// Whether the filters of a contact pass.
fn passes(
    alloc: Global,
    subject: &Subject<'_>,
    attempt: Attempt,
    told: Option<OptionLetters>,
    contact: ContactId,
) -> Result<bool, AllocError>
    requires moment { attempt.moment ≤ last_moment }
    ensures { IfOk result (λ pass. pass
        ≡ passes subject.now.config.now subject.now.zone.now subject.now.object.now attempt told
        contact.0) }
{
    let Some(receiver) = subject.config.contacts.as_slice().get(contact.0 as usize) else {
        return Ok(false);
    };
    let rights = rights_for(subject.object, receiver);
    let fails = contact_failing(alloc, subject, rights, attempt, told)?;
    Ok(fails.is_none())
}

/// Whether the filters of one of these contacts pass.
fn one_passes(
    alloc: Global,
    subject: &Subject<'_>,
    attempt: Attempt,
    told: Option<OptionLetters>,
    contacts: &[ContactId],
) -> Result<bool, AllocError>
    requires moment { attempt.moment ≤ last_moment }
    ensures { IfOk result (λ pass. pass
        ≡ list_any (λ contact. passes subject.now.config.now subject.now.zone.now
        subject.now.object.now attempt told contact.0) contacts.now) }
{
    let mut found = false;
    for contact in contacts {
        let pass = passes(alloc, subject, attempt, told, *contact)?;
        found = either(found, pass);
    }
    Ok(found)
}

/// Whether one of two is so.
fn either(one: bool, other: bool) -> bool
    ensures { result ≡ (one || other) }
{
    one || other
}

/// Whether a notice counts: always; by the daemon's rule, where it reaches somebody.
pub(crate) fn is_heard(
    alloc: Global,
    subject: &Subject<'_>,
    attempt: Attempt,
    number: u64,
    told: Option<OptionLetters>,
    standing: u64,
) -> Result<bool, AllocError>
    requires accepted { IsAccepted subject.now.config.now }
    requires moment { attempt.moment ≤ last_moment }
    ensures { IfOk result (λ heard. heard
        ≡ is_heard subject.now.config.now subject.now.zone.now subject.now.id.0
        subject.now.object.now attempt number told standing) }
{
    if !subject.config.choices.nobody {
        return Ok(true);
    }
    let receivers = receivers(alloc, subject, attempt, number, standing)?;
    one_passes(alloc, subject, attempt, told, receivers.as_slice())
}
