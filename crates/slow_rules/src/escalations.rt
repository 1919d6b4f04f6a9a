//! Whom the escalations of an object notify, and when again (chapter "Notification Escalations"): by a look at
//! each escalation of the configuration.

ghost use Rattle.std.specs.Prelude.{◌≡◌, ℕ, ◌≤◌, ◌&&◌, ◌||◌, ◌==◌, ◌++◌};
ghost use Rattle.std.specs.Prelude.{nat_le, min, IfOk, OnOk};
ghost use Rattle.std.specs.Prelude.{option_map, unwrap_or};
ghost use Rattle.due_model.specs.claims.Limits.{last_moment};
ghost use Rattle.due_model.specs.claims.Escalations.{gap, has_contact, matches, matching, reaches};
ghost use Rattle.due_model.specs.claims.Rules.{has_letter};
ghost use Rattle.slow_rules.specs.Escalated.{has_some, least_of, named_by};
ghost use Rattle.slow_rules.specs.Histories.{longest_gap};

use crate::periods::in_period;
use crate::subject::Subject;
use due_model::config::{ContactId, Escalation};
use due_model::options::OptionLetter;
use std::alloc::{AllocError, Global};

/// A notification as an escalation reads it.
#[derive(Clone, Copy)]
pub(crate) struct Numbered {
    /// Its number in the problem, from 1; that of the last problem notice for a recovery.
    pub(crate) number: u64,
    pub(crate) letter: OptionLetter,
    /// In seconds since the epoch.
    pub(crate) moment: u64,
}

/// Whether the number and the letter are an escalation's.
fn concerns(escalation: &Escalation, notification: Numbered) -> bool
    ensures { result ≡ (nat_le escalation.now.first notification.number
        && (escalation.now.last == 0 || nat_le notification.number escalation.now.last)
        && has_letter escalation.now.options notification.letter) }
{
    let number = notification.number;
    u64::from(escalation.first) <= number
        && (escalation.last == 0 || number <= u64::from(escalation.last))
        && escalation.options.contains(notification.letter)
}

/// Whether an escalation matches a notification of the object.
fn matches(
    alloc: Global,
    subject: &Subject<'_>,
    notification: Numbered,
    escalation: &Escalation,
) -> Result<bool, AllocError>
    requires moment { notification.moment ≤ last_moment }
    ensures { IfOk result (λ yes. yes
        ≡ matches subject.now.config.now subject.now.zone.now subject.now.id.0 notification.number
        notification.letter notification.moment escalation.now) }
{
    if escalation.object.0 != subject.id.0 || !concerns(escalation, notification) {
        return Ok(false);
    }
    in_period(
        alloc,
        subject.config,
        subject.zone,
        escalation.period,
        notification.moment,
    )
}

/// The lesser of an interval and another, if there is another.
fn lesser(least: Option<u32>, interval: u32) -> u32
    ensures { result ≡ unwrap_or (option_map (λ other. min other interval) least) interval }
{
    match least {
        Some(other) => other.min(interval),
        None => interval,
    }
}

/// The least interval of the escalations that match, if one does.
fn least_interval(
    alloc: Global,
    subject: &Subject<'_>,
    notification: Numbered,
) -> Result<Option<u32>, AllocError>
    requires moment { notification.moment ≤ last_moment }
    ensures { IfOk result (λ least. least
        ≡ least_of (matching subject.now.config.now subject.now.zone.now subject.now.id.0
        notification.number notification.letter notification.moment)) }
{
    let mut least = None;
    for escalation in subject.config.escalations.as_slice() {
        if matches(alloc, subject, notification, escalation)? {
            least = Some(lesser(least, escalation.interval));
        }
    }
    Ok(least)
}

/// How long after a problem notice the next of the same state is due, in seconds; 0 is never.
pub(crate) fn gap(
    alloc: Global,
    subject: &Subject<'_>,
    notification: Numbered,
) -> Result<u64, AllocError>
    requires moment { notification.moment ≤ last_moment }
    ensures value { IfOk result (λ seconds. seconds
        ≡ gap subject.now.config.now subject.now.zone.now subject.now.id.0 subject.now.object.now
        notification.number notification.letter notification.moment) }
    ensures in_range { IfOk result (λ seconds. seconds ≤ longest_gap) }
{
    let least = least_interval(alloc, subject, notification)?;
    Ok(60 * u64::from(least.unwrap_or(subject.object.interval)))
}

/// Appends the contacts of the escalations that match, and answers whether one does.
fn name_matching(
    alloc: Global,
    subject: &Subject<'_>,
    notification: Numbered,
    named: &mut Vec<ContactId>,
) -> Result<bool, AllocError>
    requires moment { notification.moment ≤ last_moment }
    ensures some { IfOk result (λ some. some
        ≡ has_some (matching subject.now.config.now subject.now.zone.now subject.now.id.0
        notification.number notification.letter notification.moment)) }
    ensures named { OnOk result (named.new.items ≡ named.old.items
        ++ named_by (matching subject.now.config.now subject.now.zone.now subject.now.id.0
        notification.number notification.letter notification.moment)) }
{
    let mut some = false;
    for escalation in subject.config.escalations.as_slice() {
        if matches(alloc, subject, notification, escalation)? {
            named.extend_from_slice(escalation.contacts.as_slice())?;
            some = true;
        }
    }
    Ok(some)
}

/// The contacts of the escalations that match, or the object's own where none does, as they stand there.
pub(crate) fn named(
    alloc: Global,
    subject: &Subject<'_>,
    notification: Numbered,
) -> Result<Vec<ContactId>, AllocError>
    requires moment { notification.moment ≤ last_moment }
    ensures { IfOk result (λ v. (k : ℕ) → has_contact v.items k
        ≡ reaches subject.now.object.now (matching subject.now.config.now subject.now.zone.now
        subject.now.id.0
        notification.number notification.letter notification.moment) k) }
{
    let mut named = Vec::new(alloc);
    if name_matching(alloc, subject, notification, &mut named)? {
        Ok(named)
    } else {
        Vec::from_slice(alloc, subject.object.contacts.as_slice())
    }
}
