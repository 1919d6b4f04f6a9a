//! The messages of an outcome.

ghost use Rattle.std.specs.Prelude.{◌≡◌, ◌<◌, ◌≤◌, ◌++◌, ◌||◌, not, All};
ghost use Rattle.std.specs.Prelude.{flat_map, length, slice_get, true, IfOk, OnErr, OnOk, Some};
ghost use Rattle.std.specs.List.{list_any};
ghost use Rattle.due_model.specs.declared.config.Object.{Object};
ghost use Rattle.due_model.specs.declared.notice.Outcome.TheVariants.{Sent};
ghost use Rattle.due_model.specs.claims.Limits.{last_moment};
ghost use Rattle.messages.specs.claims.Entries.{outcome_entries};
ghost use Rattle.messages.specs.Entries.{HasMore};
ghost use Rattle.messages.specs.Message.{IsMessage, IsReadable, message_entries, message_passes};
ghost use Rattle.messages.specs.Message.{outcome_of};
ghost use Rattle.outcomes.specs.Outcome.{IsInRange, heard_of};
ghost use Rattle.outcomes.specs.Rules.{AreRules};

use crate::contact::add_to_contact;
use crate::entries::Entry;
use crate::message::Message;
use crate::receivers::add_receivers;
use due_model::config::{Choices, Config, ContactId, ObjectId};
use due_model::notice::{Kind, Outcome, Reach, Suppression};
use due_model::state::State;
use filters::attempt::Attempt;
use outcomes::rules::Rules;
use std::alloc::{AllocError, Global};

/// Appends what becomes of each message of this outcome of an object, at the event of this number: the filter of the
/// object that stopped it, or for each receiver, in number order, the filter that refused it or its notices, in the
/// order of the lanes (chapter "Notifications"). Whether the notice counts (an outcome that is none has nothing that
/// doesn't). `receivers` is a list of the caller's, kept for its room: what it holds is lost. An error comes only where a
/// growth was refused; some of the entries are then appended.
#[tactic(auto, using(crate::proofs::MessageLemmas::has_more_same))]
pub fn add_messages(
    alloc: Global,
    rules: &Rules<'_>,
    object: ObjectId,
    event: u64,
    outcome: Outcome,
    receivers: &mut Vec<ContactId>,
    entries: &mut Vec<Entry>,
) -> Result<bool, AllocError>
    requires rules { AreRules rules.now }
    requires object { object.0 < length rules.now.config.now.objects }
    requires range { IsInRange outcome }
    ensures entries { OnOk result ((settings : Object)
        → slice_get rules.now.config.now.objects object.0 ≡ Some settings
        → entries.new.items ≡ entries.old.items
        ++ outcome_entries rules.now.config.now rules.now.zone.now object.0 settings event
        outcome) }
    ensures heard { IfOk result (λ heard. (settings : Object)
        → slice_get rules.now.config.now.objects object.0 ≡ Some settings
        → heard ≡ heard_of rules.now.config.now rules.now.zone.now object.0 settings outcome) }
    ensures left { OnErr result (HasMore entries.old.items entries.new.items) }
{
    match outcome {
        Outcome::Nothing => Ok(true),
        Outcome::Sent {
            kind,
            state,
            number,
            moment,
            reach,
            ..
        } => {
            let message = message_of(rules, object, event, kind, state, number, moment, reach);
            add_message(alloc, rules, &message, receivers, entries)
        }
        Outcome::Suppressed {
            kind,
            state,
            number,
            moment,
            filter,
        } => {
            let suppression = Suppression {
                event,
                moment,
                object,
                kind,
                state,
                number,
                filter,
                contact: None,
            };
            entries.push(Entry::Withheld(suppression))?;
            Ok(true)
        }
    }
}

/// A notification of these parts.
fn message_of<'a>(
    rules: &Rules<'a>,
    object: ObjectId,
    event: u64,
    kind: Kind,
    state: State,
    number: u64,
    moment: u64,
    reach: Reach,
) -> Message<'a>
    requires rules { AreRules rules.now }
    requires object { object.0 < length rules.now.config.now.objects }
    requires moment { moment ≤ last_moment }
    ensures is { IsMessage rules.now result }
    ensures object { result.object ≡ object }
    ensures event { result.event ≡ event }
    ensures outcome { outcome_of result ≡ Sent kind state number moment 0
        (record { heard = true; told = reach.told; standing = reach.standing }) }
{
    let settings = &rules.config.objects.as_slice()[usize::from(object.0)];
    let attempt = Attempt {
        moment,
        kind,
        state,
        letter: kind.letter(state),
        service: settings.host.is_some(),
        zone: rules.zone,
        periods: rules.periods,
    };
    Message {
        event,
        object,
        number,
        told: reach.told,
        standing: reach.standing,
        attempt,
    }
}

/// Appends what each receiver of a notification has. Whether the notification counts.
#[tactic(auto, using(crate::proofs::MessageLemmas::has_more_same))]
fn add_message(
    alloc: Global,
    rules: &Rules<'_>,
    message: &Message<'_>,
    receivers: &mut Vec<ContactId>,
    entries: &mut Vec<Entry>,
) -> Result<bool, AllocError>
    requires rules { AreRules rules.now }
    requires message { IsMessage rules.now message.now }
    ensures entries { OnOk result ((settings : Object)
        → slice_get rules.now.config.now.objects message.now.object.0 ≡ Some settings
        → entries.new.items ≡ entries.old.items
        ++ outcome_entries rules.now.config.now rules.now.zone.now message.now.object.0 settings
        message.now.event (outcome_of message.now)) }
    ensures heard { IfOk result (λ heard. (settings : Object)
        → slice_get rules.now.config.now.objects message.now.object.0 ≡ Some settings
        → heard ≡ heard_of rules.now.config.now rules.now.zone.now message.now.object.0
        settings (outcome_of message.now)) }
    ensures left { OnErr result (HasMore entries.old.items entries.new.items) }
{
    receivers.clear();
    add_receivers(alloc, rules, message, receivers)?;
    let passes = add_to_receivers(rules.config, message, receivers.as_slice(), entries)?;
    let heard = counts(rules.config.choices, passes);
    Ok(heard)
}

/// Whether a notification counts that passes the filters of some receiver, or of none.
fn counts(choices: Choices, passes: bool) -> bool
    ensures { result ≡ (not choices.nobody || passes) }
{
    !choices.nobody || passes
}

/// Whether one of two is so.
fn either(one: bool, other: bool) -> bool
    ensures { result ≡ (one || other) }
{
    one || other
}

/// Appends what each of these contacts has of a notification, in their order. Whether the filters of one of them pass.
fn add_to_receivers(
    config: &Config,
    message: &Message<'_>,
    receivers: &[ContactId],
    entries: &mut Vec<Entry>,
) -> Result<bool, AllocError>
    requires readable { IsReadable config.now message.now }
    requires within { All (λ contact. contact.0 < length config.now.contacts) receivers.now }
    ensures entries { OnOk result (entries.new.items ≡ entries.old.items
        ++ flat_map (λ contact. message_entries config.now message.now contact.0) receivers.now) }
    ensures passes { IfOk result (λ passes. passes
        ≡ list_any (λ contact. message_passes config.now message.now contact.0) receivers.now) }
    ensures left { OnErr result (HasMore entries.old.items entries.new.items) }
{
    let mut one_passes = false;
    for contact in receivers {
        let passes = add_to_contact(config, message, *contact, entries)?;
        one_passes = either(one_passes, passes);
    }
    Ok(one_passes)
}
