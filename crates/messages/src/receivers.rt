//! Who receives a notification.

ghost use Rattle.std.specs.Prelude.{◌≡◌, ◌++◌, ◌&&◌, slice_get, OnOk, Some};
ghost use Rattle.due_model.specs.declared.config.Object.{Object};
ghost use Rattle.due_model.specs.claims.Readings.{is_problem_state};
ghost use Rattle.due_model.specs.claims.Receivers.{others, receivers};
ghost use Rattle.due_model.specs.claims.Escalations.{reach};
ghost use Rattle.escalation.specs.Named.{contact_ids};
ghost use Rattle.filters.specs.Attempt.{plain};
ghost use Rattle.messages.specs.Message.{IsMessage};
ghost use Rattle.outcomes.specs.Rules.{AreRules};

use crate::message::Message;
use due_model::config::{Choices, ContactId};
use due_model::notice::Kind;
use due_model::options::OptionLetter;
use due_model::state::State;
use escalation::contacts::{contacts, own_contacts};
use outcomes::rules::Rules;
use std::alloc::{AllocError, Global};

/// Appends who receives a notification, each once and in number order. A recovery goes to those that the last
/// problem notice's number reaches (chapter "Notification Escalations").
pub(crate) fn add_receivers(
    alloc: Global,
    rules: &Rules<'_>,
    message: &Message<'_>,
    told: &mut Vec<ContactId>,
) -> Result<(), AllocError>
    requires rules { AreRules rules.now }
    requires message { IsMessage rules.now message.now }
    ensures { OnOk result ((settings : Object)
        → slice_get rules.now.config.now.objects message.now.object.0 ≡ Some settings
        → told.new.items ≡ told.old.items
        ++ contact_ids (receivers rules.now.config.now rules.now.zone.now message.now.object.0
        settings (plain message.now.attempt) message.now.number message.now.standing)) }
{
    match message.attempt.kind {
        Kind::Problem => add_reached(
            alloc,
            rules,
            message,
            message.number,
            message.attempt.letter,
            told,
        ),
        Kind::Recovery => add_reached(
            alloc,
            rules,
            message,
            message.number.saturating_sub(1),
            OptionLetter::Recovery,
            told,
        ),
        _ => add_others(alloc, rules, message, told),
    }
}

/// Appends whom flapping and downtimes are told: the object's own contacts, as they are no matter of escalations. By the
/// daemon's rule it is, in a problem state, those that the last problem notice reaches.
fn add_others(
    alloc: Global,
    rules: &Rules<'_>,
    message: &Message<'_>,
    told: &mut Vec<ContactId>,
) -> Result<(), AllocError>
    requires rules { AreRules rules.now }
    requires message { IsMessage rules.now message.now }
    ensures { OnOk result ((settings : Object)
        → slice_get rules.now.config.now.objects message.now.object.0 ≡ Some settings
        → told.new.items ≡ told.old.items
        ++ contact_ids (others rules.now.config.now rules.now.zone.now message.now.object.0
        settings (plain message.now.attempt) message.now.standing)) }
{
    let state = message.attempt.state;
    if is_escalated(rules.config.choices, state) {
        add_reached(
            alloc,
            rules,
            message,
            message.standing,
            state.letter(),
            told,
        )
    } else {
        own_contacts(alloc, rules.config, message.object, told)
    }
}

/// Whether flapping and downtimes are escalated in this state.
fn is_escalated(choices: Choices, state: State) -> bool
    ensures { result ≡ (choices.esc_other && is_problem_state state) }
{
    choices.esc_other && state.is_problem()
}

/// Appends whom a notification of this number and letter reaches at the message's moment.
fn add_reached(
    alloc: Global,
    rules: &Rules<'_>,
    message: &Message<'_>,
    number: u64,
    letter: OptionLetter,
    told: &mut Vec<ContactId>,
) -> Result<(), AllocError>
    requires rules { AreRules rules.now }
    requires message { IsMessage rules.now message.now }
    ensures { OnOk result ((settings : Object)
        → slice_get rules.now.config.now.objects message.now.object.0 ≡ Some settings
        → told.new.items ≡ told.old.items
        ++ contact_ids (reach rules.now.config.now rules.now.zone.now message.now.object.0
        settings number letter message.now.attempt.moment)) }
{
    contacts(
        alloc,
        rules.config,
        message.object,
        number,
        letter,
        message.attempt.moment,
        rules.periods,
        rules.zone,
        told,
    )
}
