//! What one contact has of a notification.

ghost use Rattle.std.specs.Prelude.{◌≡◌, ◌<◌, ◌++◌, length, map, IfOk, OnErr, OnOk};
ghost use Rattle.messages.specs.Entries.{HasMore};
ghost use Rattle.messages.specs.Message.{IsReadable, lane_entries, lane_notices, message_entries};
ghost use Rattle.messages.specs.Message.{message_passes};
ghost use Rattle.messages.specs.declared.entries.Entry.TheVariants as entry;

use crate::entries::Entry;
use crate::message::Message;
use due_model::config::{Config, ContactId, LaneId, Rights};
use filters::contact_filters::{contact_verdict, rights_of};
use std::alloc::AllocError;

/// Adds the notice for one lane, if a contact with these rights uses it.
#[tactic(auto, using(crate::proofs::MessageLemmas::has_more_same))]
fn add_on_lane(
    message: &Message<'_>,
    contact: ContactId,
    rights: &Rights,
    lane: LaneId,
    entries: &mut Vec<Entry>,
) -> Result<(), AllocError>
    ensures entries { OnOk result (entries.new.items ≡ entries.old.items
        ++ map entry.Sent (lane_notices message.now contact.0 rights.now lane.0)) }
    ensures left { OnErr result (HasMore entries.old.items entries.new.items) }
{
    if !rights.uses_lane(lane) {
        return Ok(());
    }
    entries.push(Entry::Sent(message.notice(contact, lane)))?;
    Ok(())
}

/// Adds a notice for each of so many lanes that a contact with these rights uses, in number order.
fn add_on_lanes(
    message: &Message<'_>,
    contact: ContactId,
    rights: &Rights,
    lanes: u8,
    entries: &mut Vec<Entry>,
) -> Result<(), AllocError>
    ensures entries { OnOk result (entries.new.items
        ≡ entries.old.items ++ lane_entries message.now contact.0 rights.now lanes) }
    ensures left { OnErr result (HasMore entries.old.items entries.new.items) }
{
    for lane in 0..lanes {
        add_on_lane(message, contact, rights, LaneId(lane), entries)?;
    }
    Ok(())
}

/// Adds what a contact has of a notification: the first of its filters that fails, or else its notices. Whether its
/// filters pass.
#[tactic(auto, using(crate::proofs::MessageLemmas::has_more_same))]
pub(crate) fn add_to_contact(
    config: &Config,
    message: &Message<'_>,
    contact: ContactId,
    entries: &mut Vec<Entry>,
) -> Result<bool, AllocError>
    requires readable { IsReadable config.now message.now }
    requires contact { contact.0 < length config.now.contacts }
    ensures entries { OnOk result (entries.new.items
        ≡ entries.old.items ++ message_entries config.now message.now contact.0) }
    ensures passes { IfOk result (λ passes. passes
        ≡ message_passes config.now message.now contact.0) }
    ensures left { OnErr result (HasMore entries.old.items entries.new.items) }
{
    let settings = &config.contacts.as_slice()[usize::from(contact.0)];
    match contact_verdict(config, contact, &message.attempt, message.told) {
        Ok(()) => {
            let rights = rights_of(message.attempt.service, settings);
            let lanes = config.lanes.as_slice().len() as u8;
            add_on_lanes(message, contact, rights, lanes, entries)?;
            Ok(true)
        }
        Err(filter) => {
            entries.push(Entry::Withheld(message.suppression(contact, filter)))?;
            Ok(false)
        }
    }
}
