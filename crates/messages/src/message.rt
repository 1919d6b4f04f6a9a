//! A notification that goes out.

ghost use Rattle.std.specs.Prelude.{◌≡◌};
ghost use Rattle.messages.specs.Message.{notice_for, suppression_for};

use due_model::config::{ContactId, LaneId, ObjectId};
use due_model::notice::{Filter, Notice, Suppression};
use due_model::options::OptionLetters;
use filters::attempt::Attempt;

/// A notification that goes out, before it is said to whom.
#[derive(Clone, Copy)]
pub(crate) struct Message<'a> {
    /// The number of the event.
    pub(crate) event: u64,
    pub(crate) object: ObjectId,
    /// The number of the notification in its problem, from 1; 0 for the kinds that have none.
    pub(crate) number: u64,
    /// The letters of the states told in the problem, where only who takes one of them is notified.
    pub(crate) told: Option<OptionLetters>,
    /// How many notices of the problem went out before it.
    pub(crate) standing: u64,
    /// Its kind, state and moment, with what filters read besides.
    pub(crate) attempt: Attempt<'a>,
}

impl Message<'_> {
    /// Its notice to a contact on a lane.
    pub(crate) fn notice(&self, contact: ContactId, lane: LaneId) -> Notice
        ensures { result ≡ notice_for self.now contact.0 lane.0 }
    {
        Notice {
            event: self.event,
            moment: self.attempt.moment,
            object: self.object,
            kind: self.attempt.kind,
            state: self.attempt.state,
            number: self.number,
            contact,
            lane,
        }
    }

    /// Its suppression, by a filter of this contact.
    pub(crate) fn suppression(&self, contact: ContactId, filter: Filter) -> Suppression
        ensures { result ≡ suppression_for self.now contact.0 filter }
    {
        Suppression {
            event: self.event,
            moment: self.attempt.moment,
            object: self.object,
            kind: self.attempt.kind,
            state: self.attempt.state,
            number: self.number,
            filter,
            contact: Some(contact),
        }
    }
}
