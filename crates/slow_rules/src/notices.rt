//! The notices and the suppressions that an outcome adds.

ghost use Rattle.std.specs.Prelude.{◌≡◌, ◌≤◌, ◌++◌, [], IfOk, OnOk, Some, map, flat_map};
ghost use Rattle.due_model.specs.claims.Accepted.{IsAccepted};
ghost use Rattle.due_model.specs.claims.Due.{notice_to, refusal_of, notices, suppressions};
ghost use Rattle.due_model.specs.claims.Receivers.{receivers};
ghost use Rattle.due_model.specs.claims.Limits.{last_moment};
ghost use Rattle.slow_rules.specs.Histories.{IsInRange};
ghost use Rattle.slow_rules.specs.Notices.{number_of_contact, notice_in, suppression_in};

use crate::filters::contact_failing;
use crate::receivers::{receivers, rights_for};
use crate::subject::Subject;
use due_model::config::{ContactId, LaneId, ObjectId};
use due_model::notice::{Filter, Kind, Notice, Outcome, Reach, Suppression};
use due_model::options::OptionLetters;
use due_model::rules::Attempt;
use due_model::state::State;
use std::alloc::{AllocError, Global};

/// What becomes of an attempt at one contact, on one lane.
#[derive(Clone, Copy)]
pub(crate) enum Answer {
    /// There is no such contact, or its notices don't go out on the lane.
    Nothing,
    Due(Notice),
    Suppressed(Suppression),
}

/// What the events so far say of one object.
#[derive(Drop)]
pub(crate) struct Answers {
    /// Its notices on one lane, the oldest first.
    pub(crate) due: Vec<Notice>,
    /// Its suppressions, the oldest first.
    pub(crate) suppressed: Vec<Suppression>,
}

impl Answers {
    /// Appends an answer. An error leaves the answers as they were.
    fn add(&mut self, answer: Answer) -> Result<(), AllocError>
        ensures due { OnOk result (self.new.due.items ≡ self.old.due.items ++ notice_in answer) }
        ensures suppressed { OnOk result
            (self.new.suppressed.items ≡ self.old.suppressed.items ++ suppression_in answer) }
    {
        match answer {
            Answer::Nothing => {}
            Answer::Due(notice) => self.due.push(notice)?,
            Answer::Suppressed(suppression) => self.suppressed.push(suppression)?,
        }
        Ok(())
    }
}

/// A notification that goes out: where it stands, and what it says.
#[derive(Clone, Copy)]
struct Message {
    /// The number of the event.
    event: u64,
    /// The number in the problem, from 1; 0 for the kinds that have none.
    number: u64,
    /// The letters of the states told in the problem, where only who takes one of them is notified.
    told: Option<OptionLetters>,
    /// How many notices of the problem went out before it.
    standing: u64,
    attempt: Attempt,
}

/// A notification of these parts.
fn message_of(
    event: u64,
    number: u64,
    kind: Kind,
    state: State,
    moment: u64,
    reach: Reach,
) -> Message
    ensures { result ≡ record {
      event = event;
      number = number;
      told = reach.told;
      standing = reach.standing;
      attempt = record { kind = kind; state = state; moment = moment };
    } }
{
    let attempt = Attempt {
        kind,
        state,
        moment,
    };
    Message {
        event,
        number,
        told: reach.told,
        standing: reach.standing,
        attempt,
    }
}

impl Message {
    /// Its notice to a contact on a lane.
    fn notice(self, object: ObjectId, contact: ContactId, lane: LaneId) -> Notice
        ensures { result ≡ record {
          event = self.event;
          moment = self.attempt.moment;
          object = object;
          kind = self.attempt.kind;
          state = self.attempt.state;
          number = self.number;
          contact = contact;
          lane = lane;
        } }
    {
        Notice {
            event: self.event,
            moment: self.attempt.moment,
            object,
            kind: self.attempt.kind,
            state: self.attempt.state,
            number: self.number,
            contact,
            lane,
        }
    }

    /// Its suppression by a filter of this contact.
    fn stopped(self, object: ObjectId, filter: Filter, contact: ContactId) -> Suppression
        ensures { result ≡ record {
          event = self.event;
          moment = self.attempt.moment;
          object = object;
          kind = self.attempt.kind;
          state = self.attempt.state;
          number = self.number;
          filter = filter;
          contact = Some contact;
        } }
    {
        Suppression {
            event: self.event,
            moment: self.attempt.moment,
            object,
            kind: self.attempt.kind,
            state: self.attempt.state,
            number: self.number,
            filter,
            contact: Some(contact),
        }
    }
}

/// What becomes of a notification at a contact: the notice on the lane, if the contact's filters pass and it uses
/// that lane, or the suppression, if one of its filters fails.
fn answer_of(
    alloc: Global,
    subject: &Subject<'_>,
    lane: LaneId,
    message: Message,
    contact: ContactId,
) -> Result<Answer, AllocError>
    requires moment { message.attempt.moment ≤ last_moment }
    ensures due { IfOk result (λ answer. notice_in answer
        ≡ notice_to subject.now.config.now subject.now.zone.now subject.now.id.0
        subject.now.object.now lane.0
        message.event message.number message.attempt message.told contact.0) }
    ensures suppressed { IfOk result (λ answer. suppression_in answer
        ≡ refusal_of subject.now.config.now subject.now.zone.now subject.now.id.0
        subject.now.object.now
        message.event message.number message.attempt message.told contact.0) }
{
    let Some(receiver) = subject.config.contacts.as_slice().get(contact.0 as usize) else {
        return Ok(Answer::Nothing);
    };
    let rights = rights_for(subject.object, receiver);
    match contact_failing(alloc, subject, rights, message.attempt, message.told)? {
        Some(filter) => Ok(Answer::Suppressed(message.stopped(subject.id, filter, contact))),
        None if !rights.uses_lane(lane) => Ok(Answer::Nothing),
        None => Ok(Answer::Due(message.notice(subject.id, contact, lane))),
    }
}

/// Appends what becomes of a notification at each of these receivers. After an error some are appended.
fn add_each(
    alloc: Global,
    subject: &Subject<'_>,
    lane: LaneId,
    message: Message,
    receivers: &[ContactId],
    answers: &mut Answers,
) -> Result<(), AllocError>
    requires moment { message.attempt.moment ≤ last_moment }
    ensures due { OnOk result (answers.new.due.items ≡ answers.old.due.items
        ++ flat_map (notice_to subject.now.config.now subject.now.zone.now subject.now.id.0
        subject.now.object.now lane.0 message.event message.number message.attempt message.told)
        (map number_of_contact receivers.now)) }
    ensures suppressed { OnOk result (answers.new.suppressed.items ≡ answers.old.suppressed.items
        ++ flat_map (refusal_of subject.now.config.now subject.now.zone.now subject.now.id.0
        subject.now.object.now message.event message.number message.attempt message.told)
        (map number_of_contact receivers.now)) }
{
    for contact in receivers {
        answers.add(answer_of(alloc, subject, lane, message, *contact)?)?;
    }
    Ok(())
}

/// Appends what becomes of a notification at each contact that it goes to. After an error some are appended.
fn add_message(
    alloc: Global,
    subject: &Subject<'_>,
    lane: LaneId,
    message: Message,
    answers: &mut Answers,
) -> Result<(), AllocError>
    requires accepted { IsAccepted subject.now.config.now }
    requires moment { message.attempt.moment ≤ last_moment }
    ensures due { OnOk result (answers.new.due.items ≡ answers.old.due.items
        ++ flat_map (notice_to subject.now.config.now subject.now.zone.now subject.now.id.0
        subject.now.object.now lane.0 message.event message.number message.attempt message.told)
        (receivers subject.now.config.now subject.now.zone.now subject.now.id.0
        subject.now.object.now message.attempt message.number message.standing)) }
    ensures suppressed { OnOk result (answers.new.suppressed.items ≡ answers.old.suppressed.items
        ++ flat_map (refusal_of subject.now.config.now subject.now.zone.now subject.now.id.0
        subject.now.object.now message.event message.number message.attempt message.told)
        (receivers subject.now.config.now subject.now.zone.now subject.now.id.0
        subject.now.object.now message.attempt message.number message.standing)) }
{
    let receivers = receivers(
        alloc,
        subject,
        message.attempt,
        message.number,
        message.standing,
    )?;
    add_each(alloc, subject, lane, message, receivers.as_slice(), answers)
}

/// Appends what an outcome adds: the notices for a lane, one for each receiver that gets it there, and the
/// suppressions, the object's or one for each receiver that is refused. After an error some are appended.
pub(crate) fn add_answers(
    alloc: Global,
    subject: &Subject<'_>,
    lane: LaneId,
    event: u64,
    outcome: Outcome,
    answers: &mut Answers,
) -> Result<(), AllocError>
    requires accepted { IsAccepted subject.now.config.now }
    requires in_range { IsInRange outcome }
    ensures due { OnOk result (answers.new.due.items ≡ answers.old.due.items
        ++ notices subject.now.config.now subject.now.zone.now subject.now.id.0
        subject.now.object.now lane.0
        event outcome) }
    ensures suppressed { OnOk result (answers.new.suppressed.items ≡ answers.old.suppressed.items
        ++ suppressions subject.now.config.now subject.now.zone.now subject.now.id.0
        subject.now.object.now
        event outcome) }
{
    match outcome {
        Outcome::Nothing => Ok(()),
        Outcome::Sent {
            kind,
            state,
            number,
            moment,
            reach,
            ..
        } => {
            let message = message_of(event, number, kind, state, moment, reach);
            add_message(alloc, subject, lane, message, answers)
        }
        Outcome::Suppressed {
            kind,
            state,
            number,
            moment,
            filter,
        } => {
            answers.add(Answer::Suppressed(Suppression {
                event,
                moment,
                object: subject.id,
                kind,
                state,
                number,
                filter,
                contact: None,
            }))
        }
    }
}
