//! Letters that the tests give, and how they give them.

use acceptance_inputs::configs::base;
use channel::letter::{Letter, letter_text};
use channel::{Channel, Fault, Receipt};
use due_model::config::{ContactId, LaneId, ObjectId};
use due_model::notice::{Kind, Notice};
use due_model::state::State;
use std::alloc::{AllocError, Global};
use std::process::Abort;

/// Web is down at event 0.
pub(crate) const DOWN: Notice = Notice {
    event: 0,
    moment: 1000,
    object: ObjectId(0),
    kind: Kind::Problem,
    state: State::Down,
    number: 1,
    contact: ContactId(0),
    lane: LaneId(0),
};

/// The text that tells it: 79 bytes.
pub(crate) const DOWN_TEXT: &str =
    "To: ann\nKind: PROBLEM\nObject: web\nState: DOWN\nNumber: 1\nMoment: 1000\nEvent: 0\n\n";

/// Web is up again at event 1.
pub(crate) const UP: Notice = Notice {
    event: 1,
    moment: 1010,
    object: ObjectId(0),
    kind: Kind::Recovery,
    state: State::Up,
    number: 2,
    contact: ContactId(0),
    lane: LaneId(0),
};

/// The text that tells it: 78 bytes.
pub(crate) const UP_TEXT: &str =
    "To: ann\nKind: RECOVERY\nObject: web\nState: UP\nNumber: 2\nMoment: 1010\nEvent: 1\n\n";

/// The letter of a notice, where web is the one host and ann its one contact.
pub(crate) fn letter(alloc: Global, notice: Notice) -> Result<Letter, AllocError> {
    let config = base(alloc)?;
    letter_text(alloc, &config, notice)
}

/// The letters of both.
#[derive(Drop)]
pub(crate) struct Letters {
    pub down: Letter,
    pub up: Letter,
}

impl Letters {
    pub(crate) fn new(alloc: Global) -> Result<Letters, AllocError> {
        Ok(Letters {
            down: letter(alloc, DOWN)?,
            up: letter(alloc, UP)?,
        })
    }
}

/// Compares.
pub(crate) fn check(rt: &impl Abort, holds: bool, what: &str) {
    assert!(rt; holds, "{what}");
}

/// Whether bytes are these texts, one after another.
pub(crate) fn are(bytes: &[u8], texts: &[&str]) -> bool {
    let mut rest = bytes;
    for text in texts {
        match rest.strip_prefix(text.as_bytes()) {
            Some(after) => rest = after,
            None => return false,
        }
    }
    rest.is_empty()
}

/// Makes room, and hands a letter over.
pub(crate) fn give<C: Channel>(
    rt: &impl Abort,
    channel: &mut C,
    letter: &Letter,
) -> Result<(), Fault> {
    channel.reserve().expect(rt, "room for a receipt");
    channel.deliver(letter)
}

/// Gives a letter, and compares the answer.
pub(crate) fn answers<C: Channel>(
    rt: &impl Abort,
    channel: &mut C,
    letter: &Letter,
    answer: Result<(), Fault>,
    what: &str,
) {
    let given = give(rt, channel, letter);
    check(rt, given == answer, what);
}

/// Whether these are the notices that a channel has taken, and its count of failures.
pub(crate) fn has<C: Channel>(channel: &C, notices: &[Notice], failures: u64) -> bool {
    are_receipts(channel.taken(), notices) && channel.failures() == failures
}

/// Whether these are the receipts of these notices.
pub(crate) fn are_receipts(receipts: &[Receipt], notices: &[Notice]) -> bool {
    if receipts.len() != notices.len() {
        return false;
    }
    for (place, receipt) in receipts.iter().enumerate() {
        if notices.get(place) != Some(&receipt.notice) {
            return false;
        }
    }
    true
}
