//! What becomes of an object at an event.

ghost use Rattle.std.specs.Prelude.{◌≡◌, ◌≤◌, ◌<◌, ◌+◌, ◌^◌, ◌&&◌, is_some, length, true, List};
ghost use Rattle.due_model.specs.declared.event.Event.{Event};
ghost use Rattle.due_model.specs.claims.Acknowledgements.{acknowledgement, is_removal_of, takes_back};
ghost use Rattle.due_model.specs.claims.Limits.{last_moment};
ghost use Rattle.outcomes.specs.Outcome.{Begins, Concludes, Decides, IsJudgement, with_heard};
ghost use Rattle.due_model.specs.claims.Readings.{hard_after, is_problem_state};
ghost use Rattle.outcomes.specs.Found.{tried};
ghost use Rattle.due_model.specs.claims.Histories.{timed, with_repeat};
ghost use Rattle.outcomes.specs.Rules.{AreRules};

use crate::found::Found;
use crate::judge::judge;
use crate::lapse::lapsed;
use crate::rules::Rules;
use crate::settle::settle;
use due_model::config::{Choices, ObjectId};
use due_model::event::EventKind;
use due_model::notice::{Kind, Outcome, Reach};
use due_model::rules::attempted;
use problem_count::Book;
use problem_count::laws::{attempt_by_due, fit_on};

/// What becomes of an object at an event, but for whether a notice that goes out counts: here it does.
#[derive(Clone, Copy)]
pub struct Judgement {
    /// What is attempted, if anything.
    pub kind: Option<Kind>,
    pub outcome: Outcome,
    /// The book of its problem within the event.
    pub book: Book,
}

/// What becomes of an object at an event, and the book of its problem after it.
#[derive(Clone, Copy)]
pub struct Decision {
    pub outcome: Outcome,
    pub book: Book,
}

/// Decides what becomes of an object at an event (chapter "Notifications"): `found` is what the event finds, `book`
/// what was kept of the object's problem before it. It asks that a downtime and a notice more can be counted, and
/// that the book and the status know the same state. Whether a notice that goes out counts is told to `conclude`. It
/// takes no memory.
pub fn decide(rules: &Rules<'_>, object: ObjectId, found: &Found, book: Book) -> Judgement
    requires rules { AreRules rules.now }
    requires object { object.0 < length rules.now.config.now.objects }
    requires moment { found.now.moment ≤ last_moment }
    requires depth { found.now.before.depth + 1 < 2 ^ 64 }
    requires number { book.sent + 2 < 2 ^ 64 }
    requires state { book.state ≡ found.now.before.state }
    requires repeats { found.now.repeats ≡ true
        → is_problem_state found.now.before.state ≡ true
        → is_problem_state (hard_after object.0 found.now.event found.now.before.state) ≡ true }
    ensures decides { Decides rules.now object.0 found.now book result }
    ensures judgement { IsJudgement result }
{
    attempt_by_due();
    fit_on();
    let begun = begin(rules.config.choices, object, found, book);
    let ready = ready_by(rules, &book);
    match tried(object, found, ready) {
        Some(kind) => {
            let outcome = judge(rules, object, found, kind, begun);
            Judgement {
                kind: Some(kind),
                outcome,
                book: lapsed(rules, object, found, outcome, begun),
            }
        }
        None => Judgement {
            kind: None,
            outcome: Outcome::Nothing,
            book: lapsed(rules, object, found, Outcome::Nothing, begun),
        },
    }
}

/// What becomes of an object, once it is known whether a notice that goes out counts. It takes no memory.
pub fn conclude(rules: &Rules<'_>, object: ObjectId, judgement: Judgement, heard: bool) -> Decision
    requires rules { AreRules rules.now }
    requires object { object.0 < length rules.now.config.now.objects }
    requires judgement { IsJudgement judgement }
    ensures { Concludes rules.now object.0 judgement heard result }
{
    fit_on();
    let outcome = heard_as(judgement.outcome, heard);
    match judgement.kind {
        Some(kind) => Decision {
            outcome,
            book: settle(rules, object, kind, outcome, judgement.book),
        },
        None => Decision {
            outcome,
            book: judgement.book,
        },
    }
}

/// The outcome, whose notice counts or doesn't.
fn heard_as(outcome: Outcome, heard: bool) -> Outcome
    ensures { result ≡ with_heard heard outcome }
{
    match outcome {
        Outcome::Sent {
            kind,
            state,
            number,
            moment,
            gap,
            reach,
        } => Outcome::Sent {
            kind,
            state,
            number,
            moment,
            gap,
            reach: Reach { heard, ..reach },
        },
        other => other,
    }
}

/// What is attempted, by a ready moment.
fn tried(object: ObjectId, found: &Found, ready: Option<u64>) -> Option<Kind>
    requires depth { found.now.before.depth + 1 < 2 ^ 64 }
    ensures { result ≡ tried object.0 found.now ready }
{
    let again = found.repeats && found.before.state.is_problem();
    with_repeat(
        again,
        attempted(object, found.event, found.before, ready, found.moment),
    )
}

/// What is attempted: a problem again, where nothing else is.
fn with_repeat(again: bool, kind: Option<Kind>) -> Option<Kind>
    ensures { result ≡ with_repeat again kind }
{
    match kind {
        Some(kind) => Some(kind),
        None => { if again { Some(Kind::Problem) } else { None } }
    }
}

/// The ready moment as the clock is asked for it.
fn ready_by(rules: &Rules<'_>, book: &Book) -> Option<u64>
    ensures { result ≡ timed rules.now.config.now book.now.due }
{
    if rules.config.choices.at_results {
        None
    } else {
        book.due()
    }
}

/// The book within an event, before what becomes of it.
fn begin(choices: Choices, object: ObjectId, found: &Found, book: Book) -> Book
    requires moment { found.now.moment ≤ last_moment }
    ensures { Begins choices object.0 found.now book result }
{
    fit_on();
    if is_taken_back(object, found) {
        let mut begun = book;
        begun.release(found.moment);
        return begun;
    }
    match found.event {
        EventKind::Hard(named, state) => {
            if named.0 == object.0 {
                let mut begun = book;
                begun.hard(choices, state, found.moment);
                begun
            } else {
                book
            }
        }
        _ => book,
    }
}

/// Whether the event takes back the acknowledgement of the object's problem, whatever event and past this is found at.
fn is_taken_back(object: ObjectId, found: &Found) -> bool
    ensures removal { result ≡ true → is_removal_of object.0 found.now.event ≡ true }
    ensures takes { (e : Event) (past : List Event) → found.now.event ≡ e.kind
        → found.now.before.acknowledged ≡ acknowledgement object.0 past
        → takes_back object.0 e past ≡ result }
{
    takes_back(object, found)
}

/// Whether it does, by what is found.
fn takes_back(object: ObjectId, found: &Found) -> bool
    ensures { result ≡ (is_removal_of object.0 found.now.event
        && is_some found.now.before.acknowledged) }
{
    found.event.is_removal_of(object) && found.before.acknowledged.is_some()
}
