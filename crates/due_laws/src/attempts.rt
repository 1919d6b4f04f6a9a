//! The law of what becomes of each attempt.

ghost use Rattle.due_laws.specs.Attempts.{EachAttemptIsAnswered};

/// Each attempt is stopped by a filter of the object, or each contact that it goes to is notified on each of its
/// lanes or refused.
pub fn answer_each_attempt()
    ensures { EachAttemptIsAnswered }
{}
