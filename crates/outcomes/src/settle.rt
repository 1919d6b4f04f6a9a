//! What is kept of a problem once it is known what became of an attempt.

ghost use Rattle.std.specs.Prelude.{◌≡◌, ◌≤◌, ◌<◌, ◌+◌, ◌^◌};
ghost use Rattle.std.specs.Prelude.{true, length, slice_get, Some};
ghost use Rattle.due_model.specs.declared.config.Object.{Object};
ghost use Rattle.due_model.specs.claims.Accepted.{ObjectFits};
ghost use Rattle.due_model.specs.claims.Limits.{last_moment};
ghost use Rattle.due_model.specs.claims.Readings.{is_problem_state};
ghost use Rattle.due_model.specs.claims.Rules.{is_problem};
ghost use Rattle.outcomes.specs.Outcome.{IsInRange, Settles};
ghost use Rattle.outcomes.specs.Rules.{AreRules};
ghost use Rattle.problem_count.specs.Fits.{IsNextMoment};

use crate::rules::Rules;
use due_model::config::{Object, ObjectId};
use due_model::notice::{Filter, Kind, Outcome};
use problem_count::Book;
use problem_count::laws::fit_on;

/// The book after this became of an attempt of this kind.
pub(crate) fn settle(
    rules: &Rules<'_>,
    object: ObjectId,
    kind: Kind,
    outcome: Outcome,
    book: Book,
) -> Book
    requires rules { AreRules rules.now }
    requires object { object.0 < length rules.now.config.now.objects }
    requires runs { is_problem kind ≡ true → is_problem_state book.state ≡ true }
    requires number { book.sent + 2 < 2 ^ 64 }
    requires range { IsInRange outcome }
    ensures { Settles rules.now object.0 kind outcome book result }
{
    fit_on();
    if !kind.is_problem() {
        return book;
    }
    let mut settled = book;
    match outcome {
        Outcome::Sent {
            moment,
            gap,
            reach,
            ..
        } => {
            if reach.heard {
                settled.went_out(moment, gap);
            } else {
                settled.unheard(moment);
            }
        }
        Outcome::Suppressed { moment, filter, .. } => {
            let settings = &rules.config.objects.as_slice()[usize::from(object.0)];
            settled.suppressed(
                filter,
                moment,
                next_attempt(rules, settings, book.began(), filter, moment),
            )
        }
        Outcome::Nothing => {}
    }
    settled
}

/// When a problem that began at that moment is attempted again, after an attempt at `t` that this filter stopped, where
/// the configuration says so: when its period next holds, or when its first delay is over.
fn next_attempt(
    rules: &Rules<'_>,
    settings: &Object,
    began: u64,
    filter: Filter,
    t: u64,
) -> Option<u64>
    requires rules { AreRules rules.now }
    requires moment { t ≤ last_moment }
    requires began { began ≤ last_moment }
    requires settings { ObjectFits rules.now.config.now settings.now }
    ensures { IsNextMoment rules.now.config.now rules.now.zone.now settings.now began filter t
        result }
{
    match filter {
        Filter::Period => match settings.period {
            Some(number) => rules.periods[usize::from(number.0)].next(rules.zone, t),
            None => Some(t),
        },
        Filter::FirstDelay => Some(began + 60 * u64::from(settings.delay)),
        _ => None,
    }
}
