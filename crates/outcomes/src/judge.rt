//! What becomes of an attempt.

ghost use Rattle.std.specs.Prelude.{◌≡◌, ◌≤◌, ◌<◌, ◌+◌, ◌^◌, ◌&&◌};
ghost use Rattle.std.specs.Prelude.{if◌then◌else◌, length, slice_get, true, IfSome, None, Some};
ghost use Rattle.due_model.specs.declared.config.Object.{Object};
ghost use Rattle.due_model.specs.claims.Histories.{gap_of, judged, told_for};
ghost use Rattle.due_model.specs.claims.Limits.{last_moment};
ghost use Rattle.due_model.specs.claims.Readings.{is_hard_of};
ghost use Rattle.due_model.specs.claims.Rules.{letter_of};
ghost use Rattle.filters.specs.Attempt.{IsLastInRange, plain};
ghost use Rattle.outcomes.specs.Found.{attempt_by, view_by};
ghost use Rattle.outcomes.specs.Outcome.{IsInRange, IsOfKind, with_heard};
ghost use Rattle.outcomes.specs.Rules.{AreRules};
ghost use Rattle.problem_count.specs.Book.{longest_gap};

use crate::found::Found;
use crate::rules::Rules;
use due_model::config::{Object, ObjectId};
use due_model::notice::{Kind, Outcome, Reach};
use due_model::options::OptionLetters;
use due_model::rules::{Last, View};
use escalation::interval::matching_interval;
use filters::attempt::Attempt;
use filters::object_filters::object_verdict;
use problem_count::Book;

/// What becomes of an attempt of this kind: the first filter that fails stops it, else it goes out.
pub(crate) fn judge(
    rules: &Rules<'_>,
    object: ObjectId,
    found: &Found,
    kind: Kind,
    book: Book,
) -> Outcome
    requires rules { AreRules rules.now }
    requires object { object.0 < length rules.now.config.now.objects }
    requires moment { found.now.moment ≤ last_moment }
    ensures kind { IsOfKind kind result }
    ensures range { IsInRange result }
    ensures value { (settings : Object)
        → slice_get rules.now.config.now.objects object.0 ≡ Some settings
        → result ≡ with_heard true (judged rules.now.config.now rules.now.zone.now object.0
        settings (view_by object.0 settings found.now book) (attempt_by found.now kind)) }
{
    let settings = &rules.config.objects.as_slice()[usize::from(object.0)];
    let view = view_of(object, settings, found, book);
    let attempt = attempt_of(rules, settings, found, kind);
    let number = kind.number_after(view.sent);
    match object_verdict(rules.config.choices.order, view, &attempt) {
        Ok(()) => Outcome::Sent {
            kind,
            state: attempt.state,
            number,
            moment: attempt.moment,
            gap: gap_of(rules, object, &attempt, number),
            reach: reach_of(rules, settings, kind, view),
        },
        Err(filter) => Outcome::Suppressed {
            kind,
            state: attempt.state,
            number,
            moment: attempt.moment,
            filter,
        },
    }
}

/// What the filters read of an object with these settings.
fn view_of(object: ObjectId, settings: &Object, found: &Found, book: Book) -> View
    ensures value { result ≡ view_by object.0 settings.now found.now book }
    ensures sent { result.sent + 1 < 2 ^ 64 }
    ensures began { result.began ≤ last_moment }
    ensures last { IfSome result.last IsLastInRange }
{
    View {
        program: found.program,
        enabled: settings.is_enabled(found.after.switched),
        down: 0 < found.after.depth || found.host_down,
        flapping: found.after.flapping,
        options: settings.options,
        sent: book.sent(),
        period: settings.period,
        depends: found.depends,
        acknowledged: found.after.acknowledged.is_some(),
        began: book.began(),
        delay: settings.delay,
        last: last_of(book),
        renews: renews(settings, found, object),
        told: book.told(),
        host_problem: found.host_problem,
    }
}

/// The last notice, unless the wait after it was ended.
fn last_of(book: Book) -> Option<Last>
    ensures value { result ≡ (if book.ended then None else book.last) }
    ensures range { IfSome result IsLastInRange }
{
    if book.ended() { None } else { book.last() }
}

/// Whether the event is a hard state of a volatile service.
fn renews(settings: &Object, found: &Found, object: ObjectId) -> bool
    ensures { result ≡ (settings.now.volatile && is_hard_of object.0 found.now.event) }
{
    settings.volatile && found.event.is_hard_of(object)
}

/// The letters of the states told in the problem, for the recovery of a service by the daemon's rule.
fn told_for(
    rules: &Rules<'_>,
    settings: &Object,
    kind: Kind,
    told: OptionLetters,
) -> Option<OptionLetters>
    ensures { result ≡ told_for rules.now.config.now settings.now kind told }
{
    if rules.config.choices.told && (kind.is_recovery() && settings.host.is_some()) {
        Some(told)
    } else {
        None
    }
}

/// How far a notice of an object with these settings reaches, if it counts.
fn reach_of(rules: &Rules<'_>, settings: &Object, kind: Kind, view: View) -> Reach
    ensures { result ≡ record {
      heard = true;
      told = told_for rules.now.config.now settings.now kind view.told;
      standing = view.sent;
    } }
{
    Reach {
        heard: true,
        told: told_for(rules, settings, kind, view.told),
        standing: view.sent,
    }
}

/// The attempt, with what its filters read besides.
fn attempt_of<'a>(rules: &Rules<'a>, settings: &Object, found: &Found, kind: Kind) -> Attempt<'a>
    ensures plain { plain result ≡ attempt_by found.now kind }
    ensures letter { result.letter ≡ letter_of kind found.now.after.state }
    ensures zone { result.zone.now ≡ rules.now.zone.now }
    ensures periods { result.periods.now ≡ rules.now.periods.now }
{
    Attempt {
        moment: found.moment,
        kind,
        state: found.after.state,
        letter: kind.letter(found.after.state),
        service: settings.host.is_some(),
        zone: rules.zone,
        periods: rules.periods,
    }
}

/// How long after a notice of this number the next of the same state is due, in seconds: only a problem's has
/// such an interval.
fn gap_of(rules: &Rules<'_>, object: ObjectId, attempt: &Attempt<'_>, number: u64) -> u64
    requires rules { AreRules rules.now }
    requires object { object.0 < length rules.now.config.now.objects }
    requires moment { attempt.now.moment ≤ last_moment }
    requires letter { attempt.now.letter ≡ letter_of attempt.now.kind attempt.now.state }
    ensures value { (settings : Object)
        → slice_get rules.now.config.now.objects object.0 ≡ Some settings
        → result ≡ gap_of rules.now.config.now rules.now.zone.now object.0 settings
        (plain attempt.now) number }
    ensures range { result ≤ longest_gap }
{
    if attempt.kind.is_problem() {
        matching_interval(
            rules.config,
            object,
            number,
            attempt.letter,
            attempt.moment,
            rules.periods,
            rules.zone,
        )
    } else {
        0
    }
}
