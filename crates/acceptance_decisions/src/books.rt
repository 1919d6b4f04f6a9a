//! A book of one object through a problem and the next, and through each filter. What the program makes of it is seen in `tests/rows`.

use due_model::config::Choices;
use due_model::limits::LAST_MOMENT;
use due_model::notice::Filter;
use due_model::rules::Last;
use due_model::state::State;
use problem_count::Book;
use std::process::Abort;

/// What a book is told.
#[derive(Clone, Copy)]
enum Told {
    /// The object has this hard state.
    Hard(State),
    /// A problem notice goes out, and keeps the next one back for so many seconds.
    Sent(u64),
    /// A filter stops a problem, to be attempted again at this moment where the configuration says when.
    Stopped(Filter, Option<u64>),
}

/// At this moment the book is told this, and then it has this number and is due at that moment.
type Step = (u64, Told, u64, Option<u64>);

/// The example `flapping`, and then the same state again, the recovery, and the next problem.
const NEXT_PROBLEM: [Step; 10] = [
    (1010, Told::Hard(State::Down), 1, None),
    (1010, Told::Stopped(Filter::Flapping, None), 1, Some(1070)),
    (1070, Told::Sent(60), 2, Some(1130)),
    (1080, Told::Hard(State::Down), 2, None),
    (1080, Told::Stopped(Filter::Interval, None), 2, Some(1130)),
    (1090, Told::Hard(State::Unreachable), 2, None),
    (1090, Told::Stopped(Filter::Program, Some(7)), 2, Some(1150)),
    (1100, Told::Hard(State::Up), 1, None),
    (1110, Told::Hard(State::Up), 1, None),
    (1120, Told::Hard(State::Down), 1, None),
];

/// When a problem is attempted again after each filter; never, where it is acknowledged, its period never holds or an interval
/// is 0.
const EACH_FILTER: [Step; 13] = [
    (1000, Told::Hard(State::Down), 1, None),
    (1000, Told::Stopped(Filter::Program, Some(7)), 1, Some(1060)),
    (1010, Told::Stopped(Filter::Disabled, None), 1, Some(1070)),
    (
        1020,
        Told::Stopped(Filter::Downtime, Some(7)),
        1,
        Some(1080),
    ),
    (
        1030,
        Told::Stopped(Filter::Flapping, Some(7)),
        1,
        Some(1090),
    ),
    (1040, Told::Stopped(Filter::Options, None), 1, Some(1100)),
    (
        1050,
        Told::Stopped(Filter::Dependency, Some(7)),
        1,
        Some(1110),
    ),
    (1055, Told::Stopped(Filter::Acknowledged, Some(7)), 1, None),
    (1060, Told::Stopped(Filter::Period, None), 1, None),
    (
        1070,
        Told::Stopped(Filter::FirstDelay, Some(1120)),
        1,
        Some(1120),
    ),
    (1120, Told::Sent(0), 2, None),
    (1130, Told::Stopped(Filter::Interval, Some(7)), 2, None),
    (
        1140,
        Told::Stopped(Filter::Period, Some(9000)),
        2,
        Some(9000),
    ),
];

/// The book after a step.
fn after_step(rt: &impl Abort, book: Book, t: u64, what: Told) -> Book {
    let mut book = book;
    assert!(rt; t <= LAST_MOMENT);
    match what {
        Told::Hard(state) => book.hard(Choices::own(), state, t),
        Told::Sent(interval) => {
            assert!(rt; book.is_running() && book.sent() < 1000 && interval <= 60_000_000);
            book.went_out(t, interval);
        }
        Told::Stopped(filter, next) => {
            assert!(rt; book.is_running());
            book.suppressed(filter, t, next);
        }
    }
    book
}

/// Each step gives the number and the moment that stand beside it: the book at their end.
fn goes(rt: &impl Abort, steps: &[Step]) -> Book {
    let mut book = Book::new();
    for (t, what, number, due) in steps {
        book = after_step(rt, book, *t, *what);
        assert!(rt; (book.number(), book.due()) == (*number, *due));
    }
    book
}

#[test]
fn worked_rows(rt: HostRuntime) {
    let next = goes(&rt, &NEXT_PROBLEM);
    assert!(&rt; (next.sent(), next.last(), next.began()) == (0, None, 1120));
    let last = Last {
        state: State::Down,
        moment: 1120,
        gap: 0,
    };
    let each = goes(&rt, &EACH_FILTER);
    assert!(&rt; (each.sent(), each.last(), each.began()) == (1, Some(last), 1000));
}
