//! A book: the problem of one object, told event by event what became of it.

ghost use Rattle.std.specs.Prelude.{◌≡◌, ◌+◌, ◌^◌, ◌<◌, ◌≤◌, ◌&&◌, ◌||◌, true, None, Some};
ghost use Rattle.std.specs.Prelude.{if◌then◌else◌};
ghost use Rattle.due_model.specs.claims.Limits.{last_moment};
ghost use Rattle.due_model.specs.claims.Readings.{is_problem_state};
ghost use Rattle.problem_count.specs.claims.Book.{new_book};
ghost use Rattle.problem_count.specs.Book.{longest_gap, LastIsInRange};
ghost use Rattle.problem_count.specs.Book.{after_hard, after_release, after_sent, begins_problem, delayed_from};
ghost use Rattle.problem_count.specs.Book.{delays_by, emptied, is_change, number_of, retry_by, stated};
ghost use Rattle.problem_count.specs.Fits.{FitsNothing, HardFits, SentFits, LapseFits, SuppressedFits, UnheardFits};
ghost use Rattle.due_model.specs.claims.Histories.{waits_a_while};
ghost use Rattle.problem_count.specs.Fits.{DueIsReady, NumberIsNext, ReleaseFits};

use due_model::config::Choices;
use due_model::notice::Filter;
use due_model::options::OptionLetters;
use due_model::rules::{Last, next_notice, same_state};
use due_model::state::State;
use std::marker::Model;

/// What is kept of an object's last problem. It takes no memory. Moments are in seconds since the epoch.
///
/// An event that gives the object a hard state is told by `hard`, before what becomes of it. What becomes of an
/// attempt as a problem is told by `went_out` or `suppressed`; all else leaves the book as it is.
#[derive(Clone, Copy)]
pub struct Book {
    /// The object's last hard state.
    state: State,
    /// Since when the first delay runs.
    began: u64,
    /// How many notices of that problem went out.
    sent: u64,
    /// The last of them.
    last: Option<Last>,
    /// The letters of the states that they told.
    told: OptionLetters,
    /// Whether the wait after the last of them was ended.
    ended: bool,
    /// When the clock next attempts the problem that runs; none is never.
    due: Option<u64>,
}

impl Model for Book {
    ghost use Rattle.std.specs.Prelude.{◌+◌, ◌^◌, ◌<◌, ◌≤◌};
    ghost use Rattle.due_model.specs.claims.Limits.{last_moment};
    ghost use Rattle.problem_count.specs.claims.Book.{BookValues};
    ghost use Rattle.problem_count.specs.Book.{LastIsInRange};

    ghost Value = { BookValues };

    ghost view = { λ s. record {
      state = s.state;
      began = s.began;
      sent = s.sent;
      last = s.last;
      told = s.told;
      ended = s.ended;
      due = s.due;
    } };

    ghost inverse = { λ d. record {
      state = d.state;
      began = d.began;
      sent = d.sent;
      last = d.last;
      told = d.told;
      ended = d.ended;
      due = d.due;
    } };

    // Numbers and moments are in range, so that no sum of them is too great.
    ghost invariant = { λ s. (s.sent + 1 < 2 ^ 64) × (s.began ≤ last_moment)
        × LastIsInRange s.last };
}

impl Book {
    /// The book of an object of which nothing is known yet.
    pub fn new() -> Book
        ensures values { result ≡ new_book }
        ensures fits { FitsNothing result }
    {
        Book {
            state: State::Pending,
            began: 0,
            sent: 0,
            last: None,
            told: OptionLetters::NONE,
            ended: false,
            due: None,
        }
    }

    /// The object has this hard state at moment `t`. A problem state after an OK or a pending one begins a
    /// problem (chapter "Notifications"). Nothing is due until what becomes of the state is told; after an OK
    /// state nothing is due at all.
    pub fn hard(&mut self, choices: Choices, state: State, t: u64)
        requires { t ≤ last_moment }
        ensures values { self.new ≡ after_hard choices state t self.old }
        ensures fits { HardFits choices state t self.old self.new }
    {
        *self = self.in_state(choices, state, t);
    }

    /// The book of the object in this hard state at moment `t`.
    fn in_state(self, choices: Choices, state: State, t: u64) -> Book
        requires { t ≤ last_moment }
        ensures { result ≡ after_hard choices state t self }
    {
        let begun = self.begins(state);
        let anew = self.delays(choices, state);
        let over = self.ends(choices, state);
        self.emptied(begun).delayed(anew, t).stated(state, over)
    }

    /// Whether a problem begins with this hard state.
    fn begins(&self, state: State) -> bool
        ensures { result ≡ begins_problem state self.now }
    {
        state.is_problem() && !self.is_running()
    }

    /// Whether the hard state changes with this one.
    fn changes(&self, state: State) -> bool
        ensures { result ≡ is_change state self.now }
    {
        !same_state(state, self.state)
    }

    /// Whether the first delay runs anew with this hard state.
    fn delays(&self, choices: Choices, state: State) -> bool
        ensures { result ≡ delays_by choices state self.now }
    {
        if choices.delay {
            self.changes(state)
        } else {
            self.begins(state)
        }
    }

    /// Whether the wait after the last notice is ended with this hard state.
    fn ends(&self, choices: Choices, state: State) -> bool
        ensures { result ≡ (self.now.ended || (choices.reset_wait && is_change state self.now)) }
    {
        let changes = self.changes(state);
        self.ended || (choices.reset_wait && changes)
    }

    /// The book without the notices of its problem, where another begins.
    fn emptied(self, begins: bool) -> Book
        ensures { result ≡ emptied begins self }
    {
        if begins {
            Book {
                sent: 0,
                last: None,
                told: OptionLetters::NONE,
                ..self
            }
        } else {
            self
        }
    }

    /// The book with a first delay that runs from moment `t`, where it runs anew.
    fn delayed(self, anew: bool, t: u64) -> Book
        requires { t ≤ last_moment }
        ensures { result ≡ delayed_from anew t self }
    {
        if anew {
            Book { began: t, ..self }
        } else {
            self
        }
    }

    /// The book in this hard state, of which nothing is due, and of which the wait was ended or not.
    fn stated(self, state: State, ended: bool) -> Book
        ensures { result ≡ stated state ended self }
    {
        Book {
            state,
            ended,
            due: None,
            ..self
        }
    }

    /// The acknowledgement of the problem is taken back at moment `t`: from then on the clock attempts it again, if it runs.
    /// This is told before what becomes of the event.
    pub fn release(&mut self, t: u64)
        requires { t ≤ last_moment }
        ensures values { self.new ≡ after_release t self.old }
        ensures fits { ReleaseFits t self.old self.new }
    {
        self.due = self.due_where_running(t);
    }

    /// That moment, where a problem runs.
    fn due_where_running(&self, t: u64) -> Option<u64>
        ensures { result ≡ (if is_problem_state self.now.state then Some t else None) }
    {
        if self.is_running() { Some(t) } else { None }
    }

    /// What becomes of an event ends the wait after the last notice, if its gap isn't 0, or doesn't. This is told before
    /// what becomes of it.
    pub fn lapse(&mut self, lapses: bool)
        ensures values { self.new ≡ record self.old {
          ended = self.old.ended || (lapses && waits_a_while self.old.last);
        } }
        ensures fits { LapseFits lapses self.old self.new }
    {
        let waits = self.waits_a_while();
        self.ended = self.ended || (lapses && waits);
    }

    /// Whether there is a last notice, and its gap isn't 0.
    fn waits_a_while(&self) -> bool
        ensures { result ≡ waits_a_while self.now.last }
    {
        match self.last {
            Some(last) => last.gap != 0,
            None => false,
        }
    }

    /// A problem notice goes out at moment `t`; `interval` is how long it keeps the next of the same state back, in
    /// seconds (at most 60,000,000), and 0 is for ever (chapter "Notifications"). It asks for a running problem and
    /// a number below `u64::MAX`.
    pub fn went_out(&mut self, t: u64, interval: u64)
        requires runs { is_problem_state self.old.state ≡ true }
        requires number { self.old.sent + 2 < 2 ^ 64 }
        requires moment { t ≤ last_moment }
        requires interval { interval ≤ longest_gap }
        ensures values { self.new ≡ after_sent t interval self.old }
        ensures fits { SentFits t interval self.old self.new }
    {
        self.sent += 1;
        self.last = Some(Last {
            state: self.state,
            moment: t,
            gap: interval,
        });
        self.told = self.told.with(self.state.letter());
        self.ended = false;
        self.due = next_notice(t, interval);
    }

    /// A problem notice goes out at moment `t` and doesn't count, as it reaches nobody. The clock attempts the problem
    /// again 60 seconds later. It asks for a running problem.
    pub fn unheard(&mut self, t: u64)
        requires runs { is_problem_state self.old.state ≡ true }
        requires moment { t ≤ last_moment }
        ensures values { self.new ≡ record self.old { due = Some (t + 60) } }
        ensures fits { UnheardFits t self.old self.new }
    {
        self.due = Some(t + 60);
    }

    /// A filter stops an attempt as a problem at moment `t`. It doesn't count. The clock attempts the problem again:
    /// after `Period` and `FirstDelay` at `next`, a moment that the caller knows, and never where that is none; after
    /// `Interval` once the last notice's interval has passed; after `Acknowledged` never, until the next hard state;
    /// after any other filter 60 seconds later. It asks for a running problem.
    pub fn suppressed(&mut self, filter: Filter, t: u64, next: Option<u64>)
        requires runs { is_problem_state self.old.state ≡ true }
        requires moment { t ≤ last_moment }
        ensures values { self.new ≡ record self.old { due = retry_by self.old.last t next filter } }
        ensures fits { SuppressedFits filter t next self.old self.new }
    {
        self.due = self.retry(filter, t, next);
    }

    /// When a problem is attempted again, after an attempt at moment `t` that this filter stopped; none is never.
    fn retry(&self, filter: Filter, t: u64, next: Option<u64>) -> Option<u64>
        requires { t ≤ last_moment }
        ensures { result ≡ retry_by self.now.last t next filter }
    {
        match filter {
            Filter::Period | Filter::FirstDelay => next,
            Filter::Interval => {
                let last = self.last?;
                next_notice(last.moment, last.gap)
            }
            Filter::Acknowledged => None,
            Filter::Program
            | Filter::Disabled
            | Filter::Downtime
            | Filter::Flapping
            | Filter::Options
            | Filter::NoProblem
            | Filter::Dependency
            | Filter::HostDown
            | Filter::ContactDisabled
            | Filter::ContactOptions
            | Filter::ContactPeriod
            | Filter::ContactNotTold => Some(t + 60),
        }
    }

    /// The number of the running problem's next notice: 1 more than those that went out. It is 1 where no problem
    /// runs.
    pub fn number(&self) -> u64
        ensures value { result ≡ number_of self.now }
        ensures next { NumberIsNext self.now result }
    {
        if self.is_running() { self.sent + 1 } else { 1 }
    }

    /// When the clock next attempts the running problem; none is never. Nothing is due where no problem runs.
    pub fn due(&self) -> Option<u64>
        ensures value { result ≡ self.now.due }
        ensures ready { DueIsReady self.now result }
    {
        self.due
    }

    /// Whether a problem runs: the last hard state is a problem state.
    pub fn is_running(&self) -> bool
        ensures { result ≡ is_problem_state self.now.state }
    {
        self.state.is_problem()
    }

    /// How many notices of the last problem went out. It stays after the recovery, which has the next number.
    pub fn sent(&self) -> u64
        ensures value { result ≡ self.now.sent }
        ensures range { result + 1 < 2 ^ 64 }
    {
        self.sent
    }

    /// The last notice of the last problem that went out.
    pub fn last(&self) -> Option<Last>
        ensures value { result ≡ self.now.last }
        ensures range { LastIsInRange result }
    {
        self.last
    }

    /// The letters of the states that the notices of the last problem told.
    pub fn told(&self) -> OptionLetters
        ensures { result ≡ self.now.told }
    {
        self.told
    }

    /// Whether the wait after the last notice was ended.
    pub fn ended(&self) -> bool
        ensures { result ≡ self.now.ended }
    {
        self.ended
    }

    /// Since when the first delay runs; 0 where it never did.
    pub fn began(&self) -> u64
        ensures value { result ≡ self.now.began }
        ensures range { result ≤ last_moment }
    {
        self.began
    }
}
