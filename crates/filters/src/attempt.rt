//! A notification that is attempted, with what its filters read besides it.

ghost use Rattle.std.specs.Prelude.{◌≡◌, ◌≤◌, not};
ghost use Rattle.due_model.specs.declared.config.Config.{Config};
ghost use Rattle.due_model.specs.claims.Limits.{last_moment};
ghost use Rattle.due_model.specs.claims.Periods.{in_period};
ghost use Rattle.due_model.specs.claims.Rules.{has_letter};
ghost use Rattle.time_period.specs.claims.Days.{AreCompiled};

use due_model::config::PeriodId;
use due_model::notice::Kind;
use due_model::options::{OptionLetter, OptionLetters};
use due_model::state::State;
use time_period::compiled::{Compiled, is_in_period};
use zone_times::clock::ZoneClock;

/// A notification that is attempted, with all that filters read besides the object's view. Definitions speak of
/// `due_model`'s plain attempt: the kind, the state and the moment. It borrows the clock and the periods.
#[derive(Clone, Copy)]
pub struct Attempt<'a> {
    /// In seconds since the epoch: 0 to 32,503,679,999.
    pub moment: u64,
    pub kind: Kind,
    /// The object's last hard state, the event's own counted.
    pub state: State,
    /// The letter of the kind and the state, as `Kind::letter` gives it.
    pub letter: OptionLetter,
    /// Whether it is about a service.
    pub service: bool,
    /// The clock of the time zone in which periods are read.
    pub zone: &'a ZoneClock<'a>,
    /// The periods of the configuration as they are worked out, in the order of their numbers.
    pub periods: &'a [Compiled],
}

impl Attempt<'_> {
    /// Whether the letter isn't in the set.
    pub(crate) fn lacks_letter(&self, options: OptionLetters) -> bool
        ensures { result ≡ not (has_letter options self.now.letter) }
    {
        !options.contains(self.letter)
    }

    /// Whether the moment isn't in the period; none is always.
    pub(crate) fn is_outside(&self, period: Option<PeriodId>) -> bool
        requires moment { self.now.moment ≤ last_moment }
        ensures { (c : Config) → AreCompiled c self.now.periods.now
            → result ≡ not (in_period c self.now.zone.now period self.now.moment) }
    {
        !is_in_period(self.periods, period, self.zone, self.moment)
    }
}
