//! What decides on a local day among the dated lines of a period.

ghost use Rattle.std.specs.Prelude.{◌≡◌, true, List, [], ◌∷◌, ◌++◌, ◌<◌, All};
ghost use Rattle.day_rules.specs.Dates.{shown};
ghost use Rattle.due_model.specs.declared.config.Dated.{Dated};
ghost use Rattle.due_model.specs.claims.Days.{names_day};
ghost use Rattle.due_model.specs.claims.Limits.{day as day_length};
ghost use Rattle.time_period.specs.Classes.{IsDecided};
ghost use Rattle.time_period.specs.Ranges.{IsDay};

use crate::day::stretch_in;
use crate::stretch::Stretch;
use day_rules::{CalendarTime, class_of};
use due_model::config::Dated;

/// What decides among the lines that were looked at: their least class with a line that names the day, 6 where none does;
/// and whether such a line of that class holds a second, and a second up to which that stays.
#[derive(Clone, Copy)]
pub(crate) struct Decided {
    pub(crate) class: u8,
    pub(crate) stretch: Stretch,
}

impl Decided {
    /// With one line more. Few lines name a day, so that is asked first.
    fn with(self, line: &Dated, time: CalendarTime) -> Decided
        requires sorted { IsDay line.now.ranges }
        requires second { (shown time).second < day_length }
        ensures { (lines : List Dated) → IsDecided (shown time) lines self
            → IsDecided (shown time) (lines ++ line.now ∷ []) result }
    {
        if !time.is_named_by(line.day) {
            return self;
        }
        self.with_named(line, time)
    }

    /// The same with a line that names the day.
    fn with_named(self, line: &Dated, time: CalendarTime) -> Decided
        requires named { names_day (shown time) line.now.day ≡ true }
        requires sorted { IsDay line.now.ranges }
        requires second { (shown time).second < day_length }
        ensures { (lines : List Dated) → IsDecided (shown time) lines self
            → IsDecided (shown time) (lines ++ line.now ∷ []) result }
    {
        let class = class_of(line.day);
        let stretch = stretch_in(line.ranges.as_slice(), time.second());
        if class > self.class {
            self
        } else if class < self.class {
            Decided { class, stretch }
        } else {
            Decided {
                class,
                stretch: self.stretch.or(stretch),
            }
        }
    }
}

/// What decides among these lines.
pub(crate) fn decided_by(dated: &[Dated], time: CalendarTime) -> Decided
    requires sorted { All (λ line. IsDay line.ranges) dated.now }
    requires second { (shown time).second < day_length }
    ensures { IsDecided (shown time) dated.now result }
{
    let mut decided = Decided {
        class: 6,
        stretch: Stretch::never(),
    };
    for line in dated {
        decided = decided.with(line, time);
    }
    decided
}
