//! A stretch of a day in which something holds, or doesn't.

ghost use Rattle.std.specs.Prelude.{◌≡◌, ℕ, ◌<◌, ◌≤◌, ◌&&◌, ◌||◌, Bool, true};
ghost use Rattle.std.specs.Prelude.{false, not, nat_le, nat_lt};
ghost use Rattle.due_model.specs.claims.Limits.{day};

use due_model::config::Range;
use due_model::limits::DAY;

/// Whether something holds at a second of the day, and a second up to which that stays.
#[derive(Clone, Copy)]
pub(crate) struct Stretch {
    pub(crate) holds: bool,
    pub(crate) end: u32,
    ghost in_day: { end ≤ day },
}

impl Stretch {
    ghost use Rattle.due_model.specs.claims.Periods.{in_range};
    ghost use Rattle.time_period.specs.Stretches.{IsStretch};

    /// Up to the end of the day it doesn't hold.
    pub(crate) fn never() -> Stretch
        ensures holds { result.holds ≡ false }
        ensures end { result.end ≡ day }
    {
        Stretch {
            holds: false,
            end: DAY,
        }
    }

    /// A range holds its start, and not its end.
    pub(crate) fn of_range(range: Range, second: u32) -> Stretch
        requires { second < day }
        ensures stretch { IsStretch (λ k. in_range k range) second result }
        ensures ends { range.start ≤ range.end → second < range.end → result.end ≤ range.end }
    {
        if second < range.start {
            Stretch {
                holds: false,
                end: range.start.min(DAY),
            }
        } else if second < range.end {
            Stretch {
                holds: true,
                end: range.end.min(DAY),
            }
        } else {
            Stretch::never()
        }
    }

    /// Where either holds.
    pub(crate) fn or(self, other: Stretch) -> Stretch
        ensures { (f g : ℕ → Bool) (from : ℕ) → IsStretch f from self → IsStretch g from other
            → IsStretch (λ k. f k || g k) from result }
    {
        Stretch {
            holds: self.holds || other.holds,
            end: self.end.min(other.end),
        }
    }

    /// Where the one holds and the other doesn't.
    pub(crate) fn without(self, other: Stretch) -> Stretch
        ensures { (f g : ℕ → Bool) (from : ℕ) → IsStretch f from self → IsStretch g from other
            → IsStretch (λ k. f k && not (g k)) from result }
    {
        Stretch {
            holds: self.holds && !other.holds,
            end: self.end.min(other.end),
        }
    }
}
