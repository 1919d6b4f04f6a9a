//! The classes of rules, of which the least decides.

ghost use Rattle.std.specs.Prelude.{◌≡◌};
ghost use Rattle.due_model.specs.claims.Days.{class_of};

use due_model::config::DayRule;

/// The class of a rule, from 1 to 5. On a day that several lines name the least class decides (chapter "Time Periods", "Time
/// Range Exceptions").
pub fn class_of(rule: DayRule) -> u8
    ensures { result ≡ class_of rule }
{
    match rule {
        DayRule::Date { .. } => 1,
        DayRule::OfMonth { .. } => 2,
        DayRule::OfEachMonth { .. } => 3,
        DayRule::WeekdayOfMonth { .. } => 4,
        DayRule::WeekdayOfEachMonth { .. } => 5,
    }
}
