//! What is kept of a period from which a dated line is reached, or of one that such a period excludes.

ghost use Rattle.std.specs.Prelude.{◌≡◌, ℕ, [], ◌<◌, ◌≤◌, All, length, slice_index_or};
ghost use Rattle.std.specs.List.{list_any};
ghost use Rattle.due_model.specs.claims.Limits.{day as day_length, max_periods};
ghost use Rattle.day_rules.specs.Dates.{shown};
ghost use Rattle.time_period.specs.Flags.{flag_at};
ghost use Rattle.time_period.specs.claims.Ranges.{in_ranges};
ghost use Rattle.time_period.specs.Ranges.{IsDay};
ghost use Rattle.time_period.specs.claims.Steps.{own_holds, step_flag};
ghost use Rattle.time_period.specs.Steps.{at_second, IsKept, is_plain, IsSteady};
ghost use Rattle.time_period.specs.claims.Steps.{with_flag};
ghost use Rattle.time_period.specs.Stretches.{IsStretch};

use crate::day::stretch_in;
use crate::decided::decided_by;
use crate::stretch::Stretch;
use day_rules::CalendarTime;
use due_model::config::{Dated, PeriodId, Range};
use due_model::sequence::Sequence;
use std::alloc::Global;
use std::marker::Model;

/// Whether a weekday's ranges hold at a second, and a second up to which that stays.
fn days_stretch(days: &[Sequence<Range>], weekday: u8, second: u32) -> Stretch
    requires sorted { All IsDay days.now }
    requires second { second < day_length }
    ensures { IsStretch (in_ranges (slice_index_or days.now weekday [])) second result }
{
    match days.get(usize::from(weekday)) {
        Some(day) => stretch_in(day.as_slice(), second),
        None => Stretch::never(),
    }
}

/// Whether one of these periods holds, by the flags.
fn holds_any(excludes: &[PeriodId], flags: &[bool]) -> bool
    ensures { result ≡ list_any (λ excluded. flag_at flags.now excluded.0) excludes.now }
{
    excludes.iter().any(|excluded| flag(flags, excluded.0))
}

/// The flag of a number; false, if there is none.
pub(crate) fn flag(flags: &[bool], number: u16) -> bool
    ensures { result ≡ flag_at flags.now number }
{
    match flags.get(usize::from(number)) {
        Some(flag) => *flag,
        None => false,
    }
}

/// Sets the flag of a number.
pub(crate) fn set_flag(flags: &mut [bool], number: u16, holds: bool)
    requires { number < length flags.old }
    ensures long { length flags.new ≡ length flags.old }
    ensures flags { (n : ℕ) → flag_at flags.new n ≡ with_flag (flag_at flags.old) number holds n }
{
    flags[usize::from(number)] = holds;
}

/// What is kept of a period: its ranges by weekdays and of its dated lines, all in order, and the periods that it excludes.
#[derive(Drop)]
pub(crate) struct Step {
    number: u16,
    days: Sequence<Sequence<Range>>,
    dated: Sequence<Dated>,
    excludes: Sequence<PeriodId>,
}

impl Model for Step {
    ghost use Rattle.time_period.specs.claims.Steps.{Own};
    ghost use Rattle.time_period.specs.Steps.{IsKept};

    ghost Value = { Own };

    ghost view = { λ s. record {
      number = s.number;
      days = s.days;
      dated = s.dated;
      excludes = s.excludes;
    } };

    ghost invariant = { λ s. IsKept (record {
      number = s.number;
      days = s.days;
      dated = s.dated;
      excludes = s.excludes;
    }) };
}

impl Step {
    /// What is kept of the period of that number.
    pub(crate) fn new(
        number: u16,
        days: Sequence<Sequence<Range>>,
        dated: Sequence<Dated>,
        excludes: Sequence<PeriodId>,
    ) -> Step
        requires { IsKept (record { number = number; days = days; dated = dated; excludes = excludes }) }
        ensures { result
            ≡ record { number = number; days = days; dated = dated; excludes = excludes } }
    {
        Step {
            number,
            days,
            dated,
            excludes,
        }
    }

    /// The same of a period that is kept by its days alone.
    pub(crate) fn of_days(alloc: Global, number: u16, days: Sequence<Sequence<Range>>) -> Step
        requires number { number < max_periods }
        requires sorted { All IsDay days }
        ensures { result ≡ record { number = number; days = days; dated = []; excludes = [] } }
    {
        let dated = Sequence::new(Vec::new(alloc));
        let excludes = Sequence::new(Vec::new(alloc));
        Step::new(number, days, dated, excludes)
    }

    /// The number of the period.
    fn number(&self) -> u16
        ensures number { result ≡ self.now.number }
        ensures small { result < max_periods }
    {
        self.number
    }

    /// Whether it is kept by its days alone.
    pub(crate) fn is_plain(&self) -> bool
        ensures { result ≡ is_plain self.now }
    {
        self.dated.len() == 0 && self.excludes.len() == 0
    }

    /// Whether its days hold at a second of a weekday, and a second up to which that stays.
    pub(crate) fn on_weekday(&self, weekday: u8, second: u32) -> Stretch
        requires { second < day_length }
        ensures { IsStretch (in_ranges (slice_index_or self.now.days weekday [])) second result }
    {
        days_stretch(self.days(), weekday, second)
    }

    /// Its days.
    fn days(&self) -> &[Sequence<Range>]
        ensures days { result.now ≡ self.now.days }
        ensures sorted { All IsDay result.now }
    {
        self.days.as_slice()
    }

    /// Its dated lines.
    fn dated(&self) -> &[Dated]
        ensures dated { result.now ≡ self.now.dated }
        ensures sorted { All (λ line. IsDay line.ranges) result.now }
    {
        self.dated.as_slice()
    }

    /// The periods that it excludes.
    pub(crate) fn excludes(&self) -> &[PeriodId]
        ensures excludes { result.now ≡ self.now.excludes }
        ensures few { All (λ excluded. excluded.0 < max_periods) result.now }
    {
        self.excludes.as_slice()
    }

    /// Whether the period's own ranges hold at a second of a day, and a second up to which that stays.
    fn stretch(&self, time: CalendarTime) -> Stretch
        requires { (shown time).second < day_length }
        ensures { IsStretch (λ k. own_holds self.now (at_second (shown time) k)) (shown time).second result }
    {
        let decided = decided_by(self.dated(), time);
        if decided.class < 6 {
            decided.stretch
        } else {
            days_stretch(self.days(), time.weekday(), time.second())
        }
    }

    /// Sets the flag of the period at a local time, where those of the periods that it excludes are set. It answers a
    /// second up to which its own ranges stay as they are.
    pub(crate) fn mark(&self, time: CalendarTime, flags: &mut [bool]) -> u32
        requires second { (shown time).second < day_length }
        requires long { length flags.old ≡ max_periods }
        ensures long { length flags.new ≡ max_periods }
        ensures flags { (n : ℕ) → flag_at flags.new n ≡ with_flag (flag_at flags.old) self.now.number
            (step_flag (flag_at flags.old) (shown time) self.now) n }
        ensures later { (shown time).second < result }
        ensures end { result ≤ day_length }
        ensures steady { IsSteady (shown time) result self.now }
    {
        let own = self.stretch(time);
        let holds = own.holds && !holds_any(self.excludes(), flags);
        set_flag(flags, self.number(), holds);
        own.end
    }
}
