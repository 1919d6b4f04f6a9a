//! A period as it is worked out.

ghost use Rattle.std.specs.Prelude.{◌≡◌, ℕ, ◌<◌, ◌≤◌, ◌^◌, ◌==◌, All, IfOk, Some, length};
ghost use Rattle.std.specs.Arc.{arc_value};
ghost use Rattle.due_model.specs.declared.config.Config.{Config};
ghost use Rattle.due_model.specs.declared.config.PeriodId.{PeriodId};
ghost use Rattle.due_model.specs.claims.Limits.{day as day_length, last_moment, max_periods};
ghost use Rattle.due_model.specs.claims.Local.{weekday_at};
ghost use Rattle.due_model.specs.claims.Periods.{in_period, next_in};
ghost use Rattle.day_rules.specs.Dates.{shown};
ghost use Rattle.time_period.specs.claims.Days.{AreCompiled, holds_at, IsCompiled};
ghost use Rattle.time_period.specs.Days.{worked_by};
ghost use Rattle.time_period.specs.claims.Days.{worked_holds};
ghost use Rattle.time_period.specs.Flags.{flag_at};
ghost use Rattle.time_period.specs.Needs.{picked};
ghost use Rattle.time_period.specs.claims.Steps.{flags_after};
ghost use Rattle.time_period.specs.Steps.{IsSteady};
ghost use Rattle.time_period.specs.Stretches.{IsStretch, Stays};

use crate::step::{Step, flag};
use crate::stretch::Stretch;
use day_rules::CalendarTime;
use due_model::config::PeriodId;
use due_model::limits::{DAY, MAX_PERIODS};
use due_model::sequence::Sequence;
use std::alloc::AllocError;
use std::marker::Model;
use std::sync::Arc;
use zone_times::clock::ZoneClock;
use zone_times::local::LocalTime;

/// How far `next` looks, in seconds: 400 days.
pub const REACH: u64 = 34_560_000;

/// A local time on the calendar.
fn on_calendar(time: LocalTime) -> CalendarTime
    ensures { shown result ≡ record { day = time.day; second = time.second } }
{
    CalendarTime::new(time.day, time.second)
}

/// Sets the flags of the periods of these numbers at a local time, one after the other. It answers a second up to which
/// their own ranges stay as they are.
fn run(table: &[Step], needs: &[u16], time: CalendarTime, flags: &mut [bool]) -> u32
    requires within { All (λ n. n < length table.now) needs.now }
    requires second { (shown time).second < day_length }
    requires long { length flags.old ≡ max_periods }
    ensures long { length flags.new ≡ max_periods }
    ensures flags { (n : ℕ) → flag_at flags.new n
        ≡ flags_after (shown time) (picked table.now needs.now) (flag_at flags.old) n }
    ensures later { (shown time).second < result }
    ensures end { result ≤ day_length }
    ensures steady { All (IsSteady (shown time) result) (picked table.now needs.now) }
{
    let mut end = DAY;
    for number in needs {
        end = end.min(table[usize::from(*number)].mark(time, flags));
    }
    end
}

/// A period as it is worked out: for each weekday, the ranges of local seconds in which it holds, sorted and with a
/// gap between each two; or steps, where a dated line is reached from it. Contracts see these. What is kept of all
/// periods of a configuration is there once, and each of them holds it; a period of `n` steps takes `2 * n` bytes beside.
#[derive(Drop)]
pub struct Compiled {
    number: u16,
    /// What is kept of all periods, by their numbers.
    table: Arc<Sequence<Step>>,
    /// One number for each period that is needed, each after those that it excludes; none where no dated line is reached.
    needs: Sequence<u16>,
}

impl Model for Compiled {
    ghost use Rattle.std.specs.Arc.{arc_value};
    ghost use Rattle.time_period.specs.claims.Days.{Worked};
    ghost use Rattle.time_period.specs.Days.{IsKeptBy, worked_by};

    ghost Value = { Worked };

    ghost view = { λ s. worked_by s.number (arc_value s.table) s.needs };

    ghost invariant = { λ s. IsKeptBy s.number (arc_value s.table) s.needs };
}

impl Compiled {
    ghost use Rattle.time_period.specs.Days.{IsKeptBy};

    /// The period of that number, by what is kept of all and the numbers of the periods that it needs.
    pub(crate) fn new(
        number: u16,
        table: &Arc<Sequence<Step>>,
        needs: Vec<u16>,
    ) -> Result<Compiled, AllocError>
        requires { IsKeptBy number (arc_value table.now) needs.items }
        ensures { IfOk result (λ worked. worked ≡ worked_by number (arc_value table.now) needs.items) }
    {
        Ok(Compiled {
            number,
            table: Arc::try_clone(table)?,
            needs: Sequence::new(needs),
        })
    }

    /// Whether it has no steps.
    fn is_weekly(&self) -> bool
        ensures { result ≡ (length self.now.steps == 0) }
    {
        self.needs.len() == 0
    }

    /// Whether a period without steps holds at a second of a weekday, and a second up to which that stays.
    fn stretch(&self, weekday: u8, second: u32) -> Stretch
        requires { second < day_length }
        ensures { IsStretch (holds_at self.now.days weekday) second result }
    {
        self.table.as_slice()[usize::from(self.number)].on_weekday(weekday, second)
    }

    /// Sets the flags of the periods of its steps at a local time. It answers a second up to which that stays, and the flag
    /// of the period.
    fn run_steps(&self, time: CalendarTime, flags: &mut [bool]) -> Stretch
        requires second { (shown time).second < day_length }
        requires long { length flags.old ≡ max_periods }
        ensures long { length flags.new ≡ max_periods }
        ensures holds { result.holds
            ≡ flags_after (shown time) self.now.steps (flag_at flags.old) self.now.number }
        ensures later { (shown time).second < result.end }
        ensures steady { All (IsSteady (shown time) result.end) self.now.steps }
    {
        let end = run(self.table.as_slice(), self.needs.as_slice(), time, flags);
        Stretch {
            holds: flag(flags, self.number),
            end,
        }
    }

    /// The same of a period with steps, at a local time, by flags of all periods.
    fn stretch_by(&self, time: LocalTime, flags: &mut [bool]) -> Stretch
        requires some { 0 < length self.now.steps }
        requires long { length flags.old ≡ max_periods }
        ensures stretch { IsStretch (λ k. worked_holds self.now (flag_at flags.old)
            (record { day = time.day; second = k })) time.second result }
        ensures long { length flags.new ≡ max_periods }
    {
        self.run_steps(on_calendar(time), flags)
    }

    /// The same of any period. The flags are there where it has steps.
    fn stretch_at(&self, time: LocalTime, flags: &mut [bool]) -> Stretch
        requires weekday { time.weekday
            ≡ weekday_at (record { day = time.day; second = time.second }) }
        requires flags { 0 < length self.now.steps → length flags.old ≡ max_periods }
        ensures stretch { IsStretch (λ k. worked_holds self.now (flag_at flags.old)
            (record { day = time.day; second = k })) time.second result }
        ensures long { 0 < length self.now.steps → length flags.new ≡ max_periods }
    {
        if self.is_weekly() {
            self.stretch(time.weekday, time.second)
        } else {
            self.stretch_by(time, flags)
        }
    }

    /// Whether a moment, in seconds since the epoch, is in the period (chapter "Time Periods"). It takes no memory.
    pub fn contains(&self, zone: &ZoneClock<'_>, t: u64) -> bool
        requires { t ≤ last_moment }
        ensures { (c : Config) (period : PeriodId) → IsCompiled c period self.now
            → result ≡ in_period c zone.now (Some period) t }
    {
        if self.is_weekly() {
            self.is_in(zone, t, &mut [])
        } else {
            self.is_in_by_steps(zone, t)
        }
    }

    /// The same. (The flags are made in a function of their own, since the compiler makes them wherever it begins.)
    fn is_in_by_steps(&self, zone: &ZoneClock<'_>, t: u64) -> bool
        requires { t ≤ last_moment }
        ensures { (c : Config) (period : PeriodId) → IsCompiled c period self.now
            → result ≡ in_period c zone.now (Some period) t }
    {
        self.is_in(zone, t, &mut [false; MAX_PERIODS])
    }

    /// The same, by flags.
    fn is_in(&self, zone: &ZoneClock<'_>, t: u64, flags: &mut [bool]) -> bool
        requires moment { t ≤ last_moment }
        requires flags { 0 < length self.now.steps → length flags.old ≡ max_periods }
        ensures { (c : Config) (period : PeriodId) → IsCompiled c period self.now
            → result ≡ in_period c zone.now (Some period) t }
    {
        self.stretch_at(zone.local_time(t), flags).holds
    }

    /// The least moment of the period at or after `t`, at most 400 days on. It takes no memory. Where a dated line is
    /// reached it looks at each day that it passes.
    pub fn next(&self, zone: &ZoneClock<'_>, t: u64) -> Option<u64>
        requires { t ≤ last_moment }
        ensures { (c : Config) (period : PeriodId) → IsCompiled c period self.now
            → result ≡ next_in c zone.now (Some period) t }
    {
        if self.is_weekly() {
            self.next_by(zone, t, &mut [])
        } else {
            self.next_by_steps(zone, t)
        }
    }

    /// The same, by flags that are made here.
    fn next_by_steps(&self, zone: &ZoneClock<'_>, t: u64) -> Option<u64>
        requires { t ≤ last_moment }
        ensures { (c : Config) (period : PeriodId) → IsCompiled c period self.now
            → result ≡ next_in c zone.now (Some period) t }
    {
        self.next_by(zone, t, &mut [false; MAX_PERIODS])
    }

    /// The same, by flags.
    fn next_by(&self, zone: &ZoneClock<'_>, t: u64, flags: &mut [bool]) -> Option<u64>
        requires moment { t ≤ last_moment }
        requires flags { 0 < length self.now.steps → length flags.old ≡ max_periods }
        ensures { (c : Config) (period : PeriodId) → IsCompiled c period self.now
            → result ≡ next_in c zone.now (Some period) t }
    {
        let end = t + REACH + 1;
        let mut at = t;
        while at < end {
            let (holds, until) = self.stays(zone, at, flags);
            if holds {
                return Some(at);
            }
            at = until;
        }
        None
    }

    /// Whether the period holds at a moment, and a moment up to which that stays.
    fn stays(&self, zone: &ZoneClock<'_>, t: u64, flags: &mut [bool]) -> (bool, u64)
        requires moment { t < 2 ^ 35 }
        requires flags { 0 < length self.now.steps → length flags.old ≡ max_periods }
        ensures stays { (c : Config) (period : PeriodId) → IsCompiled c period self.now
            → Stays (in_period c zone.now (Some period)) t result.0 result.1 }
        ensures later { t < result.1 }
        ensures flags { 0 < length self.now.steps → length flags.new ≡ max_periods }
    {
        let local = zone.local_time(t);
        let stretch = self.stretch_at(local, flags);
        let left = u64::from(stretch.end - local.second);
        (stretch.holds, zone.goes_on_until(t).min(t + left))
    }
}

/// Whether a moment, in seconds since the epoch, is in a period (chapter "Time Periods"). No period is always; one whose
/// number isn't among those worked out never holds. The periods are the configuration's, in the order of their numbers.
/// It takes no memory.
pub fn is_in_period(
    periods: &[Compiled],
    period: Option<PeriodId>,
    zone: &ZoneClock<'_>,
    t: u64,
) -> bool
    requires { t ≤ last_moment }
    ensures { (c : Config) → AreCompiled c periods.now → result ≡ in_period c zone.now period t }
{
    match period {
        Some(number) => match periods.get(usize::from(number.0)) {
            Some(compiled) => compiled.contains(zone, t),
            None => false,
        },
        None => true,
    }
}
