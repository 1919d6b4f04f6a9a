//! Which periods hold at each minute of a week, holidays apart (chapter "Time Periods").

ghost use Rattle.std.specs.Prelude.{◌≡◌, ◌+◌, ◌-◌, ◌<◌, ◌≤◌, [], length, map, slice_index_or, true, All, IfOk, Some};
ghost use Rattle.due_model.specs.claims.Accepted.{IsAccepted};
ghost use Rattle.due_model.specs.declared.config.Config.{Config};
ghost use Rattle.due_model.specs.declared.zone.Zone.TheVariants.{Utc};
ghost use Rattle.due_model.specs.claims.Limits.{last_moment};
ghost use Rattle.due_model.specs.claims.Periods.{in_period};
ghost use Rattle.object_warnings.specs.Hours.{AreEnds, IsUndated, Stays, flags_at, moment_of, plain, row_at};
ghost use Rattle.object_warnings.specs.Hours.{rows_of, rows_upto, week, weekly};
ghost use Rattle.time_period.specs.claims.Days.{AreCompiled};

use crate::steady::is_steady;
use due_model::config::{Config, Period, PeriodId, Range};
use due_model::dependencies::Dependencies;
use due_model::escalations::Escalations;
use due_model::objects::Objects;
use due_model::sequence::Sequence;
use due_model::short_list::ShortList;
use due_model::zone::Zone;
use std::alloc::{AllocError, Global};
use std::marker::Model;
use time_period::compile::compile_all;
use time_period::compiled::Compiled;
use zone_times::clock::ZoneClock;

/// How many minutes a week has.
pub(crate) const WEEK: usize = 10_080;

/// A minute of a week, as a moment: 1970-01-05 was a Monday.
fn moment_of(minute: usize) -> u64
    requires { minute < week }
    ensures { result ≡ moment_of minute }
{
    345_600 + 60 * minute as u64
}

/// A copy of the ranges of a day.
fn ranges_of(alloc: Global, ranges: &Sequence<Range>) -> Result<Sequence<Range>, AllocError>
    ensures { IfOk result (λ copy. copy ≡ ranges.now) }
{
    Ok(Sequence::new(Vec::from_slice(alloc, ranges.as_slice())?))
}

/// A copy of the ranges of a weekday.
fn day_at(
    alloc: Global,
    days: &[Sequence<Range>],
    weekday: usize,
) -> Result<Sequence<Range>, AllocError>
    requires { weekday < length days.now }
    ensures { IfOk result (λ copy. copy ≡ slice_index_or days.now weekday []) }
{
    ranges_of(alloc, &days[weekday])
}

/// A copy of the numbers of periods.
fn numbers_of(alloc: Global, numbers: &Sequence<PeriodId>) -> Result<Sequence<PeriodId>, AllocError>
    ensures { IfOk result (λ copy. copy ≡ numbers.now) }
{
    Ok(Sequence::new(Vec::from_slice(alloc, numbers.as_slice())?))
}

/// A copy of a period without its dated lines.
fn plain(alloc: Global, period: &Period) -> Result<Period, AllocError>
    requires { length period.now.days ≡ 7 }
    ensures { IfOk result (λ copy. copy ≡ plain period.now) }
{
    Ok(Period {
        name: ShortList::new(alloc, period.name.as_slice())?,
        days: [
            day_at(alloc, &period.days, 0)?,
            day_at(alloc, &period.days, 1)?,
            day_at(alloc, &period.days, 2)?,
            day_at(alloc, &period.days, 3)?,
            day_at(alloc, &period.days, 4)?,
            day_at(alloc, &period.days, 5)?,
            day_at(alloc, &period.days, 6)?,
        ],
        dated: Sequence::new(Vec::new(alloc)),
        excludes: numbers_of(alloc, &period.excludes)?,
    })
}

/// Copies of periods without their dated lines.
fn plain_periods(alloc: Global, periods: &[Period]) -> Result<Vec<Period>, AllocError>
    requires { All (λ period. length period.days ≡ 7) periods.now }
    ensures { IfOk result (λ copies. copies.items ≡ map plain periods.now) }
{
    let mut copies = Vec::with_capacity(alloc, periods.len())?;
    for period in periods {
        copies.push(plain(alloc, period)?)?;
    }
    Ok(copies)
}

/// The periods of a configuration without their dated lines, and nothing else.
pub(crate) fn weekly(alloc: Global, config: &Config) -> Result<Config, AllocError>
    requires { IsAccepted config.now }
    ensures { IfOk result (λ made. made ≡ weekly config.now) }
{
    Ok(Config {
        choices: config.choices,
        objects: Objects::new(alloc, Vec::new(alloc))?,
        contacts: Sequence::new(Vec::new(alloc)),
        lanes: Sequence::new(Vec::new(alloc)),
        periods: Sequence::new(plain_periods(alloc, config.periods.as_slice())?),
        escalations: Escalations::new(alloc, Vec::new(alloc))?,
        dependencies: Dependencies::new(alloc, Vec::new(alloc))?,
    })
}

/// Whether the period of that number holds at a moment, in UTC.
fn holds_at(periods: &[Compiled], clock: &ZoneClock<'_>, t: u64, number: usize) -> bool
    requires moment { t ≤ last_moment }
    requires within { number < length periods.now }
    ensures { (c : Config) → AreCompiled c periods.now
        → result ≡ in_period c clock.now (Some (record { 0 = number })) t }
{
    periods[number].contains(clock, t)
}

/// Which of the periods hold at the minute of the week.
fn flags_at(
    alloc: Global,
    periods: &[Compiled],
    clock: &ZoneClock<'_>,
    minute: usize,
) -> Result<Vec<bool>, AllocError>
    requires clock { clock.now ≡ Utc }
    requires within { minute < week }
    ensures { IfOk result (λ flags. (c : Config) → AreCompiled c periods.now
        → flags.items ≡ flags_at c minute) }
{
    let t = moment_of(minute);
    let mut flags = Vec::with_capacity(alloc, periods.len())?;
    for number in 0..periods.len() {
        flags.push(holds_at(periods, clock, t, number))?;
    }
    Ok(flags)
}

/// Which hold at a minute, where `last` says it of the minute before: a copy where no range begins or ends between them.
fn flags_after(
    alloc: Global,
    periods: &[Compiled],
    plain: &[Period],
    clock: &ZoneClock<'_>,
    last: &[bool],
    minute: usize,
) -> Result<Vec<bool>, AllocError>
    requires clock { clock.now ≡ Utc }
    requires some { 0 < minute }
    requires within { minute < week }
    requires plain { All IsUndated plain.now }
    ensures { IfOk result (λ flags. (c : Config) → AreCompiled c periods.now → c.periods ≡ plain.now
        → last.now ≡ flags_at c (minute - 1) → flags.items ≡ flags_at c minute) }
{
    if is_steady(plain, clock, moment_of(minute - 1), moment_of(minute)) {
        let copy = Vec::from_slice(alloc, last)?;
        return Ok(copy);
    }
    let flags = flags_at(alloc, periods, clock, minute)?;
    Ok(flags)
}

/// The flags of a minute.
fn row_of(rows: &[Vec<bool>], minute: usize) -> &[bool]
    requires { minute < length rows.now }
    ensures { result.now ≡ row_at (map (λ row. row.items) rows.now) minute }
{
    rows[minute].as_slice()
}

/// Those of the first minute.
fn first_rows(
    alloc: Global,
    periods: &[Compiled],
    clock: &ZoneClock<'_>,
) -> Result<Vec<Vec<bool>>, AllocError>
    requires { clock.now ≡ Utc }
    ensures long { IfOk result (λ rows. length rows.items ≡ 1) }
    ensures rows { IfOk result (λ rows. (c : Config) → AreCompiled c periods.now
        → map (λ row. row.items) rows.items ≡ rows_upto c 1) }
{
    let row = flags_at(alloc, periods, clock, 0)?;
    let mut rows = Vec::with_capacity(alloc, WEEK)?;
    rows.push(row)?;
    Ok(rows)
}

/// Which hold at each minute. `plain` are the same periods, without dated lines.
fn rows_of(
    alloc: Global,
    periods: &[Compiled],
    plain: &[Period],
) -> Result<Vec<Vec<bool>>, AllocError>
    requires { All IsUndated plain.now }
    ensures long { IfOk result (λ rows. length rows.items ≡ week) }
    ensures rows { IfOk result (λ rows. (c : Config) → AreCompiled c periods.now → c.periods ≡ plain.now
        → map (λ row. row.items) rows.items ≡ rows_of c) }
{
    let zone = Zone::Utc;
    let clock = ZoneClock::new(&zone);
    let mut rows = first_rows(alloc, periods, &clock)?;
    for minute in 1..WEEK {
        let last = row_of(rows.as_slice(), minute - 1);
        let row = flags_after(alloc, periods, plain, &clock, last, minute)?;
        rows.push(row)?;
    }
    Ok(rows)
}

/// Whether flags are the same.
fn are_same(one: &[bool], other: &[bool]) -> bool
    ensures { result ≡ true → one.now ≡ other.now }
{
    one == other
}

/// Whether a minute and the next have the same flags.
fn goes_on(rows: &[Vec<bool>], minute: usize, next: usize) -> bool
    requires minute { minute < length rows.now }
    requires next { next < length rows.now }
    ensures { result ≡ true → row_at (map (λ row. row.items) rows.now) minute
        ≡ row_at (map (λ row. row.items) rows.now) next }
{
    are_same(rows[minute].as_slice(), rows[next].as_slice())
}

/// The end of a minute.
fn end_at(ends: &[u16], minute: usize) -> u16
    requires { minute < length ends.now }
    ensures { result ≡ slice_index_or ends.now minute 0 }
{
    ends[minute]
}

/// The end up to which the flags of a minute stay, where the ends of later ones are known.
fn end_of(rows: &[Vec<bool>], ends: &[u16], minute: usize) -> u16
    requires long { length rows.now ≡ week }
    requires within { minute < week }
    requires ends { AreEnds (map (λ row. row.items) rows.now) (minute + 1) ends.now }
    ensures { Stays (map (λ row. row.items) rows.now) minute result }
{
    let next = minute + 1;
    if next >= WEEK {
        return next as u16;
    }
    if goes_on(rows, minute, next) {
        return end_at(ends, next);
    }
    next as u16
}

/// So many ends.
fn no_ends(alloc: Global, count: usize) -> Result<Vec<u16>, AllocError>
    ensures { IfOk result (λ ends. length ends.items ≡ count) }
{
    vec![in alloc; 0; count]
}

/// The end up to which the flags of each minute stay.
fn ends_of(alloc: Global, rows: &[Vec<bool>]) -> Result<Vec<u16>, AllocError>
    requires { length rows.now ≡ week }
    ensures { IfOk result (λ ends. AreEnds (map (λ row. row.items) rows.now) 0 ends.items) }
{
    let mut ends = no_ends(alloc, WEEK)?;
    let mut minute = WEEK;
    while minute > 0 {
        minute -= 1;
        let end = end_of(rows, ends.as_slice(), minute);
        ends[minute] = end;
    }
    Ok(ends)
}

/// Which periods hold at each minute of a week, from Monday 00:00 on. Contracts see the flags of each minute.
#[derive(Drop)]
pub(crate) struct Week {
    rows: Vec<Vec<bool>>,
    /// For each minute one up to which the flags stay.
    ends: Vec<u16>,
}

impl Model for Week {
    ghost use Rattle.std.specs.Prelude.{◌≡◌, Bool, List, length, map};
    ghost use Rattle.object_warnings.specs.Hours.{AreEnds, week};

    ghost Value = { List (List Bool) };

    ghost view = { λ s. map (λ row. row.items) s.rows.items };

    ghost invariant = { λ s. (length s.rows.items ≡ week)
        × AreEnds (map (λ row. row.items) s.rows.items) 0 s.ends.items };
}

impl Week {
    /// The week of a configuration's periods, which have no dated lines. It takes 10,080 bytes a period.
    pub(crate) fn new(alloc: Global, config: &Config) -> Result<Week, AllocError>
        requires accepted { IsAccepted config.now }
        requires plain { All IsUndated config.now.periods }
        ensures { IfOk result (λ made. made ≡ rows_of config.now) }
    {
        let periods = compile_all(alloc, config)?;
        let rows = rows_of(alloc, periods.as_slice(), config.periods.as_slice())?;
        let ends = ends_of(alloc, rows.as_slice())?;
        Ok(Week { rows, ends })
    }

    /// Which periods hold at the minute.
    pub(crate) fn row(&self, minute: usize) -> &[bool]
        requires { minute < week }
        ensures { result.now ≡ row_at self.now minute }
    {
        self.rows[minute].as_slice()
    }

    /// A minute up to which that stays.
    pub(crate) fn until(&self, minute: usize) -> usize
        requires { minute < week }
        ensures { Stays self.now minute result }
    {
        usize::from(self.ends[minute])
    }
}
