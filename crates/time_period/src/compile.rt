//! How periods are worked out: each one once, after those that it excludes.

ghost use Rattle.std.specs.Prelude.{◌≡◌, ◌<◌, ◌≤◌, ◌++◌, ◌==◌, length, IfOk, OnOk};
ghost use Rattle.std.specs.Prelude.{ℕ, All, Contains, slice_get, Some};
ghost use Rattle.std.specs.List.{list_all};
ghost use Rattle.due_model.specs.declared.config.Config.{Config};
ghost use Rattle.due_model.specs.claims.Accepted.{IsAccepted};
ghost use Rattle.due_model.specs.claims.Limits.{max_periods};
ghost use Rattle.time_period.specs.claims.Days.{AreCompiled, IsCompiled};
ghost use Rattle.time_period.specs.Days.{AreWorkedOut, IsRight, IsTable};
ghost use Rattle.time_period.specs.Exclusions.{AreReady, InOrder, IsSettled, edges_of};
ghost use Rattle.time_period.specs.Exclusions.{exclusion_edges, is_weekly};
ghost use Rattle.time_period.specs.Needs.{AreForward};
ghost use Rattle.time_period.specs.Steps.{is_plain, own_at};
ghost use Rattle.std.specs.Arc.{arc_value};
ghost use Rattle.due_model.specs.declared.config.PeriodId.{PeriodId};

use crate::compiled::Compiled;
use crate::made_day::day_of;
use crate::needs::needs_of;
use crate::step::Step;
use crate::steps::own_step;
use due_model::config::{Config, Period, PeriodId, Range};
use due_model::sequence::Sequence;
use graph::edges::{Edge, Graph};
use graph_order::order::order;
use std::alloc::{AllocError, Global};
use std::sync::Arc;

/// Works out one period of the configuration. Want of memory is the only error. Where more than one is wanted,
/// `compile_all` does not cost more.
pub fn compile(alloc: Global, config: &Config, period: PeriodId) -> Result<Compiled, AllocError>
    requires accepted { IsAccepted config.now }
    requires within { period.0 < length config.now.periods }
    ensures { IfOk result (IsCompiled config.now period) }
{
    let mut all = compile_all(alloc, config)?;
    Ok(all.swap_remove(usize::from(period.0)))
}

/// Works out all periods of the configuration, in the order of their numbers. Want of memory is the only error.
pub fn compile_all(alloc: Global, config: &Config) -> Result<Vec<Compiled>, AllocError>
    requires { IsAccepted config.now }
    ensures { IfOk result (λ all. AreCompiled config.now all.items) }
{
    let order = order_of(alloc, config)?;
    let table = table_of(alloc, config, order.as_slice())?;
    all_of(alloc, table, order.as_slice())
}

/// What is kept of all periods, in the order of their numbers.
fn table_of(alloc: Global, config: &Config, order: &[u32]) -> Result<Vec<Step>, AllocError>
    requires accepted { IsAccepted config.now }
    requires order { InOrder config.now order.now }
    ensures { IfOk result (λ table. IsTable config.now table.items) }
{
    let periods = config.periods.as_slice();
    let mut done = nothing(alloc, periods.len())?;
    let mut left = order.len();
    while left > 0 {
        left -= 1;
        let number = order[left] as usize;
        let step = work_out(alloc, number as u16, &periods[number], done.as_slice())?;
        done[number] = step;
    }
    Ok(done)
}

/// So many periods that never hold.
fn nothing(alloc: Global, count: usize) -> Result<Vec<Step>, AllocError>
    ensures { IfOk result (λ done. length done.items ≡ count) }
{
    let mut done = Vec::with_capacity(alloc, count)?;
    for _made in 0..count {
        done.push(Step::of_days(alloc, 0, Sequence::new(Vec::new(alloc))))?;
    }
    Ok(done)
}

/// All periods, by what is kept of them.
fn all_of(alloc: Global, table: Vec<Step>, order: &[u32]) -> Result<Vec<Compiled>, AllocError>
    requires few { length table.items ≤ max_periods }
    requires each { (p : ℕ) → p < length table.items → Contains order.now p }
    requires within { All (λ p. p < length table.items) order.now }
    requires forward { AreForward table.items order.now }
    ensures { IfOk result (λ all. (c : Config) → IsTable c table.items → AreCompiled c all.items) }
{
    let count = table.len();
    let shared = Arc::new(alloc, Sequence::new(table))?;
    let mut all = Vec::with_capacity(alloc, count)?;
    for number in 0..count {
        all.push(one_of(alloc, number as u16, &shared, order)?)?;
    }
    Ok(all)
}

/// The period of that number, by what is kept of all.
fn one_of(
    alloc: Global,
    number: u16,
    table: &Arc<Sequence<Step>>,
    order: &[u32],
) -> Result<Compiled, AllocError>
    requires few { length (arc_value table.now) ≤ max_periods }
    requires number { number < length (arc_value table.now) }
    requires there { Contains order.now number }
    requires within { All (λ p. p < length (arc_value table.now)) order.now }
    requires forward { AreForward (arc_value table.now) order.now }
    ensures { IfOk result (λ worked. (c : Config) → IsTable c (arc_value table.now)
        → IsCompiled c (record { 0 = number }) worked) }
{
    let kept = table.as_slice();
    if kept[usize::from(number)].is_plain() {
        return Compiled::new(number, table, Vec::new(alloc));
    }
    let needs = needs_of(alloc, number, kept, order)?;
    Compiled::new(number, table, needs)
}

/// The numbers of the periods, each one before those that it excludes.
fn order_of(alloc: Global, config: &Config) -> Result<Vec<u32>, AllocError>
    requires { IsAccepted config.now }
    ensures { IfOk result (λ order. InOrder config.now order.items) }
{
    let edges = exclusions(alloc, config.periods.as_slice())?;
    let graph = Graph::new(alloc, config.periods.len() as u32, edges.as_slice())?;
    match order(alloc, &graph)? {
        Some(order) => Ok(order),
        None => unreachable!(),
    }
}

/// An edge from each period to each one that it excludes.
fn exclusions(alloc: Global, periods: &[Period]) -> Result<Vec<Edge>, AllocError>
    requires { length periods.now ≤ max_periods }
    ensures { IfOk result (λ edges. edges.items ≡ exclusion_edges 0 periods.now) }
{
    let mut edges = Vec::new(alloc);
    for (number, period) in periods.iter().enumerate() {
        push_edges(&mut edges, number as u32, period.excludes.as_slice())?;
    }
    Ok(edges)
}

/// Adds the edges from one period.
fn push_edges(edges: &mut Vec<Edge>, number: u32, excludes: &[PeriodId]) -> Result<(), AllocError>
    ensures { OnOk result (edges.new.items ≡ edges.old.items ++ edges_of number excludes.now) }
{
    for excluded in excludes {
        edges.push(Edge {
            from: number,
            to: u32::from(excluded.0),
        })?;
    }
    Ok(())
}

/// Whether no dated line is reached from a period that is done; so for a number that no period has.
fn is_plain(done: &[Step], number: u16) -> bool
    ensures { result ≡ is_plain (own_at done.now number) }
{
    match done.get(usize::from(number)) {
        Some(step) => step.is_plain(),
        None => true,
    }
}

/// The same of several periods.
fn are_plain(excludes: &[PeriodId], done: &[Step]) -> bool
    ensures { result ≡ list_all (λ excluded. is_plain (own_at done.now excluded.0)) excludes.now }
{
    excludes.iter().all(|excluded| is_plain(done, excluded.0))
}

/// Whether no dated line is reached from a period, where those that it excludes are done.
fn is_weekly(period: &Period, done: &[Step]) -> bool
    ensures { result ≡ is_weekly period.now done.now }
{
    if period.dated.len() > 0 {
        return false;
    }
    are_plain(period.excludes.as_slice(), done)
}

/// Works out what is kept of the period of that number, where those that it excludes are done.
fn work_out(alloc: Global, number: u16, period: &Period, done: &[Step]) -> Result<Step, AllocError>
    requires number { number < max_periods }
    requires week { length period.now.days ≡ 7 }
    requires known { All (λ excluded. excluded.0 < length done.now) period.now.excludes }
    requires few { length done.now ≤ max_periods }
    ensures { IfOk result (λ own. (c : Config) → IsSettled c
        → slice_get c.periods number ≡ Some period.now → AreReady c period.now done.now
        → IsRight c number own) }
{
    if is_weekly(period, done) {
        let days = without_excluded(alloc, period, done)?;
        Ok(Step::of_days(alloc, number, days))
    } else {
        own_step(alloc, number, period)
    }
}

/// The days of a period without those that it excludes, which are done and from which no dated line is reached.
fn without_excluded(
    alloc: Global,
    period: &Period,
    done: &[Step],
) -> Result<Sequence<Sequence<Range>>, AllocError>
    requires week { length period.now.days ≡ 7 }
    requires known { All (λ excluded. excluded.0 < length done.now) period.now.excludes }
    ensures { IfOk result (AreWorkedOut period.now done.now 7) }
{
    let mut days = Vec::with_capacity(alloc, 7)?;
    for weekday in 0..7 {
        let own = period.days[usize::from(weekday)].as_slice();
        let day = day_of(alloc, own, period.excludes.as_slice(), done, weekday)?;
        days.push(Sequence::new(day))?;
    }
    Ok(Sequence::new(days))
}
