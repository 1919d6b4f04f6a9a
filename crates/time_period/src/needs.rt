//! Which periods a period needs: itself and, over and over, those that they exclude.

ghost use Rattle.std.specs.Prelude.{◌≡◌, ℕ, ◌<◌, ◌≤◌, ◌⊎◌, true, length, reverse, All};
ghost use Rattle.std.specs.Prelude.{Contains, IfOk};
ghost use Rattle.due_model.specs.declared.config.PeriodId.{PeriodId};
ghost use Rattle.due_model.specs.claims.Limits.{max_periods};
ghost use Rattle.time_period.specs.Flags.{flag_at};
ghost use Rattle.time_period.specs.Needs.{AreClosedNeeds, AreForward};

use crate::step::{Step, flag, set_flag};
use due_model::config::PeriodId;
use due_model::limits::MAX_PERIODS;
use std::alloc::{AllocError, Global};

/// The numbers of the periods that the period of that number needs, each after those that it excludes, itself among
/// them. In the order of all periods each comes before those that it excludes. The time grows with the periods, and with
/// the exclusions of those that are needed.
pub(crate) fn needs_of(
    alloc: Global,
    number: u16,
    table: &[Step],
    order: &[u32],
) -> Result<Vec<u16>, AllocError>
    requires few { length table.now ≤ max_periods }
    requires there { Contains order.now number }
    requires within { All (λ n. n < length table.now) order.now }
    requires forward { AreForward table.now order.now }
    ensures within { IfOk result (λ needs. All (λ n. n < length table.now) needs.items) }
    ensures closed { IfOk result (λ needs. AreClosedNeeds table.now needs.items) }
    ensures has { IfOk result (λ needs. Contains needs.items number) }
{
    let mut needs = reached(alloc, number, table, order, &mut [false; MAX_PERIODS])?;
    needs.as_mut_slice().reverse();
    Ok(needs)
}

/// The same numbers, each before those that it excludes. The flags are set of all that is found needed.
fn reached(
    alloc: Global,
    number: u16,
    table: &[Step],
    order: &[u32],
    flags: &mut [bool],
) -> Result<Vec<u16>, AllocError>
    requires long { length flags.old ≡ max_periods }
    requires few { length table.now ≤ max_periods }
    requires there { Contains order.now number }
    requires within { All (λ n. n < length table.now) order.now }
    requires forward { AreForward table.now order.now }
    ensures within { IfOk result (λ needs. All (λ n. n < length table.now) (reverse needs.items)) }
    ensures closed { IfOk result (λ needs. AreClosedNeeds table.now (reverse needs.items)) }
    ensures has { IfOk result (λ needs. Contains (reverse needs.items) number) }
{
    let mut needs = Vec::new(alloc);
    set_flag(flags, number, true);
    for place in order {
        let next = *place as u16;
        if flag(flags, next) {
            needs.push(next)?;
            set_all(flags, table[usize::from(next)].excludes());
        }
    }
    Ok(needs)
}

/// Sets the flags of these periods.
fn set_all(flags: &mut [bool], periods: &[PeriodId])
    requires long { length flags.old ≡ max_periods }
    requires few { All (λ period. period.0 < max_periods) periods.now }
    ensures long { length flags.new ≡ max_periods }
    ensures set { (period : PeriodId) → Contains periods.now period
        → flag_at flags.new period.0 ≡ true }
    ensures kept { (n : ℕ) → flag_at flags.old n ≡ true → flag_at flags.new n ≡ true }
    ensures others { (n : ℕ) → flag_at flags.new n ≡ true
        → (flag_at flags.old n ≡ true) ⊎ Contains periods.now (record { 0 = n }) }
{
    for period in periods {
        set_flag(flags, period.0, true);
    }
}
