//! The search for prices.
ghost use Rattle.std.specs.Prelude.{◌≡◌, ℕ, ◌+◌, ◌≤◌, ◌<◌, ◌⊎◌, length, IfOk};
ghost use Rattle.bound_specs.specs.Cells.{cells_of};
ghost use Rattle.bound_specs.specs.Chains.{IsAtMost};
ghost use Rattle.bound_specs.specs.Prices.{AreFor};
ghost use Rattle.price_rounds.specs.Rounds.{IsValued, IsNoLess, IsLastBest, BeatsAlone, BeatsPriceOf};

use drive_rules::Rules;
use potential_table::{Valued, best_valued, potentials_at, prices_for};
use rail_base::StepCost;
use speed_cells::Cells;
use std::alloc::{AllocError, Global};
use time_multipliers::Prices;

/// How often all timing points are gone over at most.
const MOST_ROUNDS: usize = 4;

/// A round goes on to the next one where it raised the chain value by at least this share of itself.
const SHARE_OF_GAIN: i128 = 1_000;

/// Prices of the timing points for these cells, with the potentials of the cells under them and their chain value. Or want of memory.
///
/// The search begins with the better of two lists: the best that prices one timing point alone, and the prices that are given. Then each
/// timing point in turn gets its best price, until a whole round gains little, and at the end the last one does. So no prices of one
/// timing point alone, no other price of the last one, and not those that were given have a greater chain value.
pub fn find_prices<C: StepCost>(
    alloc: Global,
    rules: &Rules,
    cost: &C,
    cells: &Cells,
    given: &Prices,
) -> Result<Valued, AllocError>
    requires prices { AreFor rules.now given.now }
    requires points { length cells.now ≡ length rules.now.steps + 1 }
    requires start { length (cells_of cells.now 0) ≡ 1 }
    ensures valued { IfOk result (IsValued (C.cost cost.now) rules.now cells.now) }
    ensures last { IfOk result (λ found. IsLastBest (C.cost cost.now) rules.now cells.now found.prices found.value) }
    ensures alone { IfOk result (λ found. BeatsAlone (C.cost cost.now) rules.now cells.now found.value) }
    ensures no_less { IfOk result (λ found. IsNoLess (C.cost cost.now) rules.now cells.now given.now found.value) }
{
    rules.known();
    given.known();
    let alone = best_alone(alloc, rules, cost, cells)?;
    let timings = rules.timings().len();
    if timings == 1 {
        alone.prices.known();
        return Ok(alone);
    }
    let listed = prices_for(alloc, rules, given.values())?;
    let start = potentials_at(alloc, rules, cost, cells, listed)?;
    let gone = improve_prices(alloc, rules, cost, cells, better(alone, start))?;
    let best = best_valued(alloc, rules, cost, cells, &gone.prices, timings - 1)?;
    Ok(best)
}

/// The best of the lists of prices that price one timing point alone.
fn best_alone<C: StepCost>(
    alloc: Global,
    rules: &Rules,
    cost: &C,
    cells: &Cells,
) -> Result<Valued, AllocError>
    requires points { length cells.now ≡ length rules.now.steps + 1 }
    requires start { length (cells_of cells.now 0) ≡ 1 }
    ensures valued { IfOk result (IsValued (C.cost cost.now) rules.now cells.now) }
    ensures each { IfOk result (λ found. (j : ℕ) → j < length rules.now.timings → BeatsPriceOf (C.cost cost.now) rules.now cells.now j found.value) }
{
    rules.known();
    let zeros = vec![in alloc; 0u64; rules.timings().len()]?;
    let none = prices_for(alloc, rules, zeros.as_slice())?;
    let mut best = best_valued(alloc, rules, cost, cells, &none, 0)?;
    for timing in 1..rules.timings().len() {
        let tried = best_valued(alloc, rules, cost, cells, &none, timing)?;
        best = better(best, tried);
    }
    Ok(best)
}

/// The one of greater chain value, the first where they are equal. None stands above every number, since cells without a chain allow no drive.
fn better(first: Valued, second: Valued) -> Valued
    ensures one { (result ≡ first) ⊎ (result ≡ second) }
    ensures above_first { IsAtMost first.value result.value }
    ensures above_second { IsAtMost second.value result.value }
{
    match (first.value, second.value) {
        (Some(a), Some(b)) => { if b > a { second } else { first } }
        (Some(_), None) => second,
        (None, _) => first,
    }
}

/// How often so many timing points are gone over at most: one alone has its best price after the first time.
fn most_rounds(timings: usize) -> usize
    ensures { 1 ≤ result }
{
    if timings <= 1 { 1 } else { MOST_ROUNDS }
}

/// Prices no worse than those that these cells have, with the potentials and the chain value: each timing point in turn gets its best
/// price, until a whole round gains little. So no other price of the last one has a greater chain value. Or want of memory.
pub fn improve_prices<C: StepCost>(
    alloc: Global,
    rules: &Rules,
    cost: &C,
    cells: &Cells,
    begun: Valued,
) -> Result<Valued, AllocError>
    requires valued { IsValued (C.cost cost.now) rules.now cells.now begun }
    requires points { length cells.now ≡ length rules.now.steps + 1 }
    requires start { length (cells_of cells.now 0) ≡ 1 }
    ensures valued { IfOk result (IsValued (C.cost cost.now) rules.now cells.now) }
    ensures no_less { IfOk result (λ found. IsAtMost begun.value found.value) }
    ensures last { IfOk result (λ found. IsLastBest (C.cost cost.now) rules.now cells.now found.prices found.value) }
{
    let mut best = begun;
    for _ in 0..most_rounds(rules.timings().len()) {
        let before = best.value;
        best = gone_once(alloc, rules, cost, cells, best)?;
        if !gains(before, best.value) {
            return Ok(best);
        }
    }
    Ok(best)
}

/// Each timing point in turn gets its best price, once.
fn gone_once<C: StepCost>(
    alloc: Global,
    rules: &Rules,
    cost: &C,
    cells: &Cells,
    begun: Valued,
) -> Result<Valued, AllocError>
    requires valued { IsValued (C.cost cost.now) rules.now cells.now begun }
    requires points { length cells.now ≡ length rules.now.steps + 1 }
    requires start { length (cells_of cells.now 0) ≡ 1 }
    ensures valued { IfOk result (IsValued (C.cost cost.now) rules.now cells.now) }
    ensures no_less { IfOk result (λ found. IsAtMost begun.value found.value) }
    ensures last { IfOk result (λ found. IsLastBest (C.cost cost.now) rules.now cells.now found.prices found.value) }
{
    rules.known();
    let mut best = begun;
    for timing in 0..rules.timings().len() {
        best = best_valued(alloc, rules, cost, cells, &best.prices, timing)?;
    }
    Ok(best)
}

/// Whether a round gained at least its share.
fn gains(before: Option<i128>, now: Option<i128>) -> bool {
    match (before, now) {
        (Some(before), Some(now)) => now.saturating_sub(before)
            >= now.saturating_abs() / SHARE_OF_GAIN,
        _ => false,
    }
}
