//! The end of the search for a bound.
ghost use Rattle.std.specs.Prelude.{◌≡◌, ◌≤◌, ◌+◌, ◌⊎◌, length, IfOk};
ghost use Rattle.bound_specs.specs.Cells.{cell_count, AreSingle};
ghost use Rattle.price_rounds.specs.Rounds.{IsValued, IsLastBest, BeatsAlone};
ghost use Rattle.planner.specs.Works.{AreSplit, IsMet};

use crate::goal::Goal;
use crate::refine::splits_left;
use crate::start::further_splits;
use crate::work::Work;
use cell_splitting::split_rest;
use drive_rules::Rules;
use price_rounds::find_prices;
use rail_base::StepCost;
use std::alloc::{AllocError, Global};

/// Spends what is left of the budget where the gap is open, and seeks the last prices. Or want of memory.
///
/// So where the gap is open at the end, the budget is spent or each cell has one speed: the last prices give no less on the same cells.
pub(crate) fn finished<C: StepCost>(
    alloc: Global,
    rules: &Rules,
    cost: &C,
    goal: Goal,
    work: Work,
) -> Result<Work, AllocError>
    requires cells { AreSplit rules.now goal.splits work.cells }
    requires valued { IsValued (C.cost cost.now) rules.now work.cells work.valued }
    ensures cells { IfOk result (λ work. AreSplit rules.now goal.splits work.cells) }
    ensures valued { IfOk result (λ work. IsValued (C.cost cost.now) rules.now work.cells work.valued) }
    ensures last { IfOk result (λ work. IsLastBest (C.cost cost.now) rules.now work.cells work.valued.prices work.valued.value) }
    ensures alone { IfOk result (λ work. BeatsAlone (C.cost cost.now) rules.now work.cells work.valued.value) }
    ensures spent { IfOk result (λ work. (IsMet goal.energy goal.tolerance work.valued.value → ⊥)
        → (cell_count work.cells ≡ length rules.now.steps + 1 + goal.splits) ⊎ AreSingle work.cells) }
{
    let Work { mut cells, valued } = work;
    further_splits(rules, &valued.prices);
    if !goal.is_met(valued.value) {
        let left = splits_left(rules, &cells, goal.splits);
        split_rest(&mut cells, left)?;
    }
    let valued = find_prices(alloc, rules, cost, &cells, &valued.prices)?;
    Ok(Work { cells, valued })
}
