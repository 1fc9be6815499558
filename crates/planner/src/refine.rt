//! The rounds of splits.
ghost use Rattle.std.specs.Prelude.{◌≡◌, ◌≤◌, ◌+◌, List, length, IfOk};
ghost use Rattle.bound_specs.specs.declared.Cell.{Cell};
ghost use Rattle.bound_specs.specs.Cells.{cell_count, cells_of};
ghost use Rattle.bound_specs.specs.Renewal.{SameFrom};
ghost use Rattle.price_rounds.specs.Rounds.{IsValued};
ghost use Rattle.planner.specs.Works.{AreSplit};

use crate::goal::Goal;
use crate::start::further_splits;
use crate::work::Work;
use cell_splitting::split_chosen;
use drive_rules::Rules;
use potential_table::{Front, Priced, Valued, bound};
use price_rounds::improve_prices;
use rail_base::StepCost;
use speed_cells::Cells;
use split_choice::{Choice, choose};
use std::alloc::{AllocError, Global};

/// How many rounds of splits there are at most.
const MOST_ROUNDS: usize = 200;

/// Prices are sought anew once the chain value has risen by one part in so many.
const SHARE_OF_RISE: i128 = 100;

/// Splits cells in rounds, until the gap is met, the budget is spent or a round finds none to split. Or want of memory.
pub(crate) fn refined<C: StepCost>(
    alloc: Global,
    rules: &Rules,
    cost: &C,
    goal: Goal,
    work: Work,
) -> Result<Work, AllocError>
    requires cells { AreSplit rules.now goal.splits work.cells }
    requires valued { IsValued (C.cost cost.now) rules.now work.cells work.valued }
    ensures cells { IfOk result (λ work. AreSplit rules.now goal.splits work.cells) }
    ensures valued { IfOk result (λ work. IsValued (C.cost cost.now) rules.now work.cells work.valued) }
{
    let mut work = work;
    let mut priced_at = work.valued.value;
    for _ in 0..MOST_ROUNDS {
        let before = work.cells.count();
        if goal.is_met(work.valued.value) {
            return Ok(work);
        }
        work = split_once(alloc, rules, cost, goal, work)?;
        if work.cells.count() <= before {
            return Ok(work);
        }
        if has_risen(priced_at, work.valued.value) {
            work = repriced(alloc, rules, cost, goal, work)?;
            priced_at = work.valued.value;
        }
    }
    Ok(work)
}

/// How many splits of the budget are left.
pub(crate) fn splits_left(rules: &Rules, cells: &Cells, splits: u32) -> usize
    requires { AreSplit rules.now splits cells.now }
    ensures { cell_count cells.now + result ≡ length rules.now.steps + 1 + splits }
{
    rules.known();
    rules.points() + splits as usize - cells.count()
}

/// Whether the chain value has risen by its share.
fn has_risen(before: Option<i128>, now: Option<i128>) -> bool {
    match (before, now) {
        (Some(before), Some(now)) => now.saturating_sub(before)
            > now.saturating_abs() / SHARE_OF_RISE,
        _ => false,
    }
}

/// One round: the cells that promise most are split, and the potentials found anew up to the last of them. Or want of memory.
fn split_once<C: StepCost>(
    alloc: Global,
    rules: &Rules,
    cost: &C,
    goal: Goal,
    work: Work,
) -> Result<Work, AllocError>
    requires cells { AreSplit rules.now goal.splits work.cells }
    requires valued { IsValued (C.cost cost.now) rules.now work.cells work.valued }
    ensures cells { IfOk result (λ work. AreSplit rules.now goal.splits work.cells) }
    ensures valued { IfOk result (λ work. IsValued (C.cost cost.now) rules.now work.cells work.valued) }
{
    let Work { mut cells, valued } = work;
    further_splits(rules, &valued.prices);
    let left = splits_left(rules, &cells, goal.splits);
    let choice = chosen(alloc, rules, cost, &cells, &valued, left)?;
    split_chosen(&mut cells, choice.places.as_slice(), choice.last, left)?;
    let valued = renewed(rules, cost, &cells, valued, choice.last)?;
    Ok(Work { cells, valued })
}

/// The cells to split next.
fn chosen<C: StepCost>(
    alloc: Global,
    rules: &Rules,
    cost: &C,
    cells: &Cells,
    valued: &Valued,
    left: usize,
) -> Result<Choice, AllocError>
    requires points { length cells.now ≡ length rules.now.steps + 1 }
    requires valued { IsValued (C.cost cost.now) rules.now cells.now valued.now }
    ensures { IfOk result (λ choice. choice.last + 2 ≤ length cells.now) }
{
    rules.known();
    let priced = Priced::make(rules, cost, &valued.prices);
    let motion = rules.row(0).down(1);
    choose(alloc, cells, &priced, &valued.potentials, motion, left)
}

/// The potentials of cells found anew, where those of other cells are known that are the same behind the point `last`, and their chain
/// value. Or want of memory.
fn renewed<C: StepCost>(
    rules: &Rules,
    cost: &C,
    cells: &Cells,
    valued: Valued,
    last: usize,
) -> Result<Valued, AllocError>
    requires points { length cells.now ≡ length rules.now.steps + 1 }
    requires start { length (cells_of cells.now 0) ≡ 1 }
    requires last { last + 2 ≤ length cells.now }
    requires before { (before : List (List Cell)) × SameFrom (last + 1) before cells.now × IsValued (C.cost cost.now) rules.now before valued }
    ensures { IfOk result (λ valued. IsValued (C.cost cost.now) rules.now cells.now valued) }
{
    rules.known();
    let Valued {
        prices,
        mut potentials,
        ..
    } = valued;
    let priced = Priced::make(rules, cost, &prices);
    let front = Front::make(&priced, last + 1);
    potentials.renew(cells, &front)?;
    let value = bound(&potentials, &prices, rules);
    Ok(Valued {
        prices,
        potentials,
        value,
    })
}

/// The same cells, with prices sought anew from those that they have. Or want of memory.
fn repriced<C: StepCost>(
    alloc: Global,
    rules: &Rules,
    cost: &C,
    goal: Goal,
    work: Work,
) -> Result<Work, AllocError>
    requires cells { AreSplit rules.now goal.splits work.cells }
    requires valued { IsValued (C.cost cost.now) rules.now work.cells work.valued }
    ensures cells { IfOk result (λ work. AreSplit rules.now goal.splits work.cells) }
    ensures valued { IfOk result (λ work. IsValued (C.cost cost.now) rules.now work.cells work.valued) }
{
    let Work { cells, valued } = work;
    let valued = improve_prices(alloc, rules, cost, &cells, valued)?;
    Ok(Work { cells, valued })
}
