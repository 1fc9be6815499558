//! The plan of a run.
ghost use Rattle.std.specs.Prelude.{◌≡◌, ℕ, ◌≤◌, ◌+◌, ◌^◌, ◌⊎◌, length, slice_index, map, IfOk};
ghost use Rattle.rail_specs.specs.Rules.{IsDrive};
ghost use Rattle.bound_specs.specs.Cells.{cell_count, AreSingle};
ghost use Rattle.drive_choice.specs.Choices.{IsChosen};
ghost use Rattle.price_rounds.specs.Rounds.{IsValued, IsLastBest, BeatsAlone};
ghost use Rattle.proposers.specs.States.{state};
ghost use Rattle.planner.specs.Works.{AreSplit, IsMet};
ghost use Rattle.planner.specs.Plans.{IsSomePlan, IsAnswer, AreAsked};

use crate::answer::{Answer, Options, Plan};
use crate::finish::finished;
use crate::goal::Goal;
use crate::refine::refined;
use crate::start::even_cells;
use crate::work::Work;
use cell_splitting::splits_known;
use drive_choice::{Choice, Chosen, choose_drive};
use drive_rules::Rules;
use potential_table::{finer_cells_bound_more, prices_for};
use price_rounds::find_prices;
use proposers::Proposer;
use rail_base::StepCost;
use relaxed_costs::relaxed_costs_known;
use std::alloc::{AllocError, Global};

/// A plan for the rules of a run, at a cost of work; or that there is no drive, or that none is on time. `AllocError` is want of memory: a
/// box may then have been begun and asked.
///
/// The drive is the best of the family of composed drives, improved by a search and then by what the boxes offer, each of which is begun and
/// asked in order. The bound is the chain value of cells that come from one cell for each point by splits, as many as `options` allow, at prices of the
/// timing points. It is a bound, whatever the boxes offer and whichever cells are split: no drive on time costs less.
pub fn plan<C: StepCost>(
    alloc: Global,
    rules: &Rules,
    cost: &C,
    options: Options,
    boxes: &mut Vec<Box<dyn Proposer>>,
) -> Result<Answer, AllocError>
    requires splits { options.splits ≤ 50000 }
    requires tolerance { options.tolerance ≤ 1000 }
    ensures answer { IfOk result (IsAnswer (C.cost cost.now) rules.now options.splits options.tolerance) }
    ensures asked { IfOk result (AreAsked (C.cost cost.now) rules.now (length boxes.new.items)
        (map (λ b. state (offers b) (takes b) (begins b)) boxes.old.items)
        (map (λ b. state (offers b) (takes b) (begins b)) boxes.new.items)) }
    ensures len { length boxes.new.items ≡ length boxes.old.items }
{
    match choose_drive(alloc, rules, cost, boxes)? {
        Choice::NoDrive => Ok(Answer::NoDrive),
        Choice::Late { timing, arrival } => Ok(Answer::Late { timing, arrival }),
        Choice::Drive(chosen) => {
            let plan = planned(alloc, rules, cost, options, chosen)?;
            Ok(Answer::Drive(plan))
        }
    }
}

/// The plan with the drive that was chosen, whose bound is sought from its search's prices on. Or want of memory.
fn planned<C: StepCost>(
    alloc: Global,
    rules: &Rules,
    cost: &C,
    options: Options,
    chosen: Chosen,
) -> Result<Plan, AllocError>
    requires splits { options.splits ≤ 50000 }
    requires tolerance { options.tolerance ≤ 1000 }
    requires chosen { IsChosen (C.cost cost.now) rules.now chosen }
    ensures plan { IfOk result (IsSomePlan (C.cost cost.now) rules.now options.splits options.tolerance) }
    ensures drive { IfOk result (λ plan. plan.drive ≡ chosen.drive) }
{
    rules.known();
    splits_known();
    finer_cells_bound_more(rules);
    let goal = Goal {
        energy: chosen.cost,
        tolerance: options.tolerance,
        splits: options.splits,
    };
    let speeds = chosen.drive.speeds();
    let work = found_work(alloc, rules, cost, goal, speeds, chosen.prices.as_slice())?;
    let Work { cells, valued } = work;
    relaxed_costs_known(rules, &valued.prices);
    let Some(bound) = valued.value else {
        unreachable!();
    };
    let splits = (cells.count() - rules.points()) as u32;
    Ok(Plan {
        drive: chosen.drive,
        cost: chosen.cost,
        bound,
        prices: valued.prices,
        cells,
        potentials: valued.potentials,
        splits,
        met: goal.is_met(Some(bound)),
    })
}

/// The cells and prices that give the bound, where there is a drive. Or want of memory.
fn found_work<C: StepCost>(
    alloc: Global,
    rules: &Rules,
    cost: &C,
    goal: Goal,
    drive: &[u16],
    given: &[u64],
) -> Result<Work, AllocError>
    requires drive { IsDrive rules.now drive.now }
    requires count { length given.now ≡ length rules.now.timings }
    requires low { (j : ℕ) → slice_index given.now j ≤ 2 ^ 50 }
    ensures cells { IfOk result (λ work. AreSplit rules.now goal.splits work.cells) }
    ensures valued { IfOk result (λ work. IsValued (C.cost cost.now) rules.now work.cells work.valued) }
    ensures last { IfOk result (λ work. IsLastBest (C.cost cost.now) rules.now work.cells work.valued.prices work.valued.value) }
    ensures alone { IfOk result (λ work. BeatsAlone (C.cost cost.now) rules.now work.cells work.valued.value) }
    ensures spent { IfOk result (λ work. (IsMet goal.energy goal.tolerance work.valued.value → ⊥)
        → (cell_count work.cells ≡ length rules.now.steps + 1 + goal.splits) ⊎ AreSingle work.cells) }
{
    let work = first_work(alloc, rules, cost, goal, drive, given)?;
    let work = refined(alloc, rules, cost, goal, work)?;
    finished(alloc, rules, cost, goal, work)
}

/// The even cells, with prices for them that are sought from those given. Or want of memory.
fn first_work<C: StepCost>(
    alloc: Global,
    rules: &Rules,
    cost: &C,
    goal: Goal,
    drive: &[u16],
    given: &[u64],
) -> Result<Work, AllocError>
    requires drive { IsDrive rules.now drive.now }
    requires count { length given.now ≡ length rules.now.timings }
    requires low { (j : ℕ) → slice_index given.now j ≤ 2 ^ 50 }
    ensures cells { IfOk result (λ work. AreSplit rules.now goal.splits work.cells) }
    ensures valued { IfOk result (λ work. IsValued (C.cost cost.now) rules.now work.cells work.valued) }
{
    let prices = prices_for(alloc, rules, given)?;
    let cells = even_cells(alloc, rules, &prices, drive, goal.splits)?;
    let valued = find_prices(alloc, rules, cost, &cells, &prices)?;
    Ok(Work { cells, valued })
}
