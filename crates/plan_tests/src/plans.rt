//! What tests see of plans.
ghost use Rattle.std.specs.Prelude.{◌≤◌};

use drive_rules::Rules;
use planner::{Answer, Options, Plan, plan};
use proposers::Proposer;
use rail_base::Traction;
use std::alloc::{AllocError, Global};

/// What a test sees of a plan.
#[derive(Debug, PartialEq, Eq, Drop)]
pub(crate) struct Seen {
    /// The drive's speeds.
    pub(crate) speeds: Vec<u16>,
    pub(crate) energy: i128,
    pub(crate) bound: i128,
    /// The price of the last timing point.
    pub(crate) price: u64,
    pub(crate) cells: usize,
    pub(crate) splits: u32,
    pub(crate) met: bool,
}

/// The plan of rules with these boxes and the cost of traction, or none where there is another answer.
pub(crate) fn plan_with(
    alloc: Global,
    rules: &Rules,
    splits: u32,
    tolerance: u32,
    boxes: &mut Vec<Box<dyn Proposer>>,
) -> Result<Option<Plan>, AllocError>
    requires splits { splits ≤ 50000 }
    requires tolerance { tolerance ≤ 1000 }
{
    let options = Options { splits, tolerance };
    match plan(alloc, rules, &Traction, options, boxes)? {
        Answer::Drive(plan) => Ok(Some(plan)),
        _ => Ok(None),
    }
}

/// What is seen of a plan without boxes, or none where there is none.
pub(crate) fn seen_plan(
    alloc: Global,
    rules: Option<Rules>,
    splits: u32,
    tolerance: u32,
) -> Result<Option<Seen>, AllocError>
    requires splits { splits ≤ 50000 }
    requires tolerance { tolerance ≤ 1000 }
{
    let Some(rules) = rules else {
        return Ok(None);
    };
    let Some(plan) = plan_with(alloc, &rules, splits, tolerance, &mut Vec::new(alloc))? else {
        return Ok(None);
    };
    Ok(Some(Seen {
        speeds: Vec::from_slice(alloc, plan.drive.speeds())?,
        energy: plan.cost,
        bound: plan.bound,
        price: plan.prices.values().last().copied().unwrap_or(0),
        cells: plan.cells.count(),
        splits: plan.splits,
        met: plan.met,
    }))
}
