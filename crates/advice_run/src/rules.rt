//! The answer to the rules of a run.

ghost use Rattle.std.specs.Prelude.{◌≡◌, ◌≤◌, IfOk};
ghost use Rattle.planner.specs.Plans.{IsSomePlan};
ghost use Rattle.advice_run.specs.Plan.{IsPlanAnswer, IsReported};

use command_files::{Answer, status};
use drive_report::report;
use drive_rules::Rules;
use planner::{Answer as Planned, Options, Plan, certificate, plan};
use proposers::{Proposer, drop_silent};
use rail_base::StepCost;
use run_parts::{late_answer, no_drive_answer};
use std::alloc::{AllocError, Global};

/// The answer to the rules of a run at a cost of work: a plan, with so many splits of cells and at this tolerance. The boxes propose
/// drives; once there is a plan, those of which nothing was taken are dropped. `regeneration` is the share that the brakes give back, where
/// the train's file says one, in per mille: the report has it then.
pub fn rules_answer<C: StepCost>(
    alloc: Global,
    rules: &Rules,
    cost: &C,
    options: Options,
    regeneration: Option<u16>,
    boxes: &mut Vec<Box<dyn Proposer>>,
) -> Result<Answer, AllocError>
    requires splits { options.splits ≤ 50000 }
    requires tolerance { options.tolerance ≤ 1000 }
    ensures { IfOk result (λ a. IsPlanAnswer (C.cost cost.now) rules.now options.splits options.tolerance regeneration a.status a.text.items) }
{
    match plan(alloc, rules, cost, options, boxes)? {
        Planned::NoDrive => no_drive_answer(alloc, rules),
        Planned::Late { timing, arrival } => late_answer(alloc, rules, timing, arrival),
        Planned::Drive(plan) => {
            drop_silent(boxes);
            plan_answer(alloc, rules, cost, options, regeneration, &plan)
        }
    }
}

/// The answer that a plan gives: the report of its certificate.
pub(crate) fn plan_answer<C: StepCost>(
    alloc: Global,
    rules: &Rules,
    cost: &C,
    options: Options,
    regeneration: Option<u16>,
    plan: &Plan,
) -> Result<Answer, AllocError>
    requires splits { options.splits ≤ 50000 }
    requires plan { IsSomePlan (C.cost cost.now) rules.now options.splits options.tolerance plan.now }
    ensures { IfOk result (λ a. IsReported (C.cost cost.now) rules.now options.splits options.tolerance regeneration a.status a.text.items plan.now) }
{
    // Only the contract speaks of these two: the plan is one at this cost, within these options.
    let _ = cost;
    let _ = options;
    rules.known();
    plan.prices.known();
    rules.known_drive(plan.drive.speeds());
    let certificate = certificate(alloc, plan)?;
    let text = report(
        alloc,
        rules,
        &certificate,
        plan.met,
        plan.splits,
        regeneration,
    )?;
    let status = if plan.met {
        status::GAP_MET
    } else {
        status::GAP_OPEN
    };
    Ok(Answer { status, text })
}
