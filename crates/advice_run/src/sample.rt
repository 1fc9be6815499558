//! The command `sample`: the rules of the sample of a number, and the summary of a plan for them.

ghost use Rattle.std.specs.Prelude.{◌≡◌, ◌≤◌, ◌-◌, ◌++◌, ℕ, List, IfOk, OnOk};
ghost use Rattle.rail_specs.specs.Cost.{traction_cost};
ghost use Rattle.edge_io.specs.Faults.{Told};
ghost use Rattle.drive_report.specs.Report.{gap_line};
ghost use Rattle.planner.specs.Plans.{IsSomePlan};
ghost use Rattle.advice_run.specs.Words.{Sample};
ghost use Rattle.advice_run.specs.Outcome.{MayWrite};
ghost use Rattle.advice_run.specs.Sample.{IsSummaryAnswer, summary_text};

use crate::command_line::SampleWords;
use crate::rules::plan_answer;
use command_files::{Answer, status};
use drive_rules::Rules;
use planner::{Answer as Planned, Options, Plan, plan};
use proposers::{Proposer, drop_silent};
use rail_base::{Traction, put_line, put_number_line};
use run_parts::{late_answer, no_drive_answer};
use sample_rules::sample_rules;
use std::alloc::{AllocError, Global};
use std::sync::ledger::Ledger;
use step_energy::Steps;

/// Appends the line on the gap.
#[tactic(auto, unfolding(drive_report::specs::Report::gap_line))]
fn put_gap(out: &mut Vec<u8>, met: bool) -> Result<(), AllocError>
    ensures { OnOk result (out.new.items ≡ out.old.items ++ gap_line met) }
{
    put_line(out, if met { b"gap met" } else { b"gap open" })
}

/// The summary of a plan for a sample: its number and points, whether the gap is met, the energy and the bound in 0.5 microjoule, and the
/// counts of cells and splits.
fn summary(
    alloc: Global,
    number: u32,
    points: u64,
    met: bool,
    energy: i128,
    bound: i128,
    cells: u64,
    splits: u32,
) -> Result<Vec<u8>, AllocError>
    ensures { IfOk result (λ text. text.items ≡ summary_text number points met energy bound cells splits) }
{
    let mut out = Vec::new(alloc);
    put_number_line(alloc, &mut out, b"sample", number as i128)?;
    put_number_line(alloc, &mut out, b"points", points as i128)?;
    put_gap(&mut out, met)?;
    put_number_line(alloc, &mut out, b"energy", energy)?;
    put_number_line(alloc, &mut out, b"bound", bound)?;
    put_number_line(alloc, &mut out, b"cells", cells as i128)?;
    put_number_line(alloc, &mut out, b"splits", splits as i128)?;
    Ok(out)
}

/// The answer that a plan gives: the summary of its report, which is made and left.
fn plan_summary(
    alloc: Global,
    number: u32,
    rules: &Rules,
    options: Options,
    plan: &Plan,
) -> Result<Answer, AllocError>
    requires splits { options.splits ≤ 50000 }
    requires plan { IsSomePlan traction_cost rules.now options.splits options.tolerance plan.now }
    ensures { IfOk result (λ a. IsSummaryAnswer number rules.now options.splits options.tolerance a.status a.text.items) }
{
    let reported = plan_answer(alloc, rules, &Traction, options, None, plan)?;
    let points = rules.points() as u64;
    let cells = plan.cells.count() as u64;
    let text = summary(
        alloc,
        number,
        points,
        plan.met,
        plan.cost,
        plan.bound,
        cells,
        plan.splits,
    )?;
    Ok(Answer {
        status: reported.status,
        text,
    })
}

/// The answer to the rules of a sample. The boxes propose drives; once there is a plan, those of which nothing was taken are dropped.
fn summary_answer(
    alloc: Global,
    number: u32,
    rules: &Rules,
    options: Options,
    boxes: &mut Vec<Box<dyn Proposer>>,
) -> Result<Answer, AllocError>
    requires splits { options.splits ≤ 50000 }
    requires tolerance { options.tolerance ≤ 1000 }
    ensures { IfOk result (λ a. IsSummaryAnswer number rules.now options.splits options.tolerance a.status a.text.items) }
{
    match plan(alloc, rules, &Traction, options, boxes)? {
        Planned::NoDrive => no_drive_answer(alloc, rules),
        Planned::Late { timing, arrival } => late_answer(alloc, rules, timing, arrival),
        Planned::Drive(plan) => {
            drop_silent(boxes);
            plan_summary(alloc, number, rules, options, &plan)
        }
    }
}

/// The answer to `sample`: no file is read. The boxes propose drives.
pub fn answer_sample<L: Ledger>(
    alloc: Global,
    asked: &SampleWords,
    boxes: &mut Vec<Box<dyn Proposer>>,
    steps: &mut Steps<L>,
) -> Result<Answer, AllocError>
    ensures { IfOk result (λ a. (told : List ℕ → Told) (before now : List ℕ → ℕ) →
        MayWrite (Sample asked.now.number asked.now.splits asked.now.tolerance) told before now
        (steps.new - steps.old) a.status a.text.items) }
{
    let rules = sample_rules(alloc, asked.number, steps)?;
    let options = Options {
        splits: asked.splits,
        tolerance: asked.tolerance,
    };
    summary_answer(alloc, asked.number, &rules, options, boxes)
}
