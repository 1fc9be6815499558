//! The steps of a route, and its end.

ghost use Rattle.std.specs.Prelude.{[], ◌≡◌, ◌+◌, ◌≤◌, length, IfOk, IfSome, OnOk};
ghost use Rattle.rail_base.specs.First.{first_in};
ghost use Rattle.route_file.specs.Route.{entry_faults, step_fault, step_on, steps_on, row_count, row_counts, unless, CountsRows};
ghost use Rattle.rail_specs.specs.Step.{IsInRange, IsTrainInRange};
ghost use Rattle.route_file.specs.RouteParts.{step_in_range, step_line, AnswersFault, AppendsStep, HasSteps, IsEmpty, ReadsEntry, CountsEntry};

use crate::data::{Entry, StepLine, StepLists};
use crate::fault::RouteFault;
use crate::line::read_after;
use rail_base::{Lines, natural_within};
use rail_specs::{StepNumbers, TrainNumbers};
use std::alloc::{AllocError, Global};
use std::sync::ledger::Ledger;
use step_energy::{StepRow, Steps};

/// The lines before the first step.
const HEADING_LINES: u32 = 6;

/// The steps of a route, at most.
const MOST_STEPS: u32 = 4000;

/// No step, and the first point at place 0.
fn no_steps(alloc: Global) -> Result<StepLists, AllocError>
    ensures { IfOk result IsEmpty }
{
    let mut places = Vec::new(alloc);
    places.push(0)?;
    Ok(StepLists {
        rows: Vec::new(alloc),
        limits: Vec::new(alloc),
        places,
        end: 0,
    })
}

/// One step more.
fn append(lists: &mut StepLists, step: StepLine) -> Result<(), AllocError>
    requires { lists.old.end ≤ 4000000 }
    ensures step { OnOk result (AppendsStep lists.old lists.new step.row step.limit) }
    ensures short { OnOk result (lists.new.end ≤ lists.old.end + 1000) }
{
    let end = lists.end + u32::from(step.row.metres());
    lists.rows.push(step.row)?;
    lists.limits.push(step.limit)?;
    lists.places.push(end)?;
    lists.end = end;
    Ok(())
}

/// The numbers of a step of the train, where length and gradient are in range.
fn step_numbers(train: &TrainNumbers, metres: i64, gradient: i64) -> Option<StepNumbers>
    requires { IsTrainInRange train.now }
    ensures value { result ≡ step_in_range train.now metres gradient }
    ensures in_range { IfSome result IsInRange }
{
    let metres = natural_within(metres, 1, 1000)?;
    if gradient < -1000 || gradient > 1000 {
        return None;
    }
    Some(train.step(metres as u16, gradient as i16))
}

/// Reads line n as a step of the train.
fn read_step<L: Ledger>(
    train: &TrainNumbers,
    n: u32,
    line: &[u8],
    steps: &mut Steps<L>,
) -> Result<StepLine, RouteFault>
    requires { IsTrainInRange train.now }
    ensures value { result ≡ unless (step_fault train.now.inertia train.now.c n line.now) (step_line train.now (step_on line.now)) }
    ensures counted { IfOk result (λ _. steps.new ≡ steps.old + 1) }
    ensures made { steps.new ≡ steps.old + row_count n line.now }
{
    if n > HEADING_LINES + MOST_STEPS {
        return Err(RouteFault::TooManySteps);
    }
    let mut numbers = [0i64; 3];
    if !read_after(b"step ", line, &mut numbers) {
        return Err(RouteFault::Form(n));
    }
    let [metres, gradient, limit] = numbers;
    let Some(step) = step_numbers(train, metres, gradient) else {
        return Err(RouteFault::Range(n));
    };
    let Some(limit) = natural_within(limit, 1, 12_000) else {
        return Err(RouteFault::Range(n));
    };
    match StepRow::make(step, steps) {
        Ok(row) => Ok(StepLine {
            row,
            limit: limit as u16,
        }),
        Err(_) => Err(RouteFault::Range(n)),
    }
}

/// Reads line n, which stands behind the heading.
fn read_entry<L: Ledger>(
    train: &TrainNumbers,
    n: u32,
    line: &[u8],
    steps: &mut Steps<L>,
) -> Result<Entry, RouteFault>
    requires { IsTrainInRange train.now }
    ensures entry { ReadsEntry result train.now n line.now }
    ensures counted { CountsEntry result n line.now steps.old steps.new }
{
    if line.starts_with(b"step ") {
        let step = read_step(train, n, line, steps)?;
        return Ok(Entry::Step(step));
    }
    if line != b"end".as_slice() {
        return Err(RouteFault::Form(n));
    }
    if n < HEADING_LINES + 3 {
        return Err(RouteFault::Range(n));
    }
    Ok(Entry::End)
}

/// Takes the lines behind the heading: the steps and the end. It counts one step for each row that it makes, a refused one too.
#[tactic(auto, using(crate::proofs::RouteCounts::counts))]
pub(crate) fn read_steps<L: Ledger>(
    alloc: Global,
    train: &TrainNumbers,
    mut lines: Lines<'_>,
    steps: &mut Steps<L>,
) -> Result<StepLists, RouteFault>
    requires { IsTrainInRange train.now }
    ensures fault { AnswersFault result (first_in (entry_faults train.now.inertia train.now.c 7 lines.entry)) }
    ensures read { IfOk result (HasSteps train.now (steps_on lines.entry) []) }
    ensures counted { IfOk result (λ lists. steps.new ≡ steps.old + length lists.rows.items) }
    ensures made { CountsRows result (row_counts train.now.inertia train.now.c 7 lines.entry) steps.old steps.new }
{
    let mut lists = no_steps(alloc)?;
    let mut n = HEADING_LINES + 1;
    while let Some(line) = lines.next() {
        match read_entry(train, n, line, steps)? {
            Entry::Step(step) => append(&mut lists, step)?,
            Entry::End => {
                return if lines.next().is_some() {
                    Err(RouteFault::Form(n + 1))
                } else {
                    Ok(lists)
                };
            }
        }
        n += 1;
    }
    Err(RouteFault::Form(n))
}
