//! The choice of a drive.
ghost use Rattle.std.specs.Prelude.{◌≡◌, ◌≤◌, ◌^◌, length, map, IfOk, EachIndex};
ghost use Rattle.std.specs.List.{slice_index_or};
ghost use Rattle.std.specs.Int.RustNames.{unsigned_abs};
ghost use Rattle.rail_specs.specs.Cost.{cost_of};
ghost use Rattle.phase_composer.specs.Best.{IsBestOfFamily};
ghost use Rattle.proposers.specs.States.{Improves, IsOnTimeDrive, no_state, state};
ghost use Rattle.drive_choice.specs.Choices.{AreAsked, IsChoice, IsChosen};

use drive_rules::{Drive, Judged, Rules};
use drive_search::search_drive;
use phase_composer::{Costed, Kept, compose_with_cost};
use proposers::{Proposer, improve};
use rail_base::StepCost;
use std::alloc::{AllocError, Global};

/// A drive on time, and what its search learned.
#[derive(Drop)]
pub struct Chosen {
    /// The drive, which is on time: a speed for each point, cm/s.
    pub drive: Drive,
    /// What the drive costs, in 0.5 microjoule.
    pub cost: i128,
    /// The last prices of the search, one for each timing point, in 0.5 microjoule for a ms: with these the search for a bound may begin.
    pub prices: Vec<u64>,
}

/// The drive of a run, or why there is none.
#[derive(Drop)]
pub enum Choice {
    /// There is no drive.
    NoDrive,
    /// There is a drive, and none is on time.
    Late {
        /// The index, in `Rules::timings`, of the first timing point that the greatest drive misses.
        timing: u32,
        /// The greatest drive's arrival there, ms from the start, each step's time rounded up.
        arrival: u64,
    },
    /// A drive on time.
    Drive(Chosen),
}

/// What a drive on time costs.
fn cost_of_drive<C: StepCost>(rules: &Rules, cost: &C, drive: &Drive) -> i128
    requires { IsOnTimeDrive rules.now drive.now }
    ensures value { result ≡ cost_of (C.cost cost.now) rules.now drive.now }
    ensures small { unsigned_abs result ≤ 2 ^ 74 }
{
    match rules.judge(drive.speeds(), cost) {
        Judged::Kept { cost } => cost,
        Judged::Broken(..) => unreachable!(),
    }
}

/// A drive that is the best of the family, once a search and the boxes have improved it. Or want of memory.
fn improved<C: StepCost>(
    alloc: Global,
    rules: &Rules,
    cost: &C,
    boxes: &mut Vec<Box<dyn Proposer>>,
    kept: Kept,
) -> Result<Chosen, AllocError>
    requires best { IsBestOfFamily (C.cost cost.now) rules.now kept.drive }
    requires costs { kept.cost ≡ cost_of (C.cost cost.now) rules.now kept.drive }
    ensures chosen { IfOk result (IsChosen (C.cost cost.now) rules.now) }
    ensures improves { IfOk result (λ chosen. EachIndex boxes.new.items (λ k. Improves (C.cost cost.now) rules.now chosen.drive
        (slice_index_or (map (λ b. state (offers b) (takes b) (begins b)) boxes.old.items) k no_state)
        (slice_index_or (map (λ b. state (offers b) (takes b) (begins b)) boxes.new.items) k no_state))) }
    ensures len { length boxes.new.items ≡ length boxes.old.items }
{
    let mut kept = kept;
    let prices = search_drive(alloc, rules, cost, &mut kept)?;
    let mut drive = kept.drive;
    improve(alloc, boxes, rules, cost, &mut drive)?;
    let cost = cost_of_drive(rules, cost, &drive);
    Ok(Chosen {
        drive,
        cost,
        prices,
    })
}

/// The drive of a run at a cost of work: the best of the family of composed drives, improved by a search and then by what the boxes offer, each
/// of which is begun and asked in order; or that there is no drive, or that none is on time. `AllocError` is want of memory: a box may then
/// have been begun and asked.
pub fn choose_drive<C: StepCost>(
    alloc: Global,
    rules: &Rules,
    cost: &C,
    boxes: &mut Vec<Box<dyn Proposer>>,
) -> Result<Choice, AllocError>
    ensures choice { IfOk result (IsChoice (C.cost cost.now) rules.now) }
    ensures asked { IfOk result (AreAsked (C.cost cost.now) rules.now (length boxes.new.items)
        (map (λ b. state (offers b) (takes b) (begins b)) boxes.old.items)
        (map (λ b. state (offers b) (takes b) (begins b)) boxes.new.items)) }
    ensures len { length boxes.new.items ≡ length boxes.old.items }
{
    match compose_with_cost(alloc, rules, cost)? {
        Costed::NoDrive => Ok(Choice::NoDrive),
        Costed::Late { timing, arrival } => Ok(Choice::Late { timing, arrival }),
        Costed::Best(kept) => {
            let chosen = improved(alloc, rules, cost, boxes, kept)?;
            Ok(Choice::Drive(chosen))
        }
    }
}
