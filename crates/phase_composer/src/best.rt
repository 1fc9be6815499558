//! The best of the family of composed drives.
ghost use Rattle.std.specs.Prelude.{◌≡◌, IfOk};
ghost use Rattle.rail_specs.specs.Ranges.{no_narrowing};
ghost use Rattle.phase_composer.specs.Best.{IsTimely, IsBestOfFamily, IsComposed, IsCosted};
ghost use Rattle.rail_specs.specs.Cost.{cost_of};

use crate::caps::{try_least_cap, try_tens};
use crate::coasting::try_coasting;
use crate::kept::{Kept, judged};
use drive_rules::{Drive, Rules};
use rail_base::StepCost;
use speed_envelopes::{greatest_drive, narrowings_nest};
use std::alloc::{AllocError, Global};

/// What the family of composed drives says of the rules.
#[derive(Drop)]
pub enum Composed {
    /// There is no drive.
    NoDrive,
    /// There is a drive, and none is on time.
    Late {
        /// The index, in `Rules::timings`, of the first timing point that the greatest drive misses.
        timing: u32,
        /// The greatest drive's arrival there, ms from the start, each step's time rounded up.
        arrival: u64,
    },
    /// A drive on time that costs at most each member of the family that is on time.
    Best(Drive),
}

/// `Composed`, with the cost of the best beside it.
#[derive(Drop)]
pub enum Costed {
    /// There is no drive.
    NoDrive,
    /// There is a drive, and none is on time.
    Late {
        /// The index, in `Rules::timings`, of the first timing point that the greatest drive misses.
        timing: u32,
        /// The greatest drive's arrival there, ms from the start, each step's time rounded up.
        arrival: u64,
    },
    /// A drive on time that costs at most each member of the family that is on time, and its cost.
    Best(Kept),
}

/// The cheapest of the family, where the greatest drive is on time.
fn best_of_family<C: StepCost>(
    alloc: Global,
    rules: &Rules,
    cost: &C,
    greatest: Drive,
) -> Result<Kept, AllocError>
    requires { IsTimely rules.now no_narrowing greatest }
    ensures best { IfOk result (λ kept. IsBestOfFamily (C.cost cost.now) rules.now kept.drive) }
    ensures cost { IfOk result (λ kept. kept.cost ≡ cost_of (C.cost cost.now) rules.now kept.drive) }
{
    let copy = Drive::make(alloc, greatest.speeds())?;
    let Some(mut best) = judged(rules, cost, copy) else {
        unreachable!();
    };
    let known = try_tens(alloc, rules, cost, &greatest, &mut best)?;
    try_least_cap(alloc, rules, cost, known, &mut best)?;
    try_coasting(alloc, rules, cost, greatest, &mut best)?;
    Ok(best)
}

/// `compose`, with the cost of the best, so that nobody need judge it again.
pub fn compose_with_cost<C: StepCost>(
    alloc: Global,
    rules: &Rules,
    cost: &C,
) -> Result<Costed, AllocError>
    ensures { IfOk result (IsCosted (C.cost cost.now) rules.now) }
{
    rules.known();
    narrowings_nest();
    let Some(greatest) = greatest_drive(alloc, rules)? else {
        return Ok(Costed::NoDrive);
    };
    if let Some(late) = rules.first_late(greatest.speeds()) {
        return Ok(Costed::Late {
            timing: late.timing,
            arrival: late.arrival,
        });
    }
    let kept = best_of_family(alloc, rules, cost, greatest)?;
    Ok(Costed::Best(kept))
}

/// The best of the family of composed drives: `NoDrive` exactly where there is no drive, `Late` exactly where there is one and none is
/// on time, and else `Best`, a drive on time that costs at most each member of the family that is on time. `AllocError` is want of
/// memory.
///
/// The family is this project's own, and holds, where they exist:
/// - the greatest drive under each cap from 10 to 12,000 cm/s that is a multiple of 10;
/// - the greatest drive under the least cap whose greatest drive is on time;
/// - for each cap of 375 j, j from 1 to 32, and each k from 0 to 63, the greatest drive under it without traction from point
///   `floor(k n / 64)` of `n` steps to the first stop after that point.
pub fn compose<C: StepCost>(alloc: Global, rules: &Rules, cost: &C) -> Result<Composed, AllocError>
    ensures { IfOk result (IsComposed (C.cost cost.now) rules.now) }
{
    match compose_with_cost(alloc, rules, cost)? {
        Costed::NoDrive => Ok(Composed::NoDrive),
        Costed::Late { timing, arrival } => Ok(Composed::Late { timing, arrival }),
        Costed::Best(kept) => Ok(Composed::Best(kept.drive)),
    }
}
