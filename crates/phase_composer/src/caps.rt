//! The members of the family that are greatest drives under caps.
ghost use Rattle.std.specs.Prelude.{◌≡◌, ℕ, ◌+◌, ◌*◌, ◌<◌, ◌≤◌, ◌≤ℤ◌, slice_index, IfOk, OnOk};
ghost use Rattle.rail_specs.specs.Ranges.{no_narrowing};
ghost use Rattle.speed_envelopes.specs.Narrowing.{capped};
ghost use Rattle.phase_composer.specs.Family.{IsLeastCap};
ghost use Rattle.phase_composer.specs.Best.{IsTimely, NoneOnTimeUnder, IsKeptDrive, Beats, BeatsTens};

use crate::kept::{Kept, Known, tried};
use drive_rules::{Drive, Rules};
use rail_base::StepCost;
use speed_envelopes::{narrowings_nest, under_cap};
use std::alloc::{AllocError, Global};

/// The fastest of speeds that are at most 12,000.
pub(crate) fn fastest(speeds: &[u16]) -> u16
    requires { (k : ℕ) → slice_index speeds.now k ≤ 12000 }
    ensures above { (k : ℕ) → slice_index speeds.now k ≤ result }
    ensures small { result ≤ 12000 }
{
    let mut most = 0;
    for speed in speeds {
        most = most.max(*speed);
    }
    most
}

/// The least number of tens, at least one, that is at least a speed.
fn tens_above(speed: u16) -> u16
    requires { speed ≤ 12000 }
    ensures above { speed ≤ 10 * result }
    ensures some { 1 ≤ result }
    ensures most { result ≤ 1200 }
{
    speed.div_ceil(10).max(1)
}

/// Tries the greatest drive under each cap that is a multiple of 10, from the highest down to the last that is on time, which it
/// gives.
///
/// `greatest` is the greatest drive. No cap above its fastest speed has another drive.
pub(crate) fn try_tens<C: StepCost>(
    alloc: Global,
    rules: &Rules,
    cost: &C,
    greatest: &Drive,
    best: &mut Kept,
) -> Result<Known, AllocError>
    requires greatest { IsTimely rules.now no_narrowing greatest.now }
    requires beats { Beats (C.cost cost.now) rules.now no_narrowing best.old.cost }
    requires kept { IsKeptDrive (C.cost cost.now) rules.now best.old.drive best.old.cost }
    ensures cap { IfOk result (λ known. (1 ≤ known.narrow.cap) × (known.narrow.cap ≤ 12000) × (known.narrow ≡ capped known.narrow.cap)) }
    ensures timely { IfOk result (λ known. IsTimely rules.now known.narrow known.drive) }
    ensures none { IfOk result (λ known. (c : ℕ) → 1 ≤ c → c + 10 ≤ known.narrow.cap → NoneOnTimeUnder rules.now (capped c)) }
    ensures last { IfOk result (λ known. Beats (C.cost cost.now) rules.now known.narrow best.new.cost) }
    ensures beats { OnOk result (BeatsTens (C.cost cost.now) rules.now 1 best.new.cost) }
    ensures kept { IsKeptDrive (C.cost cost.now) rules.now best.new.drive best.new.cost }
    ensures no_worse { best.new.cost ≤ℤ best.old.cost }
{
    rules.known();
    narrowings_nest();
    let speeds = greatest.speeds();
    rules.known_drive(speeds);
    let most = fastest(speeds);
    let mut tens = tens_above(most);
    let drive = Drive::make(alloc, speeds)?;
    let mut known = Known {
        narrow: under_cap(10 * tens),
        drive,
    };
    while tens > 1 {
        tens -= 1;
        let Some(lower) = tried(alloc, rules, cost, &under_cap(10 * tens), &known, best)? else {
            return Ok(known);
        };
        known = lower;
    }
    Ok(known)
}

/// Tries the greatest drive under the least cap that is on time. It lies at most 10 below the cap of `known`, whose drive is on time.
pub(crate) fn try_least_cap<C: StepCost>(
    alloc: Global,
    rules: &Rules,
    cost: &C,
    known: Known,
    best: &mut Kept,
) -> Result<(), AllocError>
    requires cap { (1 ≤ known.narrow.cap) × (known.narrow.cap ≤ 12000) × (known.narrow ≡ capped known.narrow.cap) }
    requires timely { IsTimely rules.now known.narrow known.drive }
    requires none { (c : ℕ) → 1 ≤ c → c + 10 ≤ known.narrow.cap → NoneOnTimeUnder rules.now (capped c) }
    requires last { Beats (C.cost cost.now) rules.now known.narrow best.old.cost }
    requires kept { IsKeptDrive (C.cost cost.now) rules.now best.old.drive best.old.cost }
    ensures beats { OnOk result ((cap : ℕ) → IsLeastCap rules.now cap → Beats (C.cost cost.now) rules.now (capped cap) best.new.cost) }
    ensures kept { IsKeptDrive (C.cost cost.now) rules.now best.new.drive best.new.cost }
    ensures no_worse { best.new.cost ≤ℤ best.old.cost }
{
    narrowings_nest();
    let mut known = known;
    let mut late = known.narrow.cap.saturating_sub(10);
    while late + 1 < known.narrow.cap {
        let cap = late + (known.narrow.cap - late) / 2;
        match tried(alloc, rules, cost, &under_cap(cap), &known, best)? {
            Some(lower) => known = lower,
            None => late = cap,
        }
    }
    Ok(())
}
