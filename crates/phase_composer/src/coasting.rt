//! The members of the family that coast to a stop.
ghost use Rattle.std.specs.Prelude.{◌≡◌, ℕ, ◌*◌, ◌<◌, ◌≤◌, ◌≤ℤ◌, length, IfOk, OnOk, IfSome, IfNone};
ghost use Rattle.rail_specs.specs.Ranges.{no_narrowing};
ghost use Rattle.speed_envelopes.specs.Narrowing.{capped, IsNarrowerThan};
ghost use Rattle.phase_composer.specs.Best.{IsTimely, NoneOnTimeUnder, IsKeptDrive, Beats, BeatsCoasting};

use crate::caps::fastest;
use crate::kept::{Kept, Known, tried};
use drive_rules::{Drive, Rules};
use rail_base::StepCost;
use rail_specs::Narrow;
use speed_envelopes::{coasting, narrowings_nest, under_cap};
use std::alloc::{AllocError, Global};

/// `tried` from a drive that is known, or nothing where it is known that no drive is on time.
fn tried_from<C: StepCost>(
    alloc: Global,
    rules: &Rules,
    cost: &C,
    narrow: &Narrow,
    known: Option<Known>,
    best: &mut Kept,
) -> Result<Option<Known>, AllocError>
    requires narrower { IfSome known (λ k. IsNarrowerThan narrow.now k.narrow × IsTimely rules.now k.narrow k.drive) }
    requires none { IfNone known (NoneOnTimeUnder rules.now narrow.now) }
    requires kept { IsKeptDrive (C.cost cost.now) rules.now best.old.drive best.old.cost }
    ensures some { IfOk result (λ found. IfSome found (λ k. (k.narrow ≡ narrow.now) × IsTimely rules.now narrow.now k.drive)) }
    ensures none { IfOk result (λ found. IfNone found (NoneOnTimeUnder rules.now narrow.now)) }
    ensures beats { OnOk result (Beats (C.cost cost.now) rules.now narrow.now best.new.cost) }
    ensures kept { IsKeptDrive (C.cost cost.now) rules.now best.new.drive best.new.cost }
    ensures no_worse { best.new.cost ≤ℤ best.old.cost }
{
    match known {
        Some(known) => tried(alloc, rules, cost, narrow, &known, best),
        None => Ok(None),
    }
}

/// Tries the drives that coast under the cap of `under`, its greatest drive, which is on time.
///
/// Of two that coast to the same stop, the one that begins earlier is no faster. So they are tried from the last point backwards, each
/// from the one before, until one is late.
fn try_coasting_under<C: StepCost>(
    alloc: Global,
    rules: &Rules,
    cost: &C,
    under: &Known,
    best: &mut Kept,
) -> Result<(), AllocError>
    requires cap { under.now.narrow ≡ capped under.now.narrow.cap }
    requires timely { IsTimely rules.now under.now.narrow under.now.drive }
    requires kept { IsKeptDrive (C.cost cost.now) rules.now best.old.drive best.old.cost }
    ensures beats { OnOk result (BeatsCoasting (C.cost cost.now) rules.now under.now.narrow.cap 0 best.new.cost) }
    ensures kept { IsKeptDrive (C.cost cost.now) rules.now best.new.drive best.new.cost }
    ensures no_worse { best.new.cost ≤ℤ best.old.cost }
{
    rules.known();
    narrowings_nest();
    let mut known = None;
    let mut stop = 0;
    let mut k = 64;
    while k > 0 {
        k -= 1;
        let narrow = coasting(rules, under.narrow.cap, k);
        if narrow.idle_to != stop {
            stop = narrow.idle_to;
            known = Some(under.copy(alloc)?);
        }
        known = tried_from(alloc, rules, cost, &narrow, known, best)?;
    }
    Ok(())
}

/// The least number of caps of 375, at least one, of which the last is at least a speed.
fn highest_cap(speed: u16) -> u16
    requires { speed ≤ 12000 }
    ensures above { speed ≤ 375 * result }
    ensures some { 1 ≤ result }
    ensures most { result ≤ 32 }
{
    speed.div_ceil(375).max(1)
}

/// Tries the drives that coast, under each cap that is a multiple of 375, from the highest down until one is late.
///
/// `greatest` is the greatest drive. No cap above its fastest speed has other drives.
pub(crate) fn try_coasting<C: StepCost>(
    alloc: Global,
    rules: &Rules,
    cost: &C,
    greatest: Drive,
    best: &mut Kept,
) -> Result<(), AllocError>
    requires greatest { IsTimely rules.now no_narrowing greatest }
    requires kept { IsKeptDrive (C.cost cost.now) rules.now best.old.drive best.old.cost }
    ensures beats { OnOk result ((j : ℕ) → 1 ≤ j → j ≤ 32 → BeatsCoasting (C.cost cost.now) rules.now (375 * j) 0 best.new.cost) }
    ensures kept { IsKeptDrive (C.cost cost.now) rules.now best.new.drive best.new.cost }
    ensures no_worse { best.new.cost ≤ℤ best.old.cost }
{
    rules.known();
    narrowings_nest();
    let speeds = greatest.speeds();
    rules.known_drive(speeds);
    let most = fastest(speeds);
    let mut j = highest_cap(most);
    let mut known = Known {
        narrow: under_cap(12_000),
        drive: greatest,
    };
    while j > 0 {
        let Some(under) = tried(alloc, rules, cost, &under_cap(375 * j), &known, best)? else {
            return Ok(());
        };
        try_coasting_under(alloc, rules, cost, &under, best)?;
        known = under;
        j -= 1;
    }
    Ok(())
}
