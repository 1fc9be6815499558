//! The greatest drive under a narrowing.
ghost use Rattle.std.specs.Prelude.{◌≡◌, ℕ, ◌+◌, ◌≤◌, ◌<◌, List, length, map, min, slice_index, IfSome, IfNone, IfOk};
ghost use Rattle.std.specs.Bool.{OnTrue, OnFalse};
ghost use Rattle.rail_specs.specs.Rules.{IsGreatestDrive, NoDrive};
ghost use Rattle.rail_specs.specs.Ranges.{IsGreatestNarrowDrive, NoNarrowDrive};
ghost use Rattle.speed_envelopes.specs.Capped.{IsCapped, IsAbove, IsCeiling};
ghost use Rattle.speed_envelopes.specs.Narrowing.{IsNarrowerThan};

use crate::bounds::{Bounds, Side};
use crate::settle::{reaches_floors, settle};
use drive_rules::{Drive, Rules};
use rail_specs::Narrow;
use std::alloc::{AllocError, Global};

/// The greatest speed that point k allows by itself.
fn ceiling(rules: &Rules, narrow: &Narrow, k: usize) -> u16
    requires { k ≤ length rules.now.steps }
    ensures { IsCeiling rules.now narrow.now k result }
{
    rules.known();
    let mut most = rules.top().min(narrow.cap);
    if k < rules.steps() {
        most = most.min(rules.limit(k));
    }
    if k == 0 {
        most.min(rules.start())
    } else if rules.stop(k) {
        0
    } else {
        most.min(rules.limit(k - 1))
    }
}

/// Per point the greatest speed that it allows by itself.
fn ceilings(alloc: Global, rules: &Rules, narrow: &Narrow) -> Result<Vec<u16>, AllocError>
    ensures capped { IfOk result (λ v. IsCapped rules.now narrow.now v.items) }
    ensures above { IfOk result (λ v. IsAbove rules.now narrow.now v.items) }
{
    rules.known();
    let mut speeds = Vec::with_capacity(alloc, rules.steps() + 1)?;
    for k in 0..rules.steps() + 1 {
        speeds.push(ceiling(rules, narrow, k))?;
    }
    Ok(speeds)
}

/// Lowers speeds that no drive under the narrowing exceeds to the greatest drive: whether there is a drive.
fn lower_to_greatest(rules: &Rules, narrow: &Narrow, speeds: &mut [u16]) -> bool
    requires capped { IsCapped rules.now narrow.now speeds.old }
    requires above { IsAbove rules.now narrow.now speeds.old }
    ensures greatest { OnTrue result (IsGreatestNarrowDrive rules.now narrow.now speeds.new) }
    ensures none { OnFalse result (NoNarrowDrive rules.now narrow.now) }
{
    let bounds = Bounds::new(rules, narrow, Side::Greatest);
    bounds.known();
    if !reaches_floors(&bounds, speeds) {
        return false;
    }
    settle(&bounds, speeds)
}

/// The greatest drive under the narrowing, lowered from speeds that no drive under it exceeds: none where there is none.
fn lowered(
    alloc: Global,
    rules: &Rules,
    narrow: &Narrow,
    speeds: Vec<u16>,
) -> Result<Option<Drive>, AllocError>
    requires capped { IsCapped rules.now narrow.now speeds.items }
    requires above { IsAbove rules.now narrow.now speeds.items }
    ensures some { IfOk result (λ found. IfSome found (IsGreatestNarrowDrive rules.now narrow.now)) }
    ensures none { IfOk result (λ found. IfNone found (NoNarrowDrive rules.now narrow.now)) }
{
    let mut speeds = speeds;
    if !lower_to_greatest(rules, narrow, speeds.as_mut_slice()) {
        return Ok(None);
    }
    let drive = Drive::make(alloc, speeds.as_slice())?;
    Ok(Some(drive))
}

/// The greatest drive under a narrowing: none exactly where there is no drive under it. `AllocError` is want of memory.
pub fn greatest_under(
    alloc: Global,
    rules: &Rules,
    narrow: &Narrow,
) -> Result<Option<Drive>, AllocError>
    ensures some { IfOk result (λ found. IfSome found (IsGreatestNarrowDrive rules.now narrow.now)) }
    ensures none { IfOk result (λ found. IfNone found (NoNarrowDrive rules.now narrow.now)) }
{
    let speeds = ceilings(alloc, rules, narrow)?;
    lowered(alloc, rules, narrow, speeds)
}

/// The greatest drive of the rules: none exactly where there is no drive. `AllocError` is want of memory.
pub fn greatest_drive(alloc: Global, rules: &Rules) -> Result<Option<Drive>, AllocError>
    ensures some { IfOk result (λ found. IfSome found (IsGreatestDrive rules.now)) }
    ensures none { IfOk result (λ found. IfNone found (NoDrive rules.now)) }
{
    rules.known();
    greatest_under(alloc, rules, &Narrow::none())
}

/// The greatest drive under a narrowing: none exactly where there is no drive under it.
///
/// The search begins at `known`, the greatest drive under a wider narrowing, and costs little where little changes: so
/// ask for many narrowings on the same rules each from the one before. `AllocError` is want of memory.
pub fn greatest_from(
    alloc: Global,
    rules: &Rules,
    narrow: &Narrow,
    wider: &Narrow,
    known: &Drive,
) -> Result<Option<Drive>, AllocError>
    requires narrower { IsNarrowerThan narrow.now wider.now }
    requires known { IsGreatestNarrowDrive rules.now wider.now known.now }
    ensures some { IfOk result (λ found. IfSome found (IsGreatestNarrowDrive rules.now narrow.now)) }
    ensures none { IfOk result (λ found. IfNone found (NoNarrowDrive rules.now narrow.now)) }
{
    rules.known();
    let speeds = at_most(alloc, known.speeds(), narrow.cap)?;
    lowered(alloc, rules, narrow, speeds)
}

/// The speeds, each at most the cap.
fn at_most(alloc: Global, speeds: &[u16], cap: u16) -> Result<Vec<u16>, AllocError>
    ensures { IfOk result (λ v. v.items ≡ map (λ speed. min speed cap) speeds.now) }
{
    speeds.iter().map(|speed| (*speed).min(cap)).collect(alloc)
}
