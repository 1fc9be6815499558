//! The least drive under a narrowing.
ghost use Rattle.std.specs.Prelude.{◌≡◌, ℕ, ◌+◌, ◌-◌, ◌≤◌, ◌<◌, length, slice_index, IfOk};
ghost use Rattle.rail_specs.specs.Ranges.{IsLeastNarrowDrive};
ghost use Rattle.speed_envelopes.specs.Bounds.{least_speed as floor_speed};
ghost use Rattle.speed_envelopes.specs.Levels.{AreComplements};
ghost use Rattle.speed_envelopes.specs.Capped.{LackOfTop, SomeNarrowDrive};

use crate::bounds::{Bounds, Side, least_speed};
use crate::settle::settle;
use drive_rules::{Drive, Rules};
use rail_specs::Narrow;
use std::alloc::{AllocError, Global};

/// Per point what the least speed that it allows by itself lacks of the top.
fn lacks(alloc: Global, rules: &Rules) -> Result<Vec<u16>, AllocError>
    requires { (k : ℕ) → k ≤ length rules.now.steps → floor_speed rules.now k ≤ rules.now.top }
    ensures { IfOk result (λ v. LackOfTop rules.now v.items) }
{
    rules.known();
    let top = rules.top();
    let mut levels = Vec::with_capacity(alloc, rules.steps() + 1)?;
    for k in 0..rules.steps() + 1 {
        levels.push(top - least_speed(rules, k))?;
    }
    Ok(levels)
}

/// Puts what each number lacks of the top in its place.
fn complement(top: u16, levels: &mut [u16])
    requires { (k : ℕ) → slice_index levels.old k ≤ top }
    ensures { AreComplements top levels.old levels.new }
{
    for level in levels.iter_mut() {
        *level = top - *level;
    }
}

/// Lowers what speeds lack of the top until every step is kept, and puts the speeds in its place.
fn raise_to_least(rules: &Rules, narrow: &Narrow, levels: &mut [u16])
    requires some { SomeNarrowDrive rules.now narrow.now }
    requires lacks { LackOfTop rules.now levels.old }
    ensures { IsLeastNarrowDrive rules.now narrow.now levels.new }
{
    let bounds = Bounds::new(rules, narrow, Side::Least);
    bounds.known();
    let settled = settle(&bounds, levels);
    prove!(settled);
    complement(rules.top(), levels);
}

/// The least drive under a narrowing that allows a drive.
pub(crate) fn least(alloc: Global, rules: &Rules, narrow: &Narrow) -> Result<Drive, AllocError>
    requires { SomeNarrowDrive rules.now narrow.now }
    ensures { IfOk result (IsLeastNarrowDrive rules.now narrow.now) }
{
    rules.known();
    let mut levels = lacks(alloc, rules)?;
    raise_to_least(rules, narrow, levels.as_mut_slice());
    Drive::make(alloc, levels.as_slice())
}
