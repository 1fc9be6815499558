//! The ascent: rounds of ramps, which carry the costates far, and then rounds of steps, which smooth them.
ghost use Rattle.std.specs.Prelude.{◌≡◌, ℕ, ◌+◌, ◌^◌, ◌<◌, ◌≤◌, ℤ, length, map, All, IfOk};
ghost use Rattle.std.specs.Int.RustNames.{unsigned_abs};
ghost use Rattle.rail_specs.specs.Ranges.{AreRanges, no_narrowing};
ghost use Rattle.costate_search.specs.Course.{within_range};

use crate::course::Course;
use crate::picks::moved;
use crate::ramp_rounds::{ramp_round, run_ends};
use crate::step_rounds::step_round;
use drive_rules::Rules;
use speed_envelopes::Ranges;
use std::alloc::{AllocError, Global};
use time_multipliers::Prices;

/// The full costate, with which the search begins.
const FULL: i32 = 64_000;

/// The strides of rounds of ramps, one after the other, and of those of steps.
const RAMP_STRIDES: [i32; 4] = [4_096, 2_048, 1_024, 512];

const STEP_STRIDES: [i32; 10] = [512, 256, 128, 64, 32, 16, 8, 4, 2, 1];

/// The most rounds of a stride behind its first, of either kind.
const RAMP_ROUNDS: u32 = 12;

const STEP_ROUNDS: u32 = 24;

/// A run of ramps has this share of the steps, and at least so many.
const RUNS: usize = 64;

const LEAST_RUN: usize = 4;

/// Whether a round brought less than this share of what all points are charged.
fn is_small(value: i128, best: i128, share: u128) -> bool
    requires { 0 < share }
{
    let gain = value.saturating_sub(best).max(0).unsigned_abs();
    gain <= value.unsigned_abs() / share
}

/// Rounds of ramps of one stride, while they gain more than a millionth.
fn climb_ramps(
    alloc: Global,
    course: &Course<'_>,
    ends: &[usize],
    stride: i32,
    costates: &mut [i32],
) -> Result<(), AllocError>
    requires costates { length costates.old ≡ length course.now.rules.steps }
    requires some { 0 < length course.now.rules.steps }
{
    let mut best = ramp_round(alloc, course, ends, stride, costates)?;
    for _ in 0..RAMP_ROUNDS {
        let value = ramp_round(alloc, course, ends, stride, costates)?;
        if is_small(value, best, 1_000_000) {
            return Ok(());
        }
        best = value;
    }
    Ok(())
}

/// Rounds of steps of one stride, while they gain more than a ten-millionth.
fn climb_steps(
    alloc: Global,
    course: &Course<'_>,
    stride: i32,
    costates: &mut [i32],
) -> Result<(), AllocError>
    requires { length costates.old ≡ length course.now.rules.steps }
{
    let mut best = step_round(alloc, course, stride, costates)?;
    for _ in 0..STEP_ROUNDS {
        let value = step_round(alloc, course, stride, costates)?;
        if is_small(value, best, 10_000_000) {
            return Ok(());
        }
        best = value;
    }
    Ok(())
}

/// All rounds.
fn climb(alloc: Global, course: &Course<'_>, costates: &mut [i32]) -> Result<(), AllocError>
    requires costates { length costates.old ≡ length course.now.rules.steps }
    requires some { 0 < length course.now.rules.steps }
{
    let ends = run_ends(alloc, course, (course.steps() / RUNS).max(LEAST_RUN))?;
    for stride in RAMP_STRIDES {
        climb_ramps(alloc, course, ends.as_slice(), stride, costates)?;
    }
    for stride in STEP_STRIDES {
        climb_steps(alloc, course, stride, costates)?;
    }
    Ok(())
}

/// How fast the priced time of a step falls with the sum of its speeds, where that is this sum.
fn slope(metres: u16, price: u64, at: u32) -> u64 {
    let at = at.max(1) as u128;
    let most = 200_000u128
        .wrapping_mul(metres as u128)
        .wrapping_mul(price as u128);
    (most / (at * at)).min(1 << 46) as u64
}

/// The slopes of the tangents of all steps.
fn slopes(
    alloc: Global,
    rules: &Rules,
    prices: &Prices,
    speeds: &[u16],
) -> Result<Vec<u64>, AllocError>
    requires { length speeds.now ≡ length rules.now.steps + 1 }
    ensures { IfOk result (λ slopes. length slopes.items ≡ length rules.now.steps) }
{
    let mut slopes = Vec::new(alloc);
    for i in 0..rules.steps() {
        let at = speeds[i] as u32 + speeds[i + 1] as u32;
        slopes.push(slope(rules.row(i).metres(), prices.step_price(i), at))?;
    }
    Ok(slopes)
}

/// So many full costates.
fn full(alloc: Global, steps: usize) -> Result<Vec<i32>, AllocError>
    ensures { IfOk result (λ costates. length costates.items ≡ steps) }
{
    let mut costates = Vec::new(alloc);
    for i in 0..steps {
        costates.push(FULL)?;
    }
    Ok(costates)
}

/// Costates, each moved into its range.
fn within_range(alloc: Global, costates: &[i32]) -> Result<Vec<i32>, AllocError>
    ensures value { IfOk result (λ kept. kept.items ≡ map within_range costates.now) }
{
    let mut kept = Vec::new(alloc);
    for costate in costates {
        kept.push(moved(*costate))?;
    }
    Ok(kept)
}

/// The same, by their count and size.
#[tactic(auto, using(crate::proofs::Within::within_small, crate::proofs::Within::within_count))]
fn kept_in_range(alloc: Global, costates: &[i32]) -> Result<Vec<i32>, AllocError>
    ensures count { IfOk result (λ kept. length kept.items ≡ length costates.now) }
    ensures small { IfOk result (λ kept. All (λ s. unsigned_abs s ≤ 2 ^ 22) kept.items) }
{
    within_range(alloc, costates)
}

/// Costates for the steps of a run that make the bound by costates large, where braking gives back this share of its work, in per mille, at
/// these prices, with tangents at the speeds of a drive: one for each step, each from -2^22 to 2^22. Or want of memory.
pub fn search_costates(
    alloc: Global,
    rules: &Rules,
    share: u16,
    prices: &Prices,
    speeds: &[u16],
    ranges: &Ranges,
) -> Result<Vec<i32>, AllocError>
    requires speeds { length speeds.now ≡ length rules.now.steps + 1 }
    requires ranges { AreRanges rules.now no_narrowing ranges.now.low ranges.now.high }
    ensures count { IfOk result (λ costates. length costates.items ≡ length rules.now.steps) }
    ensures small { IfOk result (λ costates. All (λ s. unsigned_abs s ≤ 2 ^ 22) costates.items) }
{
    let slopes = slopes(alloc, rules, prices, speeds)?;
    let mut costates = full(alloc, rules.steps())?;
    let course = Course::make(rules, share, speeds, ranges, slopes.as_slice());
    climb(alloc, &course, costates.as_mut_slice())?;
    kept_in_range(alloc, costates.as_slice())
}
