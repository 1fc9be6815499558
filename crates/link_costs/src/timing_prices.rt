//! Prices for a run's timing points.
ghost use Rattle.std.specs.Prelude.{◌≡◌, ℕ, ◌^◌, ◌≤◌, map, length, take, slice_index, IfOk};
ghost use Rattle.bound_specs.specs.Prices.{AreFor};

use drive_rules::Rules;
use std::alloc::{AllocError, Global};
use time_multipliers::Prices;

/// Prices for the timing points of the rules: what each of them charges for a ms before it, in 0.5 microjoule, at most 2^50, in
/// their order. Or want of memory.
#[tactic(auto, using(crate::proofs::TimingLemmas::timing_prices))]
pub fn prices_for(alloc: Global, rules: &Rules, values: &[u64]) -> Result<Prices, AllocError>
    requires count { length values.now ≡ length rules.now.timings }
    requires low { (j : ℕ) → slice_index values.now j ≤ 2 ^ 50 }
    ensures timings { IfOk result (λ prices. AreFor rules.now prices) }
    ensures values { IfOk result (λ prices. prices.values ≡ values.now) }
{
    rules.known();
    let points = timing_points(alloc, rules)?;
    Prices::make(alloc, points.as_slice(), values)
}

/// The timing points of the rules, in order.
fn timing_points(alloc: Global, rules: &Rules) -> Result<Vec<u32>, AllocError>
    ensures { IfOk result (λ points. points.items ≡ map (λ t. t.point) rules.now.timings) }
{
    let timings = rules.timings();
    let mut points = Vec::new(alloc);
    for j in 0..timings.len() {
        points.push(timings[j].point)?;
    }
    Ok(points)
}
