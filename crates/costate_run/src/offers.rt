//! Bounds by costates that a certificate may have: that of a search, and the one at which no time and no work has a price of its own.
ghost use Rattle.std.specs.Prelude.{◌≡◌, ◌+◌, ◌*◌, ◌^◌, ◌≤◌, ◌≤ℤ◌, ◌⊎◌, ℕ, ℤ, pos, length, min, slice_index, All, IfOk};
ghost use Rattle.std.specs.Int.RustNames.{unsigned_abs};
ghost use Rattle.rail_specs.specs.Cost.{IsBound};
ghost use Rattle.rail_specs.specs.Ranges.{AreRanges, no_narrowing};
ghost use Rattle.bound_specs.specs.Prices.{AreFor};
ghost use Rattle.costate_bound.specs.Costs.{CoversWork};
ghost use Rattle.costate_bound.specs.Relaxation.{costate_bound};
ghost use Rattle.costate_run.specs.Offers.{IsFreeOffer, IsOffer};

use costate_bound::Relaxation;
use costate_search::search_costates;
use drive_rules::Rules;
use link_costs::prices_for;
use speed_envelopes::Ranges;
use std::alloc::{AllocError, Global};
use time_multipliers::Prices;

/// Prices and costates, and the bound that they give with tangents at a drive's speeds.
#[derive(Drop)]
pub(crate) struct Offer {
    pub(crate) prices: Vec<u64>,
    pub(crate) costates: Vec<i32>,
    pub(crate) bound: i128,
}

/// The bound that prices and costates give.
fn bound_of(
    rules: &Rules,
    share: u16,
    prices: &Prices,
    speeds: &[u16],
    costates: &[i32],
    ranges: &Ranges,
) -> i128
    requires timings { AreFor rules.now prices.now }
    requires speeds { length speeds.now ≡ length rules.now.steps + 1 }
    requires costates { length costates.now ≡ length rules.now.steps }
    requires small { All (λ s. unsigned_abs s ≤ 2 ^ 22) costates.now }
    requires ranges { AreRanges rules.now no_narrowing ranges.now.low ranges.now.high }
    ensures value { result ≡ costate_bound (record { rules = rules.now; share = share; prices = prices.now; speeds = speeds.now; costates = costates.now })
        ranges.now.low ranges.now.high }
    ensures bounds { (cost : ℤ → ℤ) → CoversWork share cost → IsBound cost rules.now result }
    ensures small { unsigned_abs result ≤ 2 ^ 98 }
{
    let relaxation = Relaxation::make(rules, share, prices, speeds, costates);
    relaxation.bound(ranges)
}

/// Prices and costates, with the bound that they give.
fn make_offer(
    alloc: Global,
    rules: &Rules,
    share: u16,
    speeds: &[u16],
    ranges: &Ranges,
    prices: Vec<u64>,
    costates: Vec<i32>,
) -> Result<Offer, AllocError>
    requires speeds { length speeds.now ≡ length rules.now.steps + 1 }
    requires ranges { AreRanges rules.now no_narrowing ranges.now.low ranges.now.high }
    requires prices { length prices.items ≡ length rules.now.timings }
    requires low { (j : ℕ) → slice_index prices.items j ≤ 2 ^ 50 }
    requires costates { length costates.items ≡ length rules.now.steps }
    requires small { All (λ s. unsigned_abs s ≤ 2 ^ 22) costates.items }
    ensures offer { IfOk result (IsOffer rules.now share speeds.now ranges.now.low ranges.now.high) }
    ensures prices { IfOk result (λ o. o.prices.items ≡ prices.items) }
    ensures costates { IfOk result (λ o. o.costates.items ≡ costates.items) }
{
    let priced = prices_for(alloc, rules, prices.as_slice())?;
    let bound = bound_of(rules, share, &priced, speeds, costates.as_slice(), ranges);
    Ok(Offer {
        prices,
        costates,
        bound,
    })
}

/// What a search for costates finds, at these prices.
pub(crate) fn searched_offer(
    alloc: Global,
    rules: &Rules,
    share: u16,
    speeds: &[u16],
    ranges: &Ranges,
    given: &[u64],
) -> Result<Offer, AllocError>
    requires speeds { length speeds.now ≡ length rules.now.steps + 1 }
    requires ranges { AreRanges rules.now no_narrowing ranges.now.low ranges.now.high }
    requires prices { length given.now ≡ length rules.now.timings }
    requires low { (j : ℕ) → slice_index given.now j ≤ 2 ^ 50 }
    ensures { IfOk result (IsOffer rules.now share speeds.now ranges.now.low ranges.now.high) }
{
    let prices = prices_for(alloc, rules, given)?;
    let costates = search_costates(alloc, rules, share, &prices, speeds, ranges)?;
    let given = Vec::from_slice(alloc, given)?;
    make_offer(alloc, rules, share, speeds, ranges, given, costates)
}

/// The costate at which work is charged the share of it that comes back.
fn free_costate(share: u16) -> i32
    ensures value { result ≡ pos (64 * min share 1000) }
    ensures small { unsigned_abs result ≤ 2 ^ 22 }
{
    64 * share.min(1000) as i32
}

/// What prices of nothing give, where each costate charges the share of work that comes back: the least that a drive costs where its brakes
/// do as much work as its traction.
#[tactic(auto, using(crate::proofs::OfferLemmas::no_prices, crate::proofs::OfferLemmas::price_count, crate::proofs::OfferLemmas::costate_count, crate::proofs::OfferLemmas::costate_small))]
pub(crate) fn free_offer(
    alloc: Global,
    rules: &Rules,
    share: u16,
    speeds: &[u16],
    ranges: &Ranges,
) -> Result<Offer, AllocError>
    requires speeds { length speeds.now ≡ length rules.now.steps + 1 }
    requires ranges { AreRanges rules.now no_narrowing ranges.now.low ranges.now.high }
    ensures offer { IfOk result (IsOffer rules.now share speeds.now ranges.now.low ranges.now.high) }
    ensures free { IfOk result (IsFreeOffer rules.now share) }
{
    let prices = vec![in alloc; 0u64; rules.timings().len()]?;
    let costates = vec![in alloc; free_costate(share); rules.steps()]?;
    make_offer(alloc, rules, share, speeds, ranges, prices, costates)
}

/// The one with the greater bound.
pub(crate) fn better(first: Offer, second: Offer) -> Offer
    ensures one { (result ≡ first) ⊎ (result ≡ second) }
    ensures first { first.bound ≤ℤ result.bound }
    ensures second { second.bound ≤ℤ result.bound }
{
    if second.bound <= first.bound {
        first
    } else {
        second
    }
}
