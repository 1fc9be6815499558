//! The certificate of a drive.
ghost use Rattle.std.specs.Prelude.{◌≡◌, ◌+◌, ◌^◌, ◌≤◌, ◌≤ℤ◌, ℕ, ℤ, List, length, slice_index, IfOk};
ghost use Rattle.rail_specs.specs.Rules.{IsDrive};
ghost use Rattle.rail_specs.specs.Ranges.{AreRanges, no_narrowing};
ghost use Rattle.drive_choice.specs.Choices.{IsChosen};
ghost use Rattle.costate_bound.specs.Costs.{CoversWork};
ghost use Rattle.costate_run.specs.Offers.{IsOffer, free_bound};
ghost use Rattle.costate_run.specs.Plan.{IsCertificateFor};

use crate::offers::{Offer, better, free_offer, searched_offer};
use costate_text::CostateCertificate;
use drive_choice::Chosen;
use drive_rules::Rules;
use rail_base::{ItemList, StepCost};
use rail_specs::Narrow;
use speed_envelopes::{Ranges, ranges};
use std::alloc::{AllocError, Global};

/// Items as a list.
fn listed<T: Copy>(alloc: Global, items: &[T]) -> Result<ItemList<T>, AllocError>
    ensures { IfOk result (λ list. list ≡ items.now) }
{
    let mut list = ItemList::new(alloc);
    for item in items {
        list.push(*item)?;
    }
    Ok(list)
}

/// The exact ranges of speeds, where there is a drive. Or want of memory.
fn ranges_of(alloc: Global, rules: &Rules, drive: &[u16]) -> Result<Ranges, AllocError>
    requires { IsDrive rules.now drive.now }
    ensures { IfOk result (λ found. AreRanges rules.now no_narrowing found.low found.high) }
{
    rules.known_drive(drive);
    let Some(found) = ranges(alloc, rules, &Narrow::none())? else {
        unreachable!();
    };
    Ok(found)
}

/// The better of two offers with tangents at a drive's speeds: what a search finds from these prices on, and what prices of nothing give.
fn best_offer(
    alloc: Global,
    rules: &Rules,
    share: u16,
    speeds: &[u16],
    ranges: &Ranges,
    given: &[u64],
) -> Result<Offer, AllocError>
    requires speeds { length speeds.now ≡ length rules.now.steps + 1 }
    requires ranges { AreRanges rules.now no_narrowing ranges.now.low ranges.now.high }
    requires prices { length given.now ≡ length rules.now.timings }
    requires low { (j : ℕ) → slice_index given.now j ≤ 2 ^ 50 }
    ensures offer { IfOk result (IsOffer rules.now share speeds.now ranges.now.low ranges.now.high) }
    ensures free { IfOk result (λ o. free_bound rules.now share speeds.now ranges.now.low ranges.now.high ≤ℤ o.bound) }
{
    let searched = searched_offer(alloc, rules, share, speeds, ranges, given)?;
    let free = free_offer(alloc, rules, share, speeds, ranges)?;
    Ok(better(searched, free))
}

/// The certificate of a drive that was chosen, with the best bound that is known.
pub(crate) fn certificate<C: StepCost>(
    alloc: Global,
    rules: &Rules,
    cost: &C,
    share: u16,
    chosen: &Chosen,
) -> Result<CostateCertificate, AllocError>
    requires chosen { IsChosen (C.cost cost.now) rules.now chosen.now }
    requires covers { CoversWork share (C.cost cost.now) }
    ensures { IfOk result (IsCertificateFor (C.cost cost.now) share rules.now) }
{
    // Only the contract speaks of the cost.
    let _ = cost;
    rules.known();
    let speeds = chosen.drive.speeds();
    rules.known_drive(speeds);
    let ranges = ranges_of(alloc, rules, speeds)?;
    let best = best_offer(
        alloc,
        rules,
        share,
        speeds,
        &ranges,
        chosen.prices.as_slice(),
    )?;
    Ok(CostateCertificate {
        energy: chosen.cost,
        bound: best.bound,
        prices: listed(alloc, best.prices.as_slice())?,
        speeds: listed(alloc, speeds)?,
        costates: listed(alloc, best.costates.as_slice())?,
    })
}
