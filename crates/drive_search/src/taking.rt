//! What is taken of a search.
ghost use Rattle.std.specs.Prelude.{◌≡◌, ℕ, ◌≤◌, ◌^◌, ◌≤ℤ◌, length, slice_index, IfOk, OnOk, OnErr};
ghost use Rattle.phase_composer.specs.Best.{IsKeptDrive};

use crate::halving::Round;
use crate::levels::ONE;
use crate::search::Search;
use drive_rules::{Drive, Judged, Rules};
use phase_composer::Kept;
use rail_base::StepCost;
use std::alloc::{AllocError, Global};

/// The greatest price that is handed out, in 0.5 microjoule for a ms.
const MOST_PRICE: u64 = 1 << 50;

/// What a search found: speeds, and prices of the timing points.
#[derive(Drop)]
struct Found {
    speeds: Vec<u16>,
    prices: Vec<u64>,
}

/// The first round of halvings, which looks far at first.
const FIRST_ROUND: Round = Round {
    first: 1 << 14,
    wide: 4,
};

/// The second round, from the best drive of the first.
const SECOND_ROUND: Round = Round {
    first: 1 << 13,
    wide: 0,
};

/// Searches from a drive that costs this much.
fn searched<C: StepCost>(
    alloc: Global,
    rules: &Rules,
    cost: &C,
    drive: &Drive,
    energy: i128,
) -> Result<Found, AllocError> {
    let Some(mut search) = Search::new(alloc, rules, drive, energy)? else {
        return Ok(Found {
            speeds: Vec::new(alloc),
            prices: Vec::new(alloc),
        });
    };
    let mut slowness = Vec::new(alloc);
    for _ in 0..rules.timings().len() {
        slowness.push(ONE + ONE / 4)?;
    }
    let mut speeds = Vec::from_slice(alloc, drive.speeds())?;
    search.balance(rules, cost, &mut speeds, &mut slowness)?;
    search.round(rules, cost, speeds.as_slice(), &mut slowness, FIRST_ROUND)?;
    let start = Vec::from_slice(alloc, search.best.as_slice())?;
    search.round(rules, cost, start.as_slice(), &mut slowness, SECOND_ROUND)?;
    search.lower_best(rules, cost, slowness.as_slice(), 3)?;
    search.lower_best(rules, cost, slowness.as_slice(), 0)?;
    let prices = search.goal_prices(slowness.as_slice())?;
    Ok(Found {
        speeds: search.best,
        prices,
    })
}

/// One price for each timing point, each in range: the price of an index, or 0 behind the end.
fn price_list(alloc: Global, prices: &[u64], count: usize) -> Result<Vec<u64>, AllocError>
    ensures count { IfOk result (λ list. length list.items ≡ count) }
    ensures in_range { IfOk result (λ list. (j : ℕ) → slice_index list.items j ≤ 2 ^ 50) }
{
    let mut list = Vec::new(alloc);
    for j in 0..count {
        let price = prices.get(j).copied().unwrap_or(0);
        list.push(price.min(MOST_PRICE))?;
    }
    Ok(list)
}

/// Takes speeds for the best drive, where they are a drive on time that costs less.
fn take<C: StepCost>(
    alloc: Global,
    rules: &Rules,
    cost: &C,
    speeds: &[u16],
    best: &mut Kept,
) -> Result<(), AllocError>
    requires kept { IsKeptDrive (C.cost cost.now) rules.now best.old.drive best.old.cost }
    ensures kept { IsKeptDrive (C.cost cost.now) rules.now best.new.drive best.new.cost }
    ensures no_worse { best.new.cost ≤ℤ best.old.cost }
    ensures refused { OnErr result (best.new ≡ best.old) }
{
    match rules.judge(speeds, cost) {
        Judged::Kept { cost } if cost < best.cost => {
            let drive = Drive::make(alloc, speeds)?;
            *best = Kept { drive, cost };
            Ok(())
        }
        _ => Ok(()),
    }
}

/// Searches for a drive near the least energy, from one that is on time: that becomes the best that was found, which is on time and costs
/// no more. Hands out the last prices of the timing points, one for each, in 0.5 microjoule for a ms: with these the search for a bound may
/// begin.
///
/// Nothing is promised of how near the least energy the drive is. `AllocError` is want of memory: the drive is then as it was.
pub fn search_drive<C: StepCost>(
    alloc: Global,
    rules: &Rules,
    cost: &C,
    best: &mut Kept,
) -> Result<Vec<u64>, AllocError>
    requires kept { IsKeptDrive (C.cost cost.now) rules.now best.old.drive best.old.cost }
    ensures kept { IsKeptDrive (C.cost cost.now) rules.now best.new.drive best.new.cost }
    ensures no_worse { best.new.cost ≤ℤ best.old.cost }
    ensures refused { OnErr result (best.new ≡ best.old) }
    ensures count { IfOk result (λ prices. length prices.items ≡ length rules.now.timings) }
    ensures in_range { IfOk result (λ prices. (j : ℕ) → slice_index prices.items j ≤ 2 ^ 50) }
{
    let found = searched(alloc, rules, cost, &best.drive, best.cost)?;
    let prices = price_list(alloc, found.prices.as_slice(), rules.timings().len())?;
    take(alloc, rules, cost, found.speeds.as_slice(), best)?;
    Ok(prices)
}
