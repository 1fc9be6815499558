//! The cells that the search for a bound begins with.
ghost use Rattle.std.specs.Prelude.{◌≡◌, ◌≤◌, ◌+◌, ℕ, List, length, IfOk};
ghost use Rattle.bound_specs.specs.declared.Cell.{Cell};
ghost use Rattle.rail_specs.specs.Rules.{IsDrive};
ghost use Rattle.bound_specs.specs.Cells.{cell_count, CellsFit};
ghost use Rattle.cell_splitting.specs.Splits.{ComeBySplits};
ghost use Rattle.planner.specs.Works.{AreWhole, AreSplit};

use cell_splitting::{split_evenly, splits_known};
use drive_rules::Rules;
use rail_specs::Narrow;
use relaxed_costs::relaxed_costs_known;
use speed_cells::{Cells, whole_cells_fit};
use speed_envelopes::ranges;
use std::alloc::{AllocError, Global};
use time_multipliers::Prices;

/// One cell for each point, over the exact ranges of speeds, where there is a drive. Or want of memory.
fn whole_cells(alloc: Global, rules: &Rules, drive: &[u16]) -> Result<Cells, AllocError>
    requires { IsDrive rules.now drive.now }
    ensures whole { IfOk result (AreWhole rules.now) }
    ensures fit { IfOk result (CellsFit rules.now) }
    ensures one { IfOk result (λ cells. cell_count cells ≡ length cells) }
{
    rules.known_drive(drive);
    whole_cells_fit();
    let Some(found) = ranges(alloc, rules, &Narrow::none())? else {
        unreachable!();
    };
    let pairs = found.pairs(alloc)?;
    let cells = Cells::whole(alloc, pairs.as_slice())?;
    Ok(cells)
}

/// The even cells for a budget of splits, where there is a drive. Or want of memory.
pub(crate) fn even_cells(
    alloc: Global,
    rules: &Rules,
    prices: &Prices,
    drive: &[u16],
    splits: u32,
) -> Result<Cells, AllocError>
    requires { IsDrive rules.now drive.now }
    ensures { IfOk result (AreSplit rules.now splits) }
{
    rules.known();
    splits_known();
    relaxed_costs_known(rules, prices);
    let mut cells = whole_cells(alloc, rules, drive)?;
    split_evenly(&mut cells, splits)?;
    Ok(cells)
}

/// Cells that come by further splits, within the budget, are still what the search works on. It does nothing.
pub(crate) fn further_splits(rules: &Rules, prices: &Prices)
    ensures { (budget : ℕ) (cells next : List (List Cell)) → AreSplit rules.now budget cells → ComeBySplits cells next
        → cell_count next ≤ length rules.now.steps + 1 + budget → AreSplit rules.now budget next }
{
    splits_known();
    relaxed_costs_known(rules, prices);
}
