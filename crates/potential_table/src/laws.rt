//! Laws of chain values, as the clauses of functions that do nothing.
ghost use Rattle.std.specs.Prelude.{ℤ, List, Option};
ghost use Rattle.rail_specs.specs.Cost.{Grows, StaysWithin};
ghost use Rattle.bound_specs.specs.declared.Cell.{Cell};
ghost use Rattle.bound_specs.specs.Chains.{IsAtMost};
ghost use Rattle.bound_specs.specs.ChainValues.{IsChainValue, AreFiner};
ghost use Rattle.bound_specs.specs.Prices.{Prices as PriceData, ArePrices, AreFor};

use drive_rules::Rules;

/// Under equal prices finer cells have no smaller chain value: where each cell of one list lies inside a cell of another, both with one
/// cell at the first point. It does nothing.
pub fn finer_cells_bound_more(rules: &Rules)
    ensures { (cost : ℤ → ℤ) (p : PriceData) (coarse fine : List (List Cell)) (v w : Option ℤ) → Grows cost → StaysWithin cost → ArePrices p → AreFor rules.now p → AreFiner rules.now coarse fine → IsChainValue (record { cost = cost; rules = rules.now; prices = p }) coarse v → IsChainValue (record { cost = cost; rules = rules.now; prices = p }) fine w → IsAtMost v w }
{
    rules.known();
}
