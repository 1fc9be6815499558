//! Laws of relaxed costs, as the clauses of a function that does nothing.
ghost use Rattle.std.specs.Prelude.{◌≡◌, ℕ, ℤ, List, Option, Some, length};
ghost use Rattle.rail_specs.specs.Rules.{IsDrive};
ghost use Rattle.rail_specs.specs.Cost.{Grows, StaysWithin, IsBound};
ghost use Rattle.bound_specs.specs.declared.Cell.{Cell};
ghost use Rattle.bound_specs.specs.Cells.{cells_of, CellsFit, AreSingle};
ghost use Rattle.bound_specs.specs.Chains.{IsAtMost};
ghost use Rattle.bound_specs.specs.ChainValues.{IsChainValue};
ghost use Rattle.bound_specs.specs.Prices.{AreFor};
ghost use Rattle.relaxed_costs.specs.Relaxed.{relaxed_cost, IsLeastRelaxed};

use drive_rules::Rules;
use time_multipliers::Prices;

/// Cells that fit the rules have one cell at the first point. Their chain value is at most the relaxed cost of each drive, so that there
/// is one where there is a drive; and what it costs every drive on time at least, since such a drive is late nowhere. Where each cell has
/// one speed, it is the least relaxed cost of all drives. It does nothing.
pub fn relaxed_costs_known(rules: &Rules, prices: &Prices)
    ensures start { (cells : List (List Cell)) → CellsFit rules.now cells → length (cells_of cells 0) ≡ 1 }
    ensures below { (cost : ℤ → ℤ) (cells : List (List Cell)) (v : Option ℤ) (d : List ℕ) → Grows cost → StaysWithin cost
        → AreFor rules.now prices.now → CellsFit rules.now cells
        → IsChainValue (record { cost = cost; rules = rules.now; prices = prices.now }) cells v
        → IsDrive rules.now d → IsAtMost v (Some (relaxed_cost (record { cost = cost; rules = rules.now; prices = prices.now }) d)) }
    ensures bounds { (cost : ℤ → ℤ) (cells : List (List Cell)) (v : ℤ) → Grows cost → StaysWithin cost
        → AreFor rules.now prices.now → CellsFit rules.now cells
        → IsChainValue (record { cost = cost; rules = rules.now; prices = prices.now }) cells (Some v) → IsBound cost rules.now v }
    ensures single { (cost : ℤ → ℤ) (cells : List (List Cell)) (v : ℤ) → Grows cost → StaysWithin cost
        → AreFor rules.now prices.now → CellsFit rules.now cells → AreSingle cells
        → IsChainValue (record { cost = cost; rules = rules.now; prices = prices.now }) cells (Some v)
        → IsLeastRelaxed (record { cost = cost; rules = rules.now; prices = prices.now }) v }
{
    rules.known();
    prices.known();
}
