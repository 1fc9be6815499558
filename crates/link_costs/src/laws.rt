//! When values of cells give a bound, as the clause of a function that does nothing.
ghost use Rattle.std.specs.Prelude.{◌≡◌, ℕ, ◌+◌, ◌<◌, ℤ, ◌-ℤ◌, List, Option, Some, length};
ghost use Rattle.bound_specs.specs.declared.Cell.{Cell};
ghost use Rattle.bound_specs.specs.Cells.{cells_of, AreAdjacent, CellsCover};
ghost use Rattle.bound_specs.specs.Chains.{value_at};
ghost use Rattle.bound_specs.specs.Feasible.{AreFeasible};
ghost use Rattle.bound_specs.specs.Links.{Pricing, low_cost};
ghost use Rattle.bound_specs.specs.Prices.{priced_slack};
ghost use Rattle.rail_specs.specs.Cost.{IsBound};
ghost use Rattle.time_multipliers.specs.Steps.{StepsSumByParts};
ghost use Rattle.link_costs.specs.Soundness.{IsPricing};

/// Where values of cells are feasible, the cells lie side by side and cover the rules, and the first point has one cell, that cell's value
/// less what the prices charge for the slack of the timing points is a bound: every drive on time, its step times rounded down, costs at
/// least this (weak duality).
pub fn feasible_values_give_a_bound()
    ensures { (p : Pricing) (cells : List (List Cell)) (values : List (List (Option ℤ))) (value : ℤ) → IsPricing p → StepsSumByParts p.prices → CellsCover p.rules cells → length cells ≡ length p.rules.steps + 1 → ((k : ℕ) → k < length cells → AreAdjacent (cells_of cells k)) → length (cells_of cells 0) ≡ 1 → AreFeasible (low_cost p) cells values → value_at values 0 0 ≡ Some value → IsBound p.cost p.rules (value -ℤ priced_slack p.rules p.prices) }
{}
