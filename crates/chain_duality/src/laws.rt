//! Laws of values of cells.
ghost use Rattle.std.specs.Prelude.{◌≡◌, ℕ, ◌+◌, ◌<◌, ℤ, List, Option, length};
ghost use Rattle.bound_specs.specs.declared.Cell.{Cell};
ghost use Rattle.bound_specs.specs.Cells.{cells_of, AreAdjacent};
ghost use Rattle.bound_specs.specs.Chains.{AreCellCosts, ArePotentials, WeakDuality};
ghost use Rattle.bound_specs.specs.Feasible.{AreFeasible};

/// Weak duality: where values of cells are feasible, and speeds run through the cells from a cell on, each step of which can be driven,
/// that cell has a value, and it is at most what the steps cost together.
pub fn feasible_values_bound()
    ensures { (n : ℕ) (real : ℕ → ℕ → ℕ → Option ℤ) (low : ℕ → Cell → Cell → Option ℤ) (cells : List (List Cell)) (values : List (List (Option ℤ))) → AreCellCosts n real low → length cells ≡ n + 1 → ((k : ℕ) → k < length cells → AreAdjacent (cells_of cells k)) → AreFeasible low cells values → WeakDuality real cells values }
{}

/// What the least chains from all cells cost is feasible.
pub fn potentials_are_feasible()
    ensures { (low : ℕ → Cell → Cell → Option ℤ) (cells : List (List Cell)) (values : List (List (Option ℤ))) → ArePotentials low cells values → AreFeasible low cells values }
{}
