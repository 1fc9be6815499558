//! Laws of cells, as the clauses of functions that do nothing.
ghost use Rattle.std.specs.Prelude.{ℕ, ◌<◌, ◌≤◌, List, All, length, map, slice_set};
ghost use Rattle.bound_specs.specs.declared.Cell.{Cell};
ghost use Rattle.rail_specs.specs.Rules.{Rules};
ghost use Rattle.rail_specs.specs.Ranges.{AreRanges, no_narrowing};
ghost use Rattle.bound_specs.specs.Cells.{cells_of, whole_cell, split_cells, AreAdjacent, RunFrom, CellsFit, CellsCover};
ghost use Rattle.speed_cells.specs.Laws.{CanSplit, ArePairs};

/// Cells that fit the rules cover them: every drive runs through them, where the train's top speed is one that a cell can have.
pub fn fitting_cells_cover()
    ensures { (r : Rules) (cells : List (List Cell)) → r.top ≤ 12000 → CellsFit r cells → CellsCover r cells }
{}

/// One cell for each point, from the least to the greatest speed that a drive has there, fits the rules.
pub fn whole_cells_fit()
    ensures ordered { (r : Rules) (least greatest : List ℕ) (pairs : List (ℕ × ℕ)) → AreRanges r no_narrowing least greatest → ArePairs r least greatest pairs → All (λ p. (p.0 ≤ p.1) × (p.1 ≤ 12000)) pairs }
    ensures fit { (r : Rules) (least greatest : List ℕ) (pairs : List (ℕ × ℕ)) → AreRanges r no_narrowing least greatest → ArePairs r least greatest pairs → CellsFit r (map whole_cell pairs) }
{}

/// Where a cell of two or more speeds is split, the cells still lie side by side, from the same least to the same greatest speed.
/// So they still fit the rules.
pub fn splitting_keeps_speeds()
    ensures adjacent { (cs : List Cell) (c : ℕ) → AreAdjacent cs → CanSplit cs c → AreAdjacent (split_cells cs c) }
    ensures run { (least greatest : ℕ) (cs : List Cell) (c : ℕ) → RunFrom least greatest cs → CanSplit cs c → RunFrom least greatest (split_cells cs c) }
    ensures fit { (r : Rules) (cells : List (List Cell)) (k c : ℕ) → k < length cells → CellsFit r cells → CanSplit (cells_of cells k) c → CellsFit r (slice_set cells k (split_cells (cells_of cells k) c)) }
{}
