//! Laws of splits, as the clauses of a function that does nothing.
ghost use Rattle.std.specs.Prelude.{◌≤◌, ◌≡◌, ℕ, List, length};
ghost use Rattle.bound_specs.specs.declared.Cell.{Cell};
ghost use Rattle.bound_specs.specs.Cells.{cell_count, AreAdjacent, CellsFit, cells_of};
ghost use Rattle.rail_specs.specs.Rules.{Rules};
ghost use Rattle.cell_splitting.specs.Splits.{ComeBySplits, LieInside};

/// What splits keep: cells that fit the rules still fit them, cells lie inside those from which they come, and splits follow one another.
pub fn splits_known()
    ensures fit { (r : Rules) (whole cells : List (List Cell)) → ComeBySplits whole cells → CellsFit r whole → CellsFit r cells }
    ensures inside { (whole cells : List (List Cell)) → ComeBySplits whole cells → LieInside cells whole }
    ensures again { (whole cells next : List (List Cell)) → ComeBySplits whole cells → ComeBySplits cells next → ComeBySplits whole next }
    ensures more { (whole cells : List (List Cell)) → ComeBySplits whole cells → cell_count whole ≤ cell_count cells }
{}
