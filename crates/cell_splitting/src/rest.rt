//! Splits of any cells, until a budget is spent.
ghost use Rattle.std.specs.Prelude.{◌≡◌, ◌≢◌, ◌≤◌, ◌<◌, ◌+◌, ◌⊎◌, ℕ, OnOk, IfOk, All, length};
ghost use Rattle.bound_specs.specs.Cells.{cells_of, cell_count, AreSingle};
ghost use Rattle.cell_splitting.specs.Splits.{ComeBySplits};

use crate::chosen::split_if_two;
use speed_cells::Cells;
use std::alloc::AllocError;

/// Splits cells, those of the first points first, until so many splits are made or each cell has one speed. Or want of memory, after some
/// of the splits.
pub fn split_rest(cells: &mut Cells, most: usize) -> Result<(), AllocError>
    ensures come { OnOk result (ComeBySplits cells.old cells.new) }
    ensures most { OnOk result (cell_count cells.new ≤ cell_count cells.old + most) }
    ensures spent { OnOk result ((cell_count cells.new ≡ cell_count cells.old + most) ⊎ AreSingle cells.new) }
{
    let mut left = most;
    for point in 0..cells.points() {
        left = split_point(cells, point, left)?;
    }
    Ok(())
}

/// Splits cells of one point until so many splits are made or each of them has one speed, and answers how many splits are left.
fn split_point(cells: &mut Cells, point: usize, most: usize) -> Result<usize, AllocError>
    requires { point < length cells.old }
    ensures come { IfOk result (λ left. ComeBySplits cells.old cells.new) }
    ensures count { IfOk result (λ left. cell_count cells.new + left ≡ cell_count cells.old + most) }
    ensures spent { IfOk result (λ left. (left ≡ 0) ⊎ All (λ a. a.first ≡ a.last) (cells_of cells.new point)) }
    ensures others { IfOk result (λ left. (k : ℕ) → k ≢ point → cells_of cells.new k ≡ cells_of cells.old k) }
    ensures points { IfOk result (λ left. length cells.new ≡ length cells.old) }
{
    let mut left = most;
    let mut cell = 0;
    while left > 0 && cell < cells.of(point) {
        if split_if_two(cells, point, cell)? {
            left -= 1;
        } else {
            cell += 1;
        }
    }
    Ok(left)
}
