//! Splits of cells that somebody chose.
ghost use Rattle.std.specs.Prelude.{◌≡◌, ◌≤◌, ◌<◌, ◌+◌, ◌↔◌, ℕ, OnOk, IfOk, IsTrue, MatchBool, length};
ghost use Rattle.bound_specs.specs.Cells.{cells_of, cell_count};
ghost use Rattle.cell_splitting.specs.Splits.{ComeBySplits, IsSplitAt, IsSingleAt};
ghost use Rattle.cell_splitting.specs.Chosen.{AreTried, IsTried};

use speed_cells::Cells;
use std::alloc::AllocError;

/// A cell's place.
#[derive(Clone, Copy)]
pub struct Place {
    /// The point, from 0.
    pub point: u32,
    /// The cell among those of the point, from 0, in the order of speeds.
    pub cell: u32,
}

/// Splits a cell where it has two or more speeds, and answers whether it has. Or want of memory, and then nothing has changed.
pub(crate) fn split_if_two(cells: &mut Cells, point: usize, cell: usize) -> Result<bool, AllocError>
    requires point { point < length cells.old }
    requires cell { cell < length (cells_of cells.old point) }
    ensures { IfOk result (λ two. MatchBool two (IsSplitAt cells.old cells.new point cell) (IsSingleAt cells.old cells.new point cell)) }
{
    cells.known();
    let speeds = cells.cell(point, cell);
    if speeds.first >= speeds.last {
        return Ok(false);
    }
    cells.split(point, cell)?;
    Ok(true)
}

/// Whether there is a cell at a place.
fn has_cell(cells: &Cells, point: usize, cell: usize) -> bool
    ensures { IsTrue result ↔ ((point < length cells.now) × (cell < length (cells_of cells.now point))) }
{
    point < cells.points() && cell < cells.of(point)
}

/// Splits the cell at a place where it has two or more speeds, and answers how many cells it split. A place behind the point `last` is passed
/// over. Or want of memory, and then nothing has changed.
fn split_place(
    cells: &mut Cells,
    point: usize,
    cell: usize,
    last: usize,
) -> Result<usize, AllocError>
    ensures come { IfOk result (λ made. ComeBySplits cells.old cells.new) }
    ensures count { IfOk result (λ made. cell_count cells.new ≡ cell_count cells.old + made) }
    ensures one { IfOk result (λ made. made ≤ 1) }
    ensures tried { IfOk result (λ made. IsTried last cells.old cells.new point cell made) }
    ensures behind { IfOk result (λ made. (k : ℕ) → last < k → cells_of cells.new k ≡ cells_of cells.old k) }
{
    if point > last || !has_cell(cells, point, cell) {
        return Ok(0);
    }
    if split_if_two(cells, point, cell)? {
        Ok(1)
    } else {
        Ok(0)
    }
}

/// Splits the cells at these places, one after the other, and at most so many. A place behind the point `last` is passed over, and one
/// where there is no cell of two or more speeds. Or want of memory, after some of the splits.
pub fn split_chosen(
    cells: &mut Cells,
    places: &[Place],
    last: usize,
    most: usize,
) -> Result<(), AllocError>
    ensures come { OnOk result (ComeBySplits cells.old cells.new) }
    ensures most { OnOk result (cell_count cells.new ≤ cell_count cells.old + most) }
    ensures behind { OnOk result ((k : ℕ) → last < k → cells_of cells.new k ≡ cells_of cells.old k) }
    ensures tried { OnOk result (AreTried places.now last most cells.old (length places.now) cells.new) }
{
    let mut left = most;
    for place in places {
        if left > 0 {
            left -= split_place(cells, place.point as usize, place.cell as usize, last)?;
        }
    }
    Ok(())
}
