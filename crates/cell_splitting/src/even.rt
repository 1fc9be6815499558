//! Even cells.
ghost use Rattle.std.specs.Prelude.{◌≡◌, ◌≤◌, ◌<◌, ◌+◌, ℕ, OnOk, length, map, slice_set};
ghost use Rattle.bound_specs.specs.Cells.{cells_of, cell_count};
ghost use Rattle.cell_splitting.specs.Splits.{ComeBySplits};
ghost use Rattle.cell_splitting.specs.Even.{halved, AreEven};

use crate::chosen::split_if_two;
use speed_cells::Cells;
use std::alloc::AllocError;

/// How often cells are halved at most: then each of them has one speed.
const MOST_HALVINGS: usize = 14;

/// Halves all cells of two or more speeds, again and again, as long as that takes at most half of a budget of splits: from one cell for each
/// point to the even cells for this budget. Or want of memory, after some of the splits.
pub fn split_evenly(cells: &mut Cells, budget: u32) -> Result<(), AllocError>
    requires whole { cell_count cells.old ≡ length cells.old }
    requires few { length cells.old ≤ 4001 }
    ensures even { OnOk result ((times : ℕ) × AreEven cells.old budget cells.new times) }
    ensures come { OnOk result (ComeBySplits cells.old cells.new) }
{
    let limit = cells.points() + (budget / 2) as usize;
    for _ in 0..MOST_HALVINGS {
        if count_splittable(cells) > limit - cells.count() {
            return Ok(());
        }
        halve_all(cells)?;
    }
    Ok(())
}

/// How many cells have two or more speeds: so many more cells there are once all are halved.
fn count_splittable(cells: &Cells) -> usize
    ensures { result + cell_count cells.now ≡ cell_count (map halved cells.now) }
{
    let all = cells.count();
    let mut single = all;
    for point in 0..cells.points() {
        single -= count_of_point(cells, point);
    }
    all - single
}

/// How many cells of a point have two or more speeds.
fn count_of_point(cells: &Cells, point: usize) -> usize
    requires { point < length cells.now }
    ensures value { result + length (cells_of cells.now point) ≡ length (halved (cells_of cells.now point)) }
    ensures few { result ≤ length (cells_of cells.now point) }
{
    let mut count = 0;
    for cell in 0..cells.of(point) {
        let speeds = cells.cell(point, cell);
        if speeds.first < speeds.last {
            count += 1;
        }
    }
    count
}

/// Halves each cell of two or more speeds.
fn halve_all(cells: &mut Cells) -> Result<(), AllocError>
    ensures value { OnOk result (cells.new ≡ map halved cells.old) }
    ensures come { OnOk result (ComeBySplits cells.old cells.new) }
{
    for point in 0..cells.points() {
        halve_point(cells, point)?;
    }
    Ok(())
}

/// Halves each cell of two or more speeds of a point, the last one first, so that the places of those before it stay.
fn halve_point(cells: &mut Cells, point: usize) -> Result<(), AllocError>
    requires { point < length cells.old }
    ensures value { OnOk result (cells.new ≡ slice_set cells.old point (halved (cells_of cells.old point))) }
    ensures come { OnOk result (ComeBySplits cells.old cells.new) }
{
    for cell in (0..cells.of(point)).rev() {
        let _two = split_if_two(cells, point, cell)?;
    }
    Ok(())
}
