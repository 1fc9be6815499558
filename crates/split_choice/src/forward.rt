//! What the least chains from the start to each cell cost.
ghost use Rattle.std.specs.Prelude.{◌≡◌, ◌+◌, ◌≤◌, ◌<◌, length, IfOk, OnOk, All};
ghost use Rattle.bound_specs.specs.Cells.{cells_of, IsCell};

use rail_base::{Cell, CellCost};
use speed_cells::Cells;
use std::alloc::{AllocError, Global};

/// What stands for no chain: more than any chain costs.
pub(crate) const NO_CHAIN: i128 = i128::MAX;

/// For each cell, in the order of points and cells, what the least chain from the start to it costs, in 0.5 microjoule.
pub(crate) fn forward_values<K: CellCost>(
    alloc: Global,
    cells: &Cells,
    cost: &K,
) -> Result<Vec<i128>, AllocError>
    requires points { length cells.now ≡ K.step_count cost.now + 1 }
{
    let mut values = Vec::new(alloc);
    let mut left = cells_at(alloc, cells, 0)?;
    let mut here = vec![in alloc; 0i128; left.len()]?;
    for i in 0..cost.steps() {
        values.extend_from_slice(here.as_slice())?;
        let right = cells_at(alloc, cells, i + 1)?;
        here = next_values(
            alloc,
            cost,
            i,
            left.as_slice(),
            here.as_slice(),
            right.as_slice(),
        )?;
        left = right;
    }
    values.extend_from_slice(here.as_slice())?;
    Ok(values)
}

/// The cells of a point.
fn cells_at(alloc: Global, cells: &Cells, point: usize) -> Result<Vec<Cell>, AllocError>
    requires { point < length cells.now }
    ensures { IfOk result (λ list. All IsCell list.items) }
{
    let mut list = Vec::new(alloc);
    for c in 0..cells.of(point) {
        list.push(cells.cell(point, c))?;
    }
    Ok(list)
}

/// What the least chains to the cells of the next point cost, from those to the cells of this one.
fn next_values<K: CellCost>(
    alloc: Global,
    cost: &K,
    i: usize,
    left: &[Cell],
    values: &[i128],
    right: &[Cell],
) -> Result<Vec<i128>, AllocError>
    requires step { i < K.step_count cost.now }
    requires left { All IsCell left.now }
    requires right { All IsCell right.now }
{
    let mut next = Vec::new(alloc);
    for cell in right {
        next.push(least_to(cost, i, left, values, *cell))?;
    }
    Ok(next)
}

/// What the least chain to a cell of the next point costs.
fn least_to<K: CellCost>(cost: &K, i: usize, left: &[Cell], values: &[i128], to: Cell) -> i128
    requires step { i < K.step_count cost.now }
    requires left { All IsCell left.now }
    requires to { IsCell to }
{
    let mut least = NO_CHAIN;
    for (cell, value) in left.iter().zip(values.iter()) {
        if *value < NO_CHAIN {
            if let Some(low) = cost.low(i, *cell, to) {
                least = least.min(value.saturating_add(low));
            }
        }
    }
    least
}
