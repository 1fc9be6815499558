//! The choice of cells to split.
ghost use Rattle.std.specs.Prelude.{◌≡◌, ◌+◌, ◌≤◌, ◌<◌, ℕ, length, IfOk, OnOk, All};
ghost use Rattle.bound_specs.specs.Cells.{cells_of};
ghost use Rattle.bound_specs.specs.Chains.{values_of};

use crate::forward::{NO_CHAIN, forward_values};
use cell_splitting::Place;
use potential_table::Potentials;
use rail_base::CellCost;
use speed_cells::Cells;
use std::alloc::{AllocError, Global};

/// Cells to be split.
#[derive(Drop)]
pub struct Choice {
    /// Their places, from the last point to the first, and at each point from the last cell to the first.
    pub places: Vec<Place>,
    /// The greatest point among them, at most the point before the last one.
    pub last: usize,
}

/// How many times the work that a cell lets a chain gain for nothing is held against the cell's reduced cost.
const WEIGHT_OF_GAIN: i128 = 2;

/// A round splits one cell in so many of those that are there.
const SHARE_OF_CELLS: usize = 4;

/// How much it is worth to split a cell: the less the better.
#[derive(Clone, Copy)]
struct Rank {
    /// The reduced cost, less what the cell lets a chain gain for nothing.
    key: i128,
    point: u32,
    cell: u32,
}

/// What ranks are measured by, in 0.5 microjoule.
#[derive(Clone, Copy)]
struct Scale {
    /// What the least chain of all costs.
    least: i128,
    /// The energy of the train's motion at 1 cm/s.
    motion: i128,
}

impl Scale {
    /// What a cell of two or more speeds lets a chain gain for nothing: the energy of motion between its least and its greatest speed.
    fn gain(&self, first: u16, last: u16) -> i128
        requires { first < last }
    {
        let sum = last as u64 + first as u64;
        let squares = sum.saturating_mul((last - first) as u64);
        self.motion.saturating_mul(squares as i128)
    }
}

/// The cells to split next, at most so many and about a quarter of those that are there, from the potentials of the cells under a cost.
/// The train's motion at 1 cm/s has the energy `motion`, in 0.5 microjoule. Or want of memory.
pub fn choose<K: CellCost>(
    alloc: Global,
    cells: &Cells,
    cost: &K,
    potentials: &Potentials,
    motion: i128,
    most: usize,
) -> Result<Choice, AllocError>
    requires points { length cells.now ≡ K.step_count cost.now + 1 }
    requires few { length cells.now ≤ 4001 }
    requires two { 2 ≤ length cells.now }
    requires same { length potentials.now ≡ length cells.now }
    requires widths { (k : ℕ) → k < length cells.now → length (values_of potentials.now k) ≡ length (cells_of cells.now k) }
    ensures { IfOk result (λ choice. choice.last + 2 ≤ length cells.now) }
{
    let forward = forward_values(alloc, cells, cost)?;
    cells.known();
    let least = potentials.of(0, 0).unwrap_or(0);
    let scale = Scale { least, motion };
    let ranks = rank_all(alloc, cells, potentials, scale, forward.as_slice())?;
    let wanted = most.min(cells.count() / SHARE_OF_CELLS + 1);
    let limit = key_of(alloc, ranks.as_slice(), wanted)?;
    let mut places = Vec::new(alloc);
    let mut last = 0;
    for rank in ranks.iter() {
        let point = rank.point as usize;
        if rank.key <= limit && places.len() < wanted && point + 2 <= cells.points() {
            last = point.max(last);
            places.push(Place {
                point: rank.point,
                cell: rank.cell,
            })?;
        }
    }
    Ok(Choice { places, last })
}

/// The ranks of all cells of two or more speeds through which there is a chain, from the last to the first.
fn rank_all(
    alloc: Global,
    cells: &Cells,
    potentials: &Potentials,
    scale: Scale,
    forward: &[i128],
) -> Result<Vec<Rank>, AllocError>
    requires few { length cells.now ≤ 4001 }
    requires same { length potentials.now ≡ length cells.now }
    requires widths { (k : ℕ) → k < length cells.now → length (values_of potentials.now k) ≡ length (cells_of cells.now k) }
{
    cells.known();
    let mut ranks = Vec::new(alloc);
    let mut at = forward.len();
    for point in (0..cells.points()).rev() {
        for cell in (0..cells.of(point)).rev() {
            if at > 0 {
                at -= 1;
            }
            push_rank(
                &mut ranks, cells, potentials, scale, forward, at, point, cell,
            )?;
        }
    }
    Ok(ranks)
}

/// Adds the rank of a cell, where it can be split and a chain goes through it.
fn push_rank(
    ranks: &mut Vec<Rank>,
    cells: &Cells,
    potentials: &Potentials,
    scale: Scale,
    forward: &[i128],
    at: usize,
    point: usize,
    cell: usize,
) -> Result<(), AllocError>
    requires few { length cells.now ≤ 4001 }
    requires same { length potentials.now ≡ length cells.now }
    requires widths { (k : ℕ) → k < length cells.now → length (values_of potentials.now k) ≡ length (cells_of cells.now k) }
    requires point { point < length cells.now }
    requires cell { cell < length (cells_of cells.now point) }
{
    let speeds = cells.cell(point, cell);
    let (Some(beyond), Some(before)) = (potentials.of(point, cell), forward.get(at)) else {
        return Ok(());
    };
    if speeds.first < speeds.last && *before < NO_CHAIN && cell < 60_000 {
        let reduced = before.saturating_add(beyond).saturating_sub(scale.least);
        let gain = scale.gain(speeds.first, speeds.last);
        ranks.push(Rank {
            key: reduced.saturating_sub(gain.saturating_mul(WEIGHT_OF_GAIN)),
            point: point as u32,
            cell: cell as u32,
        })?;
    }
    Ok(())
}

/// The key of the cell of this number, from 1, in the order of keys; the greatest where there are fewer.
fn key_of(alloc: Global, ranks: &[Rank], number: usize) -> Result<i128, AllocError> {
    let mut keys = Vec::new(alloc);
    for rank in ranks {
        keys.push(rank.key)?;
    }
    keys.sort()?;
    Ok(match keys.get(number.saturating_sub(1)) {
        Some(key) => *key,
        None => NO_CHAIN,
    })
}
