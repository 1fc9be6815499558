//! The cells of all points of a run.
ghost use Rattle.std.specs.Prelude.{◌≡◌, ℕ, ◌+◌, ◌<◌, ◌≤◌, ◌↔◌, ◌^◌, length, map, slice_index, slice_set, All, IfOk, OnOk, OnErr, IfSome, IfNone, IsTrue};
ghost use Rattle.bound_specs.specs.Cells.{cells_of, cell_at, whole_cell, split_cells, cell_count, AreAdjacent, AreSingle, IsCell, HasSpeed, SomeHasSpeed};

use bound_specs::Cell;
use std::alloc::{AllocError, Global};
use std::marker::Model;

/// The cells of all points, in one list, in the order of points and speeds.
///
/// Contracts see a list of cells for each point.
#[derive(Drop)]
pub struct Cells {
    /// The first speed of each cell.
    firsts: Vec<u16>,
    /// Where the cells of each point begin in that list, and at its end where they all end.
    starts: Vec<usize>,
    /// The last speed of each point.
    lasts: Vec<u16>,
}

impl Model for Cells {
    ghost use Rattle.std.specs.Prelude.{List};
    ghost use Rattle.bound_specs.specs.declared.Cell.{Cell};
    ghost use Rattle.speed_cells.specs.Layout.{cells_in, IsLayout};

    ghost Value = { List (List Cell) };

    ghost view = { λ c. cells_in c.starts.items c.firsts.items c.lasts.items };

    ghost invariant = { λ c. IsLayout c.starts.items c.firsts.items c.lasts.items };
}

impl Cells {
    /// One cell for each point, from the least to the greatest of a pair of speeds in cm/s. Or want of memory.
    pub fn whole(alloc: Global, pairs: &[(u16, u16)]) -> Result<Cells, AllocError>
        requires some { 1 ≤ length pairs.now }
        requires ordered { All (λ p. (p.0 ≤ p.1) × (p.1 ≤ 12000)) pairs.now }
        ensures { IfOk result (λ cells. cells ≡ map whole_cell pairs.now) }
    {
        let mut firsts = Vec::new(alloc);
        let mut starts = Vec::new(alloc);
        let mut lasts = Vec::new(alloc);
        starts.push(0)?;
        for (first, last) in pairs {
            firsts.push(*first)?;
            lasts.push(*last)?;
            starts.push(firsts.len())?;
        }
        Ok(Cells {
            firsts,
            starts,
            lasts,
        })
    }

    /// How many points there are. It takes no memory.
    pub fn points(&self) -> usize
        ensures { result ≡ length self.now }
    {
        self.lasts.len()
    }

    /// How many cells a point has. It takes no memory.
    pub fn of(&self, point: usize) -> usize
        requires { point < length self.now }
        ensures value { result ≡ length (cells_of self.now point) }
        ensures some { 1 ≤ result }
    {
        self.starts[point + 1] - self.starts[point]
    }

    /// A cell of a point. It takes no memory.
    pub fn cell(&self, point: usize, cell: usize) -> Cell
        requires point { point < length self.now }
        requires cell { cell < length (cells_of self.now point) }
        ensures value { result ≡ cell_at self.now point cell }
        ensures in_range { IsCell result }
    {
        let at = self.starts[point] + cell;
        let last = if at + 1 < self.starts[point + 1] {
            self.firsts[at + 1] - 1
        } else {
            self.lasts[point]
        };
        Cell {
            first: self.firsts[at],
            last,
        }
    }

    /// How many cells there are at all points. It takes no memory.
    pub fn count(&self) -> usize
        ensures { result ≡ cell_count self.now }
    {
        self.firsts.len()
    }

    /// Splits a cell of two or more speeds: its middle speed is the last of the lower half. Or want of memory, and then nothing has
    /// changed. It moves the cells and the starts behind the split one.
    pub fn split(&mut self, point: usize, cell: usize) -> Result<(), AllocError>
        requires point { point < length self.old }
        requires cell { cell < length (cells_of self.old point) }
        requires two { (cell_at self.old point cell).first < (cell_at self.old point cell).last }
        ensures split { OnOk result (self.new ≡ slice_set self.old point (split_cells (cells_of self.old point) cell)) }
        ensures one_more { OnOk result (cell_count self.new ≡ cell_count self.old + 1) }
        ensures refused { OnErr result (self.new ≡ self.old) }
    {
        let whole = self.cell(point, cell);
        let middle = (whole.first + whole.last) / 2;
        let at = self.starts[point] + cell;
        self.firsts.insert(at + 1, middle + 1)?;
        raise(&mut self.starts, point + 1);
        Ok(())
    }

    /// What holds of all cells: there is a point, and each point has a cell, and its cells lie side by side.
    pub fn known(&self)
        ensures some { 1 ≤ length self.now }
        ensures adjacent { (k : ℕ) → k < length self.now → AreAdjacent (cells_of self.now k) }
    {
        let _ = &self.firsts;
    }

    /// Whether each cell of a point has one speed.
    fn is_single(&self, point: usize) -> bool
        requires { point < length self.now }
        ensures { IsTrue result ↔ All (λ a. a.first ≡ a.last) (cells_of self.now point) }
    {
        for c in 0..self.of(point) {
            let cell = self.cell(point, c);
            if cell.first != cell.last {
                return false;
            }
        }
        true
    }

    /// Whether each cell has one speed. It takes no memory.
    pub fn all_single(&self) -> bool
        ensures { IsTrue result ↔ AreSingle self.now }
    {
        for point in 0..self.points() {
            if !self.is_single(point) {
                return false;
            }
        }
        true
    }

    /// The cell of a point that has a speed in cm/s, or none where no cell of the point has it. It takes no memory.
    pub fn cell_of(&self, point: usize, v: u16) -> Option<usize>
        requires { point < length self.now }
        ensures there { IfSome result (λ c. (c < length (cells_of self.now point)) × HasSpeed (cell_at self.now point c) v) }
        ensures nowhere { IfNone result (SomeHasSpeed (cells_of self.now point) v → ⊥) }
    {
        for c in 0..self.of(point) {
            let cell = self.cell(point, c);
            if cell.first <= v && v <= cell.last {
                return Some(c);
            }
        }
        None
    }
}

/// Raises each start by one, from an index on.
fn raise(starts: &mut Vec<usize>, from: usize)
    requires { All (λ s. s < 2 ^ 63) starts.old.items }
    ensures length { length starts.new.items ≡ length starts.old.items }
    ensures below { (k : ℕ) → k < from → slice_index starts.new.items k ≡ slice_index starts.old.items k }
    ensures above { (k : ℕ) → from ≤ k → k < length starts.old.items → slice_index starts.new.items k ≡ slice_index starts.old.items k + 1 }
{
    for k in from..starts.len() {
        starts[k] += 1;
    }
}
