//! Potentials found anew up to a point, where those behind it stay.
ghost use Rattle.std.specs.Prelude.{◌≡◌, ℕ, ◌+◌, ◌<◌, ◌≤◌, ℤ, List, Option, length, slice_index, OnOk, OnErr};
ghost use Rattle.bound_specs.specs.declared.Cell.{Cell};
ghost use Rattle.bound_specs.specs.Cells.{cells_of, cell_at};
ghost use Rattle.bound_specs.specs.Chains.{values_of, value_at, ArePotentials};
ghost use Rattle.potential_table.specs.Filling.{value_in, value_from, AreStarts, AreSmallFrom};
ghost use Rattle.bound_specs.specs.Renewal.{IsLeastTo, SameFrom, SameSteps, ArePotentialsFrom};

use crate::least::{filled, lay_out};
use crate::table::Potentials;
use rail_base::CellCost;
use speed_cells::Cells;
use std::alloc::AllocError;

impl Potentials {
    /// Finds the values of the points before point k anew, where k is the number of steps that `front` has: for each cell the least
    /// over lists of cells to a cell of point k that has a value, of what the links cost and that value together. The values from
    /// point k on stay. Or want of memory, and then nothing has changed.
    ///
    /// So where the values from point k on are the potentials of these cells under a cost whose first steps `front` has, all values
    /// are. `front` has no step from point k on, so none of those is looked at.
    pub fn renew<K: CellCost>(&mut self, cells: &Cells, front: &K) -> Result<(), AllocError>
        requires some { 1 ≤ K.step_count front.now }
        requires inside { K.step_count front.now + 1 ≤ length cells.now }
        requires points { length self.old ≡ length cells.now }
        requires widths { (j : ℕ) → K.step_count front.now ≤ j → j < length cells.now → length (values_of self.old j) ≡ length (cells_of cells.now j) }
        ensures points { OnOk result (length self.new ≡ length cells.now) }
        ensures counts { OnOk result ((j : ℕ) → j < length cells.now → length (values_of self.new j) ≡ length (cells_of cells.now j)) }
        ensures behind { OnOk result ((j : ℕ) → K.step_count front.now ≤ j → j < length cells.now → values_of self.new j ≡ values_of self.old j) }
        ensures before { OnOk result ((i c : ℕ) → i < K.step_count front.now → c < length (cells_of cells.now i) → IsLeastTo (K.low_cost front.now) (K.step_count front.now) cells.now self.old i (cell_at cells.now i c) (value_at self.new i c)) }
        ensures potentials { OnOk result ((low : ℕ → Cell → Cell → Option ℤ) → SameSteps (K.step_count front.now) (K.low_cost front.now) low → ArePotentialsFrom low (K.step_count front.now) cells.now self.old → ArePotentials low cells.now self.new) }
        ensures again { OnOk result ((low : ℕ → Cell → Cell → Option ℤ) (before : List (List Cell)) → SameSteps (K.step_count front.now) (K.low_cost front.now) low → SameFrom (K.step_count front.now) before cells.now → ArePotentials low before self.old → ArePotentials low cells.now self.new) }
        ensures refused { OnErr result (self.new ≡ self.old) }
    {
        cells.known();
        let alloc = *self.values.allocator();
        let mut starts = Vec::new(alloc);
        let mut values = Vec::new(alloc);
        lay_out(cells, &mut starts, &mut values)?;
        self.copy_from(cells, front.steps(), &starts, &mut values);
        *self = filled(alloc, cells, front, starts, values)?;
        Ok(())
    }

    /// Copies the values from a point on into a list where the values of these cells stand.
    fn copy_from(
        &self,
        cells: &Cells,
        point: usize,
        starts: &Vec<usize>,
        values: &mut Vec<Option<i128>>,
    )
        requires point { point < length cells.now }
        requires points { length self.now ≡ length cells.now }
        requires widths { (j : ℕ) → point ≤ j → j < length cells.now → length (values_of self.now j) ≡ length (cells_of cells.now j) }
        requires starts { AreStarts starts.now.items cells.now }
        requires room { length values.old.items ≡ slice_index starts.now.items (length cells.now) }
        ensures length { length values.new.items ≡ length values.old.items }
        ensures copied { (k c : ℕ) → point ≤ k → k < length cells.now → c < length (cells_of cells.now k) → value_from values.new.items (slice_index starts.now.items k) c ≡ value_at self.now k c }
        ensures small { AreSmallFrom starts.now.items (length cells.now) values.new.items point }
    {
        copy_values(&self.values, self.starts[point], values, starts[point]);
    }
}

/// Copies the values from a place on to the end of another list, from a place there on.
fn copy_values(old: &Vec<Option<i128>>, from: usize, values: &mut Vec<Option<i128>>, start: usize)
    requires { start + length old.now.items ≡ from + length values.old.items }
    ensures length { length values.new.items ≡ length values.old.items }
    ensures copied { (j : ℕ) → from + j < length old.now.items → value_in values.new.items (start + j) ≡ value_in old.now.items (from + j) }
{
    for j in from..old.len() {
        values[start + (j - from)] = old[j];
    }
}
