//! Least chains of cells, by a table from the last point backwards.
ghost use Rattle.std.specs.Prelude.{◌≡◌, ℕ, pos, ◌+◌, ◌<◌, ◌≤◌, ◌++◌, min, length, replicate, Some, None, IfSome, IfOk, OnOk, slice_index};
ghost use Rattle.bound_specs.specs.Cells.{cells_of, IsCell};
ghost use Rattle.bound_specs.specs.Chains.{plus, values_of, value_at, IsSmall, ArePotentials, WeakDuality};
ghost use Rattle.potential_table.specs.Filling.{lesser, sum_found, value_in, value_from, AreCells, AreSmallFrom, IsSmallSum, IsLeastOf, AreStarts, IsFilled, AreLinked};
ghost use Rattle.potential_table.specs.Ways.{by_way, way_at, AreLeastByWays, IsUsable, AreUsable, StandsFor, AreGroups, IsLesserOf};

use crate::table::Potentials;
use crate::ways::{GROUP, Way, groups_of, read_ways};
use rail_base::{Cell, CellCost};
use speed_cells::Cells;
use std::alloc::{AllocError, Global};

/// For each cell of each point what the least chain from it to the last point costs, in 0.5 microjoule, or none where there is
/// no chain. Or want of memory.
///
/// So where speeds run through the cells from some cell on, and each of their steps can be driven, that cell has a value, and it
/// is at most what the steps cost together (weak duality).
pub fn potentials<K: CellCost>(
    alloc: Global,
    cells: &Cells,
    cost: &K,
) -> Result<Potentials, AllocError>
    requires points { length cells.now ≡ K.step_count cost.now + 1 }
    requires few { length cells.now ≤ 4001 }
    ensures least { IfOk result (λ potentials. ArePotentials (K.low_cost cost.now) cells.now potentials) }
    ensures duality { IfOk result (λ potentials. WeakDuality (K.real_cost cost.now) cells.now potentials) }
{
    cells.known();
    let mut starts = Vec::new(alloc);
    let mut values = Vec::new(alloc);
    lay_out(cells, &mut starts, &mut values)?;
    set_from(&mut values, starts[cost.steps()]);
    let table = filled(alloc, cells, cost, starts, values)?;
    Ok(table)
}

/// Appends a value that isn't there for each cell of each point, and where each point's values begin.
pub(crate) fn lay_out(
    cells: &Cells,
    starts: &mut Vec<usize>,
    values: &mut Vec<Option<i128>>,
) -> Result<(), AllocError>
    requires no_starts { length starts.old.items ≡ 0 }
    requires no_values { length values.old.items ≡ 0 }
    ensures starts { OnOk result (AreStarts starts.new.items cells.now) }
    ensures length { OnOk result (length values.new.items ≡ slice_index starts.new.items (length cells.now)) }
{
    starts.push(0)?;
    for k in 0..cells.points() {
        push_values(values, cells.of(k), None)?;
        starts.push(values.len())?;
    }
    Ok(())
}

/// Sets the values from a place on to 0.
fn set_from(values: &mut Vec<Option<i128>>, start: usize)
    ensures length { length values.new.items ≡ length values.old.items }
    ensures zero { (j : ℕ) → start ≤ j → j < length values.old.items → value_in values.new.items j ≡ Some (pos 0) }
{
    for j in start..values.len() {
        values[j] = Some(0);
    }
}

/// Appends one value so many times.
fn push_values(
    values: &mut Vec<Option<i128>>,
    count: usize,
    value: Option<i128>,
) -> Result<(), AllocError>
    ensures { OnOk result (values.new.items ≡ values.old.items ++ replicate count value) }
{
    for _ in 0..count {
        values.push(value)?;
    }
    Ok(())
}

/// The table with the values of the points before the cost's last one filled in. The values from that point on stay. Or want of memory.
pub(crate) fn filled<K: CellCost>(
    alloc: Global,
    cells: &Cells,
    cost: &K,
    starts: Vec<usize>,
    mut values: Vec<Option<i128>>,
) -> Result<Potentials, AllocError>
    requires inside { K.step_count cost.now + 1 ≤ length cells.now }
    requires few { length cells.now ≤ 4001 }
    requires starts { AreStarts starts.items cells.now }
    requires values { length values.items ≡ slice_index starts.items (length cells.now) }
    requires small { AreSmallFrom starts.items (length cells.now) values.items (K.step_count cost.now) }
    ensures points { IfOk result (λ table. length table ≡ length cells.now) }
    ensures counts { IfOk result (λ table. (k : ℕ) → k < length cells.now → length (values_of table k) ≡ length (cells_of cells.now k)) }
    ensures linked { IfOk result (λ table. AreLinked (K.low_cost cost.now) (K.step_count cost.now) cells.now table) }
    ensures kept { IfOk result (λ table. (k c : ℕ) → K.step_count cost.now ≤ k → k < length cells.now → c < length (cells_of cells.now k) → value_at table k c ≡ value_from values.items (slice_index starts.items k) c) }
{
    fill(alloc, cells, cost, starts.as_slice(), values.as_mut_slice())?;
    Ok(Potentials { values, starts })
}

/// Fills in the values of the points before the cost's last one, from there backwards. The values from that point on stay.
fn fill<K: CellCost>(
    alloc: Global,
    cells: &Cells,
    cost: &K,
    starts: &[usize],
    values: &mut [Option<i128>],
) -> Result<(), AllocError>
    requires inside { K.step_count cost.now + 1 ≤ length cells.now }
    requires few { length cells.now ≤ 4001 }
    requires starts { AreStarts starts.now cells.now }
    requires values { length values.old ≡ slice_index starts.now (length cells.now) }
    requires small { AreSmallFrom starts.now (length cells.now) values.old (K.step_count cost.now) }
    ensures filled { OnOk result (IsFilled (K.low_cost cost.now) cells.now starts.now values.new 0 (K.step_count cost.now)) }
    ensures small { OnOk result (AreSmallFrom starts.now (length cells.now) values.new 0) }
    ensures kept { OnOk result ((j : ℕ) → slice_index starts.now (K.step_count cost.now) ≤ j → value_in values.new j ≡ value_in values.old j) }
{
    cells.known();
    let mut here = Vec::new(alloc);
    let mut ways = Vec::new(alloc);
    read_cells(cells, cost.steps(), &mut here)?;
    read_ways(here.as_slice(), values, starts[cost.steps()], &mut ways)?;
    for i in (0..cost.steps()).rev() {
        read_cells(cells, i, &mut here)?;
        fill_point(
            alloc,
            cost,
            i,
            here.as_slice(),
            ways.as_slice(),
            values,
            starts[i],
        )?;
        read_ways(here.as_slice(), values, starts[i], &mut ways)?;
    }
    Ok(())
}

/// Reads the cells of a point.
fn read_cells(cells: &Cells, point: usize, list: &mut Vec<Cell>) -> Result<(), AllocError>
    requires { point < length cells.now }
    ensures value { OnOk result (list.new.items ≡ cells_of cells.now point) }
    ensures cells { OnOk result (AreCells list.new.items) }
{
    list.clear();
    for c in 0..cells.of(point) {
        list.push(cells.cell(point, c))?;
    }
    Ok(())
}

/// Fills in the values of a point's cells, which begin at a place of the list, by the ways on from the next point.
fn fill_point<K: CellCost>(
    alloc: Global,
    cost: &K,
    i: usize,
    left: &[Cell],
    ways: &[Way],
    values: &mut [Option<i128>],
    start: usize,
) -> Result<(), AllocError>
    requires step { i < K.step_count cost.now }
    requires sound { K.is_sound cost.now }
    requires left { AreCells left.now }
    requires ways { AreUsable ways.now }
    requires inside { start + length left.now ≤ length values.old }
    ensures filled { OnOk result (AreLeastByWays (K.low_cost cost.now) i left.now ways.now (value_from values.new start)) }
    ensures before { OnOk result ((j : ℕ) → j < start → value_in values.new j ≡ value_in values.old j) }
    ensures behind { OnOk result ((j : ℕ) → start + length left.now ≤ j → value_in values.new j ≡ value_in values.old j) }
{
    let groups = groups_of(alloc, ways)?;
    for a in 0..left.len() {
        values[start + a] = least_by_ways(cost, i, left[a], ways, groups.as_slice());
    }
    Ok(())
}

/// What the least chain from a cell costs, by the ways on from the next point.
///
/// A group of ways is passed over where the way that stands for it gives nothing less: a link to a larger cell costs no more than one to a
/// cell inside it. Groups of fast cells come first, since ways that lead to less are found there.
fn least_by_ways<K: CellCost>(
    cost: &K,
    i: usize,
    cell: Cell,
    ways: &[Way],
    groups: &[Way],
) -> Option<i128>
    requires step { i < K.step_count cost.now }
    requires sound { K.is_sound cost.now }
    requires cell { IsCell cell }
    requires ways { AreUsable ways.now }
    requires groups { AreGroups groups.now ways.now }
    ensures { IsLeastOf (by_way (K.low_cost cost.now) i cell ways.now) (length ways.now) result }
{
    let mut least = NO_SUM;
    for b in (0..groups.len()).rev() {
        least = least_with_group(cost, i, cell, groups[b], ways, b * GROUP, least);
    }
    sum_found(least)
}

/// The lesser of the least sum so far and the least by a group's ways, which begin at a place of the list.
///
/// The loop writes to no list, and the least sum is a plain number, so that what doesn't change from way to way can be kept at hand.
fn least_with_group<K: CellCost>(
    cost: &K,
    i: usize,
    cell: Cell,
    group: Way,
    ways: &[Way],
    start: usize,
    begun: i128,
) -> i128
    requires step { i < K.step_count cost.now }
    requires sound { K.is_sound cost.now }
    requires cell { IsCell cell }
    requires ways { AreUsable ways.now }
    requires start { start < length ways.now }
    requires group { IsUsable group }
    requires each { (j : ℕ) → start ≤ j → j < start + 8 → j < length ways.now → StandsFor group (way_at ways.now j) }
    requires begun { IfSome (sum_found begun) (λ p. (c : ℕ) × (c < length ways.now) × (by_way (K.low_cost cost.now) i cell ways.now c ≡ Some p)) }
    ensures { IsLesserOf (by_way (K.low_cost cost.now) i cell ways.now) (length ways.now) (sum_found begun) start (min (start + 8) (length ways.now)) (sum_found result) }
{
    if least_with(begun, cost.low(i, cell, group.cell), group.beyond) >= begun {
        return begun;
    }
    let mut least = begun;
    for j in start..(start + GROUP).min(ways.len()) {
        let way = ways[j];
        least = least_with(least, cost.low(i, cell, way.cell), way.beyond);
    }
    least
}

/// What stands for no sum in the search for the least: a number above every sum.
const NO_SUM: i128 = i128::MAX;

/// The lesser of the least sum so far and what a link and the chain beyond it cost together.
fn least_with(least: i128, low: Option<i128>, beyond: i128) -> i128
    requires low { IsSmall low }
    requires beyond { IsSmallSum (Some beyond) }
    ensures { sum_found result ≡ lesser (sum_found least) (plus low (Some beyond)) }
{
    match low {
        Some(low) => least.min(low + beyond),
        None => least,
    }
}

/// The sum that a number stands for, or none.
fn sum_found(least: i128) -> Option<i128>
    ensures { result ≡ sum_found least }
{
    if least >= NO_SUM { None } else { Some(least) }
}
