//! The ways on from a point's cells.
ghost use Rattle.std.specs.Prelude.{◌≡◌, ℕ, ◌+◌, ◌<◌, ◌≤◌, length, IfOk, OnOk};
ghost use Rattle.potential_table.specs.Ways.{AreWays, ways_with, way_at, IsUsable, AreUsable, StandsFor, AreGroups};
ghost use Rattle.potential_table.specs.Filling.{value_from};

use rail_base::Cell;
use std::alloc::{AllocError, Global};

/// A way on: a cell from which there is a chain to the last point, and what the least such chain costs, in 0.5 microjoule.
#[derive(Clone, Copy)]
pub(crate) struct Way {
    pub(crate) cell: Cell,
    pub(crate) beyond: i128,
}

/// Lists the ways on from cells, whose values begin at a place of the list of values.
pub(crate) fn read_ways(
    cells: &[Cell],
    values: &[Option<i128>],
    start: usize,
    ways: &mut Vec<Way>,
) -> Result<(), AllocError>
    requires { start + length cells.now ≤ length values.now }
    ensures { OnOk result (AreWays ways.new.items cells.now (value_from values.now start) (length cells.now)) }
{
    ways.clear();
    for c in 0..cells.len() {
        push_way(ways, cells[c], values[start + c])?;
    }
    Ok(())
}

/// Lists one more way, where there is a value.
fn push_way(ways: &mut Vec<Way>, cell: Cell, value: Option<i128>) -> Result<(), AllocError>
    ensures { OnOk result (ways.new.items ≡ ways_with ways.old.items cell value) }
{
    if let Some(beyond) = value {
        ways.push(Way { cell, beyond })?;
    }
    Ok(())
}

/// How many ways stand together in a group.
pub(crate) const GROUP: usize = 8;

/// Groups of ways: for each eight of them, and for the rest, one way that stands for them.
pub(crate) fn groups_of(alloc: Global, ways: &[Way]) -> Result<Vec<Way>, AllocError>
    requires { AreUsable ways.now }
    ensures { IfOk result (λ groups. AreGroups groups.items ways.now) }
{
    let mut groups = Vec::new(alloc);
    for b in 0..ways.len().div_ceil(GROUP) {
        groups.push(group_of(ways, b * GROUP))?;
    }
    Ok(groups)
}

/// The way that stands for those of a group, which begin at a place of the list.
fn group_of(ways: &[Way], start: usize) -> Way
    requires ways { AreUsable ways.now }
    requires start { start < length ways.now }
    ensures usable { IsUsable result }
    ensures each { (j : ℕ) → start ≤ j → j < start + 8 → j < length ways.now → StandsFor result (way_at ways.now j) }
{
    let mut group = ways[start];
    for j in start..(start + GROUP).min(ways.len()) {
        group = joined(group, ways[j]);
    }
    group
}

/// A way that stands for both of two: its cell reaches from the least to the greatest of their speeds, and it costs the lesser of what they
/// cost.
fn joined(a: Way, b: Way) -> Way
    requires first { IsUsable a }
    requires second { IsUsable b }
    ensures usable { IsUsable result }
    ensures first { StandsFor result a }
    ensures second { StandsFor result b }
{
    let cell = Cell {
        first: a.cell.first.min(b.cell.first),
        last: a.cell.last.max(b.cell.last),
    };
    Way {
        cell,
        beyond: a.beyond.min(b.beyond),
    }
}
