//! Potentials of costs that a line of numbers gives: the least of two cells, a cost below 0, and no chain.
ghost use Rattle.std.specs.Prelude.{◌≡◌, ℕ, ◌<◌, ◌≤◌, length};
ghost use Rattle.bound_specs.specs.Cells.{cells_of};
ghost use Rattle.bound_specs.specs.Chains.{values_of};
ghost use Rattle.bound_tests.specs.Slopes.{slope as cost_of};

use potential_table::{Front, Potentials, potentials};
use rail_base::{Cell, CellCost};
use speed_cells::Cells;

/// Steps that cost 20, what they end with, and less 3 times what they begin with. A step from 0 to 0 can't be driven.
#[derive(Drop)]
struct Slopes {
    steps: usize,
}

/// What such a step costs from a cell with this last speed to a cell of these speeds.
fn slope(last: u16, right: Cell) -> Option<i128>
    requires last { last ≤ 12000 }
    requires right { right.first ≤ 12000 }
    ensures { result ≡ cost_of last right }
{
    if last == 0 && right.last == 0 {
        None
    } else {
        Some(20 + right.first as i128 - 3 * last as i128)
    }
}

impl CellCost for Slopes {
    ghost use Rattle.std.specs.Prelude.{⊤};
    ghost use Rattle.bound_tests.specs.Slopes.{slope as cost_of, slopes_keep};
    ghost use Rattle.bound_specs.specs.Cells.{single};

    ghost step_count = { λ s. s.steps };

    ghost real_cost = { λ s i v w. cost_of v (single w) };

    ghost low_cost = { λ s i a b. cost_of a.last b };

    ghost is_sound = { λ s. ⊤ };

    fn steps(&self) -> usize {
        self.steps
    }

    fn real(&self, _i: usize, v0: u16, v1: u16) -> Option<i128> {
        slope(
            v0,
            Cell {
                first: v1,
                last: v1,
            },
        )
    }

    fn low(&self, _i: usize, a: Cell, b: Cell) -> Option<i128> {
        slope(a.last, b)
    }

    ghost keeps = { λ s h. slopes_keep s.steps };
}

/// Whether the values of all cells, in their order, are those that are wanted.
fn has_values(found: &Potentials, cells: &Cells, wanted: &[Option<i128>]) -> bool
    requires points { length found.now ≡ length cells.now }
    requires counts { (k : ℕ) → k < length cells.now → length (values_of found.now k) ≡ length (cells_of cells.now k) }
{
    let mut n = 0;
    for k in 0..cells.points() {
        for c in 0..cells.of(k) {
            if n >= wanted.len() || wanted[n] != found.of(k, c) {
                return false;
            }
            n += 1;
        }
    }
    n == wanted.len()
}

#[test]
fn least_chains(rt: HostRuntime) {
    let Ok(mut cells) = Cells::whole(rt.alloc(), &[(0, 0), (1, 10), (0, 0)]) else {
        panic!(rt; "the cells of three points cannot be made");
    };
    let cost = Slopes { steps: 2 };
    match potentials(rt.alloc(), &cells, &cost) {
        Ok(found) => assert!(rt; has_values(&found, &cells, &[Some(11), Some(-10), Some(0)])),
        Err(_) => panic!(rt; "no memory for the potentials"),
    }
    assert!(rt; cells.split(1, 0).is_ok());
    match potentials(rt.alloc(), &cells, &cost) {
        Ok(found) => assert!(rt;
            has_values(&found, &cells, &[Some(16), Some(5), Some(-10), Some(0)])
        ),
        Err(_) => panic!(rt; "no memory for the potentials"),
    }
}

#[test]
fn no_chain(rt: HostRuntime) {
    let Ok(cells) = Cells::whole(rt.alloc(), &[(5, 5), (0, 0), (0, 0)]) else {
        panic!(rt; "the cells of three points cannot be made");
    };
    match potentials(rt.alloc(), &cells, &Slopes { steps: 2 }) {
        Ok(found) => assert!(rt; has_values(&found, &cells, &[None, None, Some(0)])),
        Err(_) => panic!(rt; "no memory for the potentials"),
    }
}
