//! The values of the cells of all points.
ghost use Rattle.std.specs.Prelude.{◌≡◌, ℕ, ◌^◌, ◌<◌, ◌≤◌, length, IfSome};
ghost use Rattle.std.specs.Int.RustNames.{unsigned_abs};
ghost use Rattle.bound_specs.specs.Chains.{values_of, value_at};

use std::marker::Model;

/// For each cell of each point, what the least chain from it to the last point costs, in 0.5 microjoule; none where there is no
/// chain.
///
/// Contracts see a list for each point, with a value for each of its cells.
#[derive(Drop)]
pub struct Potentials {
    /// The values, in the order of points and cells.
    pub(crate) values: Vec<Option<i128>>,
    /// Where the values of each point begin in that list, and at its end where they all end.
    pub(crate) starts: Vec<usize>,
}

impl Model for Potentials {
    ghost use Rattle.std.specs.Prelude.{List, Option, ℤ};
    ghost use Rattle.potential_table.specs.Layout.{values_in, IsLayout};

    ghost Value = { List (List (Option ℤ)) };

    ghost view = { λ p. values_in p.starts.items p.values.items };

    ghost invariant = { λ p. IsLayout p.starts.items p.values.items };
}

impl Potentials {
    /// The value of a cell. It takes no memory.
    pub fn of(&self, point: usize, cell: usize) -> Option<i128>
        requires point { point < length self.now }
        requires cell { cell < length (values_of self.now point) }
        ensures value { result ≡ value_at self.now point cell }
        ensures small { IfSome result (λ p. unsigned_abs p ≤ 2 ^ 98) }
    {
        self.values[self.starts[point] + cell]
    }

    /// How many values there are at a point: after `potentials` and `renew` as many as the point has cells. It takes no memory.
    pub fn width(&self, point: usize) -> usize
        requires { point < length self.now }
        ensures { result ≡ length (values_of self.now point) }
    {
        self.starts[point + 1] - self.starts[point]
    }
}
