//! What the steps of a run cost between speeds, and at least between cells of speeds.
ghost use Rattle.std.specs.Prelude.{◌≡◌, ℕ, ℤ, ◌<◌, ◌≤◌, Option};
ghost use Rattle.bound_specs.specs.declared.Cell.{Cell as CellData};
ghost use Rattle.bound_specs.specs.Cells.{IsCell};
ghost use Rattle.bound_specs.specs.Chains.{AreCellCosts};

use bound_specs::Cell;

/// The costs of the steps of a run, in 0.5 microjoule: of a step from one speed to another, and the low cost of a link, which
/// is at most what a step costs from any speed of one cell to any speed of the next point's cell.
///
/// Whatever keeps the laws, least chains of low costs bound what any list of speeds costs (weak duality).
pub trait CellCost {
    /// How many steps there are.
    ghost step_count: { Self → ℕ };

    /// What step i costs from v0 to v1, or none where it can't be driven.
    ghost real_cost: { Self → ℕ → ℕ → ℕ → Option ℤ };

    /// What a link over step i costs at least, or none where none of its steps can be driven.
    ghost low_cost: { Self → ℕ → CellData → CellData → Option ℤ };

    /// What holds of every value of the type.
    ghost is_sound: { Self → Type 0 };

    /// How many steps there are. It takes no memory.
    fn steps(&self) -> usize
        ensures value { result ≡ step_count self.now }
        ensures sound { is_sound self.now };

    /// What step i costs from speed v0 to speed v1, in cm/s, or none where it can't be driven. It takes no memory.
    fn real(&self, i: usize, v0: u16, v1: u16) -> Option<i128>
        requires step { i < step_count self.now }
        requires entry { v0 ≤ 12000 }
        requires exit { v1 ≤ 12000 }
        ensures { result ≡ real_cost self.now i v0 v1 };

    /// What a link over step i costs at least, from cell a of its first point to cell b of its last, or none where no step of it
    /// can be driven. It takes no memory.
    fn low(&self, i: usize, a: Cell, b: Cell) -> Option<i128>
        requires step { i < step_count self.now }
        requires entry { IsCell a }
        requires exit { IsCell b }
        ensures { result ≡ low_cost self.now i a b };

    /// A link costs at most what each of its steps costs, just that between cells of one speed, and no more than a link inside
    /// it; every cost is within 2^86.
    ghost keeps: { (s : Self) → is_sound s → AreCellCosts (step_count s) (real_cost s) (low_cost s) };
}
