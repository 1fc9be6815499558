//! The first steps of a cost of links.
ghost use Rattle.std.specs.Prelude.{◌≡◌, ◌≤◌};

use rail_base::{Cell, CellCost};
use std::marker::Model;

/// The first steps of a cost of links. It borrows the cost and takes no memory. Contracts see the cost and how many steps are meant.
#[derive(Drop)]
pub struct Front<'a, K: CellCost> {
    cost: &'a K,
    steps: usize,
}

impl<'a, K: CellCost> Model for Front<'a, K> {
    ghost use Rattle.std.specs.Prelude.{◌≤◌};
    ghost use Rattle.potential_table.specs.Fronts.{FrontSteps};

    ghost Value = { FrontSteps K };

    ghost view = { λ f. record { cost = f.cost.now; steps = f.steps } };

    ghost invariant = { λ f. K.is_sound f.cost.now × (f.steps ≤ K.step_count f.cost.now) };
}

impl<'a, K: CellCost> Front<'a, K> {
    /// The first steps of a cost, at most as many as it has.
    pub fn make(cost: &'a K, steps: usize) -> Front<'a, K>
        requires { steps ≤ K.step_count cost.now }
        ensures { result ≡ record { cost = cost.now; steps = steps } }
    {
        let _all = cost.steps();
        Front { cost, steps }
    }
}

impl<'a, K: CellCost> CellCost for Front<'a, K> {
    ghost use Rattle.std.specs.Prelude.{◌≤◌};
    ghost use Rattle.potential_table.specs.FrontLaws.{first_costs};

    ghost step_count = { λ f. f.steps };

    ghost real_cost = { λ f. K.real_cost f.cost };

    ghost low_cost = { λ f. K.low_cost f.cost };

    ghost is_sound = { λ f. K.is_sound f.cost × (f.steps ≤ K.step_count f.cost) };

    fn steps(&self) -> usize {
        self.steps
    }

    fn real(&self, i: usize, v0: u16, v1: u16) -> Option<i128> {
        self.cost.real(i, v0, v1)
    }

    fn low(&self, i: usize, a: Cell, b: Cell) -> Option<i128> {
        self.cost.low(i, a, b)
    }

    ghost keeps = { λ f h. first_costs f.steps (K.step_count f.cost) (K.real_cost f.cost) (K.low_cost f.cost) h.1 (K.keeps f.cost h.0) };
}
