//! When a bound is near enough.
ghost use Rattle.std.specs.Prelude.{◌≤◌, ◌^◌, ◌↔◌, IsTrue, IfSome};
ghost use Rattle.std.specs.Int.RustNames.{unsigned_abs};
ghost use Rattle.planner.specs.Works.{IsMet};

use rail_base::is_gap_met;

/// What the bound is sought for.
#[derive(Clone, Copy)]
pub(crate) struct Goal {
    /// What the drive costs, in 0.5 microjoule.
    pub(crate) energy: i128,
    /// The tolerance of the gap, per mille of the energy's size.
    pub(crate) tolerance: u32,
    /// How many cells may be split.
    pub(crate) splits: u32,
    pub(crate) ghost small: { unsigned_abs energy ≤ 2 ^ 100 },
    pub(crate) ghost low: { tolerance ≤ 1000 },
}

impl Goal {
    /// Whether the gap to a chain value is met. None, where there is no chain, stands above every number.
    pub(crate) fn is_met(&self, value: Option<i128>) -> bool
        requires { IfSome value (λ v. unsigned_abs v ≤ 2 ^ 99) }
        ensures { IsTrue result ↔ IsMet self.now.energy self.now.tolerance value }
    {
        match value {
            Some(bound) => is_gap_met(self.energy, bound, self.tolerance),
            None => true,
        }
    }
}
