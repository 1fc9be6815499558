//! Which costs of work the bound is for, as the clause of a function that does nothing.
ghost use Rattle.std.specs.Prelude.{ℕ};
ghost use Rattle.rail_specs.specs.Cost.{regained_cost, traction_cost};
ghost use Rattle.costate_bound.specs.Costs.{CoversWork};

/// The cost of traction alone covers the work that a share of nothing gives back, and that of a train that regains a share covers that
/// share.
pub fn costs_cover_work()
    ensures traction { CoversWork 0 traction_cost }
    ensures regained { (share : ℕ) → CoversWork share (regained_cost share) }
{}
