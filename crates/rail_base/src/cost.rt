//! What work costs.
ghost use Rattle.std.specs.Prelude.{◌≡◌, ℕ, ◌≤◌, ◌^◌, ℤ, pos, negsuc, ◌≤ℤ◌, neg_ℤ};
ghost use Rattle.std.specs.Int.{int_max};
ghost use Rattle.std.specs.Int.RustNames.{unsigned_abs};
ghost use Rattle.rail_specs.specs.Cost.{Grows, StaysWithin, given_back, regained_cost, traction_cost};

/// A cost of a step's work, in 0.5 microjoule.
pub trait StepCost {
    /// The cost of work.
    ghost cost: { Self → ℤ → ℤ };

    /// The cost of this work. It takes no memory.
    fn of(&self, work: i128) -> i128
        requires { unsigned_abs work ≤ 2 ^ 100 }
        ensures { result ≡ cost self.now work };

    /// More work costs no less.
    ghost grows: { (s : Self) → Grows (cost s) };

    /// Work costs no more than it is, in absolute value.
    ghost within: { (s : Self) → StaysWithin (cost s) };
}

/// The cost of a train that gets nothing back from braking: the work where it is positive, and else nothing.
#[derive(Clone, Copy)]
pub struct Traction;

impl StepCost for Traction {
    ghost use Rattle.rail_specs.specs.Cost.{traction_cost};
    ghost use Rattle.rail_base.specs.Cost.{Grows-traction_cost, StaysWithin-traction_cost};

    ghost cost = { λ _. traction_cost };

    ghost grows = { λ _. Grows-traction_cost };

    ghost within = { λ _. StaysWithin-traction_cost };

    fn of(&self, work: i128) -> i128 {
        work.max(0)
    }
}

/// The cost of a train whose brakes give back a share of their work: the work where it is positive, and else minus that share of
/// its size, rounded down.
#[derive(Clone, Copy)]
pub struct Regained {
    /// The share, per mille. A share above 1,000 counts as 1,000.
    pub share: u16,
}

impl Regained {
    /// The cost of a train that gets nothing back: that of traction alone. It takes no memory.
    pub fn nothing() -> Regained
        ensures share { result.share ≡ 0 }
        ensures traction { (work : ℤ) → regained_cost result.share work ≡ traction_cost work }
    {
        Regained { share: 0 }
    }
}

/// A size below which its product with a share fits 64 bits.
const SHORT: u128 = 1 << 53;

/// What braking gives back of work of this size. Most trains give nothing back, and most sizes are short.
fn given_back(share: u16, size: u128) -> i128
    requires { size ≤ 2 ^ 100 }
    ensures { result ≡ pos (given_back share size) }
{
    if share == 0 {
        return 0;
    }
    let share = share.min(1000) as u64;
    if size < SHORT {
        return (share * (size as u64) / 1000) as i128;
    }
    (share as u128 * size / 1000) as i128
}

impl StepCost for Regained {
    ghost use Rattle.rail_specs.specs.Cost.{regained_cost};
    ghost use Rattle.rail_base.specs.Cost.{Grows-regained_cost, StaysWithin-regained_cost};

    ghost cost = { λ s. regained_cost s.share };

    ghost grows = { λ s. Grows-regained_cost s.share };

    ghost within = { λ s. StaysWithin-regained_cost s.share };

    fn of(&self, work: i128) -> i128 {
        if work >= 0 {
            work
        } else {
            -given_back(self.share, work.unsigned_abs())
        }
    }
}
