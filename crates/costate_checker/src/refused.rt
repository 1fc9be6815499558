//! Why a costate certificate is refused.

use drive_rules::Rule;
use std::alloc::AllocError;

/// A number of a costate certificate.
#[derive(Clone, Copy, PartialEq, Eq, Debug)]
pub enum Field {
    /// How many points there are.
    Points,
    /// How many prices there are.
    Prices,
    /// The energy.
    Energy,
    /// The bound.
    Bound,
}

/// The first condition of a costate certificate that fails.
#[derive(Clone, Copy, PartialEq, Eq, Debug)]
pub enum Refused {
    /// A count differs from that of the rules, the energy isn't what the drive costs, or the bound isn't the one that the prices, costates and
    /// speeds give.
    Number(Field),
    /// The speeds are no drive that is on time: the first rule that they break, and where.
    Drive(Rule, u32),
    /// The memory ran out.
    NoMemory,
}

impl From<AllocError> for Refused {
    ghost use Rattle.std.specs.Prelude.{◌≡◌};
    ghost use Rattle.costate_checker.specs.declared.refused.Refused.TheVariants.{NoMemory};

    ghost from_gives = { λ _ e. e ≡ NoMemory };

    fn from(_: AllocError) -> Refused {
        Refused::NoMemory
    }
}
