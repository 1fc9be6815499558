//! Why a certificate is refused.

use drive_rules::Rule;
use std::alloc::AllocError;

/// A number of a certificate.
#[derive(Clone, Copy, PartialEq, Eq, Debug)]
pub enum Field {
    /// How many points there are.
    Points,
    /// How many prices there are.
    Prices,
    /// The energy.
    Energy,
    /// The bound.
    Bound,
}

/// The first condition of a certificate that fails.
#[derive(Clone, Copy, PartialEq, Eq, Debug)]
pub enum Refused {
    /// A count differs from that of the rules, the energy isn't what the drive costs, or the bound isn't the first potential less the priced
    /// slack of the timing points.
    Number(Field),
    /// The speeds are no drive that is on time: the first rule that they break, and where.
    Drive(Rule, u32),
    /// The cells of the point don't run from the least to the greatest speed that a drive has there.
    Cells(u32),
    /// The potential of a cell of the point is none, or above what a link and the potential behind it cost together: the point, the cell, and
    /// the cell of the next point. Of the last point: its potential isn't 0.
    Potential(u32, u32, u32),
    /// The memory ran out.
    NoMemory,
}

impl From<AllocError> for Refused {
    ghost use Rattle.std.specs.Prelude.{◌≡◌};
    ghost use Rattle.certificate_checker.specs.declared.refused.Refused.TheVariants.{NoMemory};

    ghost from_gives = { λ _ e. e ≡ NoMemory };

    fn from(_: AllocError) -> Refused {
        Refused::NoMemory
    }
}
