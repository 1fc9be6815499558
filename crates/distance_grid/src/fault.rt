//! Why there is no grid.
use std::alloc::AllocError;

/// Why there is no grid.
#[derive(Clone, Copy, PartialEq, Eq, Debug)]
pub enum GridFault {
    /// The start isn't below the end.
    BadSpan,
    /// There are more than 4,000 steps.
    TooManySteps,
    /// There was no memory for the places.
    NoMemory,
}

impl From<AllocError> for GridFault {
    ghost use Rattle.std.specs.Prelude.{◌≡◌};
    ghost use Rattle.distance_grid.specs.declared.fault.GridFault.TheVariants.{NoMemory};

    ghost from_gives = { λ _ e. e ≡ NoMemory };

    fn from(_: AllocError) -> GridFault {
        GridFault::NoMemory
    }
}
