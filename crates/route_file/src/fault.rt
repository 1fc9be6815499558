//! Why a route is refused.

use std::alloc::AllocError;

/// Why the text of a route was refused. Lines are counted from 1, and the first line that is refused counts.
#[derive(Clone, Copy, PartialEq, Eq, Debug)]
pub enum RouteFault {
    /// The line is not of its form: it is missing, or says something else than a line at its place does.
    Form(u32),
    /// The line is of its form, and what it says is out of range.
    Range(u32),
    /// There are more than 4,000 steps.
    TooManySteps,
    /// The memory ran out.
    NoMemory,
}

impl From<AllocError> for RouteFault {
    ghost use Rattle.std.specs.Prelude.{◌≡◌};
    ghost use Rattle.route_file.specs.declared.fault.RouteFault.TheVariants.{NoMemory};

    ghost from_gives = { λ _ e. e ≡ NoMemory };

    fn from(_: AllocError) -> RouteFault {
        RouteFault::NoMemory
    }
}
