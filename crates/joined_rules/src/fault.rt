//! Why there are no joined rules.
use std::alloc::AllocError;

/// Why a line, a train, a service and a setup give no rules.
#[derive(Clone, Copy, Debug, PartialEq, Eq)]
pub enum RulesFault {
    /// The place of this call isn't on the line. Calls are counted from 1, and the first such call counts.
    Outside(u32),
    /// There are more than 4,000 steps.
    TooManySteps,
    /// This call is a stop at the grid point next after another stop, or next after the start where the train stands there. Calls are
    /// counted from 1, and the first such call counts.
    StopsTooClose(u32),
    /// The drag over this step isn't below the kinetic energy. Steps are counted from 0, and the first such step counts.
    DragTooGreat(u32),
    /// The memory ran out.
    NoMemory,
}

impl From<AllocError> for RulesFault {
    ghost use Rattle.std.specs.Prelude.{◌≡◌};
    ghost use Rattle.joined_rules.specs.declared.fault.RulesFault.TheVariants.{NoMemory};

    ghost from_gives = { λ _ e. e ≡ NoMemory };

    fn from(_: AllocError) -> RulesFault {
        RulesFault::NoMemory
    }
}
