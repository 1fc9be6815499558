//! Why an event is refused.

use std::alloc::AllocError;

/// Why an event of a session was refused. A refused event changes nothing.
#[derive(Clone, Copy, PartialEq, Eq, Debug)]
pub enum SessionFault {
    /// A number of the event, or its name, is out of range.
    OutOfRange,
    /// The place isn't below the last call's, the stretch isn't on the line, or no call stands at the place behind the train.
    Outside,
    /// The place lies behind the train.
    Behind,
    /// The clock is below the present one.
    ClockBack,
    /// The train would stand with a stop as its next point.
    StopsTooClose,
    /// A restriction of this name stands.
    NameTaken,
    /// No restriction of this name stands.
    NoSuchName,
    /// 64 restrictions stand, or 64 calls after the first have a latest time.
    TooMany,
    /// The memory ran out.
    NoMemory,
}

impl From<AllocError> for SessionFault {
    ghost use Rattle.std.specs.Prelude.{◌≡◌};
    ghost use Rattle.advice_session.specs.declared.fault.SessionFault.TheVariants.{NoMemory};

    ghost from_gives = { λ _ e. e ≡ NoMemory };

    fn from(_: AllocError) -> SessionFault {
        SessionFault::NoMemory
    }
}
