//! Why a text of events is refused.

use std::alloc::AllocError;

/// Why a text of events was refused. Lines are counted from 1, and the first line that is refused counts.
#[derive(Clone, Copy, PartialEq, Eq, Debug)]
pub enum EventFault {
    /// The line is not of its form: it is missing, is no event, or stands behind the end.
    Form(u32),
    /// The line is an event, and 1,000 events stand before it.
    TooManyEvents(u32),
    /// The line asks for advice, and 64 lines before it do.
    TooManyAdvises(u32),
    /// The memory ran out.
    NoMemory,
}

impl From<AllocError> for EventFault {
    ghost use Rattle.std.specs.Prelude.{◌≡◌};
    ghost use Rattle.event_file.specs.declared.fault.EventFault.TheVariants.{NoMemory};

    ghost from_gives = { λ _ e. e ≡ NoMemory };

    fn from(_: AllocError) -> EventFault {
        EventFault::NoMemory
    }
}
