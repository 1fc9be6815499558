//! Why a certificate's text is refused.

use std::alloc::AllocError;

/// Why the text of a certificate was refused. Lines are counted from 1, and the first line that is refused counts.
#[derive(Clone, Copy, PartialEq, Eq, Debug)]
pub enum CertFault {
    /// The text has more than 8,388,608 bytes.
    TooLong,
    /// The line is not of its form: it is missing or has no end, says something else than a line at its place does, or spells a number
    /// otherwise than shortest.
    Form(u32),
    /// The line is of its form, and a number, count or order on it is out of range.
    Range(u32),
    /// The memory ran out.
    NoMemory,
}

impl From<AllocError> for CertFault {
    ghost use Rattle.std.specs.Prelude.{◌≡◌};
    ghost use Rattle.dual_certificate.specs.declared.fault.CertFault.TheVariants.{NoMemory};

    ghost from_gives = { λ _ e. e ≡ NoMemory };

    fn from(_: AllocError) -> CertFault {
        CertFault::NoMemory
    }
}
