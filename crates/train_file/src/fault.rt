//! Why a text is no train file.

use std::alloc::AllocError;

/// The keys of a train file that are read, in the order in which their values are refused.
#[derive(Clone, Copy, Debug, PartialEq, Eq)]
pub enum Key {
    /// `version`: the integer 1 or 2; 1 where it is left out.
    Version,
    /// `mass`: an integer, 1/10 tonne.
    Mass,
    /// `inertia`: the mass with the rotating parts, an integer, 1/10 tonne.
    Inertia,
    /// `a`: the constant part of the resistance, an integer, N.
    A,
    /// `b`: the part that grows with speed, an integer, 1/1000 N per cm/s.
    B,
    /// `c`: the part that grows with the square of speed, an integer, 1/1,000,000 N per (cm/s)^2.
    C,
    /// `length`: an integer, m; 0 where it is left out.
    Length,
    /// `regeneration`: the share of its work that braking gives back, an integer, per mille. It is read in version 2 alone.
    Regeneration,
    /// `traction`: rows of speed in cm/s and force in N.
    Traction,
    /// `brake`: rows of speed in cm/s and force in N.
    Brake,
}

/// Why a text is no train file. The first refusal in the order of the keys counts, and for one key the first in the
/// order below. Rows of a table are counted from 1.
#[derive(Clone, Copy, Debug, PartialEq, Eq)]
pub enum TrainFault {
    /// The bytes are not UTF-8, or not TOML.
    Text,
    /// The key is needed, and the text doesn't have it.
    Missing(Key),
    /// The key's value is of another kind than an integer, or for a table than an array of arrays of two integers.
    WrongKind(Key),
    /// A number of the key's value is outside its range.
    OutOfRange(Key),
    /// The table has no row, or its first speed is not 0.
    TableStart(Key),
    /// The row's speed is not above that of the row before it.
    TableOrder(Key, u32),
    /// The row's force is above that of the row before it.
    TableRises(Key, u32),
    /// The two tables end at different speeds.
    TopsDiffer,
    /// The memory ran out.
    NoMemory,
}

impl From<AllocError> for TrainFault {
    ghost use Rattle.std.specs.Prelude.{◌≡◌};
    ghost use Rattle.train_file.specs.declared.fault.TrainFault.TheVariants.{NoMemory};

    ghost from_gives = { λ _ fault. fault ≡ NoMemory };

    fn from(_error: AllocError) -> TrainFault {
        TrainFault::NoMemory
    }
}
