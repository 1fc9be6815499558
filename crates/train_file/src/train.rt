//! A train.
ghost use Rattle.std.specs.Prelude.{◌≡◌, IfOk};
ghost use Rattle.train_file.specs.Shape.{numbers_of};

use force_table::ForceTable;
use rail_specs::TrainNumbers;
use std::alloc::{AllocError, Global};

/// What a train is: its masses, its resistance A + B v + C v^2 (Davis), its length, what its brakes give back, and its greatest
/// forces by speed.
#[derive(Drop)]
pub struct Train {
    /// The version of its file, 1 or 2. In version 2 a train says what its brakes give back.
    pub version: u8,
    /// The mass, 1/10 tonne, 1 to 100,000.
    pub mass: u32,
    /// The mass with its rotating parts, 1/10 tonne, 1 to 120,000.
    pub inertia: u32,
    /// The constant part of the resistance, N, at most 10,000,000.
    pub a: u32,
    /// The part of the resistance that grows with speed, 1/1000 N per cm/s, at most 10,000,000.
    pub b: u32,
    /// The part that grows with the square of speed, 1/1,000,000 N per (cm/s)^2, at most 10,000,000.
    pub c: u32,
    /// The length, m, at most 1,000. Each limit holds until the train's tail has left the limit's section.
    pub length: u32,
    /// The share of its work that braking gives back, per mille, at most 1,000. In version 1 it is 0.
    pub regeneration: u16,
    /// The greatest traction force by speed, N.
    pub traction: ForceTable,
    /// The greatest brake force by speed, N. Its top is that of the traction.
    pub brake: ForceTable,
}

impl Train {
    /// What the work of its steps is computed from, beside their lengths and gradients. It takes no memory.
    pub fn numbers(&self) -> TrainNumbers
        ensures { result ≡ numbers_of self.now }
    {
        TrainNumbers {
            mass: self.mass,
            inertia: self.inertia,
            a: self.a,
            b: self.b,
            c: self.c,
        }
    }

    /// An equal train of its own, or want of memory.
    pub fn copy(&self, alloc: Global) -> Result<Train, AllocError>
        ensures { IfOk result (λ train. train ≡ self.now) }
    {
        Ok(Train {
            version: self.version,
            mass: self.mass,
            inertia: self.inertia,
            a: self.a,
            b: self.b,
            c: self.c,
            length: self.length,
            regeneration: self.regeneration,
            traction: self.traction.copy(alloc)?,
            brake: self.brake.copy(alloc)?,
        })
    }
}
