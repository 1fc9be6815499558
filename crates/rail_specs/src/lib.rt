//! The definitions that every crate stands on: what a step, a force table, the rules of a run, a drive, its times, its cost and a
//! bound are, and the places of a grid.
//!
//! The definitions stand in `specs/` and are listed in words in `docs/DEFINITIONS.md`. This file has the plain
//! data that they speak of.
#![tactic(auto)]

ghost use Rattle.std.specs.Prelude.{◌≡◌};
ghost use Rattle.rail_specs.specs.Ranges.{no_narrowing};
ghost use Rattle.rail_specs.specs.Step.{step_of_train};

/// What the work of a train's steps is computed from, beside their lengths and gradients: its masses and its resistance
/// A + B v + C v^2 (Davis).
#[derive(Clone, Copy)]
pub struct TrainNumbers {
    /// The mass, 1/10 tonne, 1 to 100,000.
    pub mass: u32,
    /// The mass with its rotating parts, 1/10 tonne, 1 to 120,000.
    pub inertia: u32,
    /// The constant part of the resistance, N, at most 10,000,000.
    pub a: u32,
    /// The part that grows with speed, 1/1000 N per cm/s, at most 10,000,000.
    pub b: u32,
    /// The part that grows with the square of speed, 1/1,000,000 N per (cm/s)^2, at most 10,000,000.
    pub c: u32,
}

impl TrainNumbers {
    /// The numbers of the train's step of this length, m, and gradient, 1/10 per mille.
    pub fn step(self, metres: u16, gradient: i16) -> StepNumbers
        ensures { result ≡ step_of_train self metres gradient }
    {
        StepNumbers {
            mass: self.mass,
            inertia: self.inertia,
            a: self.a,
            b: self.b,
            c: self.c,
            metres,
            gradient,
        }
    }
}

/// What the work of one step is computed from.
#[derive(Clone, Copy)]
pub struct StepNumbers {
    /// The train's mass, 1/10 tonne, 1 to 100,000.
    pub mass: u32,
    /// The train's mass with its rotating parts, 1/10 tonne, 1 to 120,000.
    pub inertia: u32,
    /// The constant part of the resistance, N, at most 10,000,000.
    pub a: u32,
    /// The part of the resistance that grows with speed, 1/1000 N per cm/s, at most 10,000,000.
    pub b: u32,
    /// The part that grows with the square of speed, 1/1,000,000 N per (cm/s)^2, at most 10,000,000.
    pub c: u32,
    /// The length of the step, m, 1 to 1,000.
    pub metres: u16,
    /// The gradient, 1/10 per mille, uphill positive, -1,000 to 1,000.
    pub gradient: i16,
}

/// A point with a latest time.
#[derive(Clone, Copy)]
pub struct Timing {
    /// The point, counted from 0.
    pub point: u32,
    /// The latest time of arrival, ms from the start of the drive.
    pub latest: i64,
}

/// What drives are narrowed to: a cap on all speeds, and a run of steps without traction.
#[derive(Clone, Copy)]
pub struct Narrow {
    /// The greatest speed, cm/s, at most 12,000.
    pub cap: u16,
    /// The first step without traction.
    pub idle_from: u32,
    /// The step after the last one without traction.
    pub idle_to: u32,
}

impl Narrow {
    /// Cap 12,000 and no step without traction: every drive keeps it.
    pub fn none() -> Narrow
        ensures { result ≡ no_narrowing }
    {
        Narrow {
            cap: 12_000,
            idle_from: 0,
            idle_to: 0,
        }
    }
}
