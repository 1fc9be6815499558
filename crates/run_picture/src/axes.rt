//! The axes of a picture.

use crate::scale::Scale;
use std::marker::Model;

/// The axes of a picture. Contracts see them as their scale, each number of which is within a range.
#[derive(Drop)]
pub struct Axes {
    scale: Scale,
}

impl Model for Axes {
    ghost use Rattle.run_picture.specs.declared.scale.Scale.{Scale};

    ghost Value = { Scale };

    ghost use Rattle.run_picture.specs.Scale.{IsScale};

    ghost view = { λ a. a.scale };

    ghost invariant = { λ a. IsScale a.scale };
}

impl Axes {
    ghost use Rattle.std.specs.Prelude.{◌≡◌, ◌≤◌};
    ghost use Rattle.run_picture.specs.Scale.{IsScale};

    /// The axes of this scale.
    pub fn new(scale: Scale) -> Axes
        requires { IsScale scale }
        ensures { result ≡ scale }
    {
        Axes { scale }
    }

    /// The place at the left, m.
    pub fn first(&self) -> u64
        ensures value { result ≡ self.now.first }
        ensures far { result ≤ 4000000 }
    {
        self.scale.first
    }

    /// From there to the place at the right, m.
    pub fn span(&self) -> u64
        ensures value { result ≡ self.now.span }
        ensures some { 1 ≤ result }
        ensures far { result ≤ 4000000 }
    {
        self.scale.span
    }

    /// From tick to tick of the axis of speeds, km/h.
    pub fn speed_step(&self) -> u64
        ensures value { result ≡ self.now.speed_step }
        ensures some { 1 ≤ result }
        ensures small { result ≤ 1000000 }
    {
        self.scale.speed_step
    }

    /// The speed at the top of the axis, km/h.
    pub fn speed_top(&self) -> u64
        ensures value { result ≡ self.now.speed_top }
        ensures some { 1 ≤ result }
        ensures small { result ≤ 2000000 }
    {
        self.scale.speed_top
    }

    /// From tick to tick of the axis of gradients, per mille.
    pub fn gradient_step(&self) -> u64
        ensures value { result ≡ self.now.gradient_step }
        ensures some { 1 ≤ result }
        ensures small { result ≤ 1000000 }
    {
        self.scale.gradient_step
    }
}
