//! The kinds of phases.

/// What a train does over a step. A step has the first of these that fits.
#[derive(Clone, Copy, PartialEq, Eq, Debug)]
pub enum Phase {
    /// It keeps its speed.
    Hold,
    /// It gains speed with as much traction as it has: one speed more is above its top or its traction.
    Power,
    /// It rolls without traction, and could not be faster at the end without it.
    Coast,
    /// It brakes.
    Brake,
    /// It does anything else.
    Part,
}
