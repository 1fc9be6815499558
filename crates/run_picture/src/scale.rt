//! What the axes of a picture show.

/// What the axes of a picture show.
#[derive(Clone, Copy)]
pub struct Scale {
    /// The place at the left, m.
    pub first: u64,
    /// From there to the place at the right, m.
    pub span: u64,
    /// From tick to tick of the axis of speeds, km/h.
    pub speed_step: u64,
    /// The speed at the top of the axis, km/h.
    pub speed_top: u64,
    /// From tick to tick of the axis of gradients, per mille.
    pub gradient_step: u64,
}
