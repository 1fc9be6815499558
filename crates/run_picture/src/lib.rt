//! The picture of a drive, as a text of scalable vector graphics: speed over distance.
#![tactic(auto)]

mod axes;
mod calls;
mod curve;
mod drawing;
mod fixed;
mod labels;
mod pen;
mod positions;
mod scale;
mod scaling;
mod stairs;
mod ticks;

pub use drawing::picture;
