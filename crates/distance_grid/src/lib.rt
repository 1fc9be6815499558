//! The places between which a train's speed changes at a constant net force.
#![tactic(auto)]

mod fault;
mod grid;

pub use fault::GridFault;
pub use grid::Grid;
