//! Cells: the speeds at each point of a run, parted into adjacent intervals that can be split.
#![tactic(auto)]

mod cells;
mod laws;

pub use bound_specs::Cell;
pub use cells::Cells;
pub use laws::{fitting_cells_cover, splitting_keeps_speeds, whole_cells_fit};
