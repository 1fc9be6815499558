//! Links of one step: which cells of the next point a cell is linked to, found by halving, and what such a link costs.
//!
//! Work rises with the exit speed while the traction force never rises, so the cells that traction reaches are the first ones; and those
//! that the brakes hold are the last ones. A loop over links looks only at those between the two ends, without a test.
#![tactic(auto)]

mod step_links;

pub use step_links::{StepLinks, Window};
