//! The search for costates: an ascent that makes the bound by costates large. It promises nothing but that what it finds may be used; the
//! bound itself is computed by `costate_bound`.
#![tactic(auto)]

mod course;
mod picks;
mod ramp_rounds;
mod search;
mod step_rounds;

pub use search::search_costates;
