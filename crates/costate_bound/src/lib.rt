//! A bound of what every drive on time costs, by one costate for each step and one price for each timing point: a least value over one
//! speed for each point, and no cells. `docs/COSTATE.md` has the bound and its proof in words.
#![tactic(auto)]

mod bound;
mod charges;
mod laws;
mod relaxation;

pub use laws::costs_cover_work;
pub use relaxation::Relaxation;
