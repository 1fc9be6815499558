//! How the cells of a run are split: all of them evenly, those that somebody chose, and any, until a budget is spent.
//!
//! Each split takes a cell of two or more speeds at its middle. So cells that fit the rules still fit them, and each new cell lies inside
//! one of the cells from before (`splits_known`).
#![tactic(auto)]

mod chosen;
mod even;
mod laws;
mod rest;

pub use chosen::{Place, split_chosen};
pub use even::split_evenly;
pub use laws::splits_known;
pub use rest::split_rest;
