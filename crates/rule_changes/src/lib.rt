//! Changes of a run's rules, made in place: their limits, the latest time of a point, and how far the train has come.
#![tactic(auto)]

mod advance;
mod fixed;
mod latest;
mod limits;

pub use advance::advance_to;
pub use fixed::joined_rules_are_fixed;
pub use latest::{room_for_latest, set_latest};
pub use limits::set_limits;
