//! The drive of a run: the best of the family of composed drives, once a search and boxes have improved it.
#![tactic(auto)]

mod choice;

pub use choice::{Choice, Chosen, choose_drive};
