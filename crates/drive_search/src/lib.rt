//! The search for a drive near the least energy.
//!
//! A price of time for each step turns the problem into a shortest chain over speeds, which a pass over windows of speeds finds near any
//! drive. The prices of all timing points are moved at once, and then prices and drives are halved together. Nothing that the search finds
//! is trusted: each drive is judged, and taken only where it is on time and costs less.
#![tactic(auto)]

mod balance;
mod halving;
mod levels;
mod pooling;
mod run_course;
mod search;
mod taking;

pub use taking::search_drive;
