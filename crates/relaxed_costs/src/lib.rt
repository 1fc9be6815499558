//! Why chain values are what they are: relaxed costs.
//!
//! The relaxed cost of a drive is its cost and what the prices charge for its lateness. A drive that is on time is early everywhere, so
//! that its relaxed cost is at most its cost. The chain value of cells that fit the rules is at most the relaxed cost of each drive, and
//! where each cell has one speed it is the least of them: then nothing is lost to the width of cells.
#![tactic(auto)]

mod laws;

pub use laws::relaxed_costs_known;
