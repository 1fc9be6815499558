//! A plan for the rules of a run: a drive on time, a lower bound on what every drive on time costs, and whether the two are near
//! enough.
//!
//! The drive is the best of the family of composed drives, improved by boxes. The bound is the chain value of cells at prices of time:
//! the cells begin as one for each point and are split within a budget, and the prices are sought anew as the cells get finer. How it
//! works is told in docs/PLANNING.md.
#![tactic(auto)]

mod answer;
mod certificates;
mod finish;
mod goal;
mod planning;
mod refine;
mod start;
mod work;

pub use answer::{Answer, Options, Plan};
pub use certificates::certificate;
pub use planning::plan;
