//! The cheapest drives near a drive, where time has a price.
//!
//! `Course` is a run as plain numbers. `settle` finds the cheapest speeds in windows round given ones, again and again until nothing is
//! gained. `spend` lowers stretches of a drive where time is left, and `hurry` raises them where it is late.
//!
//! Nothing is promised of what is found: whoever uses it judges it. So sums and products here wrap, and each index is cut to its list.
#![tactic(auto)]

mod chains;
mod course;
mod desk;
mod links;
mod nudges;
mod settling;
mod window;

pub use course::{Course, Goal, Scale, StepShape};
pub use desk::Desk;
pub use nudges::{Nudge, nudge_drive};
pub use settling::settle;
pub use window::Look;
