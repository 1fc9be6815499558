//! The exact ranges of speeds that the drives of a run have, and the greatest drives.
//!
//! A narrowing caps all speeds, and takes the traction from a run of steps. The drives under it are closed under pointwise
//! greatest and least, so where there is one, one is the greatest and one the least. `ranges` finds both, `greatest_under`
//! the greatest alone, and `greatest_from` the greatest from one that is known under a wider narrowing. All three are
//! exact: they find none only where there is none.
#![tactic(auto)]

mod bounds;
mod closure;
mod find_ranges;
mod greatest;
mod least;
mod narrowings;
mod settle;
mod speed_ranges;

pub use closure::{drives_close, faster_is_on_time, narrowings_nest};
pub use find_ranges::ranges;
pub use greatest::{greatest_drive, greatest_from, greatest_under};
pub use narrowings::{coasting, under_cap};
pub use rail_specs::Narrow;
pub use speed_ranges::Ranges;
