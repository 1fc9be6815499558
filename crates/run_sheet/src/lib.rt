//! The plain texts of a run sheet: a judged drive as people look at it.
//!
//! `timetable` has a line for each call and the figures of the whole drive, `points` a line of comma-separated fields for each point. The
//! definitions of both texts stand in `specs/`.
#![tactic(auto)]

mod call_table;
mod calls;
mod figures;
mod phases;
mod point_table;

pub use call_table::timetable;
pub use point_table::points;
