//! Prices of time: what each timing point of a run charges for a ms before it, and so what a ms of each step costs.
//!
//! A drive that pays the price of every ms pays at most what the prices charge for the time that the timetable leaves it, where it
//! is on time. So a priced sum of works and times, less that charge, is a bound (weak duality).
#![tactic(auto)]

mod prices;

pub use prices::Prices;
