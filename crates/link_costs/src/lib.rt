//! What links between cells of a run's points cost, with their times priced, and the bound that values of cells give under these costs.
//! A table of least chains and a checker of certificates both stand on it.
#![tactic(auto)]

mod laws;
mod links;
mod priced;
mod slack;
mod sums;
mod timing_prices;

pub use laws::feasible_values_give_a_bound;
pub use priced::Priced;
pub use slack::slack_charge;
pub use sums::{difference, sum};
pub use timing_prices::prices_for;
