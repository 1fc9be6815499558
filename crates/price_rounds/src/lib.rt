//! Prices of all timing points for given cells, so that the bound which they give is great.
//!
//! The chain value of cells is concave in each price alone, and `potential_table::best_valued` finds the best price of one timing point.
//! Here the timing points are gone over in turn, again and again. No promise is made that the prices of several timing points are the best
//! together; what holds is that no prices of one timing point alone, and no other price of the last one, give more (`find_prices`).
#![tactic(auto)]

mod rounds;

pub use rounds::{find_prices, improve_prices};
