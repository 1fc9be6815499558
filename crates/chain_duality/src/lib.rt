//! Weak duality of chains of cells: which values of cells bound what speeds through them cost.
//!
//! A table of least chains and a certificate from elsewhere both have such values. The laws stand as clauses of functions that do
//! nothing.
#![tactic(auto)]

mod laws;

pub use laws::{feasible_values_bound, potentials_are_feasible};
