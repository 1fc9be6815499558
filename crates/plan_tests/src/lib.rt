//! Tests of plans: of their prices, their splits, and what they take of boxes.
#![tactic(auto)]

#[cfg(test)]
mod hostile_tests;
#[cfg(test)]
mod listed;
#[cfg(test)]
mod plans;
#[cfg(test)]
mod price_tests;
#[cfg(test)]
mod routes;
#[cfg(test)]
mod split_tests;
