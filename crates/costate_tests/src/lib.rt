//! Tests of the whole program `costate`, over files and a stream in memory.
#![tactic(auto)]

#[cfg(test)]
mod check_tests;
#[cfg(test)]
mod plan_tests;
#[cfg(test)]
mod runs;
