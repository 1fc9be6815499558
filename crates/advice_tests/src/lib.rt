//! Tests of the whole program, over files and a stream in memory.
#![tactic(auto)]

#[cfg(test)]
mod check_tests;
#[cfg(test)]
mod offering;
#[cfg(test)]
mod plan_tests;
#[cfg(test)]
mod route_tests;
#[cfg(test)]
mod runs;
#[cfg(test)]
mod sample_tests;
#[cfg(test)]
mod session_tests;
