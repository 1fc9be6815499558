//! Tests of the whole program `sheet`, over files and a stream in memory.
#![tactic(auto)]

#[cfg(test)]
mod runs;
#[cfg(test)]
mod sheet_tests;
