//! Tests of cells, prices, potentials and certificates, and of the search for a drive.
#![tactic(auto)]

#[cfg(test)]
mod cell_tests;
#[cfg(test)]
mod certificate_text_tests;
#[cfg(test)]
mod checker_tests;
#[cfg(test)]
mod costate_checker_tests;
#[cfg(test)]
mod costate_search_tests;
#[cfg(test)]
mod drive_search_tests;
#[cfg(test)]
mod multiplier_tests;
#[cfg(test)]
mod potential_tests;
#[cfg(test)]
mod price_round_tests;
#[cfg(test)]
mod routes;
#[cfg(test)]
mod slope_tests;
#[cfg(test)]
mod split_choice_tests;
#[cfg(test)]
mod splitting_tests;
