//! Tests of what a planner stands on: numbers, files and streams, the files of a run, the rules that they give, and the speeds that these allow.
#![tactic(auto)]

#[cfg(test)]
mod event_tests;
#[cfg(test)]
mod file_shelf_tests;
#[cfg(test)]
mod force_table_tests;
#[cfg(test)]
mod grid_tests;
#[cfg(test)]
mod item_list_tests;
#[cfg(test)]
mod joined_rules_tests;
#[cfg(test)]
mod judge_tests;
#[cfg(test)]
mod line_tests;
#[cfg(test)]
mod memory_shelf_tests;
#[cfg(test)]
mod memory_sink_tests;
#[cfg(test)]
mod number_tests;
#[cfg(test)]
mod out_sink_tests;
#[cfg(test)]
mod route_tests;
#[cfg(test)]
mod rule_change_tests;
#[cfg(test)]
mod sample_tests;
#[cfg(test)]
mod service_tests;
#[cfg(test)]
mod session_tests;
#[cfg(test)]
mod small_rules;
#[cfg(test)]
mod speed_range_tests;
#[cfg(test)]
mod step_energy_tests;
#[cfg(test)]
mod step_time_tests;
#[cfg(test)]
mod train_tests;
