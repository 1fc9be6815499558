//! The whole program `costate` but for its `main`: words in, a text and a status out.
#![tactic(auto)]

mod arguments;
mod certificates;
mod check;
mod command;
mod command_line;
mod offers;
mod plan;
mod program;
mod route;
mod rules;
mod usage;

pub use arguments::run_arguments;
pub use program::run;
pub use run_parts::Words;
