//! The whole program but for its `main`: words in, a text and a status out.
#![tactic(auto)]

mod arguments;
mod check;
mod command;
mod command_line;
mod events_file;
mod plan;
mod program;
mod route;
mod rules;
mod sample;
mod session;
mod usage;

pub use arguments::run_arguments;
pub use program::run;
pub use run_parts::Words;
