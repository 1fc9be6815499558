//! What a run of the program `sheet` does, from the words of its command line to one text and a status: it reads a line, a train, a service
//! and a report, judges the report's drive, and shows it as a timetable, as a list of points or as a picture.
//!
//! The definitions stand in `specs/`: what the words ask for (`Words`), what a report claims and why a claim is refused (`Claims`), what is
//! shown (`Shown`), and what a run may write (`Outcome`).
#![tactic(auto)]

mod arguments;
mod claims;
mod command;
mod command_line;
mod named_service;
mod program;
mod sheet;
mod shown;
mod usage;

pub use arguments::run_arguments;
pub use claims::Claim;
pub use command_line::Form;
pub use named_service::NamedService;
pub use program::run;
