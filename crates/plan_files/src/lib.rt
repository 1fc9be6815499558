//! The kinds of files from which rules come: a line, a train, a service and a route; the words of their faults; and the rules that a line,
//! a train and a service give together.
//!
//! A program over these files takes a list of them (`command_files::FileList`), and what comes of it: what the files say, or the answer
//! that ends its run.
#![tactic(auto)]

mod fault_words;
mod kinds;
mod rules;

pub use kinds::{LineFile, RouteFile, ServiceFile, TrainFile};
pub use rules::{fresh_rules, rules_refusal};
