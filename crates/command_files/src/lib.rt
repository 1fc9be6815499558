//! The files that a command names, from their names to what they say: each is fetched, measured and read, in the order of the words.
//!
//! A kind of file has its role, its limit, its reader and the words of its faults (`FileRole`); a `File` is one of a kind and its name.
//! A list of files is a file and the files behind it, and reads all of them (`FileList`). What ends a run at a file is one of three
//! answers: the file can't be read, is too long, or is refused by its reader.
#![tactic(auto)]

mod answer;
mod list;
mod role;
mod stage;
pub mod status;

pub use answer::{Answer, read_fault, refusal};
pub use list::FileList;
pub use role::{File, FileRole};
pub use stage::{Stage, read_file};
