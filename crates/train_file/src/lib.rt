//! Train files, read exactly.
//!
//! A train file is a TOML text, which the crate `toml` reads. What its keys mean, which of them are needed and in which
//! order their values are refused is this crate's. `docs/FILES.md` has the form for a user.
#![tactic(auto)]

mod fault;
mod read;
mod train;
mod values;

pub use fault::{Key, TrainFault};
pub use read::read_train;
pub use train::Train;
