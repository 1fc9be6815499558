//! Samples: for each number a line, a train and a service, as texts of their files.
//!
//! The train and the service are always the same. The line has 40 sections of 1 km with a limit each, and as many with a gradient each, drawn
//! by a generator that begins with the number. The definitions of the texts stand in `specs/`.
#![tactic(auto)]

mod bytes;
mod draws;
mod texts;

pub use bytes::Bytes;
pub use texts::{SampleFiles, sample};
