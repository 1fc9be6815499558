//! The edge of the program: a shelf that files are fetched from, and a sink that bytes are put to.
//!
//! A shelf keeps a count of faults for each name, and a sink keeps one. A fault is answered only where its count rose
//! in that very call, so that whoever asks can see whose fault it was.
#![tactic(auto)]

mod counts;
mod failing_calls;
mod file_shelf;
mod memory_shelf;
mod memory_sink;
mod out_sink;
mod shelf;
mod sink;

pub use file_shelf::{FileShelf, read_front};
pub use memory_shelf::MemoryShelf;
pub use memory_sink::MemorySink;
pub use out_sink::OutSink;
pub use shelf::{FetchFault, Shelf};
pub use sink::{Failed, Sink, put_all};
