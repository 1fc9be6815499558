//! Events of a session, as a text says them, one a line. `docs/FILES.md` has the form of the text, line by line.
#![tactic(auto)]

mod counts;
mod event;
mod fault;
mod name;
mod read;

pub use event::Event;
pub use fault::EventFault;
pub use name::{Name, is_name};
pub use read::read_events;
