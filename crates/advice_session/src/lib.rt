//! Sessions: a train under way, with the rules that its data give at each moment.
//!
//! A session keeps a line, a train and a service, where the train is, and the restrictions that stand. Events change these data, or are
//! refused and change nothing (`specs/Faults.antt`, `specs/Folds.antt`). The rules of the data are kept with them, and changed in place: no
//! row of a step is made anew but the one that the train's place cuts.
#![tactic(auto)]

mod apply;
mod at;
mod fault;
mod latest;
mod points;
mod restrictions;
mod session;

pub use event_file::{Event, Name};
pub use fault::SessionFault;
pub use session::Session;
