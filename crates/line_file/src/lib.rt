//! Line files and service files, read exactly.
//!
//! Both are texts of comma-separated fields, which the crate `csv` splits into records. Everything else of their forms
//! is this crate's: one byte order mark at the start is dropped, blank records are passed over, the first record that
//! is left is the header, and the others are the rows, counted from 1. `docs/FILES.md` has both forms for a user.
#![tactic(auto)]

mod calls;
mod line;
mod names;
mod row_file;
mod rows;
mod sections;
mod service;

pub use calls::{Call, CallList};
pub use line::{Line, LineFault, read_line};
pub use names::{NameList, read_names};
pub use sections::{Section, SectionList};
pub use service::{Service, ServiceFault, read_service};
